//! Channels: events that hand each satisfaction to one link.
#![tactic(auto)]

ghost use Rattle.std.specs.Prelude.{◌≡◌, ◌↔◌, ◌≤◌, ℕ, ◌&&◌, not, List, [], ◌∷◌, IfOk, OnErr, IsTrue};
ghost use Rattle.ocr_guid.specs.declared.target.Target.{Target};
ghost use Rattle.ocr_guid.specs.Target.{is_unwanted, is_welcome, on_destroy};
ghost use Rattle.ocr_channel_event.specs.Channel.{state_of, is_full, refusal, after_satisfy, on_satisfy, after_link, on_link, after_destroy, RefusalLaw, SatisfyLaw, LinkLaw, DestroyLaw, DestroyedLaw, MatchLaw, RoomLaw};

use ocr_guid::target::{Linked, Satisfied, Target};
use ocr_guid::{Code, Guid, NoMemory, Seq};
use std::alloc::Global;
use std::collections::VecDeque;
use std::marker::Model;

/// How many satisfactions a channel keeps at most.
pub const MOST_GENERATIONS: u32 = 1024;

/// An event that sends the payload of its k-th satisfaction to the target of its k-th link, as soon
/// as both are there.
#[derive(Drop)]
pub struct Channel {
    max_gen: u32,
    takes_arg: bool,
    destroyed: bool,
    /// The payloads that wait for a link, the oldest first.
    payloads: VecDeque<Guid>,
    /// The targets that wait for a satisfaction, the oldest first.
    targets: VecDeque<Target>,
}

impl Model for Channel {
    ghost use Rattle.ocr_channel_event.specs.Channel.{State};

    ghost Value = { State };

    ghost view = { λ c. record {
      max_gen = c.max_gen;
      takes_arg = c.takes_arg;
      destroyed = c.destroyed;
      payloads = c.payloads.items;
      targets = c.targets.items;
    } };
}

impl Channel {
    /// A new channel, which keeps up to `max_gen` satisfactions for links to come, and carries a
    /// block where it takes an argument.
    pub fn new(alloc: Global, max_gen: u32, takes_arg: bool) -> Channel
        requires least { 1 ≤ max_gen }
        requires most { max_gen ≤ MOST_GENERATIONS }

        ensures { result ≡ state_of max_gen takes_arg [] }
    {
        Channel {
            max_gen,
            takes_arg,
            destroyed: false,
            payloads: VecDeque::new(alloc),
            targets: VecDeque::new(alloc),
        }
    }

    /// Satisfies the channel: the payload goes to the oldest target that waits, or is kept where
    /// none does.
    /// A destroyed channel is Stale, a block on a channel that takes none is Einval, and a channel
    /// that keeps as many payloads as it may is Ebusy, in this order.
    pub fn satisfy(&mut self, alloc: Global, payload: Guid) -> Result<Satisfied, NoMemory>
        ensures answer { IfOk result (λ r. r ≡ on_satisfy self.old payload) }
        ensures state { IfOk result (λ _. self.new ≡ after_satisfy self.old payload) }
        ensures err { OnErr result (self.new ≡ self.old) }

        ensures stale { IfOk result (λ r. (r ≡ Satisfied.Refused Code.Stale)
            ↔ IsTrue self.old.destroyed) }
        ensures einval { IfOk result (λ r. (r ≡ Satisfied.Refused Code.Einval)
            ↔ IsTrue (not self.old.destroyed && is_unwanted self.old.takes_arg payload)) }
        ensures ebusy { IfOk result (λ r. (r ≡ Satisfied.Refused Code.Ebusy)
            ↔ IsTrue (is_welcome self.old.destroyed self.old.takes_arg payload
            && is_full self.old)) }
        ensures fired { IfOk result (λ r. (target : Target) (rest : List Target)
            → self.old.targets ≡ target ∷ rest
            → IsTrue (is_welcome self.old.destroyed self.old.takes_arg payload)
            → (r ≡ Satisfied.Fired (target ∷ [])) × (self.new.targets ≡ rest)) }
        ensures kept { IfOk result (λ r. (r ≡ Satisfied.Kept)
            ↔ (IsTrue (is_welcome self.old.destroyed self.old.takes_arg payload
            && not (is_full self.old)) × (self.old.targets ≡ []))) }
        ensures never_ignored { IfOk result (λ r. ¬ (r ≡ Satisfied.Ignored)) }
        ensures refused { IfOk result (λ r. (code : Code) → r ≡ Satisfied.Refused code
            → self.new ≡ self.old) }
    {
        if let Some(code) = self.refusal(payload) {
            return Ok(Satisfied::Refused(code));
        }
        let Some(target) = self.targets.front() else {
            self.payloads.push_back(payload)?;
            return Ok(Satisfied::Kept);
        };
        let mut fired = Seq::new(alloc);
        fired.push(*target)?;
        let _oldest = self.targets.pop_front();
        Ok(Satisfied::Fired(fired))
    }

    /// Links a target to the channel: it gets the oldest payload that is kept, or waits where none
    /// is.
    /// A destroyed channel is Stale.
    pub fn link(&mut self, alloc: Global, target: Target) -> Result<Linked, NoMemory>
        ensures answer { IfOk result (λ r. r ≡ on_link self.old) }
        ensures state { IfOk result (λ _. self.new ≡ after_link self.old target) }
        ensures err { OnErr result (self.new ≡ self.old) }

        ensures stale { IfOk result (λ r. (r ≡ Linked.Refused Code.Stale)
            ↔ IsTrue self.old.destroyed) }
        ensures now { IfOk result (λ r. (oldest : ℕ) (rest : List ℕ)
            → self.old.payloads ≡ oldest ∷ rest
            → IsTrue (not self.old.destroyed) → (r ≡ Linked.Now oldest)
            × (self.new.payloads ≡ rest)) }
        ensures kept { IfOk result (λ r. (r ≡ Linked.Kept)
            ↔ (IsTrue (not self.old.destroyed) × (self.old.payloads ≡ []))) }
    {
        if self.destroyed {
            return Ok(Linked::Refused(Code::Stale));
        }
        if let Some(payload) = self.payloads.pop_front() {
            return Ok(Linked::Now(payload));
        }
        self.targets.push_back(target)?;
        Ok(Linked::Kept)
    }

    /// Destroys the channel: what it keeps goes to nobody. A destroyed channel is Stale.
    pub fn destroy(&mut self) -> Code
        ensures answer { result ≡ on_destroy self.old.destroyed }
        ensures state { self.new ≡ after_destroy self.old }

        ensures stale { (result ≡ Code.Stale) ↔ IsTrue self.old.destroyed }
        ensures done { (result ≡ Code.Done) ↔ IsTrue (not self.old.destroyed) }
        ensures destroyed { IsTrue self.new.destroyed }
    {
        if self.destroyed {
            return Code::Stale;
        }
        self.destroyed = true;
        self.payloads.clear();
        self.targets.clear();
        Code::Done
    }

    /// Whether the channel was destroyed.
    pub fn is_destroyed(&self) -> bool
        ensures { result ≡ self.now.destroyed }
    {
        self.destroyed
    }

    /// Whether a satisfaction may carry a block.
    pub fn takes_arg(&self) -> bool
        ensures { result ≡ self.now.takes_arg }
    {
        self.takes_arg
    }

    /// The code with which `satisfy` would refuse this payload now.
    pub fn refusal(&self, payload: Guid) -> Option<Code>
        ensures answer { result ≡ refusal self.now payload }

        ensures stale { (result ≡ Some Code.Stale) ↔ IsTrue self.now.destroyed }
        ensures einval { (result ≡ Some Code.Einval)
            ↔ IsTrue (not self.now.destroyed && is_unwanted self.now.takes_arg payload) }
        ensures ebusy { (result ≡ Some Code.Ebusy)
            ↔ IsTrue (is_welcome self.now.destroyed self.now.takes_arg payload
            && is_full self.now) }
        ensures none { (result ≡ None)
            ↔ IsTrue (is_welcome self.now.destroyed self.now.takes_arg payload
            && not (is_full self.now)) }
    {
        if self.destroyed {
            Some(Code::Stale)
        } else if payload != Guid::NULL && !self.takes_arg {
            Some(Code::Einval)
        } else if self.targets.is_empty() && self.payloads.len() >= self.max_gen as usize {
            Some(Code::Ebusy)
        } else {
            None
        }
    }
}

/// The state of a channel is told by the list of the calls that it accepted.
pub fn channel_laws()
    ensures refusal { RefusalLaw }
    ensures satisfy { SatisfyLaw }
    ensures link { LinkLaw }
    ensures destroy { DestroyLaw }
    ensures destroyed { DestroyedLaw }
    ensures matched { MatchLaw }
    ensures room { RoomLaw }
{}
