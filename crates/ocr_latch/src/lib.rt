//! Latches: events that count satisfactions up and down, and fire when the counts meet.
#![tactic(auto)]

ghost use Rattle.std.specs.Prelude.{◌≡◌, ◌↔◌, ◌+◌, ◌-◌, ◌^◌, ◌<◌, ◌≤◌, ◌&&◌, not, [], IfOk, OnErr, IsTrue};
ghost use Rattle.ocr_guid.specs.Target.{is_unwanted, is_welcome, on_destroy};
ghost use Rattle.ocr_latch.specs.Latch.{state_of, refusal, after_satisfy, on_satisfy, after_link, on_link, after_destroy, RefusalLaw, SatisfyLaw, DropLaw, LinkLaw, DestroyLaw, DestroyedLaw, DeliveryLaw};

use ocr_guid::target::{Linked, Satisfied, Target};
use ocr_guid::{Code, Guid, NoMemory, Seq};
use std::alloc::Global;
use std::marker::Model;

/// An event that fires when it was satisfied as often on its decrement slot as on its increment
/// slot, and at least once on each. It carries NULL_GUID, and is destroyed by firing.
#[derive(Drop)]
pub struct Latch {
    takes_arg: bool,
    destroyed: bool,
    decrements: u64,
    increments: u64,
    /// What waits for the latch to fire, in the order of the links.
    targets: Vec<Target>,
}

impl Model for Latch {
    ghost use Rattle.ocr_latch.specs.Latch.{State};

    ghost Value = { State };

    ghost view = { λ l. record {
      takes_arg = l.takes_arg;
      destroyed = l.destroyed;
      decrements = l.decrements;
      increments = l.increments;
      targets = l.targets.items;
    } };
}

impl Latch {
    /// The slot whose satisfactions count down.
    pub const DECREMENT_SLOT: u32 = 0;

    /// The slot whose satisfactions count up.
    pub const INCREMENT_SLOT: u32 = 1;

    /// A new latch, which accepts a block where it takes an argument, and drops it.
    pub fn new(alloc: Global, takes_arg: bool) -> Latch
        ensures { result ≡ state_of takes_arg [] }
    {
        Latch {
            takes_arg,
            destroyed: false,
            decrements: 0,
            increments: 0,
            targets: Vec::new(alloc),
        }
    }

    /// Satisfies the latch on its decrement or its increment slot. Where the two counts are equal
    /// afterwards it fires: its targets are moved out to the caller, and it is destroyed.
    /// A destroyed latch is Stale, and a block on a latch that takes none is Einval, in this order.
    pub fn satisfy(&mut self, slot: u32, payload: Guid) -> Satisfied
        requires slot { slot ≤ 1 }
        requires count { self.old.decrements + self.old.increments < 2 ^ 64 - 1 }

        ensures answer { result ≡ on_satisfy self.old slot payload }
        ensures state { self.new ≡ after_satisfy self.old slot payload }

        ensures stale { (result ≡ Satisfied.Refused Code.Stale) ↔ IsTrue self.old.destroyed }
        ensures einval { (result ≡ Satisfied.Refused Code.Einval)
            ↔ IsTrue (not self.old.destroyed && is_unwanted self.old.takes_arg payload) }
        ensures fired { (result ≡ Satisfied.Fired self.old.targets)
            ↔ (IsTrue (is_welcome self.old.destroyed self.old.takes_arg payload)
            × (self.new.decrements ≡ self.new.increments)) }
        ensures kept { (result ≡ Satisfied.Kept)
            ↔ (IsTrue (is_welcome self.old.destroyed self.old.takes_arg payload)
            × ¬ (self.new.decrements ≡ self.new.increments)) }
        ensures refused { (code : Code) → result ≡ Satisfied.Refused code → self.new ≡ self.old }
    {
        if let Some(code) = self.refusal(payload) {
            return Satisfied::Refused(code);
        }
        if slot == Latch::DECREMENT_SLOT {
            self.decrements += 1;
        } else {
            self.increments += 1;
        }
        if self.decrements != self.increments {
            return Satisfied::Kept;
        }
        self.destroyed = true;
        let empty = Vec::new(*self.targets.allocator());
        Satisfied::Fired(Seq::from_vec(std::mem::replace(&mut self.targets, empty)))
    }

    /// Links a target to the latch: it waits. A destroyed latch is Stale.
    pub fn link(&mut self, alloc: Global, target: Target) -> Result<Linked, NoMemory>
        ensures answer { IfOk result (λ r. r ≡ on_link self.old) }
        ensures state { IfOk result (λ _. self.new ≡ after_link self.old target) }
        ensures err { OnErr result (self.new ≡ self.old) }

        ensures stale { IfOk result (λ r. (r ≡ Linked.Refused Code.Stale)
            ↔ IsTrue self.old.destroyed) }
        ensures kept { IfOk result (λ r. (r ≡ Linked.Kept) ↔ IsTrue (not self.old.destroyed)) }
    {
        if self.destroyed {
            return Ok(Linked::Refused(Code::Stale));
        }
        self.targets.push(target)?;
        Ok(Linked::Kept)
    }

    /// Destroys the latch: what waits gets nothing. A destroyed latch is Stale.
    pub fn destroy(&mut self) -> Code
        ensures answer { result ≡ on_destroy self.old.destroyed }
        ensures state { self.new ≡ after_destroy self.old }

        ensures stale { (result ≡ Code.Stale) ↔ IsTrue self.old.destroyed }
        ensures done { (result ≡ Code.Done) ↔ IsTrue (not self.old.destroyed) }
        ensures destroyed { IsTrue self.new.destroyed }
    {
        if self.destroyed {
            return Code::Stale;
        }
        self.destroyed = true;
        self.targets.clear();
        Code::Done
    }

    /// Whether the latch was destroyed, by a call or by its own firing.
    pub fn is_destroyed(&self) -> bool
        ensures { result ≡ self.now.destroyed }
    {
        self.destroyed
    }

    /// Whether a satisfaction may carry a block.
    pub fn takes_arg(&self) -> bool
        ensures { result ≡ self.now.takes_arg }
    {
        self.takes_arg
    }

    /// The code with which `satisfy` would refuse this payload now.
    pub fn refusal(&self, payload: Guid) -> Option<Code>
        ensures answer { result ≡ refusal self.now payload }

        ensures stale { (result ≡ Some Code.Stale) ↔ IsTrue self.now.destroyed }
        ensures einval { (result ≡ Some Code.Einval)
            ↔ IsTrue (not self.now.destroyed && is_unwanted self.now.takes_arg payload) }
        ensures none { (result ≡ None)
            ↔ IsTrue (is_welcome self.now.destroyed self.now.takes_arg payload) }
    {
        if self.destroyed {
            Some(Code::Stale)
        } else if payload != Guid::NULL && !self.takes_arg {
            Some(Code::Einval)
        } else {
            None
        }
    }
}

/// The state of a latch is told by the list of the calls that it accepted.
pub fn latch_laws()
    ensures refusal { RefusalLaw }
    ensures satisfy { SatisfyLaw }
    ensures drop { DropLaw }
    ensures link { LinkLaw }
    ensures destroy { DestroyLaw }
    ensures destroyed { DestroyedLaw }
    ensures delivery { DeliveryLaw }
{}
