//! Events of the kinds ONCE, IDEM and STICKY, which fire at their first satisfaction.
#![tactic(auto)]

ghost use Rattle.std.specs.Prelude.{◌≡◌, ◌↔◌, ℕ, ◌&&◌, not, [], IfOk, OnErr, IsTrue, is_some};
ghost use Rattle.ocr_guid.specs.Target.{is_unwanted, is_welcome, on_destroy};
ghost use Rattle.ocr_event.specs.Event.{state_of, is_fired_sticky, is_fired_idem, refusal, after_satisfy, on_satisfy, after_link, on_link, after_destroy, RefusalLaw, SatisfyLaw, LinkLaw, DestroyLaw, DestroyedLaw, DeliveryLaw};

use ocr_guid::target::{Linked, Satisfied, Target};
use ocr_guid::{Code, Guid, NoMemory, Seq};
use std::alloc::Global;
use std::marker::Model;

/// What an event does after it has fired.
#[derive(Clone, Copy, PartialEq, Eq, Debug)]
pub enum EventKind {
    /// It is destroyed.
    Once,
    /// It stays, and passes further satisfactions over.
    Idem,
    /// It stays, and refuses further satisfactions.
    Sticky,
}

/// An event that sends the payload of its first satisfaction to each target that was linked to it.
#[derive(Drop)]
pub struct Event {
    kind: EventKind,
    takes_arg: bool,
    destroyed: bool,
    /// The payload of the first satisfaction.
    first: Option<Guid>,
    /// What waits for the first satisfaction, in the order of the links.
    targets: Vec<Target>,
}

impl Model for Event {
    ghost use Rattle.ocr_event.specs.Event.{State};

    ghost Value = { State };

    ghost view = { λ e. record {
      kind = e.kind;
      takes_arg = e.takes_arg;
      destroyed = e.destroyed;
      first = e.first;
      targets = e.targets.items;
    } };
}

impl Event {
    /// A new event, which carries a block where it takes an argument.
    pub fn new(alloc: Global, kind: EventKind, takes_arg: bool) -> Event
        ensures { result ≡ state_of kind takes_arg [] }
    {
        Event {
            kind,
            takes_arg,
            destroyed: false,
            first: None,
            targets: Vec::new(alloc),
        }
    }

    /// Satisfies the event. The first satisfaction fires it: its targets are moved out to the
    /// caller.
    /// A destroyed event is Stale, a block on an event that takes none is Einval, and a second
    /// satisfaction of a
    /// STICKY event is Eperm, in this order; an IDEM event passes it over.
    pub fn satisfy(&mut self, payload: Guid) -> Satisfied
        ensures answer { result ≡ on_satisfy self.old payload }
        ensures state { self.new ≡ after_satisfy self.old payload }

        ensures stale { (result ≡ Satisfied.Refused Code.Stale) ↔ IsTrue self.old.destroyed }
        ensures einval { (result ≡ Satisfied.Refused Code.Einval)
            ↔ IsTrue (not self.old.destroyed && is_unwanted self.old.takes_arg payload) }
        ensures eperm { (result ≡ Satisfied.Refused Code.Eperm)
            ↔ IsTrue (is_welcome self.old.destroyed self.old.takes_arg payload
            && is_fired_sticky self.old) }
        ensures ignored { (result ≡ Satisfied.Ignored)
            ↔ IsTrue (is_welcome self.old.destroyed self.old.takes_arg payload
            && is_fired_idem self.old) }
        ensures fired { (result ≡ Satisfied.Fired self.old.targets)
            ↔ IsTrue (is_welcome self.old.destroyed self.old.takes_arg payload
            && not (is_fired_sticky self.old) && not (is_fired_idem self.old)) }
        ensures never_kept { ¬ (result ≡ Satisfied.Kept) }
        ensures refused { (code : Code) → result ≡ Satisfied.Refused code → self.new ≡ self.old }
    {
        if let Some(code) = self.refusal(payload) {
            return Satisfied::Refused(code);
        }
        if self.kind == EventKind::Idem && self.first.is_some() {
            return Satisfied::Ignored;
        }
        let empty = Vec::new(*self.targets.allocator());
        let targets = std::mem::replace(&mut self.targets, empty);
        self.first = Some(payload);
        if self.kind == EventKind::Once {
            self.destroyed = true;
        }
        Satisfied::Fired(Seq::from_vec(targets))
    }

    /// Links a target to the event: it waits, or gets at once the payload that fired the event.
    /// A destroyed event is Stale.
    pub fn link(&mut self, alloc: Global, target: Target) -> Result<Linked, NoMemory>
        ensures answer { IfOk result (λ r. r ≡ on_link self.old) }
        ensures state { IfOk result (λ _. self.new ≡ after_link self.old target) }
        ensures err { OnErr result (self.new ≡ self.old) }

        ensures stale { IfOk result (λ r. (r ≡ Linked.Refused Code.Stale)
            ↔ IsTrue self.old.destroyed) }
        ensures kept { IfOk result (λ r. (r ≡ Linked.Kept)
            ↔ IsTrue (not self.old.destroyed && not (is_some self.old.first))) }
        ensures now { IfOk result (λ r. (payload : ℕ) → self.old.first ≡ Some payload
            → IsTrue (not self.old.destroyed) → r ≡ Linked.Now payload) }
    {
        if self.destroyed {
            return Ok(Linked::Refused(Code::Stale));
        }
        if let Some(payload) = self.first {
            return Ok(Linked::Now(payload));
        }
        self.targets.push(target)?;
        Ok(Linked::Kept)
    }

    /// Destroys the event: what waits gets nothing. A destroyed event is Stale.
    pub fn destroy(&mut self) -> Code
        ensures answer { result ≡ on_destroy self.old.destroyed }
        ensures state { self.new ≡ after_destroy self.old }

        ensures stale { (result ≡ Code.Stale) ↔ IsTrue self.old.destroyed }
        ensures done { (result ≡ Code.Done) ↔ IsTrue (not self.old.destroyed) }
        ensures destroyed { IsTrue self.new.destroyed }
    {
        if self.destroyed {
            return Code::Stale;
        }
        self.destroyed = true;
        self.targets.clear();
        Code::Done
    }

    /// Whether the event was destroyed, by a call or by its own firing.
    pub fn is_destroyed(&self) -> bool
        ensures { result ≡ self.now.destroyed }
    {
        self.destroyed
    }

    /// Whether a satisfaction may carry a block.
    pub fn takes_arg(&self) -> bool
        ensures { result ≡ self.now.takes_arg }
    {
        self.takes_arg
    }

    /// The code with which `satisfy` would refuse this payload now.
    pub fn refusal(&self, payload: Guid) -> Option<Code>
        ensures answer { result ≡ refusal self.now payload }

        ensures stale { (result ≡ Some Code.Stale) ↔ IsTrue self.now.destroyed }
        ensures einval { (result ≡ Some Code.Einval)
            ↔ IsTrue (not self.now.destroyed && is_unwanted self.now.takes_arg payload) }
        ensures eperm { (result ≡ Some Code.Eperm)
            ↔ IsTrue (is_welcome self.now.destroyed self.now.takes_arg payload
            && is_fired_sticky self.now) }
        ensures none { (result ≡ None)
            ↔ IsTrue (is_welcome self.now.destroyed self.now.takes_arg payload
            && not (is_fired_sticky self.now)) }
    {
        if self.destroyed {
            Some(Code::Stale)
        } else if payload != Guid::NULL && !self.takes_arg {
            Some(Code::Einval)
        } else if self.kind == EventKind::Sticky && self.first.is_some() {
            Some(Code::Eperm)
        } else {
            None
        }
    }
}

/// The state of an event is told by the list of the calls that it accepted.
pub fn event_laws()
    ensures refusal { RefusalLaw }
    ensures satisfy { SatisfyLaw }
    ensures link { LinkLaw }
    ensures destroy { DestroyLaw }
    ensures destroyed { DestroyedLaw }
    ensures delivery { DeliveryLaw }
{}
