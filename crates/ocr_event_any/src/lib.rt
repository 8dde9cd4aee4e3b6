//! Events of all kinds as one: ONCE, IDEM, STICKY, latches and channels.
#![tactic(auto)]

ghost use Rattle.std.specs.Prelude.{◌≡◌, ◌≤◌, ◌<◌, ◌+◌, ◌-◌, ◌^◌, [], IfOk, OnErr, true, false};
ghost use Rattle.ocr_guid.specs.Target.{on_destroy};
ghost use Rattle.ocr_event_any.specs.AnyEvent.{state_of, is_destroyed, takes, counted, refusal, on_satisfy, after_satisfy, on_link, after_link, after_destroy, takes_arg, plain_kind, SatisfyLaw, LinkLaw, DestroyLaw};

use ocr_channel_event::Channel;
use ocr_event::{Event, EventKind};
use ocr_guid::target::{Linked, Satisfied, Target};
use ocr_guid::{Code, Guid, NoMemory};
use ocr_latch::Latch;
use std::alloc::Global;

/// The number of the kind ONCE.
pub const ONCE: u64 = 1;

/// The number of the kind IDEM.
pub const IDEM: u64 = 2;

/// The number of the kind STICKY.
pub const STICKY: u64 = 3;

/// The number of the kind of latches.
pub const LATCH: u64 = 4;

/// The number of the kind of channels.
pub const CHANNEL: u64 = 5;

/// An event of any kind.
#[derive(Drop)]
pub enum AnyEvent {
    /// It fires at its first satisfaction.
    Plain(Event),
    Latch(Latch),
    Channel(Channel),
}

/// A new event of the kind of this number, which carries a block where its flags are 1; a channel
/// keeps at most so many satisfactions.
pub fn event_of(alloc: Global, kind: u64, flags: u64, most: u32) -> AnyEvent
    requires least { kind ≡ CHANNEL → 1 ≤ most }
    requires most { kind ≡ CHANNEL → most ≤ 1024 }
    ensures { result ≡ state_of kind flags most [] }
{
    let takes_arg = flags == 1;
    if kind == LATCH {
        AnyEvent::Latch(Latch::new(alloc, takes_arg))
    } else if kind == CHANNEL {
        AnyEvent::Channel(Channel::new(alloc, most, takes_arg))
    } else {
        AnyEvent::Plain(Event::new(alloc, plain_kind(kind), takes_arg))
    }
}

fn plain_kind(kind: u64) -> EventKind
    ensures { result ≡ plain_kind kind }
{
    if kind == ONCE {
        EventKind::Once
    } else if kind == IDEM {
        EventKind::Idem
    } else {
        EventKind::Sticky
    }
}

impl AnyEvent {
    /// Satisfies the event on this slot, which latches alone look at: a latch counts down on slot 0
    /// and up on slot 1. Where it fires, its targets are moved out to the caller; a channel reaches
    /// the one that waits longest. The answers are those of the event's kind.
    pub fn satisfy(
        &mut self,
        alloc: Global,
        slot: u32,
        payload: Guid,
    ) -> Result<Satisfied, NoMemory>
        requires slot { slot ≤ 1 }
        requires count { counted self.old < 2 ^ 64 - 1 }
        ensures answer { IfOk result (λ r. r ≡ on_satisfy self.old slot payload) }
        ensures state { IfOk result (λ _. self.new ≡ after_satisfy self.old slot payload) }
        ensures err { OnErr result (self.new ≡ self.old) }
    {
        match self {
            AnyEvent::Plain(event) => Ok(event.satisfy(payload)),
            AnyEvent::Latch(latch) => Ok(latch.satisfy(slot, payload)),
            AnyEvent::Channel(channel) => channel.satisfy(alloc, payload),
        }
    }

    /// Links a target to the event: it waits, or gets at once what fired the event, or what a
    /// channel has kept longest. A destroyed event is Stale.
    pub fn link(&mut self, alloc: Global, target: Target) -> Result<Linked, NoMemory>
        ensures answer { IfOk result (λ r. r ≡ on_link self.old) }
        ensures state { IfOk result (λ _. self.new ≡ after_link self.old target) }
        ensures err { OnErr result (self.new ≡ self.old) }
    {
        match self {
            AnyEvent::Plain(event) => event.link(alloc, target),
            AnyEvent::Latch(latch) => latch.link(alloc, target),
            AnyEvent::Channel(channel) => channel.link(alloc, target),
        }
    }

    /// The code with which `satisfy` would refuse this payload now.
    pub fn refusal(&self, payload: Guid) -> Option<Code>
        ensures { result ≡ refusal self.now payload }
    {
        match self {
            AnyEvent::Plain(event) => event.refusal(payload),
            AnyEvent::Latch(latch) => latch.refusal(payload),
            AnyEvent::Channel(channel) => channel.refusal(payload),
        }
    }

    /// Whether a satisfaction may carry a block.
    pub fn takes_arg(&self) -> bool
        ensures { result ≡ takes self.now }
    {
        match self {
            AnyEvent::Plain(event) => event.takes_arg(),
            AnyEvent::Latch(latch) => latch.takes_arg(),
            AnyEvent::Channel(channel) => channel.takes_arg(),
        }
    }

    /// Destroys the event: what waits gets nothing. A destroyed event is Stale.
    pub fn destroy(&mut self) -> Code
        ensures answer { result ≡ on_destroy (is_destroyed self.old) }
        ensures state { self.new ≡ after_destroy self.old }
    {
        match self {
            AnyEvent::Plain(event) => event.destroy(),
            AnyEvent::Latch(latch) => latch.destroy(),
            AnyEvent::Channel(channel) => channel.destroy(),
        }
    }

    /// Whether the event was destroyed, by a call or by its own firing.
    pub fn is_destroyed(&self) -> bool
        ensures { result ≡ is_destroyed self.now }
    {
        match self {
            AnyEvent::Plain(event) => event.is_destroyed(),
            AnyEvent::Latch(latch) => latch.is_destroyed(),
            AnyEvent::Channel(channel) => channel.is_destroyed(),
        }
    }
}

/// After an accepted call an event's state is the step of its state before.
pub fn any_event_laws()
    ensures satisfy { SatisfyLaw }
    ensures link { LinkLaw }
    ensures destroy { DestroyLaw }
{}
