// The kinds of events, and how often each was satisfied.
ghost use Rattle.std.specs.Prelude.{◌≡◌, ◌==◌, ◌∷◌, ℕ, OnOk, if◌then◌else◌};
ghost use Rattle.std.specs.Ordering.{nat_cmp};
ghost use Rattle.std.specs.BTreeMap as map;
ghost use Rattle.ocr_machine_history.specs.History as history;
ghost use Rattle.ocr_report.specs.Fired as fired;
ghost use Rattle.ocr_report.specs.Tallies as spec;

use ocr_base::NoMemory;
use ocr_body_meaning::{Answer, Call};
use ocr_event_any::{LATCH, ONCE};
use ocr_guid::{Code, Guid};
use ocr_machine_history::{Entry, Message, OUTPUT_KIND, What};
use std::collections::BTreeMap;

/// How often an event was satisfied on each slot of a latch, and whether these numbers were ever
/// even.
#[derive(Clone, Copy, Drop)]
pub struct Tally {
    pub decrements: u64,
    pub increments: u64,
    pub was_even: bool,
}

/// The kind of each event, by its number.
pub type Kinds = BTreeMap<u64, u64>;

/// The tally of each event, by its number.
pub type Tallies = BTreeMap<u64, Tally>;

// The output event that is made beside an EDT, and its kind.
fn output_kind(output: Guid) -> Option<(u64, u64)>
    ensures { result ≡ fired.output_kind output }
{
    if output == Guid::NULL {
        None
    } else {
        Some((output.0, OUTPUT_KIND))
    }
}

// The event that an entry makes, and its kind.
fn kind_in(entry: &Entry) -> Option<(u64, u64)>
    ensures { result ≡ fired.kind_in entry.now }
{
    match entry {
        Entry::Call {
            call: Call::EventCreate { kind, .. },
            answer: Answer {
                code: Code::Done,
                value,
                ..
            },
            ..
        } => Some((*value, *kind)),
        Entry::Call {
            call: Call::EdtCreate { .. },
            answer: Answer {
                code: Code::Done,
                output,
                ..
            },
            ..
        } => output_kind(*output),
        _ => None,
    }
}

// The event that an entry satisfies, and its slot.
fn satisfied_in(entry: &Entry) -> Option<(u64, u64)>
    ensures { result ≡ fired.satisfied_in entry.now }
{
    match entry {
        Entry::Call {
            call: Call::Satisfy { event, slot, .. },
            answer: Answer {
                code: Code::Done,
                ..
            },
            ..
        } => Some((*event, *slot)),
        Entry::Deliver {
            message: Message {
                what: What::Satisfy { event, slot, .. },
                ..
            },
            code: Code::Done,
        } => Some((event.0, *slot as u64)),
        _ => None,
    }
}

// A tally with a satisfaction of this slot more.
fn counted(tally: Tally, slot: u64) -> Tally
    requires countable { spec.IsCountable tally }
    ensures { result ≡ spec.tally_after tally slot }
{
    let decrements = if slot == 0 {
        tally.decrements + 1
    } else {
        tally.decrements
    };
    let increments = if slot == 1 {
        tally.increments + 1
    } else {
        tally.increments
    };
    let is_even = decrements == increments && decrements != 0;
    Tally {
        decrements,
        increments,
        was_even: tally.was_even || is_even,
    }
}

// The tally of an event.
fn tally_at(tallies: &Tallies, event: u64) -> Tally
    ensures { result ≡ spec.tally_in (map.get nat_cmp tallies.now event) }
{
    match tallies.get(&event) {
        Some(tally) => *tally,
        None => Tally {
            decrements: 0,
            increments: 0,
            was_even: false,
        },
    }
}

fn put_kind(kinds: &mut Kinds, event: u64, kind: u64) -> Result<(), NoMemory>
    ensures { OnOk result ((g : ℕ) → spec.kind_at kinds.new g
        ≡ (if event == g then kind else spec.kind_at kinds.old g)) }
{
    kinds.insert(event, kind)?;
    Ok(())
}

/// The kinds with that of an event that the entry makes.
pub fn note_kind(kinds: &mut Kinds, entry: &Entry) -> Result<(), NoMemory>
    ensures { OnOk result ((past : history.History) →
        spec.AreKinds past kinds.old → spec.AreKinds (entry.now ∷ past) kinds.new) }
{
    if let Some((event, kind)) = kind_in(entry) {
        put_kind(kinds, event, kind)?;
    }
    Ok(())
}

fn put_tally(tallies: &mut Tallies, event: u64, tally: Tally) -> Result<(), NoMemory>
    ensures { OnOk result ((g : ℕ) → map.get nat_cmp tallies.new g
        ≡ (if event == g then Some tally else map.get nat_cmp tallies.old g)) }
{
    tallies.insert(event, tally)?;
    Ok(())
}

/// The tallies with a satisfaction that the entry is.
pub fn note_satisfaction(tallies: &mut Tallies, entry: &Entry) -> Result<(), NoMemory>
    requires countable { (g : ℕ) →
        spec.IsCountable (spec.tally_in (map.get nat_cmp tallies.old g)) }
    ensures { OnOk result ((past : history.History) →
        spec.AreTallies past tallies.old → spec.AreTallies (entry.now ∷ past) tallies.new) }
{
    if let Some((event, slot)) = satisfied_in(entry) {
        let tally = counted(tally_at(tallies, event), slot);
        put_tally(tallies, event, tally)?;
    }
    Ok(())
}

/// Whether firing destroyed an event.
pub fn is_fired(kinds: &Kinds, tallies: &Tallies, event: u64) -> bool
    ensures { result ≡ spec.is_fired_by (spec.kind_at kinds.now event)
        (map.get nat_cmp tallies.now event) }
{
    match kinds.get(&event).copied().unwrap_or(0) {
        ONCE => tallies.contains_key(&event),
        LATCH => tally_at(tallies, event).was_even,
        _ => false,
    }
}
