// The slots of EDTs, and which of them are set.
ghost use Rattle.std.specs.Prelude.{◌≡◌, ◌==◌, ◌∷◌, ℕ, OnOk, IfOk, if◌then◌else◌};
ghost use Rattle.std.specs.Ordering.{nat_cmp};
ghost use Rattle.std.specs.BTreeMap as map;
ghost use Rattle.ocr_machine_history.specs.History as history;
ghost use Rattle.ocr_report.specs.Slots as spec;

use crate::beside::clear_beside;
use crate::lists::{Lists, append, take};
use ocr_base::NoMemory;
use ocr_body_meaning::{Answer, Call};
use ocr_guid::Code;
use ocr_machine_history::{Entry, MAIN_EDT, Message, What};
use ocr_template::EDT_PARAM_DEF;
use std::alloc::Global;
use std::collections::BTreeMap;

/// How many slots an EDT from a template gets, or an EDT has.
#[derive(Clone, Copy, Drop)]
pub enum Counted {
    Template(u64),
    Edt(u64),
}

/// The count of each template and EDT, by its number.
pub type Counts = BTreeMap<u64, Counted>;

// The EDT's count, from that of its template and the one that is given.
fn edt_counted(template: Option<Counted>, given: u64) -> Option<Counted>
    ensures { result ≡ spec.edt_counted template given }
{
    match template {
        Some(Counted::Template(own)) => {
            let count = if given == EDT_PARAM_DEF { own } else { given };
            Some(Counted::Edt(count))
        }
        _ => None,
    }
}

// What an accepted call makes, with its count where it has one.
fn counted_by(counts: &Counts, call: &Call, made: u64) -> Option<(u64, Option<Counted>)>
    ensures { result ≡ spec.counted_by (map.get nat_cmp counts.now) call.now made }
{
    match call {
        Call::DbCreate { .. } => Some((made, None)),
        Call::EventCreate { .. } | Call::EventCreateParams { .. } => Some((made, None)),
        Call::TemplateCreate { depc, .. } => Some((made, Some(Counted::Template(*depc)))),
        Call::EdtCreate { template, depc, .. } => {
            Some((made, edt_counted(counts.get(template).copied(), *depc)))
        }
        _ => None,
    }
}

fn counted_of(counts: &Counts, entry: &Entry) -> Option<(u64, Option<Counted>)>
    ensures { result ≡ spec.counted_of (map.get nat_cmp counts.now) entry.now }
{
    match entry {
        Entry::Call {
            call,
            answer: Answer {
                code: Code::Done,
                value,
                ..
            },
            ..
        } => counted_by(counts, call, *value),
        _ => None,
    }
}

fn put(counts: &mut Counts, made: u64, counted: Option<Counted>) -> Result<(), NoMemory>
    ensures { OnOk result ((g : ℕ) → map.get nat_cmp counts.new g
        ≡ (if made == g then counted else map.get nat_cmp counts.old g)) }
{
    match counted {
        Some(count) => {
            counts.insert(made, count)?;
        }
        None => {
            counts.remove(&made);
        }
    }
    Ok(())
}

fn count(counts: &mut Counts, entry: &Entry) -> Result<(), NoMemory>
    ensures { OnOk result ((s : history.Setting) (past : history.History) →
        spec.AreCounts s past counts.old → spec.AreCounts s (entry.now ∷ past) counts.new) }
{
    let made = counted_of(counts, entry);
    clear_beside(counts, entry);
    if let Some((made, counted)) = made {
        put(counts, made, counted)?;
    }
    Ok(())
}

/// The counts of what the entries made.
pub fn counts(alloc: Global, entries: &[Entry]) -> Result<Counts, NoMemory>
    ensures { IfOk result (λ counts. (s : history.Setting) →
        spec.AreCounts s (history.history_of entries.now) counts) }
{
    let mut counts = BTreeMap::new(alloc);
    put(&mut counts, MAIN_EDT, Some(Counted::Edt(1)))?;
    for entry in entries {
        count(&mut counts, entry)?;
    }
    Ok(counts)
}

// The number that an entry makes.
fn fresh_in(entry: &Entry) -> Option<u64>
    ensures { result ≡ spec.fresh_in entry.now }
{
    match entry {
        Entry::Call { call, answer, .. } => if call.is_creation() && answer.code == Code::Done {
            Some(answer.value)
        } else {
            None
        },
        _ => None,
    }
}

// The slot that an entry sets.
fn set_in(entry: &Entry) -> Option<(u64, u64)>
    ensures { result ≡ spec.set_in entry.now }
{
    match entry {
        Entry::Deliver {
            message: Message {
                what: What::Set { edt, slot, .. },
                ..
            },
            ..
        } => Some((edt.0, *slot as u64)),
        _ => None,
    }
}

fn mark(alloc: Global, sets: &mut Lists, entry: &Entry) -> Result<(), NoMemory>
    ensures { OnOk result ((past : history.History) →
        spec.AreSet past sets.old → spec.AreSet (entry.now ∷ past) sets.new) }
{
    clear_beside(sets, entry);
    if let Some(made) = fresh_in(entry) {
        take(alloc, sets, made);
    }
    if let Some((edt, slot)) = set_in(entry) {
        append(alloc, sets, edt, slot)?;
    }
    Ok(())
}

/// The slots that the entries set, EDT by EDT.
pub fn sets(alloc: Global, entries: &[Entry]) -> Result<Lists, NoMemory>
    ensures { IfOk result (λ sets. spec.AreSet (history.history_of entries.now) sets) }
{
    let mut sets = BTreeMap::new(alloc);
    append(alloc, &mut sets, MAIN_EDT, 0)?;
    for entry in entries {
        mark(alloc, &mut sets, entry)?;
    }
    Ok(sets)
}
