// The uses of destroyed objects.
ghost use Rattle.std.specs.Prelude.{◌≡◌, ◌++◌, [], ◌∷◌, length, OnOk, IfOk};
ghost use Rattle.ocr_machine_history.specs.History.{Setting, history_of};
ghost use Rattle.ocr_machine_history.specs.Stale as history;
ghost use Rattle.ocr_machine_parts.specs.Legal.{IsRun};
ghost use Rattle.ocr_report.specs.Destroyed as destroyed;
ghost use Rattle.ocr_report.specs.Ends.{is_ended};
ghost use Rattle.ocr_report.specs.Stale as spec;

use crate::destroyed::Ends;
use crate::headed::{headed, line};
use ocr_base::NoMemory;
use ocr_body_meaning::{Answer, Call};
use ocr_guid::Code;
use ocr_machine_history::{Entry, Journal, Message, What};
use std::alloc::Global;

// Whether an entry uses a destroyed object.
fn is_stale_use(entry: &Entry) -> bool
    ensures { result ≡ history.is_stale_use entry.now }
{
    match entry {
        Entry::Call { answer, .. } => answer.code == Code::Stale,
        Entry::Deliver {
            message: Message {
                what: What::Satisfy { .. },
                ..
            },
            code,
        } => *code == Code::Stale,
        Entry::StaleAcquire { .. } => true,
        _ => false,
    }
}

/// How many uses of destroyed objects there are.
pub fn stale_count(entries: &[Entry]) -> u64
    ensures { result ≡ length (history.stale_uses (history_of entries.now)) }
{
    let mut count: u64 = 0;
    for entry in entries {
        if is_stale_use(entry) {
            count += 1;
        }
    }
    count
}

// The first of some objects that is destroyed, and 0 where none is.
fn first_stale(ends: &Ends, objects: &[u64]) -> u64
    ensures { result ≡ spec.first_stale (is_ended ends.now) objects.now }
{
    match objects {
        [] => 0,
        [first, rest @ ..] => if ends.has(*first) {
            *first
        } else {
            first_stale(ends, rest)
        },
    }
}

// The first destroyed object that a call names.
fn stale_object(ends: &Ends, call: &Call) -> u64
    ensures { result ≡ spec.first_stale (is_ended ends.now)
        (spec.objects_of call.now) }
{
    match call {
        Call::DbRelease { block } | Call::DbDestroy { block } => first_stale(ends, &[*block]),
        Call::EventDestroy { event } => first_stale(ends, &[*event]),
        Call::Satisfy { event, payload, .. } => first_stale(ends, &[*event, *payload]),
        Call::AddDependence { source, target, .. } => first_stale(ends, &[*source, *target]),
        Call::TemplateDestroy { template } => first_stale(ends, &[*template]),
        Call::EdtCreate { template, deps, .. } => if ends.has(*template) {
            *template
        } else {
            first_stale(ends, deps.as_slice())
        },
        _ => 0,
    }
}

// Writes the line of a use of a destroyed object.
fn stale_line(text: &mut Vec<u8>, ends: &Ends, entry: &Entry) -> Result<(), NoMemory>
    ensures { OnOk result (text.new.items ≡ text.old.items
        ++ spec.stale_line (is_ended ends.now) entry.now) }
{
    match entry {
        Entry::Call {
            edt,
            call,
            answer: Answer {
                code: Code::Stale,
                ..
            },
            ..
        } => line(text, b"call", &[edt.0, stale_object(ends, call)]),
        Entry::Deliver {
            message: Message {
                what: What::Satisfy { event, .. },
                ..
            },
            code: Code::Stale,
        } => line(text, b"delivery", &[event.0]),
        Entry::StaleAcquire { edt, block } => line(text, b"acquire", &[edt.0, block.0]),
        _ => Ok(()),
    }
}

// The lines of the uses, the oldest first.
fn stale_lines(alloc: Global, entries: &[Entry]) -> Result<Vec<u8>, NoMemory>
    ensures { IfOk result (λ text. text.items ≡ destroyed.told_lines (history_of entries.now)) }
{
    let mut ends = Ends::new(alloc);
    let mut lines = Vec::new(alloc);
    for entry in entries {
        stale_line(&mut lines, &ends, entry)?;
        ends.note(entry)?;
    }
    Ok(lines)
}

/// The report on the uses of destroyed objects: how many there are, and for each who used what. In
/// a run an object is destroyed if the machine's part of it is. NoMemory where memory is refused.
pub fn stale_text(alloc: Global, journal: &Journal) -> Result<Vec<u8>, NoMemory>
    ensures told { IfOk result (λ text.
        text.items ≡ destroyed.told_text (history_of journal.now)) }
    ensures run { IfOk result (λ text. (s : Setting) → IsRun s (history_of journal.now)
        → text.items ≡ spec.stale_text s (history_of journal.now)) }
{
    let entries = journal.entries();
    let lines = stale_lines(alloc, entries)?;
    let text = headed(alloc, b"stale", stale_count(entries), &lines)?;
    Ok(text)
}
