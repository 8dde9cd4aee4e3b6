// The EDTs that have not started, with their open slots.
ghost use Rattle.std.specs.Prelude.{◌≡◌, ◌++◌, OnOk, IfOk};
ghost use Rattle.std.specs.Ordering.{nat_cmp};
ghost use Rattle.std.specs.BTreeMap as map;
ghost use Rattle.ocr_machine_history.specs.History as history;
ghost use Rattle.ocr_report.specs.Left as spec;
ghost use Rattle.ocr_report.specs.Open.{unset_below, open_in};
ghost use Rattle.ocr_report.specs.Slots.{depc_in};

use crate::edts::{keep, left};
use crate::headed::{headed, line};
use crate::lists::{Lists, list_of};
use crate::slots::{Counted, Counts, counts, sets};
use ocr_base::NoMemory;
use ocr_journal::phrase;
use ocr_machine_history::Journal;
use std::alloc::Global;

// How many slots an EDT has.
fn depc_of(counts: &Counts, edt: u64) -> u64
    ensures { result ≡ depc_in (map.get nat_cmp counts.now edt) }
{
    match counts.get(&edt) {
        Some(Counted::Edt(count)) => *count,
        _ => 0,
    }
}

// The slots below a count that are not among those that are set.
#[tactic(auto, using(crate::proofs::Opened::unset_more))]
fn unset_below(alloc: Global, set: &[u64], count: u64) -> Result<Vec<u64>, NoMemory>
    ensures { IfOk result (λ unset. unset.items ≡ unset_below set.now count) }
{
    let mut unset = Vec::new(alloc);
    for slot in 0..count {
        keep(&mut unset, slot, set.contains(&slot))?;
    }
    Ok(unset)
}

// Writes the line of an EDT with its open slots.
fn left_line(text: &mut Vec<u8>, edt: u64, slots: &[u64]) -> Result<(), NoMemory>
    ensures { OnOk result (text.new.items ≡ text.old.items ++ spec.left_line edt slots.now) }
{
    phrase(text, b"edt", &[edt])?;
    line(text, b" open", slots)
}

fn left_lines(
    alloc: Global,
    edts: &[u64],
    counts: &Counts,
    sets: &Lists,
) -> Result<Vec<u8>, NoMemory>
    ensures { IfOk result (λ text.
        text.items ≡ spec.left_lines (open_in counts.now sets.now) edts.now) }
{
    let mut text = Vec::new(alloc);
    for edt in edts {
        let slots = unset_below(alloc, list_of(sets, *edt), depc_of(counts, *edt))?;
        left_line(&mut text, *edt, &slots)?;
    }
    Ok(text)
}

/// The report on the EDTs that have not started: how many there are, and for each, rising, its open
/// slots. NoMemory where memory is refused.
pub fn left_text(alloc: Global, journal: &Journal) -> Result<Vec<u8>, NoMemory>
    ensures { IfOk result (λ text. (s : history.Setting) →
        text.items ≡ spec.left_text s (history.history_of journal.now)) }
{
    let entries = journal.entries();
    let (edts, _) = left(alloc, entries)?;
    let counts = counts(alloc, entries)?;
    let sets = sets(alloc, entries)?;
    let lines = left_lines(alloc, &edts, &counts, &sets)?;
    let text = headed(alloc, b"left", edts.len() as u64, &lines)?;
    Ok(text)
}
