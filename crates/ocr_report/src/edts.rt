// The EDTs that were made, and those that have started.
ghost use Rattle.std.specs.Prelude.{◌≡◌, ◌||◌, ◌==◌, ◌<◌, ◌≤◌, ℕ, OnOk, IfOk, length, ◌++◌, take, drop, slice_index};
ghost use Rattle.std.specs.List.{flat_map};
ghost use Rattle.std.specs.Ordering.{nat_cmp};
ghost use Rattle.std.specs.BTreeSet as set;
ghost use Rattle.ocr_machine_history.specs.Edts.{is_started};
ghost use Rattle.ocr_machine_history.specs.History.{history_of};
ghost use Rattle.ocr_machine_history.specs.Made.{made_edts};
ghost use Rattle.ocr_machine_history.specs.Numbers.{IsRising, placed};
ghost use Rattle.ocr_machine_history.specs.Output.{left_edts};
ghost use Rattle.ocr_report.specs.Edts.{AreMarks, kept_if};
ghost use Rattle.ocr_report.specs.Made as spec;

use crate::started::{has_started, mark_count, started_marks};
use ocr_base::NoMemory;
use ocr_body_meaning::{Answer, Call};
use ocr_guid::Code;
use ocr_machine_history::{Entry, MAIN_EDT};
use std::alloc::Global;
use std::collections::BTreeSet;

// The EDT that an entry makes.
fn edt_made(entry: &Entry) -> Option<u64>
    ensures { result ≡ spec.edt_in entry.now }
{
    match entry {
        Entry::Call {
            call: Call::EdtCreate { .. },
            answer: Answer {
                code: Code::Done,
                value,
                ..
            },
            ..
        } => Some(*value),
        _ => None,
    }
}

// How many of rising numbers are less. They are looked through from their end, as numbers come
// almost in order.
fn less_count(numbers: &[u64], number: u64) -> usize
    requires { IsRising numbers.now }
    ensures within { result ≤ length numbers.now }
    ensures before { placed number numbers.now
        ≡ take result numbers.now ++ placed number (drop result numbers.now) }
    ensures next { result < length numbers.now → number ≤ slice_index numbers.now result }
{
    let mut count = numbers.len();
    while count > 0 {
        if numbers[count - 1] < number {
            return count;
        }
        count -= 1;
    }
    0
}

// Puts a number at its place among rising ones.
fn put(numbers: &mut Vec<u64>, number: u64) -> Result<(), NoMemory>
    requires { IsRising numbers.old.items }
    ensures { OnOk result (numbers.new.items ≡ placed number numbers.old.items) }
{
    let at = less_count(numbers, number);
    // Numbers come almost in order: most go last.
    if at == numbers.len() {
        numbers.push(number)?;
        return Ok(());
    }
    if numbers[at] == number {
        return Ok(());
    }
    match numbers.insert(at, number) {
        Ok(()) => Ok(()),
        Err(_) => Err(NoMemory),
    }
}

/// The EDTs that were made, rising.
#[tactic(auto, using(ocr_machine_history::proofs::Left::made_rising))]
pub fn edts(alloc: Global, entries: &[Entry]) -> Result<Vec<u64>, NoMemory>
    ensures { IfOk result (λ edts. edts.items ≡ made_edts (history_of entries.now)) }
{
    let mut edts = Vec::new(alloc);
    edts.push(MAIN_EDT)?;
    for entry in entries {
        if let Some(edt) = edt_made(entry) {
            put(&mut edts, edt)?;
        }
    }
    Ok(edts)
}

/// Puts a number among others.
pub fn add(numbers: &mut BTreeSet<u64>, number: u64) -> Result<(), NoMemory>
    ensures { OnOk result ((n : ℕ) → set.contains nat_cmp numbers.new n
        ≡ (number == n) || set.contains nat_cmp numbers.old n) }
{
    numbers.insert(number)?;
    Ok(())
}

/// Adds a number unless it is out.
pub fn keep(kept: &mut Vec<u64>, number: u64, is_out: bool) -> Result<(), NoMemory>
    ensures { OnOk result (kept.new.items ≡ kept.old.items ++ kept_if is_out number) }
{
    if !is_out {
        kept.push(number)?;
    }
    Ok(())
}

// Those EDTs that have not started, by marks of the lower ones that have.
fn unstarted(
    alloc: Global,
    edts: &[u64],
    marks: &[bool],
    entries: &[Entry],
) -> Result<Vec<u64>, NoMemory>
    requires { AreMarks marks.now (history_of entries.now) }
    ensures { IfOk result (λ left. left.items
        ≡ flat_map (λ t. kept_if (is_started (history_of entries.now) t) t) edts.now) }
{
    let mut left = Vec::new(alloc);
    for edt in edts {
        keep(&mut left, *edt, has_started(marks, entries, *edt))?;
    }
    Ok(left)
}

/// The EDTs that were made and have not started, rising, and how many were made.
pub fn left(alloc: Global, entries: &[Entry]) -> Result<(Vec<u64>, u64), NoMemory>
    ensures left { IfOk result (λ r. r.0.items ≡ left_edts (history_of entries.now)) }
    ensures made { IfOk result (λ r. r.1 ≡ length (made_edts (history_of entries.now))) }
{
    let edts = edts(alloc, entries)?;
    let marks = started_marks(alloc, entries, mark_count(&edts))?;
    let left = unstarted(alloc, &edts, &marks, entries)?;
    Ok((left, edts.len() as u64))
}
