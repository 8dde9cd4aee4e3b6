// Journals as tables of lines, and what replay says of them, as they are and changed.
use crate::lines::{Line, entries_of};
use crate::programs::program_of;
use ocr_body_code::Checked;
use ocr_replay::{ReplayStop, replay};
use std::alloc::Global;
use std::test::Fail;

/// What is done at a place of a journal.
#[derive(Clone, Copy)]
pub enum Change {
    Dropped,
    Doubled,
    /// The line comes after the next one.
    Swapped,
    /// This line stands there.
    Is(Line),
    /// Only the lines before stand, and then this one.
    Ends(Line),
}

/// A place, what is done there, and the first illegal place then, if any.
pub type Row = (usize, Change, Option<usize>);

/// A program, a journal of it, and the journal changed.
#[derive(Clone, Copy)]
pub struct Table {
    pub text: &'static [u8],
    pub lines: &'static [Line],
    pub rows: &'static [Row],
}

/// Where replay says otherwise.
#[derive(Clone, Copy, PartialEq, Eq, Debug)]
pub enum Wrong {
    /// It refuses the lines before this place.
    Front(usize, ReplayStop),
    /// It answers the row of this number, from 0, so.
    Row(usize, Option<ReplayStop>),
}

/// The first thing in a table of which replay says otherwise: each front is a run, and each row is
/// illegal first where it says.
pub fn wrong_in(alloc: Global, table: &Table) -> Result<Option<Wrong>, Fail> {
    wrong_of(alloc, table.text, &[], table.lines, table.rows)
}

/// The same of a program with arguments, and of a journal and rows that were made.
pub fn wrong_of(
    alloc: Global,
    text: &[u8],
    args: &[u64],
    lines: &[Line],
    rows: &[Row],
) -> Result<Option<Wrong>, Fail> {
    let program = program_of(alloc, text)?;
    for end in 0..lines.len() + 1 {
        if let Some(stop) = stop_of(alloc, &program, args, &lines[..end])? {
            return Ok(Some(Wrong::Front(end, stop)));
        }
    }
    for i in 0..rows.len() {
        let (place, change, illegal) = rows[i];
        let changed = changed(alloc, lines, place, change)?;
        let stop = stop_of(alloc, &program, args, &changed)?;
        if stop != illegal.map(|place| ReplayStop::Illegal(place)) {
            return Ok(Some(Wrong::Row(i, stop)));
        }
    }
    Ok(None)
}

// Where replay stops; none where the lines are a run.
fn stop_of(
    alloc: Global,
    program: &Checked,
    args: &[u64],
    lines: &[Line],
) -> Result<Option<ReplayStop>, Fail> {
    if args.len() > 32 {
        return Err(Fail::new("at most 32 arguments"));
    }
    let entries = entries_of(alloc, lines)?;
    Ok(replay(alloc, program, args, 4096, &entries).err())
}

// The lines with a change at a place, which may stand behind the last.
fn changed(alloc: Global, lines: &[Line], place: usize, change: Change) -> Result<Vec<Line>, Fail> {
    if place > lines.len() {
        return Err(Fail::new("a place of the journal"));
    }
    let mut changed = lines[..place].to_vec(alloc)?;
    let mut next = place;
    match change {
        Change::Dropped => next = place.saturating_add(1),
        Change::Doubled => changed.extend_from_slice(
            &lines[place..(place.saturating_add(1)).min(lines.len())],
        )?,
        Change::Swapped => {
            next = place.saturating_add(2);
            if next <= lines.len() {
                changed.push(lines[next - 1])?;
                changed.push(lines[place])?;
            }
        }
        Change::Is(line) => {
            next = place.saturating_add(1);
            changed.push(line)?;
        }
        Change::Ends(line) => {
            next = lines.len();
            changed.push(line)?;
        }
    }
    if next < lines.len() {
        changed.extend_from_slice(&lines[next..])?;
    }
    Ok(changed)
}
