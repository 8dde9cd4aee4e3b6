// Which EDTs have started, by marks at their numbers.
ghost use Rattle.std.specs.Prelude.{◌≡◌, ◌≤◌, ◌∷◌, IfOk};
ghost use Rattle.ocr_machine_history.specs.Edts.{is_started};
ghost use Rattle.ocr_machine_history.specs.History.{History, history_of};
ghost use Rattle.ocr_report.specs.Edts.{AreMarks};

use ocr_base::{MOST_OBJECTS, NoMemory};
use ocr_machine_history::Entry;
use std::alloc::Global;

/// How many marks there are to be for these EDTs, which rise.
pub fn mark_count(edts: &[u64]) -> usize
    ensures { result ≤ 65537 }
{
    match edts.last() {
        Some(last) if *last < MOST_OBJECTS => *last as usize + 1,
        _ => MOST_OBJECTS as usize + 1,
    }
}

/// A mark for each number below the count: whether an EDT of this number has started.
pub fn started_marks(alloc: Global, entries: &[Entry], count: usize) -> Result<Vec<bool>, NoMemory>
    ensures { IfOk result (λ marks. AreMarks marks.items (history_of entries.now)) }
{
    let mut marks = vec![in alloc; false; count]?;
    for entry in entries {
        mark(&mut marks, entry);
    }
    Ok(marks)
}

fn mark(marks: &mut [bool], entry: &Entry)
    ensures { (past : History) → AreMarks marks.old past → AreMarks marks.new (entry.now ∷ past) }
{
    if let Entry::Start { edt } = entry {
        if edt.0 < marks.len() as u64 {
            marks[edt.0 as usize] = true;
        }
    }
}

/// Whether the EDT has started: by its mark, or by the entries where it has none.
pub fn has_started(marks: &[bool], entries: &[Entry], edt: u64) -> bool
    requires { AreMarks marks.now (history_of entries.now) }
    ensures { result ≡ is_started (history_of entries.now) edt }
{
    if edt < marks.len() as u64 {
        return marks[edt as usize];
    }
    starts_among(entries, edt)
}

fn starts_among(entries: &[Entry], edt: u64) -> bool
    ensures { result ≡ is_started (history_of entries.now) edt }
{
    let mut started = false;
    for entry in entries {
        if let Entry::Start { edt: started_edt } = entry {
            started = started || started_edt.0 == edt;
        }
    }
    started
}
