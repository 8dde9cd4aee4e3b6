// The summary.
ghost use Rattle.std.specs.Prelude.{◌≡◌, ◌-◌, ◌≤◌, IfOk};
ghost use Rattle.ocr_machine_history.specs.History.{history_of};
ghost use Rattle.ocr_report.specs.Summary as spec;

use crate::edts::left;
use crate::headed::line;
use crate::stale::stale_count;
use ocr_base::NoMemory;
use ocr_journal::phrase;
use ocr_machine_history::Journal;
use std::alloc::Global;

// The line of so many EDTs, of which so many have not started, and uses.
fn summary_line(alloc: Global, made: u64, left: u64, stale: u64) -> Result<Vec<u8>, NoMemory>
    requires few { left ≤ made }
    ensures { IfOk result (λ text. text.items ≡ spec.summary_line made (made - left) left stale) }
{
    let mut text = Vec::new(alloc);
    phrase(&mut text, b"edts", &[made])?;
    phrase(&mut text, b" started", &[made - left])?;
    phrase(&mut text, b" left", &[left])?;
    line(&mut text, b" stale", &[stale])?;
    Ok(text)
}

/// How many EDTs were made, have started and have not, and how many uses of destroyed objects there
/// are. NoMemory where memory is refused.
#[tactic(auto, using(crate::proofs::Unstarted::left_few, crate::proofs::Unstarted::started_rest))]
pub fn summary_text(alloc: Global, journal: &Journal) -> Result<Vec<u8>, NoMemory>
    ensures { IfOk result (λ text. text.items ≡ spec.summary_text (history_of journal.now)) }
{
    let entries = journal.entries();
    let (left, made) = left(alloc, entries)?;
    summary_line(alloc, made, left.len() as u64, stale_count(entries))
}
