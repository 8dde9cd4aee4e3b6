// The text of a journal.
ghost use Rattle.std.specs.Prelude.{◌≡◌, ◌<◌, length, IfOk, IfSome, slice_get};
ghost use Rattle.ocr_program_tree.specs.View.{tree_of};
ghost use Rattle.ocr_machine_history.specs.History.{history_of};
ghost use Rattle.ocr_journal.specs.EntryText as one;
ghost use Rattle.ocr_journal.specs.JournalText as spec;

use crate::entries::entry;
use crate::words::{number, phrase};
use ocr_base::NoMemory;
use ocr_machine_history::Journal;
use ocr_program_tree::Program;
use std::alloc::Global;

/// The text of the entry at a place of a journal of a run of the program, without its number.
/// NoMemory where memory is refused.
pub fn entry_text(
    alloc: Global,
    journal: &Journal,
    place: usize,
    program: &Program,
) -> Result<Vec<u8>, NoMemory>
    requires { place < length journal.now }
    ensures { IfSome (slice_get journal.now place) (λ e. IfOk result (λ text.
        text.items ≡ one.entry_text (tree_of program.now) e)) }
{
    let mut text = Vec::new(alloc);
    entry(&mut text, program, &journal.entries()[place])?;
    Ok(text)
}

/// The text of a journal of a run of the program: a line with how many entries there are, and a
/// line for each. NoMemory where memory is refused.
pub fn journal_text(
    alloc: Global,
    journal: &Journal,
    program: &Program,
) -> Result<Vec<u8>, NoMemory>
    ensures { IfOk result (λ text.
        text.items ≡ spec.journal_text (tree_of program.now) (history_of journal.now)) }
{
    let entries = journal.entries();
    let mut text = Vec::new(alloc);
    phrase(&mut text, b"journal", &[entries.len() as u64])?;
    text.push(b'\n')?;
    for (place, one) in entries.iter().enumerate() {
        number(&mut text, place as u64)?;
        text.push(b' ')?;
        entry(&mut text, program, one)?;
        text.push(b'\n')?;
    }
    Ok(text)
}
