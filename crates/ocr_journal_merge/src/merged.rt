// The journal of a run, from the logs of its clerks.
ghost use Rattle.std.specs.Prelude.{◌≡◌, List, IfOk};
ghost use Rattle.ocr_machine_history.specs.declared.entry.Entry.{Entry};
ghost use Rattle.ocr_journal_merge.specs.Merged.{IsHistoryOf};

use crate::numbered::by_number;
use ocr_base::NoMemory;
use ocr_machine_history::Journal;
use ocr_machine_parts::Part;
use ocr_turns::{Closing, Remains};
use ocr_worker_clerk::Ocr;
use std::alloc::Global;
use std::marker::Model;

/// The journal of a run whose clerks have all come home. Contracts see it as its entries, and only
/// `merge` makes one. It keeps what is left of the run's table, so that whoever ends with it need
/// not wait until all objects are freed.
#[derive(Drop)]
pub struct Merged {
    journal: Journal,
    _remains: Remains<Part>,
}

impl Model for Merged {
    ghost use Rattle.std.specs.Prelude.{List};
    ghost use Rattle.ocr_machine_history.specs.declared.entry.Entry.{Entry};

    ghost Value = { List Entry };

    ghost view = { λ m. m.journal };
}

impl Merged {
    ghost use Rattle.std.specs.Prelude.{◌≡◌};

    /// The journal, each entry at its number.
    pub fn journal(&self) -> &Journal
        ensures { result.now ≡ self.now }
    {
        &self.journal
    }
}

/// The journal of a run from the logs of a finished table: its history. NoMemory where memory is
/// refused.
pub fn merge(alloc: Global, closing: Closing<Ocr>) -> Result<Merged, NoMemory>
    requires { (history : List Entry) × IsHistoryOf closing history }
    ensures { IfOk result (λ m. (history : List Entry) → IsHistoryOf closing history
        → m ≡ history) }
{
    let count = closing.entries();
    let (logs, remains) = closing.into_parts();
    let entries = by_number(alloc, logs, count)?;
    Ok(Merged {
        journal: Journal::from_vec(entries),
        _remains: remains,
    })
}
