// A journal.
use crate::entry::Entry;
use ocr_base::Seq;
use std::marker::Model;

/// The entries of a run in their order, which contracts see as the list.
#[derive(Drop)]
pub struct Journal {
    entries: Seq<Entry>,
}

impl Model for Journal {
    ghost use Rattle.std.specs.Prelude.{List};
    ghost use Rattle.ocr_machine_history.specs.declared.entry.Entry.{Entry};

    ghost Value = { List Entry };

    ghost view = { λ j. j.entries };
}

impl Journal {
    ghost use Rattle.std.specs.Prelude.{◌≡◌};

    /// The journal of a vector's entries.
    pub fn from_vec(entries: Vec<Entry>) -> Self
        ensures { result ≡ entries.items }
    {
        Journal {
            entries: Seq::from_vec(entries),
        }
    }

    /// The entries, in their order.
    pub fn entries(&self) -> &[Entry]
        ensures { result.now ≡ self.now }
    {
        self.entries.as_slice()
    }
}
