// What the words of a command line ask for.
use ocr_base::Seq;
use std::alloc::{AllocError, AllocFailed};
use std::error::Error;
use std::fmt;

/// Which reports are written after a run, in the order of these fields.
#[derive(Clone, Copy, PartialEq, Eq, Debug)]
pub struct Reports {
    /// How many EDTs were made, have started and have not, and how many stale uses there are.
    pub summary: bool,
    /// The EDTs that have not started, with their open slots.
    pub left: bool,
    /// The stale uses: those of destroyed objects.
    pub stale: bool,
    /// The deliveries that were refused, but for those on destroyed events.
    pub refused: bool,
    /// The accesses of a word that no order separates.
    pub races: bool,
    /// The blocks, each with its length, and whether it is destroyed and held.
    pub blocks: bool,
    /// All entries.
    pub journal: bool,
}

/// How a run is to be made.
#[derive(Clone, Copy, PartialEq, Eq, Debug)]
pub struct Options {
    /// The number of workers, from 1 to 64.
    pub workers: u32,
    /// How many objects may be made, from 2 to 65,536.
    pub objects: u64,
    /// The weight of the entries that each worker may make, from 1 to 16,000,000.
    pub events: u64,
    /// The reports after the run.
    pub reports: Reports,
}

/// What the words ask for.
#[derive(Drop)]
pub enum Wanted {
    /// A run of the program on the input, with these arguments, at most 32.
    Run { options: Options, args: Seq<u64> },
    /// The canonical text of the program on the input.
    Check,
    /// A run of the generated program of this size, from 1 to 500.
    Load { number: u64, options: Options },
}

/// Why nothing is asked for.
#[derive(Clone, Copy, PartialEq, Eq, Debug)]
pub enum WordsStop {
    /// The words are in none of the forms.
    Refused,
    /// Memory was refused.
    NoMemory,
}

impl fmt::Display for WordsStop {
    ghost use Rattle.std.specs.Prelude.{Some};
    ghost use Rattle.ocr_run_command.specs.Messages.{stop_text};

    ghost output = { λ stop. Some (stop_text stop) };

    fn fmt<W: fmt::Write>(&self, f: &mut fmt::Formatter<W>) -> fmt::Result {
        f.write_str(match self {
            WordsStop::Refused => "words refused",
            WordsStop::NoMemory => "no memory",
        })
    }
}

impl Error for WordsStop {}

impl From<AllocError> for WordsStop {
    ghost use Rattle.std.specs.Prelude.{◌≡◌};
    ghost use Rattle.ocr_run_command.specs.declared.wanted.WordsStop.TheVariants.{NoMemory};

    ghost from_gives = { λ _ stop. stop ≡ NoMemory };

    fn from(_refused: AllocError) -> Self {
        WordsStop::NoMemory
    }
}

impl<T: Drop> From<AllocFailed<T>> for WordsStop {
    ghost use Rattle.std.specs.Prelude.{◌≡◌};
    ghost use Rattle.ocr_run_command.specs.declared.wanted.WordsStop.TheVariants.{NoMemory};

    ghost from_gives = { λ _ stop. stop ≡ NoMemory };

    fn from(_refused: AllocFailed<T>) -> Self {
        WordsStop::NoMemory
    }
}
