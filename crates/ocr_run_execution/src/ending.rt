// How a run ended.
ghost use Rattle.std.specs.Prelude.{◌≡◌, length, IfOk};
ghost use Rattle.ocr_machine_history.specs.History.{history_of};
ghost use Rattle.ocr_machine_history.specs.Output.{left_edts};
ghost use Rattle.ocr_run_execution.specs.Ending.{IsMet, end_of, end_status};

use ocr_base::NoMemory;
use ocr_machine_history::{Entry, Stop};
use std::alloc::Global;

/// How a run came to its end.
#[derive(Clone, Copy, PartialEq, Eq, Debug)]
pub enum Ending {
    /// Nothing was left to do, and so many EDTs never started.
    Quiet(u64),
    /// It was stopped.
    Stopped(Stop),
}

impl Ending {
    /// The exit status of the run (docs/LANGUAGE.md, "The program").
    pub fn status(self) -> u8
        ensures status { result ≡ end_status self }
        ensures met { IsMet result }
    {
        match self {
            Ending::Quiet(0) => 0,
            Ending::Quiet(_) => 4,
            Ending::Stopped(Stop::Shutdown { .. }) => 0,
            Ending::Stopped(Stop::Abort { .. }) => 5,
            Ending::Stopped(Stop::Fault { .. }) => 6,
            Ending::Stopped(Stop::Objects | Stop::Events { .. }) => 10,
            Ending::Stopped(Stop::Memory) => 9,
        }
    }
}

// How many EDTs were made and never started.
fn left_count(alloc: Global, entries: &[Entry]) -> Result<u64, NoMemory>
    ensures { IfOk result (λ count. count ≡ length (left_edts (history_of entries.now))) }
{
    let (left, _) = ocr_report::left_edts(alloc, entries)?;
    Ok(left.len() as u64)
}

/// How a run ended that has these entries.
pub fn ending_of(alloc: Global, entries: &[Entry]) -> Result<Ending, NoMemory>
    ensures { IfOk result (λ ending. ending ≡ end_of (history_of entries.now)) }
{
    match entries.last() {
        Some(Entry::Stop(stop)) => Ok(Ending::Stopped(*stop)),
        _ => {
            let count = left_count(alloc, entries)?;
            Ok(Ending::Quiet(count))
        }
    }
}
