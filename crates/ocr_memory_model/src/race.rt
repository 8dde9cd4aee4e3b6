// The races of a run.
ghost use Rattle.std.specs.Prelude.{IfOk};
ghost use Rattle.ocr_machine_history.specs.History.{Setting, history_of};
ghost use Rattle.ocr_memory_model.specs.Orders.{Orders};
ghost use Rattle.ocr_memory_model.specs.RaceList.{AreRaces};

use crate::happens_before::HappensBefore;
use crate::walk::{Pair, Touches};
use ocr_base::NoMemory;
use ocr_guid::Guid;
use ocr_machine_history::Journal;
use std::alloc::Global;

/// A race at a word of a block, of the lesser EDT with the greater.
#[derive(Clone, Copy, PartialEq, Eq, Debug)]
pub struct Race {
    pub block: Guid,
    pub word: u64,
    pub first: Guid,
    pub second: Guid,
}

/// The races of a run, each once: rising by the block, the word, the lesser EDT and the greater.
pub fn races(alloc: Global, journal: &Journal, order: &HappensBefore) -> Result<Vec<Race>, NoMemory>
    ensures { IfOk result (λ races. (s : Setting) → Orders s (history_of journal.now) order.now
        → AreRaces s (history_of journal.now) races.items) }
{
    let touches = Touches::of(alloc, journal)?;
    let mut races = Vec::new(alloc);
    let mut at = Pair::new();
    while let Some((race, next)) = touches.next_race(order, at) {
        races.push(race)?;
        at = next;
    }
    Ok(races)
}
