// The parts of the machine after a run.
ghost use Rattle.std.specs.Prelude.{◌≡◌, ◌≤◌, length, IfOk};
ghost use Rattle.ocr_memory_model.specs.Orders.{setting_in};
ghost use Rattle.ocr_machine_history.specs.History.{history_of};
ghost use Rattle.ocr_machine_parts.specs.Legal.{IsRun};
ghost use Rattle.ocr_memory_model.specs.Orders.{IsStateOf};

use ocr_base::NoMemory;
use ocr_machine_history::Entry;
use ocr_machine_parts::event_laws;
use ocr_memory_model::{Setting, State};
use std::alloc::Global;

/// The table of a run after all its entries.
pub fn table_after(
    alloc: Global,
    setting: &Setting,
    limit: u64,
    entries: &[Entry],
) -> Result<State, NoMemory>
    requires args { length setting.now.args.items ≤ 32 }
    requires limit { (2 ≤ limit) × (limit ≤ 65536) }
    requires run { IsRun (setting_in setting.now limit) (history_of entries.now) }
    ensures { IfOk result (λ table.
        IsStateOf (setting_in setting.now limit) (history_of entries.now) table) }
{
    event_laws(); // only for the proof: a latch counts no more than the entries so far
    let main = setting.program.main_function();
    let mut table = State::opened(alloc, main, setting.args.as_slice(), limit)?;
    for entry in entries {
        table.enter(alloc, entry)?;
    }
    Ok(table)
}
