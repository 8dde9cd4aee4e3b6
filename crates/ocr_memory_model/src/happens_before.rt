// The order of a run's entries.
ghost use Rattle.std.specs.Prelude.{◌≡◌, ◌<◌, ◌≤◌, ◌-◌, ◌^◌, ◌↔◌, ℕ, ◌∷◌, length, true, IfOk, OnOk, Err};
ghost use Rattle.ocr_worker_machine.specs.Ocr.{setting_in};
ghost use Rattle.ocr_machine_history.specs.History as history;
ghost use Rattle.ocr_machine_history.specs.History.{History, history_of};
ghost use Rattle.ocr_machine_parts.specs.Kinds.{counted_on};
ghost use Rattle.ocr_machine_parts.specs.Legal.{IsRun};
ghost use Rattle.ocr_machine_state.specs.State.{IsStateOf, face_on};
ghost use Rattle.ocr_memory_model_order.specs.Pairs as pairs;
ghost use Rattle.ocr_memory_model.specs.Orders.{Orders};
ghost use Rattle.ocr_memory_model.specs.Past.{IsPast, IsNext};
ghost use Rattle.ocr_memory_model.specs.declared.happens_before.TheConstants.{MOST_ORDERED};
ghost use Rattle.ocr_memory_model.specs.declared.stop.OrderStop.TheVariants.{TooLong};

use crate::modes::ended_mode;
use crate::past::Past;
use crate::stop::OrderStop;
use ocr_base::NoMemory;
use ocr_machine_history::{Entry, Journal};
use ocr_machine_parts::event_laws;
use ocr_machine_state::State;
use ocr_memory_model_rows::Rows;
use ocr_worker_machine::Setting;
use std::alloc::Global;

/// The most entries that are ordered.
pub const MOST_ORDERED: usize = 20_000;

/// Which entries of a run happen before which.
#[derive(Drop)]
pub struct HappensBefore {
    rows: Rows,
}

impl HappensBefore {
    ghost use Rattle.ocr_memory_model.specs.Orders.{Orders};

    /// Whether the entry at a place happens before that at another.
    pub fn before(&self, a: usize, b: usize) -> bool
        ensures { (s : history.Setting) (J : History) → Orders s J self.now
            → (result ≡ true) ↔ pairs.HappensBefore s J a b }
    {
        self.rows.before(a, b)
    }
}

// Enters the next entry into the table of those so far, and keeps what the order needs of it.
fn enter(
    alloc: Global,
    table: &mut State,
    past: &mut Past,
    entries: &[Entry],
    entry: &Entry,
) -> Result<(), NoMemory>
    requires few { length entries.now < 2 ^ 32 }
    requires next { (s : history.Setting)
        × IsNext s (history_of entries.now) entry.now table.old past.old }
    requires counts { (g : ℕ) → counted_on (face_on table.old g) < 2 ^ 64 - 1 }
    ensures table { OnOk result ((s : history.Setting)
        → IsNext s (history_of entries.now) entry.now table.old past.old
        → IsStateOf s (entry.now ∷ history_of entries.now) table.new) }
    ensures past { OnOk result ((s : history.Setting)
        → IsNext s (history_of entries.now) entry.now table.old past.old
        → IsPast s (entry.now ∷ history_of entries.now) past.new) }
{
    let mode = ended_mode(table, entry);
    let row = past.next_row(alloc, table, entries, entry)?;
    table.enter(alloc, entry)?;
    past.note(alloc, entry, mode, row)?;
    Ok(())
}

// What is kept of a run after all its entries.
fn past_after(
    alloc: Global,
    setting: &Setting,
    limit: u64,
    entries: &[Entry],
) -> Result<Past, NoMemory>
    requires args { length setting.now.args.items ≤ 32 }
    requires limit { (2 ≤ limit) × (limit ≤ 65536) }
    requires run { IsRun (setting_in setting.now limit) (history_of entries.now) }
    requires few { length entries.now < 2 ^ 32 }
    ensures { IfOk result (λ past.
        IsPast (setting_in setting.now limit) (history_of entries.now) past) }
{
    event_laws(); // only for the proof: a latch counts no more than the entries so far
    let main = setting.program.main_function();
    let mut table = State::opened(alloc, main, setting.args.as_slice(), limit)?;
    let mut past = Past::new(alloc);
    for place in 0..entries.len() {
        enter(
            alloc,
            &mut table,
            &mut past,
            &entries[..place],
            &entries[place],
        )?;
    }
    Ok(past)
}

/// Which entries of a run happen before which; TooLong above the most entries that are ordered.
pub fn order(
    alloc: Global,
    setting: &Setting,
    limit: u64,
    journal: &Journal,
) -> Result<HappensBefore, OrderStop>
    requires args { length setting.now.args.items ≤ 32 }
    requires limit { (2 ≤ limit) × (limit ≤ 65536) }
    requires run { IsRun (setting_in setting.now limit) (history_of journal.now) }
    ensures too_long { (result ≡ Err TooLong) ↔ MOST_ORDERED < length journal.now }
    ensures orders { IfOk result (λ order.
        Orders (setting_in setting.now limit) (history_of journal.now) order) }
{
    let entries = journal.entries();
    if entries.len() > MOST_ORDERED {
        return Err(OrderStop::TooLong);
    }
    let past = past_after(alloc, setting, limit, entries)?;
    Ok(HappensBefore {
        rows: past.into_rows(),
    })
}
