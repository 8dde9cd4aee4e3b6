// The mode of the hold that an entry ends, and that in which an EDT acquires a block.
ghost use Rattle.std.specs.Prelude.{◌≡◌, ℕ, IfOk, Some, None, Option};
ghost use Rattle.ocr_machine_history.specs.History.{Setting, History};
ghost use Rattle.ocr_machine_history.specs.declared.entry.Entry.TheVariants as an;
ghost use Rattle.ocr_machine_parts.specs.Kinds.{mode_on};
ghost use Rattle.ocr_machine_parts.specs.Legal.{IsRun, IsLegal};
ghost use Rattle.ocr_machine_state.specs.State.{core_on, IsStateOf};
ghost use Rattle.ocr_memory_model_order.specs.Pairs.{acquired_mode};
ghost use Rattle.ocr_memory_model.specs.Modes.{mode_of_core};
ghost use Rattle.ocr_memory_model.specs.Past.{IsEndedIn};

use crate::keys::{edt_of, given_in};
use ocr_acquire::Mode;
use ocr_base::NoMemory;
use ocr_edt::Edt;
use ocr_guid::Guid;
use ocr_machine_history::Entry;
use ocr_machine_parts::{Core, Part};
use ocr_machine_state::State;
use std::alloc::Global;

fn mode_in(core: &Core, block: u64) -> Option<Mode>
    ensures { result ≡ mode_of_core core.now block }
{
    match &core.edt {
        Edt::Running(running) => running.mode(Guid(block)),
        Edt::Filling(_) | Edt::Acquiring(_) => None,
        Edt::Waiting(_) | Edt::Ended(_) => None,
    }
}

fn mode_of(table: &State, edt: Guid, block: u64) -> Option<Mode>
    ensures { result ≡ mode_on (core_on table.now edt) block }
{
    let Some(Part::Core(core)) = table.core(edt) else {
        return None;
    };
    mode_in(core.get(), block)
}

/// The mode of the hold that an entry ends.
pub(crate) fn ended_mode(table: &State, entry: &Entry) -> Option<Mode>
    ensures { (s : Setting) (past : History) → IsStateOf s past table.now → IsRun s past
        → IsLegal s past entry.now → IsEndedIn s past entry.now result }
{
    match given_in(entry) {
        Some(block) => mode_of(table, Guid(edt_of(entry)), block),
        None => None,
    }
}

/// The mode in which an EDT acquires its next block.
pub(crate) fn next_mode(alloc: Global, table: &State, edt: Guid) -> Result<Option<Mode>, NoMemory>
    ensures { IfOk result (λ mode. (s : Setting) (past : History) (d : ℕ)
        → IsStateOf s past table.now → IsRun s past → IsLegal s past (an.Acquire edt d)
        → acquired_mode s d past (an.Acquire edt d) ≡ mode) }
{
    match table.next(alloc, edt)? {
        Some((_, mode)) => Ok(Some(mode)),
        None => Ok(None),
    }
}
