// Whether an EDT may go on.
ghost use Rattle.std.specs.Prelude.{◌≡◌, ◌&&◌, ℕ, [], true, false, not, is_some, IfOk};
ghost use Rattle.ocr_machine_history.specs.History.{Setting, History};
ghost use Rattle.ocr_machine_history.specs.declared.entry.Entry.TheVariants as an;
ghost use Rattle.ocr_machine_parts.specs.Legal.{IsRun};
ghost use Rattle.ocr_machine_state.specs.State.{face_on, core_on, IsStateOf};
ghost use Rattle.ocr_machine_laws.specs.Waits.{is_gone_on};
ghost use Rattle.ocr_replay_legality.specs.Tests.{Whether, MayEnter, is_at, is_open, shuts, begins};

use crate::tests_of::{begins, is_gone, is_open, shuts};
use ocr_acquire::Mode;
use ocr_base::NoMemory;
use ocr_guid::Guid;
use ocr_machine_state::State;
use std::alloc::Global;

/// Whether this block comes next, and has the EDT as a holder or can be granted.
pub(crate) fn opens_next(table: &State, next: Option<(Guid, Mode)>, edt: Guid, block: Guid) -> bool
    ensures { result ≡ is_at next block (is_open (face_on table.now block) edt) }
{
    match next {
        Some((named, mode)) => named == block && is_open(table, edt, block.0, mode),
        None => false,
    }
}

/// Whether this block comes next, and can neither be granted nor is it gone.
pub(crate) fn shuts_next(table: &State, next: Option<(Guid, Mode)>, block: Guid) -> bool
    ensures { result ≡ is_at next block (shuts (face_on table.now block)) }
{
    match next {
        Some((named, mode)) => named == block && shuts(table, block.0, mode),
        None => false,
    }
}

/// Whether this block comes next, and is gone.
pub(crate) fn gone_next(table: &State, next: Option<(Guid, Mode)>, block: Guid) -> bool
    ensures { result ≡ is_at next block (λ _. is_gone_on (face_on table.now block)) }
{
    match next {
        Some((named, _)) => named == block && is_gone(table, block.0),
        None => false,
    }
}

pub(crate) fn both(one: bool, other: bool) -> bool
    ensures { result ≡ (one && other) }
{
    one && other
}

/// Whether the EDT acquires or is to begin, and waits for this block next.
pub(crate) fn shuts_there(table: &State, next: Option<(Guid, Mode)>, edt: Guid, block: Guid) -> bool
    ensures { result ≡ (begins (core_on table.now edt)
        && is_at next block (shuts (face_on table.now block))) }
{
    begins(table, edt) && shuts_next(table, next, block)
}

/// Whether the EDT acquires or is to begin, and no block comes next.
pub(crate) fn starts_there(table: &State, next: Option<(Guid, Mode)>, edt: Guid) -> bool
    ensures { result ≡ (begins (core_on table.now edt) && not (is_some next)) }
{
    begins(table, edt) && next.is_none()
}
