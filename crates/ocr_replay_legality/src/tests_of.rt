// What is asked of one part of a table.
ghost use Rattle.std.specs.Prelude.{◌≡◌, ℕ, [], true, false, is_some, IsNone, ◌↔◌};
ghost use Rattle.ocr_acquire.specs.Mode.{is_null};
ghost use Rattle.ocr_edt.specs.Phases.{least_of};
ghost use Rattle.ocr_machine_parts.specs.Kinds.{is_running, work_of, holds_of, is_held_by, mode_on};
ghost use Rattle.ocr_machine_parts.specs.declared.part.Part.TheVariants as part;
ghost use Rattle.ocr_machine_state.specs.State.{face_on, core_on};
ghost use Rattle.ocr_machine_laws.specs.Waits.{is_gone_on};
ghost use Rattle.ocr_replay_legality.specs.Tests.{begins, opens, is_open, shuts, Whether};

use ocr_acquire::Mode;
use ocr_edt::Edt;
use ocr_guid::Guid;
use ocr_machine_parts::Part;
use ocr_machine_state::State;

/// Whether the EDT runs.
pub fn is_running(table: &State, edt: Guid) -> bool
    ensures { result ≡ is_running (core_on table.now edt) }
{
    let Some(Part::Core(core)) = table.core(edt) else {
        return false;
    };
    matches!(&core.get().edt, Edt::Running(_))
}

/// The least block that the EDT holds while it runs.
pub fn least_held(table: &State, edt: Guid) -> Option<Guid>
    ensures { result ≡ least_of (holds_of (work_of (core_on table.now edt))) }
{
    let Some(Part::Core(core)) = table.core(edt) else {
        return None;
    };
    let Edt::Running(running) = &core.get().edt else {
        return None;
    };
    running.least_held()
}

/// Whether the EDT acquires, or does once it is made ready.
pub(crate) fn begins(table: &State, edt: Guid) -> bool
    ensures { result ≡ begins (core_on table.now edt) }
{
    let Some(Part::Core(core)) = table.core(edt) else {
        return false;
    };
    matches!(&core.get().edt, Edt::Filling(_) | Edt::Acquiring(_))
}

fn is_null(mode: Mode) -> bool
    ensures { result ≡ is_null mode }
{
    mode == Mode::Null
}

/// Whether the block can be granted in this mode.
fn opens(table: &State, block: u64, mode: Mode) -> bool
    ensures { result ≡ opens (face_on table.now block) mode }
{
    let Some(Part::Block(state)) = table.face(block) else {
        return false;
    };
    !is_null(mode) && state.get().grantable(mode)
}

/// Whether the block can neither be granted in this mode nor is it gone.
pub(crate) fn shuts(table: &State, block: u64, mode: Mode) -> bool
    ensures { result ≡ shuts (face_on table.now block) mode }
{
    let Some(Part::Block(state)) = table.face(block) else {
        return false;
    };
    let state = state.get();
    !is_null(mode) && !state.grantable(mode) && !state.is_gone()
}

/// Whether the block is gone.
pub(crate) fn is_gone(table: &State, block: u64) -> bool
    ensures { result ≡ is_gone_on (face_on table.now block) }
{
    let Some(Part::Block(state)) = table.face(block) else {
        return false;
    };
    state.get().is_gone()
}

/// Whether the EDT holds the block.
pub(crate) fn is_held(table: &State, block: u64, edt: Guid) -> bool
    ensures { result ≡ is_held_by (face_on table.now block) edt }
{
    let Some(Part::Block(state)) = table.face(block) else {
        return false;
    };
    state.get().mode_of(edt).is_some()
}

/// Whether the block has the EDT as a holder, or can be granted.
pub(crate) fn is_open(table: &State, edt: Guid, block: u64, mode: Mode) -> bool
    ensures { result ≡ is_open (face_on table.now block) edt mode }
{
    is_held(table, block, edt) || opens(table, block, mode)
}

/// Whether no object has this number.
pub(crate) fn has_no_face(table: &State, object: u64) -> bool
    ensures { Whether result (face_on table.now object ≡ part.Vacant) }
{
    matches!(
        table.face(object),
        None | Some(Part::Vacant | Part::Core(_))
    )
}

/// Whether no EDT has a core at this number.
pub(crate) fn has_no_core(table: &State, edt: Guid) -> bool
    ensures { Whether result (core_on table.now edt ≡ part.Vacant) }
{
    !matches!(table.core(edt), Some(Part::Core(_)))
}

/// The mode in which the running EDT holds the block.
pub(crate) fn mode_at(table: &State, edt: Guid, block: u64) -> Option<Mode>
    ensures { result ≡ mode_on (core_on table.now edt) block }
{
    let Some(Part::Core(core)) = table.core(edt) else {
        return None;
    };
    let Edt::Running(running) = &core.get().edt else {
        return None;
    };
    running.mode(Guid(block))
}
