// What the entries do by which an EDT goes on until it starts.
ghost use Rattle.std.specs.Prelude.{◌≡◌, ℕ, List, true, is_some, Some, None, IfOk};
ghost use Rattle.ocr_acquire.specs.Mode.{mode_in};
ghost use Rattle.ocr_acquire.specs.declared.Mode.{Mode};
ghost use Rattle.ocr_edt.specs.declared.Edt.TheVariants as phase;
ghost use Rattle.ocr_machine_parts.specs.Effects.{acquired_edt, waiting_edt, started_edt, awoken, acquiring_core, granted, asked_if, lent_if, acquired, waited, passed_by};
ghost use Rattle.ocr_machine_parts.specs.Progress.{with_face, with_core, with_phase, next_on, next_mode_on};
ghost use Rattle.ocr_machine_parts.specs.Kinds.{IsBlock, with_block, words_on, size_on, on_core, progress_in, is_acquiring};
ghost use Rattle.ocr_machine_parts.specs.LegalOn.{IsAcquireOn, IsWaitOn, IsStartOn, IsTaken, IsRefused};
ghost use Rattle.ocr_machine_parts.specs.Loans.{given_loan, kept_of};
ghost use Rattle.ocr_datablock.specs.Steps.{after_ask};
ghost use Rattle.ocr_machine_effects.specs.AtHand.{state, Becomes};

use ocr_acquire::Mode;
use ocr_base::NoMemory;
use ocr_datablock::Lent;
use ocr_edt::{Acquiring, Edt};
use ocr_guid::Guid;
use ocr_machine_effects::TakenParts;
use ocr_machine_parts::{BoxedBlock, Kept, Part};
use std::alloc::Global;

/// The EDT acquires the block.
pub(crate) fn acquire_step(
    alloc: Global,
    parts: &mut TakenParts,
    edt: Guid,
    block: u64,
) -> Result<(), NoMemory>
    requires { IsAcquireOn (state parts.old) edt block }
    ensures { IfOk result (λ _. Becomes parts.old parts.new
        (acquired (state parts.old) edt block)) }
{
    let mode = next_mode(parts, edt);
    let kept = grant_at(alloc, parts, edt, block, mode)?;
    acquire_core(parts, edt, block, kept)
}

/// The mode of the block that an EDT acquires next.
fn next_mode(parts: &TakenParts, edt: Guid) -> Mode
    requires { is_some (next_on (state parts.now) edt) ≡ true }
    ensures { result ≡ next_mode_on (state parts.now) edt }
{
    let Some(Part::Core(core)) = parts.core(edt) else {
        unreachable!()
    };
    match &core.get().edt {
        Edt::Acquiring(acquiring) => {
            let Some((_, mode)) = acquiring.next() else {
                unreachable!()
            };
            mode
        }
        Edt::Waiting(waiting) => waiting.next().1,
        Edt::Filling(_) => unreachable!(),
        Edt::Running(_) => unreachable!(),
        Edt::Ended(_) => unreachable!(),
    }
}

/// The block is granted to the EDT; gives what the EDT keeps with it.
fn grant_at(
    alloc: Global,
    parts: &mut TakenParts,
    edt: Guid,
    block: u64,
    mode: Mode,
) -> Result<Kept, NoMemory>
    requires { IsBlock ((state parts.old).face block) (IsTaken edt mode) }
    ensures parts { IfOk result (λ _. Becomes parts.old parts.new
        (with_face (state parts.old) block
        (with_block ((state parts.old).face block) (granted edt mode)))) }
    ensures kept { IfOk result (λ kept. kept
        ≡ kept_of mode (size_on ((state parts.old).face block))
        (words_on ((state parts.old).face block))) }
{
    let mut state = parts.take_block(block);
    let size = state.get().words();
    hold_block(alloc, &mut state, edt, mode)?;
    let loan = lend_block(alloc, &mut state, edt, mode)?;
    parts.put_face(block, Part::Block(state));
    Ok(Kept { size, loan })
}

/// The EDT holds the block, if it does not already.
fn hold_block(alloc: Global, state: &mut BoxedBlock, edt: Guid, mode: Mode) -> Result<(), NoMemory>
    requires { IsTaken edt mode state.old }
    ensures state { IfOk result (λ _. state.new ≡ asked_if edt mode state.old) }
    ensures held { IfOk result (λ _. mode_in edt state.new.holders ≡ Some mode) }
    ensures free { IfOk result (λ _. state.new.borrower ≡ None) }
    ensures words { IfOk result (λ _. state.new.words ≡ state.old.words) }
{
    if state.get().mode_of(edt).is_none() {
        state.ask(alloc, edt, mode)?;
    }
    Ok(())
}

/// What the EDT has of a block on loan.
fn lend_block(
    alloc: Global,
    state: &mut BoxedBlock,
    edt: Guid,
    mode: Mode,
) -> Result<Option<Lent>, NoMemory>
    requires held { mode_in edt state.old.holders ≡ Some mode }
    requires free { state.old.borrower ≡ None }
    ensures state { IfOk result (λ _. state.new ≡ lent_if edt mode state.old) }
    ensures loan { IfOk result (λ lent. lent ≡ given_loan mode state.old.words) }
{
    match mode {
        Mode::Ew => Ok(Some(state.lend(edt))),
        Mode::Const => Ok(Some(state.lend_const(alloc, edt)?)),
        Mode::Null => Ok(None),
        Mode::Ro => Ok(None),
        Mode::Rw => Ok(None),
    }
}

/// The next block of the EDT is acquired, which keeps this with it.
fn acquire_core(parts: &mut TakenParts, edt: Guid, block: u64, kept: Kept) -> Result<(), NoMemory>
    requires { is_some (next_on (state parts.old) edt) ≡ true }
    ensures { IfOk result (λ _. (m : Mode) (size : ℕ) (words : List ℕ)
        → kept ≡ kept_of m size words
        → Becomes parts.old parts.new
        (with_core (state parts.old) edt
        (on_core ((state parts.old).core edt) (acquiring_core block m size words)))) }
{
    let mut core = parts.take_core(edt);
    core.put_kept(Guid(block), kept)?;
    let acquiring = awake(core.take_edt());
    core.put_edt(Edt::Acquiring(acquiring.acquired(false)));
    parts.put_core(edt, core);
    Ok(())
}

/// The EDT passes its next block by, which is gone.
pub(crate) fn pass_by(parts: &mut TakenParts, edt: Guid)
    requires { is_some (next_on (state parts.old) edt) ≡ true }
    ensures { Becomes parts.old parts.new (passed_by (state parts.old) edt) }
{
    let mut core = parts.take_core(edt);
    let acquiring = awake(core.take_edt());
    core.put_edt(Edt::Acquiring(acquiring.acquired(true)));
    parts.put_core(edt, core);
}

/// An EDT that acquires or has waited.
fn awake(edt: Edt) -> Acquiring
    requires { is_some (progress_in edt) ≡ true }
    ensures { progress_in edt ≡ Some result }
{
    match edt {
        Edt::Acquiring(acquiring) => acquiring,
        Edt::Waiting(waiting) => waiting.resumed(),
        Edt::Filling(_) => unreachable!(),
        Edt::Running(_) => unreachable!(),
        Edt::Ended(_) => unreachable!(),
    }
}

/// The EDT waits for the block.
pub(crate) fn wait_step(
    alloc: Global,
    parts: &mut TakenParts,
    edt: Guid,
    block: u64,
) -> Result<(), NoMemory>
    requires { IsWaitOn (state parts.old) edt block }
    ensures { IfOk result (λ _. Becomes parts.old parts.new (waited (state parts.old) edt block)) }
{
    let mode = next_mode(parts, edt);
    ask_at(alloc, parts, edt, block, mode)?;
    wait_core(parts, edt);
    Ok(())
}

/// The EDT goes to the end of the block's queue.
fn ask_at(
    alloc: Global,
    parts: &mut TakenParts,
    edt: Guid,
    block: u64,
    mode: Mode,
) -> Result<(), NoMemory>
    requires { IsBlock ((state parts.old).face block) (IsRefused edt mode) }
    ensures { IfOk result (λ _. Becomes parts.old parts.new
        (with_face (state parts.old) block
        (with_block ((state parts.old).face block) (λ st. after_ask st edt mode)))) }
{
    let mut state = parts.take_block(block);
    state.ask(alloc, edt, mode)?;
    parts.put_face(block, Part::Block(state));
    Ok(())
}

/// The EDT waits.
fn wait_core(parts: &mut TakenParts, edt: Guid)
    requires acquiring { is_acquiring ((state parts.old).core edt) ≡ true }
    requires next { is_some (next_on (state parts.old) edt) ≡ true }
    ensures { Becomes parts.old parts.new
        (with_core (state parts.old) edt
        (on_core ((state parts.old).core edt) (with_phase waiting_edt))) }
{
    let mut core = parts.take_core(edt);
    let Edt::Acquiring(acquiring) = core.take_edt() else {
        unreachable!()
    };
    core.put_edt(Edt::Waiting(acquiring.wait()));
    parts.put_core(edt, core);
}

/// The EDT starts.
pub(crate) fn start_core(parts: &mut TakenParts, edt: Guid)
    requires { IsStartOn (state parts.old) edt }
    ensures { Becomes parts.old parts.new
        (with_core (state parts.old) edt
        (on_core ((state parts.old).core edt) (with_phase started_edt))) }
{
    let mut core = parts.take_core(edt);
    let Edt::Acquiring(acquiring) = core.take_edt() else {
        unreachable!()
    };
    core.put_edt(Edt::Running(acquiring.start()));
    parts.put_core(edt, core);
}
