// An EDT meets the block that comes next in its plan.
ghost use Rattle.std.specs.Prelude.{◌≡◌, ◌≢◌, ◌+◌, true, IfNone, IfOk, IfSome, OnOk, OnErr};
ghost use Rattle.ocr_worker_machine.specs.Ocr.{meaning};
ghost use Rattle.ocr_machine_parts.specs.Taken.{is_within};
ghost use Rattle.ocr_turns_rule.specs.Contract.{SameHand};
ghost use Rattle.ocr_turns_rule.specs.Words.{SeesReady};
ghost use Rattle.ocr_worker_clerk.specs.Work.{AtWork, IsGone, Stays};
ghost use Rattle.ocr_worker_acquisition.specs.Block.{CanAct, HasThree, KnowsThree, MayAct, MeetsOther, StandsAtNext, WantsNext, WantsOther, mode_at};
ghost use Rattle.ocr_worker_acquisition.specs.Acquisition.{Learns};

use crate::act::{Act, act_on};
use crate::payloads::{Payloads, read_payloads};
use ocr_acquire::Mode;
use ocr_base::NoMemory;
use ocr_guid::Guid;
use ocr_machine_parts::{Part, next_with};
use ocr_turns::Clerk;
use ocr_worker_clerk::{Gate, Job, Ocr, Over, close_memory};
use std::alloc::Global;
use std::sync::Wait;

/// Reads the payloads of the EDT whose face is kept besides a block. Its slots are all set.
pub(crate) fn read_three<R: Wait, G: Gate>(
    alloc: Global,
    job: &Job<R, G>,
    worker: u32,
    clerk: &mut Clerk<Ocr>,
    edt: Guid,
    block: Guid,
    first: bool,
) -> Result<Payloads, Over>
    requires work { AtWork job.now.turns.now job.now.program.now clerk.old }
    requires apart { edt ≢ block }
    requires block { is_within job.now.turns.now.1.limit block ≡ true }
    requires three { HasThree job.now.turns.now.1 edt block first clerk.old }
    requires ready { SeesReady meaning clerk.old.view edt }
    ensures stays { Stays clerk.old clerk.new }
    ensures work { OnOk result (AtWork job.now.turns.now job.now.program.now clerk.new) }
    ensures learns { OnOk result (Learns clerk.old.view clerk.new.view) }
    ensures hand { OnOk result (SameHand clerk.old clerk.new) }
    ensures knows { IfOk result (λ v. KnowsThree job.now.turns.now.1 edt block first v.items
        clerk.new) }
    ensures ready { OnOk result (SeesReady meaning clerk.new.view edt) }
    ensures gone { OnErr result (IsGone job.now.turns.now worker clerk.new) }
{
    let Part::Edt(slots) = clerk.part(edt.0) else {
        unreachable!()
    };
    let count = slots.depc();
    let Ok(payloads) = read_payloads(alloc, job.turns, clerk, edt, count) else {
        return Err(close_memory(job, worker, clerk));
    };
    Ok(payloads)
}

/// What an EDT does at this block by these parts, its slots set to these payloads; None where
/// another block comes next.
pub(crate) fn act_at(
    alloc: Global,
    core: &Part,
    face: &Part,
    other: &Part,
    edt: Guid,
    block: Guid,
    payloads: &[Guid],
) -> Result<Option<Act>, NoMemory>
    requires { StandsAtNext core.now face.now other.now edt block payloads.now }
    ensures act { IfOk result (λ o. IfSome o (λ act. MayAct core.now face.now other.now edt block
        payloads.now act)) }
    ensures other { IfOk result (λ o. IfNone o (MeetsOther core.now face.now block
        payloads.now)) }
{
    let (Part::Core(core), Part::Edt(slots)) = (core, face) else {
        unreachable!()
    };
    let next = next_with(alloc, &core.get().edt, slots, payloads)?;
    let Some(mode) = mode_at(next, block) else {
        return Ok(None);
    };
    let Part::Block(state) = other else {
        unreachable!()
    };
    Ok(Some(act_on(state.get(), edt, mode)))
}

// The mode in which the block is wanted, where it comes next.
fn mode_at(next: Option<(Guid, Mode)>, block: Guid) -> Option<Mode>
    ensures { result ≡ mode_at block next }
{
    let (next, mode) = next?;
    if next != block {
        return None;
    }
    Some(mode)
}

/// What the EDT does at the block that it has taken; None where another block comes next. The EDT
/// does not wait then.
pub(crate) fn decide<R: Wait, G: Gate>(
    alloc: Global,
    job: &Job<R, G>,
    worker: u32,
    clerk: &mut Clerk<Ocr>,
    edt: Guid,
    block: Guid,
    first: bool,
    payloads: &[Guid],
) -> Result<Option<Act>, Over>
    requires work { AtWork job.now.turns.now job.now.program.now clerk.old }
    requires apart { edt ≢ block }
    requires block { is_within job.now.turns.now.1.limit block ≡ true }
    requires knows { KnowsThree job.now.turns.now.1 edt block first payloads.now clerk.old }
    requires ready { SeesReady meaning clerk.old.view edt }
    requires wants { WantsNext job.now.turns.now.1 edt block clerk.old }
    ensures stays { Stays clerk.old clerk.new }
    ensures same { OnOk result (clerk.new ≡ clerk.old) }
    ensures act { IfOk result (λ o. IfSome o (λ act. CanAct job.now.turns.now.1 edt block first
        payloads.now act clerk.old)) }
    ensures other { IfOk result (λ o. IfNone o (WantsOther job.now.turns.now.1 edt block first
        payloads.now clerk.old)) }
    ensures gone { OnErr result (IsGone job.now.turns.now worker clerk.new) }
{
    let place = job.turns.limit() + edt.0;
    let core = clerk.part(place);
    let face = clerk.part(edt.0);
    let other = clerk.part(block.0);
    let Ok(act) = act_at(alloc, core, face, other, edt, block, payloads) else {
        return Err(close_memory(job, worker, clerk));
    };
    Ok(act)
}
