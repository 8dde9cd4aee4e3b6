// The rounds of an EDT that was claimed.
ghost use Rattle.std.specs.Prelude.{◌≡◌, ◌+◌, [], true, None, Some, IfNone, IfOk, OnOk, OnErr};
ghost use Rattle.ocr_worker_machine.specs.Ocr.{meaning};
ghost use Rattle.ocr_turns_rule.specs.Words.{SeesReady};
ghost use Rattle.ocr_worker_clerk.specs.Push.{ReadiesNone};
ghost use Rattle.ocr_worker_clerk.specs.Work.{AtWork, HasTakenOn, IsGone, Stays};
ghost use Rattle.ocr_worker_acquisition.specs.Block.{HoldsCore};
ghost use Rattle.ocr_worker_acquisition.specs.Rounds.{IsAfter, IsAwoken, IsWantedIf, next_block};

use crate::payloads::Payloads;
use crate::rounds::{block_round, face_round};
use ocr_edt::Edt;
use ocr_guid::Guid;
use ocr_machine_parts::Part;
use ocr_turns::Clerk;
use ocr_worker_clerk::{Gate, Job, Ocr, Over, take_part};
use std::alloc::Global;
use std::sync::Wait;

/// What a round comes to.
#[derive(Drop)]
pub enum Step {
    /// The plan is done, and the EDT may start with these payloads.
    Ready(Payloads),
    /// It goes on: at this block, which it acquires next, or where none is told at its face.
    Next(Option<Guid>),
    /// It waits for a block, and is parked.
    Parked,
}

/// How far an EDT came that was claimed.
#[derive(Drop)]
pub enum Woken {
    /// It may start with these payloads.
    Ready(Payloads),
    /// It waits for a block, and is parked.
    Parked,
}

/// Takes on an EDT that was claimed ready: acquires the blocks of its plan, until it may start or
/// waits for one of them. Ends the run for want of memory.
pub fn wake<R: Wait, G: Gate>(
    alloc: Global,
    job: &Job<R, G>,
    worker: u32,
    clerk: &mut Clerk<Ocr>,
    edt: Guid,
) -> Result<Woken, Over>
    requires work { AtWork job.now.turns.now job.now.program.now clerk.old }
    requires taken { HasTakenOn job.now.turns.now.1 edt clerk.old }
    requires bare { (clerk.old.view.parts ≡ []) × (clerk.old.parts ≡ []) }
    requires ready { SeesReady meaning clerk.old.view edt }
    ensures stays { Stays clerk.old clerk.new }
    ensures work { OnOk result (AtWork job.now.turns.now job.now.program.now clerk.new) }
    ensures awoken { IfOk result (λ w. IsAwoken job.now.turns.now.1 edt w clerk.old clerk.new) }
    ensures readied { OnOk result (ReadiesNone clerk.old clerk.new) }
    ensures gone { OnErr result (IsGone job.now.turns.now worker clerk.new) }
{
    let place = job.turns.limit() + edt.0;
    take_part(job, worker, clerk, place)?;
    rounds(alloc, job, worker, clerk, edt)
}

// The rounds of an EDT whose core is kept.
#[tactic(auto, using(crate::proofs::Holds::waited_after))]
fn rounds<R: Wait, G: Gate>(
    alloc: Global,
    job: &Job<R, G>,
    worker: u32,
    clerk: &mut Clerk<Ocr>,
    edt: Guid,
) -> Result<Woken, Over>
    requires work { AtWork job.now.turns.now job.now.program.now clerk.old }
    requires holds { HoldsCore job.now.turns.now.1 edt clerk.old }
    ensures stays { Stays clerk.old clerk.new }
    ensures work { OnOk result (AtWork job.now.turns.now job.now.program.now clerk.new) }
    ensures awoken { IfOk result (λ w. IsAwoken job.now.turns.now.1 edt w clerk.old clerk.new) }
    ensures readied { OnOk result (ReadiesNone clerk.old clerk.new) }
    ensures gone { OnErr result (IsGone job.now.turns.now worker clerk.new) }
{
    // Most EDTs start at the first round, and a loop that may go on for ever costs more to begin.
    match round(alloc, job, worker, clerk, edt, None)? {
        Step::Ready(payloads) => Ok(Woken::Ready(payloads)),
        Step::Parked => Ok(Woken::Parked),
        Step::Next(wanted) => further_rounds(alloc, job, worker, clerk, edt, wanted),
    }
}

// The rounds after the first, which told what the EDT acquires next.
#[tactic(auto, using(crate::proofs::Holds::waited_after))]
fn further_rounds<R: Wait, G: Gate>(
    alloc: Global,
    job: &Job<R, G>,
    worker: u32,
    clerk: &mut Clerk<Ocr>,
    edt: Guid,
    mut wanted: Option<Guid>,
) -> Result<Woken, Over>
    requires work { AtWork job.now.turns.now job.now.program.now clerk.old }
    requires holds { HoldsCore job.now.turns.now.1 edt clerk.old }
    requires wanted { IsWantedIf job.now.turns.now.1 edt wanted clerk.old }
    ensures stays { Stays clerk.old clerk.new }
    ensures work { OnOk result (AtWork job.now.turns.now job.now.program.now clerk.new) }
    ensures awoken { IfOk result (λ w. IsAwoken job.now.turns.now.1 edt w clerk.old clerk.new) }
    ensures readied { OnOk result (ReadiesNone clerk.old clerk.new) }
    ensures gone { OnErr result (IsGone job.now.turns.now worker clerk.new) }
{
    for _ in job.rt.forever() {
        match round(alloc, job, worker, clerk, edt, wanted)? {
            Step::Ready(payloads) => return Ok(Woken::Ready(payloads)),
            Step::Parked => return Ok(Woken::Parked),
            Step::Next(next) => wanted = next,
        }
    }
    unreachable!()
}

// One round: at the block that the EDT is known to acquire next, else at its face.
#[inline(always)]
fn round<R: Wait, G: Gate>(
    alloc: Global,
    job: &Job<R, G>,
    worker: u32,
    clerk: &mut Clerk<Ocr>,
    edt: Guid,
    wanted: Option<Guid>,
) -> Result<Step, Over>
    requires work { AtWork job.now.turns.now job.now.program.now clerk.old }
    requires holds { HoldsCore job.now.turns.now.1 edt clerk.old }
    requires wanted { IsWantedIf job.now.turns.now.1 edt wanted clerk.old }
    ensures stays { Stays clerk.old clerk.new }
    ensures work { OnOk result (AtWork job.now.turns.now job.now.program.now clerk.new) }
    ensures after { IfOk result (λ s. IsAfter job.now.turns.now.1 edt s clerk.old clerk.new) }
    ensures readied { OnOk result (ReadiesNone clerk.old clerk.new) }
    ensures gone { OnErr result (IsGone job.now.turns.now worker clerk.new) }
{
    let place = job.turns.limit() + edt.0;
    match next_of(clerk.part(place)).or(wanted) {
        Some(block) => block_round(alloc, job, worker, clerk, edt, block),
        None => face_round(alloc, job, worker, clerk, edt),
    }
}

/// The block that an EDT acquires next, where its core tells one.
pub(crate) fn next_of(core: &Part) -> Option<Guid>
    ensures { result ≡ next_block core.now }
{
    let Part::Core(core) = core else {
        return None;
    };
    match &core.get().edt {
        Edt::Acquiring(acquiring) => Some(acquiring.next()?.0),
        Edt::Waiting(waiting) => Some(waiting.next().0),
        Edt::Filling(_) | Edt::Running(_) | Edt::Ended(_) => None,
    }
}
