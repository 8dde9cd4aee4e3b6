// The body of an EDT, from its start to its end.
ghost use Rattle.std.specs.Prelude.{◌≡◌, ◌⊎◌, OnOk, OnErr, IfErr, IfOk};
ghost use Rattle.ocr_body_meaning.specs.Behaviour.{Stops};
ghost use Rattle.ocr_body_meaning.specs.Body.{Body, says};
ghost use Rattle.ocr_body_meaning.specs.Laws.{IsSaid};
ghost use Rattle.ocr_worker_clerk.specs.Push.{IsPushed, PushesReady};
ghost use Rattle.ocr_worker_clerk.specs.Work.{AtWork, CanRun, IsGone, IsIdleClerk, Stays};
ghost use Rattle.ocr_worker_access.specs.Served.{Serves, own_log};
ghost use Rattle.ocr_worker_body.specs.Given.{body_given};
ghost use Rattle.ocr_worker_body.specs.Body.{EndsNow, HasReturned, HasStopped, is_for_memory};
ghost use Rattle.ocr_worker_body.specs.Start.{IsStartedWith};

use crate::desk::Desk;
use crate::frees::{finish, free_all};
use crate::given::{Inputs, begin};
use ocr_body::walk;
use ocr_body_meaning::{BodyStop, FUEL};
use ocr_guid::Guid;
use ocr_steal::Hand;
use ocr_turns::Clerk;
use ocr_worker_access::stop_run;
use ocr_worker_clerk::{Gate, Job, Ocr, Over, close_memory};
use std::alloc::Global;
use std::snapshot::Snapshot;
use std::sync::Wait;

/// Runs the body of an EDT that can run, from its Start to its End, and gives back what it still
/// holds then. The EDTs that it makes ready are pushed to the hand. It is refused where the run has
/// ended: by another worker, by the body itself, at the limit of entries or of objects, or for want
/// of memory.
pub fn run_body<R: Wait, G: Gate>(
    alloc: Global,
    job: &Job<R, G>,
    worker: u32,
    clerk: &mut Clerk<Ocr>,
    hand: &mut Hand,
    edt: Guid,
    payloads: &[Guid],
) -> Result<(), Over>
    requires work { AtWork job.now.turns.now job.now.program.now clerk.old }
    requires can { CanRun job.now.turns.now.1 edt payloads.now clerk.old }
    ensures stays { Stays clerk.old clerk.new }
    ensures work { OnOk result (AtWork job.now.turns.now job.now.program.now clerk.new) }
    ensures idle { OnOk result (IsIdleClerk clerk.new) }
    ensures ended { OnOk result (EndsNow edt clerk.old clerk.new) }
    ensures hand { IsPushed hand.old hand.new }
    ensures pushed { OnOk result (PushesReady clerk.old clerk.new hand.old hand.new) }
    ensures gone { OnErr result (IsGone job.now.turns.now worker clerk.new) }
{
    let given = begin(alloc, job, worker, clerk, edt, payloads)?;
    run_given(alloc, job, worker, clerk, hand, edt, &given)
}

// Runs the body that is given this, and ends the EDT.
fn run_given<R: Wait, G: Gate>(
    alloc: Global,
    job: &Job<R, G>,
    worker: u32,
    clerk: &mut Clerk<Ocr>,
    hand: &mut Hand,
    edt: Guid,
    given: &Inputs,
) -> Result<(), Over>
    ghost b: { Body }
    requires body { b ≡ body_given job.now.program.now given.now }
    requires work { AtWork job.now.turns.now job.now.program.now clerk.old }
    requires given { IsStartedWith job.now.turns.now.1 job.now.program.now edt given.now clerk.old }
    ensures stays { Stays clerk.old clerk.new }
    ensures work { OnOk result (AtWork job.now.turns.now job.now.program.now clerk.new) }
    ensures idle { OnOk result (IsIdleClerk clerk.new) }
    ensures ended { OnOk result (EndsNow edt clerk.old clerk.new) }
    ensures hand { IsPushed hand.old hand.new }
    ensures pushed { OnOk result (PushesReady clerk.old clerk.new hand.old hand.new) }
    ensures gone { OnErr result (IsGone job.now.turns.now worker clerk.new) }
{
    let pushed = Snapshot::of(&*hand);
    let last = Snapshot::of(&*clerk);
    let mut desk = Desk {
        alloc,
        job,
        worker,
        clerk,
        hand,
        edt,
        given,
        pushed,
        last,
        over: None,
        closings: 0,
    };
    let ending = walk(
        alloc,
        job.program,
        given.function,
        &given.params,
        &given.depv,
        FUEL,
        &mut desk,
    );
    let Desk {
        alloc: _,
        job: _,
        worker: _,
        clerk,
        hand,
        edt: _,
        given: _,
        pushed: _,
        last: _,
        over,
        closings: _,
    } = desk;
    if let Some(over) = over {
        return Err(over);
    }
    end_body(alloc, job, worker, clerk, hand, edt, ending)
}

// Gives back what the EDT still holds, and ends it; or the run, where the body stopped it.
fn end_body<R: Wait, G: Gate>(
    alloc: Global,
    job: &Job<R, G>,
    worker: u32,
    clerk: &mut Clerk<Ocr>,
    hand: &mut Hand,
    edt: Guid,
    ending: Result<Guid, BodyStop>,
) -> Result<(), Over>
    ghost b: { Body }
    requires work { AtWork job.now.turns.now job.now.program.now clerk.old }
    requires serves { Serves job.now.turns.now.1 clerk.old.view edt b }
    requires returned { IfOk ending (λ g. HasReturned job.now.turns.now.1 edt b g clerk.old) }
    requires cause { IfErr ending (λ stop. (stop ≡ BodyStop.NoMemory)
        ⊎ (IsSaid stop × (says b (own_log clerk.old.view.log edt) ≡ Stops stop))) }
    ensures stays { Stays clerk.old clerk.new }
    ensures work { OnOk result (AtWork job.now.turns.now job.now.program.now clerk.new) }
    ensures idle { OnOk result (IsIdleClerk clerk.new) }
    ensures ended { OnOk result (EndsNow edt clerk.old clerk.new) }
    ensures hand { IsPushed hand.old hand.new }
    ensures pushed { OnOk result (PushesReady clerk.old clerk.new hand.old hand.new) }
    ensures gone { OnErr result (IsGone job.now.turns.now worker clerk.new) }
    ensures stopped { IfErr ending (λ stop. HasStopped edt stop clerk.new) }
{
    let returned = match ending {
        Ok(returned) => returned,
        Err(stop) => return Err(stop_body(job, worker, clerk, edt, stop)),
    };
    free_all(alloc, job, worker, clerk, hand, edt)?;
    finish(alloc, job, worker, clerk, edt, returned)
}

// Ends the run where the body stopped it, or memory was refused.
fn stop_body<R: Wait, G: Gate>(
    job: &Job<R, G>,
    worker: u32,
    clerk: &mut Clerk<Ocr>,
    edt: Guid,
    stop: BodyStop,
) -> Over
    ghost b: { Body }
    requires work { AtWork job.now.turns.now job.now.program.now clerk.old }
    requires serves { Serves job.now.turns.now.1 clerk.old.view edt b }
    requires cause { (stop ≡ BodyStop.NoMemory)
        ⊎ (IsSaid stop × (says b (own_log clerk.old.view.log edt) ≡ Stops stop)) }
    ensures stays { Stays clerk.old clerk.new }
    ensures gone { IsGone job.now.turns.now worker clerk.new }
    ensures stopped { HasStopped edt stop clerk.new }
{
    if is_memory(stop) {
        return close_memory(job, worker, clerk);
    }
    stop_run(job, worker, clerk, edt, stop)
}

// Whether memory was refused.
fn is_memory(stop: BodyStop) -> bool
    ensures { result ≡ is_for_memory stop }
{
    matches!(stop, BodyStop::NoMemory)
}
