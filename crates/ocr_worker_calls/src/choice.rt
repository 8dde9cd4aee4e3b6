// A call of the body, by its kind: prints and plain creations of EDTs are entered at hand.
ghost use Rattle.std.specs.Prelude.{IfOk, OnOk, OnErr};
ghost use Rattle.ocr_body_meaning.specs.Behaviour.{IsNextWith};
ghost use Rattle.ocr_body_meaning.specs.Body.{Body, says};
ghost use Rattle.ocr_body_meaning.specs.Holds.{private_of};
ghost use Rattle.ocr_worker_clerk.specs.Push.{IsPushed, PushesReady};
ghost use Rattle.ocr_worker_clerk.specs.Work.{AtWork, IsGone, Stays};
ghost use Rattle.ocr_worker_access.specs.Calls.{IsCoded};
ghost use Rattle.ocr_worker_access.specs.Access.{IsCalled, Runs, holds_at};
ghost use Rattle.ocr_worker_access.specs.Served.{own_log};

use crate::call::make_from;
use crate::creation::create_bare;
use crate::print::print;
use ocr_body_meaning::{Answer, Call};
use ocr_guid::Guid;
use ocr_steal::Hand;
use ocr_turns::Clerk;
use ocr_worker_clerk::{Gate, Job, Ocr, Over};
use std::alloc::Global;
use std::sync::Wait;

/// Makes the call that the body of the EDT makes next: takes the parts that it names, enters it
/// with its answer, and concludes the entry. Then the clerk keeps the core alone, as
/// before. `Err` where the run has ended, or is ended here: for want of memory, which 2^32 messages
/// of one entry want too, for want of a number, or since the entry would pass the clerk's share.
pub fn make_call<R: Wait, G: Gate>(
    alloc: Global,
    job: &Job<R, G>,
    worker: u32,
    clerk: &mut Clerk<Ocr>,
    hand: &mut Hand,
    edt: Guid,
    call: &Call,
) -> Result<Answer, Over>
    ghost b: { Body }
    requires work { AtWork job.now.turns.now job.now.program.now clerk.old }
    requires runs { Runs job.now.turns.now.1 edt b clerk.old }
    requires next { IsNextWith call.now (private_of call.now (holds_at clerk.old))
        (says b (own_log clerk.old.view.log edt)) }
    requires coded { IsCoded call.now }
    ensures stays { Stays clerk.old clerk.new }
    ensures work { OnOk result (AtWork job.now.turns.now job.now.program.now clerk.new) }
    ensures runs { OnOk result (Runs job.now.turns.now.1 edt b clerk.new) }
    ensures called { IfOk result (λ a. IsCalled edt call.now a clerk.old clerk.new) }
    ensures hand { IsPushed hand.old hand.new }
    ensures pushed { OnOk result (PushesReady clerk.old clerk.new hand.old hand.new) }
    ensures gone { OnErr result (IsGone job.now.turns.now worker clerk.new) }
{
    match call {
        Call::EdtCreate { .. } => make_edt(alloc, job, worker, clerk, hand, edt, call),
        Call::Print { value } => print(alloc, job, worker, clerk, edt, *value),
        _ => make_from(alloc, job, worker, clerk, hand, edt, call),
    }
}

// The creation of an EDT: most are given nothing yet, and are made at hand.
fn make_edt<R: Wait, G: Gate>(
    alloc: Global,
    job: &Job<R, G>,
    worker: u32,
    clerk: &mut Clerk<Ocr>,
    hand: &mut Hand,
    edt: Guid,
    call: &Call,
) -> Result<Answer, Over>
    ghost b: { Body }
    requires work { AtWork job.now.turns.now job.now.program.now clerk.old }
    requires runs { Runs job.now.turns.now.1 edt b clerk.old }
    requires next { IsNextWith call.now (private_of call.now (holds_at clerk.old))
        (says b (own_log clerk.old.view.log edt)) }
    requires coded { IsCoded call.now }
    ensures stays { Stays clerk.old clerk.new }
    ensures work { OnOk result (AtWork job.now.turns.now job.now.program.now clerk.new) }
    ensures runs { OnOk result (Runs job.now.turns.now.1 edt b clerk.new) }
    ensures called { IfOk result (λ a. IsCalled edt call.now a clerk.old clerk.new) }
    ensures hand { IsPushed hand.old hand.new }
    ensures pushed { OnOk result (PushesReady clerk.old clerk.new hand.old hand.new) }
    ensures gone { OnErr result (IsGone job.now.turns.now worker clerk.new) }
{
    if let Some(answer) = create_bare(alloc, job, worker, clerk, hand, edt, call)? {
        return Ok(answer);
    }
    make_from(alloc, job, worker, clerk, hand, edt, call)
}
