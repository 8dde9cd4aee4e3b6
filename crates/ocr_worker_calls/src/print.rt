// A print, which changes no part.
ghost use Rattle.std.specs.Prelude.{◌≡◌, IfOk, OnOk, OnErr};
ghost use Rattle.ocr_body_meaning.specs.Behaviour.{IsNextWith};
ghost use Rattle.ocr_body_meaning.specs.Body.{Body, says};
ghost use Rattle.ocr_body_meaning.specs.Holds.{private_of};
ghost use Rattle.ocr_body_meaning.specs.declared.call.Call.TheVariants as call;
ghost use Rattle.ocr_worker_clerk.specs.Push.{ReadiesNone};
ghost use Rattle.ocr_worker_clerk.specs.Work.{AtWork, IsGone, Stays};
ghost use Rattle.ocr_worker_calls.specs.Calls.{print_answer, print_entry};
ghost use Rattle.ocr_worker_access.specs.Access.{IsCalled, Runs, holds_at};
ghost use Rattle.ocr_worker_access.specs.Served.{own_log};

use crate::named::answer_of;
use ocr_body_meaning::{Answer, Call};
use ocr_guid::{Code, Guid};
use ocr_machine_history::{Entry, Writes};
use ocr_turns::Clerk;
use ocr_worker_clerk::{Gate, Job, Ocr, Over, enter_at_hand};
use std::alloc::Global;
use std::sync::Wait;

/// Enters a print of the body of the EDT, as `make_call` enters a call. It names the caller's
/// core alone and leaves it as it stands, so that nothing is lifted for it, and nothing is concluded
/// after it. It is never refused.
pub(crate) fn print<R: Wait, G: Gate>(
    alloc: Global,
    job: &Job<R, G>,
    worker: u32,
    clerk: &mut Clerk<Ocr>,
    edt: Guid,
    value: u64,
) -> Result<Answer, Over>
    ghost b: { Body }
    requires work { AtWork job.now.turns.now job.now.program.now clerk.old }
    requires runs { Runs job.now.turns.now.1 edt b clerk.old }
    requires next { IsNextWith (call.Print value)
        (private_of (call.Print value) (holds_at clerk.old))
        (says b (own_log clerk.old.view.log edt)) }
    ensures stays { Stays clerk.old clerk.new }
    ensures readied { OnOk result (ReadiesNone clerk.old clerk.new) }
    ensures work { OnOk result (AtWork job.now.turns.now job.now.program.now clerk.new) }
    ensures runs { OnOk result (Runs job.now.turns.now.1 edt b clerk.new) }
    ensures called { IfOk result (λ a. IsCalled edt (call.Print value) a clerk.old clerk.new) }
    ensures gone { OnErr result (IsGone job.now.turns.now worker clerk.new) }
{
    let entry = print_entry(alloc, edt, value);
    enter_at_hand(alloc, job, worker, clerk, entry, Vec::new(alloc))?;
    Ok(print_answer())
}

fn print_entry(alloc: Global, edt: Guid, value: u64) -> Entry
    ensures { result ≡ print_entry edt value }
{
    Entry::Call {
        edt,
        home: Guid::NULL,
        call: Call::Print { value },
        answer: print_answer(),
        writes: Writes::none(alloc),
    }
}

fn print_answer() -> Answer
    ensures { result ≡ print_answer }
{
    answer_of(Code::Done, Code::Done.number())
}
