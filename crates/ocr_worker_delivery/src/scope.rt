// A worker delivers a message that leaves a finish scope.
ghost use Rattle.std.specs.Prelude.{◌≡◌, ◌∷◌, [], true, OnOk, OnErr};
ghost use Rattle.ocr_turns_rule.specs.Steps.{SeesBoth};
ghost use Rattle.ocr_worker_machine.specs.Clerks.{OwesLeave};
ghost use Rattle.ocr_worker_machine.specs.Ocr.{meaning};
ghost use Rattle.ocr_machine_parts.specs.Taken.{is_within};
ghost use Rattle.ocr_worker_clerk.specs.Push.{ReadiesNone};
ghost use Rattle.ocr_worker_clerk.specs.Work.{AtWork, IsGone, IsIdleClerk, Stays, Took};
ghost use Rattle.ocr_worker_delivery.specs.Delivery.{Delivers, IsOwed, LeavesScope};

use ocr_guid::{Code, Guid};
use ocr_machine_history::{Entry, Message, What};
use ocr_turns::Clerk;
use ocr_worker_clerk::{
    Gate, Job, Ocr, Over, close_memory, enter_at_work, give_all, lift_parts, take_part,
};
use std::alloc::Global;
use std::sync::Wait;

/// Delivers a message that the clerk owes and that leaves a scope: takes the scope's face once its
/// turn is free, enters the delivery, and gives the face back. What a scope that is done sends is
/// owed then. It answers as `deliver_satisfaction` does.
pub fn deliver_leave<R: Wait, G: Gate>(
    alloc: Global,
    job: &Job<R, G>,
    worker: u32,
    clerk: &mut Clerk<Ocr>,
    message: Message,
) -> Result<(), Over>
    requires work { AtWork job.now.turns.now job.now.program.now clerk.old }
    requires idle { IsIdleClerk clerk.old }
    requires owed { IsOwed message clerk.old.view }
    requires leaves { LeavesScope message.what }
    ensures stays { Stays clerk.old clerk.new }
    ensures work { OnOk result (AtWork job.now.turns.now job.now.program.now clerk.new) }
    ensures idle { OnOk result (IsIdleClerk clerk.new) }
    ensures delivered { OnOk result (Delivers job.now.turns.now.1 message clerk.old clerk.new) }
    ensures readied { OnOk result (ReadiesNone clerk.old clerk.new) }
    ensures gone { OnErr result (IsGone job.now.turns.now worker clerk.new) }
{
    let scope = scope_of(message.what);
    take_scope(job, worker, clerk, scope)?;
    let places = [scope.0];
    let Ok(parts) = lift_parts(alloc, clerk, &places) else {
        return Err(close_memory(job, worker, clerk));
    };
    let entry = Entry::Deliver {
        message,
        code: Code::Done,
    };
    enter_at_work(alloc, job, worker, clerk, entry, parts)?;
    give_all(job.turns, job.program, clerk, &places);
    Ok(())
}

/// Takes the face of a scope that an owed message leaves.
fn take_scope<R: Wait, G: Gate>(
    job: &Job<R, G>,
    worker: u32,
    clerk: &mut Clerk<Ocr>,
    scope: Guid,
) -> Result<(), Over>
    requires work { AtWork job.now.turns.now job.now.program.now clerk.old }
    requires idle { IsIdleClerk clerk.old }
    requires owes { OwesLeave clerk.old.view scope }
    ensures stays { Stays clerk.old clerk.new }
    ensures work { OnOk result (AtWork job.now.turns.now job.now.program.now clerk.new) }
    ensures took { OnOk result (Took clerk.old clerk.new (scope ∷ [])) }
    ensures sees { OnOk result (SeesBoth meaning clerk.old.view clerk.new.view) }
    ensures within { OnOk result (is_within job.now.turns.now.1.limit scope ≡ true) }
    ensures gone { OnErr result (IsGone job.now.turns.now worker clerk.new) }
{
    if let Some(word) = job.turns.look(clerk) {
        return Err(Over(word));
    }
    take_part(job, worker, clerk, scope.0)
}

/// The scope that a message leaves.
fn scope_of(what: What) -> Guid
    requires { LeavesScope what }
    ensures { what ≡ What.Leave result }
{
    match what {
        What::Leave { scope } => scope,
        _ => unreachable!(),
    }
}
