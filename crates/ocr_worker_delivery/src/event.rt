// A worker delivers a message that satisfies an event.
ghost use Rattle.std.specs.Prelude.{◌≡◌, ◌∷◌, [], true, OnOk, OnErr};
ghost use Rattle.ocr_turns_rule.specs.Steps.{SeesBoth};
ghost use Rattle.ocr_worker_machine.specs.Ocr.{meaning};
ghost use Rattle.ocr_machine_parts.specs.Taken.{is_within};
ghost use Rattle.ocr_worker_clerk.specs.Push.{ReadiesNone};
ghost use Rattle.ocr_worker_clerk.specs.Work.{AtWork, IsGone, IsIdleClerk, Stays, Took};
ghost use Rattle.ocr_worker_delivery.specs.Delivery.{Delivers, IsOwed, OwesTo, SatisfiesEvent};

use ocr_guid::Guid;
use ocr_machine_codes::delivery_code;
use ocr_machine_history::{Entry, Message, What};
use ocr_turns::Clerk;
use ocr_worker_clerk::{
    Gate, Job, Ocr, Over, close_memory, enter_at_work, give_all, lift_parts, take_part,
};
use std::alloc::Global;
use std::sync::Wait;

/// Delivers a message that the clerk owes and that satisfies an event: takes the event's face once
/// its turn is free, enters the delivery as the event answers it, and gives the face back. What the
/// event sends is owed then. `Over` where the run has ended, or is ended here: where the clerk's
/// log would weigh more than its share with the delivery, and where memory is refused.
pub fn deliver_satisfaction<R: Wait, G: Gate>(
    alloc: Global,
    job: &Job<R, G>,
    worker: u32,
    clerk: &mut Clerk<Ocr>,
    message: Message,
) -> Result<(), Over>
    requires work { AtWork job.now.turns.now job.now.program.now clerk.old }
    requires idle { IsIdleClerk clerk.old }
    requires owed { IsOwed message clerk.old.view }
    requires satisfies { SatisfiesEvent message.what }
    ensures stays { Stays clerk.old clerk.new }
    ensures work { OnOk result (AtWork job.now.turns.now job.now.program.now clerk.new) }
    ensures idle { OnOk result (IsIdleClerk clerk.new) }
    ensures delivered { OnOk result (Delivers job.now.turns.now.1 message clerk.old clerk.new) }
    ensures readied { OnOk result (ReadiesNone clerk.old clerk.new) }
    ensures gone { OnErr result (IsGone job.now.turns.now worker clerk.new) }
{
    let (event, _slot, payload) = event_of(message.what);
    take_event(job, worker, clerk, event)?;
    let places = [event.0];
    let Ok(parts) = lift_parts(alloc, clerk, &places) else {
        return Err(close_memory(job, worker, clerk));
    };
    let code = delivery_code(job.turns.limit(), event, payload, &parts);
    let entry = Entry::Deliver { message, code };
    enter_at_work(alloc, job, worker, clerk, entry, parts)?;
    give_all(job.turns, job.program, clerk, &places);
    Ok(())
}

/// Takes the face of an event that an owed message satisfies.
fn take_event<R: Wait, G: Gate>(
    job: &Job<R, G>,
    worker: u32,
    clerk: &mut Clerk<Ocr>,
    event: Guid,
) -> Result<(), Over>
    requires work { AtWork job.now.turns.now job.now.program.now clerk.old }
    requires idle { IsIdleClerk clerk.old }
    requires owes { OwesTo event clerk.old.view }
    ensures stays { Stays clerk.old clerk.new }
    ensures work { OnOk result (AtWork job.now.turns.now job.now.program.now clerk.new) }
    ensures took { OnOk result (Took clerk.old clerk.new (event ∷ [])) }
    ensures sees { OnOk result (SeesBoth meaning clerk.old.view clerk.new.view) }
    ensures within { OnOk result (is_within job.now.turns.now.1.limit event ≡ true) }
    ensures gone { OnErr result (IsGone job.now.turns.now worker clerk.new) }
{
    if let Some(word) = job.turns.look(clerk) {
        return Err(Over(word));
    }
    take_part(job, worker, clerk, event.0)
}

/// The event that a message satisfies, its slot and the payload.
fn event_of(what: What) -> (Guid, u32, Guid)
    requires { SatisfiesEvent what }
    ensures { what ≡ What.Satisfy result.0 result.1 result.2 }
{
    match what {
        What::Satisfy {
            event,
            slot,
            payload,
        } => (event, slot, payload),
        _ => unreachable!(),
    }
}
