// A worker delivers what its clerk owes.
ghost use Rattle.std.specs.Prelude.{◌≡◌, ◌<◌, length, OnOk, OnErr};
ghost use Rattle.ocr_machine_history.specs.declared.entry.Message.{Message};
ghost use Rattle.ocr_turns_rule.specs.Words.{OwesPayload};
ghost use Rattle.ocr_worker_clerk.specs.Work.{AtWork, EntersKept, IsGone, IsIdleClerk, Stays};
ghost use Rattle.ocr_worker_clerk.specs.Push.{IsPushed, PushesReady};
ghost use Rattle.ocr_worker_delivery.specs.Delivery.{Delivers, IsFirstOwed, IsOwed, SetsSlot, Settles, delivery_of, no_parts};

use crate::event::deliver_satisfaction;
use crate::scope::deliver_leave;
use ocr_count::{Down, count_down, put_payload};
use ocr_guid::{Code, Guid};
use ocr_machine_history::{Entry, Message, What};
use ocr_steal::Hand;
use ocr_turns::Clerk;
use ocr_worker_clerk::{Gate, Job, Ocr, Over, enter_kept, push_ready};
use std::alloc::Global;
use std::sync::Wait;

/// Delivers a message that the clerk owes and that sets a slot: enters the delivery, puts the
/// payload, counts the slot, and pushes the EDT where nothing of it is left to be counted. `Over`
/// where the run has ended, or is ended here: where the clerk's log would weigh more than its share
/// with the delivery, and where memory is refused. Whether the delivery stands then, no clause
/// tells.
pub fn deliver_set<R: Wait, G: Gate>(
    alloc: Global,
    job: &Job<R, G>,
    worker: u32,
    clerk: &mut Clerk<Ocr>,
    hand: &mut Hand,
    message: Message,
) -> Result<(), Over>
    requires work { AtWork job.now.turns.now job.now.program.now clerk.old }
    requires idle { IsIdleClerk clerk.old }
    requires owed { IsOwed message clerk.old.view }
    requires sets { SetsSlot message.what }
    ensures stays { Stays clerk.old clerk.new }
    ensures hand { IsPushed hand.old hand.new }
    ensures work { OnOk result (AtWork job.now.turns.now job.now.program.now clerk.new) }
    ensures idle { OnOk result (IsIdleClerk clerk.new) }
    ensures delivered { OnOk result (Delivers job.now.turns.now.1 message clerk.old clerk.new) }
    ensures pushed { OnOk result (PushesReady clerk.old clerk.new hand.old hand.new) }
    ensures gone { OnErr result (IsGone job.now.turns.now worker clerk.new) }
{
    let what = message.what;
    enter_delivery(alloc, job, worker, clerk, message)?;
    let (edt, slot, payload) = slot_of(what);
    count_slot(alloc, job, worker, clerk, hand, edt, slot, payload)
}

/// Enters the delivery of a message that the clerk owes and that sets a slot, without a part.
fn enter_delivery<R: Wait, G: Gate>(
    alloc: Global,
    job: &Job<R, G>,
    worker: u32,
    clerk: &mut Clerk<Ocr>,
    message: Message,
) -> Result<(), Over>
    requires work { AtWork job.now.turns.now job.now.program.now clerk.old }
    requires idle { IsIdleClerk clerk.old }
    requires owed { IsOwed message clerk.old.view }
    requires sets { SetsSlot message.what }
    ensures stays { Stays clerk.old clerk.new }
    ensures work { OnOk result (AtWork job.now.turns.now job.now.program.now clerk.new) }
    ensures entered { OnOk result (EntersKept job.now.turns.now.1 clerk.old clerk.new
        (delivery_of message) no_parts) }
    ensures gone { OnErr result (IsGone job.now.turns.now worker clerk.new) }
{
    let entry = Entry::Deliver {
        message,
        code: Code::Done,
    };
    enter_kept(alloc, job, worker, clerk, entry, &[])?;
    Ok(())
}

/// Puts the payload of a slot that an entry of the clerk set, counts the slot, and pushes the EDT
/// where nothing of it is left to be counted.
fn count_slot<R: Wait, G: Gate>(
    alloc: Global,
    job: &Job<R, G>,
    worker: u32,
    clerk: &mut Clerk<Ocr>,
    hand: &mut Hand,
    edt: Guid,
    slot: u32,
    payload: Guid,
) -> Result<(), Over>
    requires work { AtWork job.now.turns.now job.now.program.now clerk.old }
    requires owes { OwesPayload clerk.old.view edt slot payload }
    ensures stays { Stays clerk.old clerk.new }
    ensures hand { IsPushed hand.old hand.new }
    ensures work { OnOk result (AtWork job.now.turns.now job.now.program.now clerk.new) }
    ensures settled { OnOk result (Settles edt slot payload clerk.old clerk.new hand.old hand.new) }
    ensures gone { OnErr result (IsGone job.now.turns.now worker clerk.new) }
{
    put_payload(job.turns, clerk, edt, slot, payload.0);
    match count_down(job.turns, clerk, edt) {
        Down::More(_left) => Ok(()),
        Down::Last => push_ready(alloc, job, worker, clerk, hand, edt),
    }
}

/// Delivers the first message that the clerk owes. It answers as `deliver_set`,
/// `deliver_satisfaction` and `deliver_leave` do.
pub fn deliver_owed<R: Wait, G: Gate>(
    alloc: Global,
    job: &Job<R, G>,
    worker: u32,
    clerk: &mut Clerk<Ocr>,
    hand: &mut Hand,
) -> Result<(), Over>
    requires work { AtWork job.now.turns.now job.now.program.now clerk.old }
    requires idle { IsIdleClerk clerk.old }
    requires owes { 0 < length clerk.old.view.owed }
    ensures stays { Stays clerk.old clerk.new }
    ensures hand { IsPushed hand.old hand.new }
    ensures work { OnOk result (AtWork job.now.turns.now job.now.program.now clerk.new) }
    ensures idle { OnOk result (IsIdleClerk clerk.new) }
    ensures delivered { OnOk result ((m : Message) × IsFirstOwed m clerk.old.view
        × Delivers job.now.turns.now.1 m clerk.old clerk.new) }
    ensures pushed { OnOk result (PushesReady clerk.old clerk.new hand.old hand.new) }
    ensures gone { OnErr result (IsGone job.now.turns.now worker clerk.new) }
{
    let message = first_owed(clerk);
    match message.what {
        What::Set { .. } => deliver_set(alloc, job, worker, clerk, hand, message),
        What::Satisfy { .. } => deliver_satisfaction(alloc, job, worker, clerk, message),
        What::Leave { .. } => deliver_leave(alloc, job, worker, clerk, message),
    }
}

/// The first message that the clerk owes.
fn first_owed(clerk: &Clerk<Ocr>) -> Message
    requires { 0 < length clerk.now.view.owed }
    ensures { IsFirstOwed result clerk.now.view }
{
    let (place, index, what) = clerk.first_owed();
    Message {
        place: *place,
        index: *index,
        what: *what,
    }
}

/// The EDT and the slot that a message sets, and the payload.
fn slot_of(what: What) -> (Guid, u32, Guid)
    requires { SetsSlot what }
    ensures { what ≡ What.Set result.0 result.1 result.2 }
{
    match what {
        What::Set { edt, slot, payload } => (edt, slot, payload),
        _ => unreachable!(),
    }
}
