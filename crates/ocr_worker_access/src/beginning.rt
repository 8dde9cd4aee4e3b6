// The Start of an EDT.
ghost use Rattle.std.specs.Prelude.{◌≡◌, OnOk, OnErr};
ghost use Rattle.ocr_worker_clerk.specs.Entry.{PlannedParts};
ghost use Rattle.ocr_worker_clerk.specs.Push.{ReadiesNone};
ghost use Rattle.ocr_worker_clerk.specs.Work.{AtWork, CanRun, IsGone, Stays};
ghost use Rattle.ocr_worker_access.specs.Access.{HasBegun, hand_at};

use ocr_guid::Guid;
use ocr_machine_history::Entry;
use ocr_turns::Clerk;
use ocr_worker_clerk::{
    Gate, Job, Ocr, Over, close_memory, enter_at_hand, give_faces, put_started,
};
use std::alloc::Global;
use std::sync::Wait;

/// Enters the Start of an EDT whose plan is done, and keeps its core alone. Ends the run for want
/// of memory.
pub fn start<R: Wait, G: Gate>(
    alloc: Global,
    job: &Job<R, G>,
    worker: u32,
    clerk: &mut Clerk<Ocr>,
    edt: Guid,
    payloads: &[Guid],
) -> Result<(), Over>
    ghost h: { PlannedParts }
    requires hand { h ≡ hand_at clerk.old edt payloads.now }
    requires work { AtWork job.now.turns.now job.now.program.now clerk.old }
    requires can { CanRun job.now.turns.now.1 edt payloads.now clerk.old }
    ensures stays { Stays clerk.old clerk.new }
    ensures readied { OnOk result (ReadiesNone clerk.old clerk.new) }
    ensures work { OnOk result (AtWork job.now.turns.now job.now.program.now clerk.new) }
    ensures begun { OnOk result (HasBegun job.now.turns.now.1 edt payloads.now
        clerk.old clerk.new) }
    ensures gone { OnErr result (IsGone job.now.turns.now worker clerk.new) }
{
    let places = [job.turns.limit() + edt.0, edt.0];
    let Ok(()) = put_started(alloc, clerk, places[0], edt, payloads) else {
        return Err(close_memory(job, worker, clerk));
    };
    enter_at_hand(
        alloc,
        job,
        worker,
        clerk,
        Entry::Start { edt },
        Vec::new(alloc),
    )?;
    give_faces(job.turns, job.program, clerk, edt, &places[1..]);
    Ok(())
}
