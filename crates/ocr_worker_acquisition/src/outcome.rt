// An EDT does what a block lets it do.
ghost use Rattle.std.specs.Prelude.{◌≡◌, ◌≢◌, true, OnOk, OnErr};
ghost use Rattle.ocr_machine_parts.specs.Taken.{is_within};
ghost use Rattle.ocr_worker_clerk.specs.Entry.{PlannedParts};
ghost use Rattle.ocr_worker_clerk.specs.Work.{AtWork, EntersKept, IsGone, Stays};
ghost use Rattle.ocr_worker_acquisition.specs.Block.{CarriesOut};
ghost use Rattle.ocr_worker_acquisition.specs.Acquisition.{entry_by};

use crate::act::{Act, enter_act};
use ocr_guid::Guid;
use ocr_turns::Clerk;
use ocr_worker_clerk::{Gate, Job, Ocr, Over, close_memory, put_ready};
use std::alloc::Global;
use std::sync::Wait;

/// Makes the EDT's core ready at hand, and enters what the block lets the EDT do.
pub fn carry_out<R: Wait, G: Gate>(
    alloc: Global,
    job: &Job<R, G>,
    worker: u32,
    clerk: &mut Clerk<Ocr>,
    edt: Guid,
    block: Guid,
    first: bool,
    act: Act,
    payloads: &[Guid],
) -> Result<(), Over>
    ghost h: { PlannedParts }
    requires work { AtWork job.now.turns.now job.now.program.now clerk.old }
    requires apart { edt ≢ block }
    requires block { is_within job.now.turns.now.1.limit block ≡ true }
    requires can { CarriesOut job.now.turns.now.1 edt block first payloads.now act h clerk.old }
    ensures stays { Stays clerk.old clerk.new }
    ensures work { OnOk result (AtWork job.now.turns.now job.now.program.now clerk.new) }
    ensures entered { OnOk result (EntersKept job.now.turns.now.1 clerk.old clerk.new
        (entry_by act edt block) h) }
    ensures gone { OnErr result (IsGone job.now.turns.now worker clerk.new) }
{
    let place = job.turns.limit() + edt.0;
    let Ok(()) = put_ready(alloc, clerk, place, edt, payloads) else {
        return Err(close_memory(job, worker, clerk));
    };
    if first {
        let places = [place, block.0, edt.0];
        return enter_act(
            alloc, job, worker, clerk, edt, block, act, payloads, &places,
        );
    }
    let places = [place, edt.0, block.0];
    enter_act(
        alloc, job, worker, clerk, edt, block, act, payloads, &places,
    )
}
