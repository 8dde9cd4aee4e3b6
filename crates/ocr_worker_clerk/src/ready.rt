// A worker pushes an EDT that is ready.
ghost use Rattle.std.specs.Prelude.{◌≡◌, OnOk, OnErr};
ghost use Rattle.ocr_worker_clerk.specs.Work.{AtWork, IsGone, Stays};
ghost use Rattle.ocr_worker_clerk.specs.Push.{IsPushed, Pushes};
ghost use Rattle.ocr_steal.specs.Hand.{own};

use crate::gate::Gate;
use crate::job::Job;
use crate::ocr::Ocr;
use crate::over::Over;
use crate::stop::close_memory;
use ocr_base::NoMemory;
use ocr_guid::Guid;
use ocr_steal::{Bell, Hand};
use ocr_turns::Clerk;
use std::alloc::Global;
use std::sync::Wait;

/// Pushes an EDT that is ready, and wakes another worker where this one has an EDT to take already.
/// Where memory is refused the run is ended, since the EDT would be lost.
#[inline(always)]
pub fn push_ready<R: Wait, G: Gate>(
    alloc: Global,
    job: &Job<R, G>,
    worker: u32,
    clerk: &mut Clerk<Ocr>,
    hand: &mut Hand,
    edt: Guid,
) -> Result<(), Over>
    requires work { AtWork job.now.turns.now job.now.program.now clerk.old }
    ensures stays { Stays clerk.old clerk.new }
    ensures hand { IsPushed hand.old hand.new }
    ensures same { OnOk result (clerk.new ≡ clerk.old) }
    ensures pushed { OnOk result (Pushes edt hand.old hand.new) }
    ensures gone { OnErr result (IsGone job.now.turns.now worker clerk.new) }
{
    match hand.push(alloc, edt) {
        Ok(()) => {
            if job.pool.bell.has_sleepers() {
                ring(&job.pool.bell, hand);
            }
            Ok(())
        }
        Err(NoMemory) => Err(close_memory(job, worker, clerk)),
    }
}

// Wakes another worker, where there is an EDT for it: a lone one its own worker takes next.
#[inline(never)]
fn ring(bell: &Bell, hand: &mut Hand)
    ensures hand { IsPushed hand.old hand.new }
    ensures own { own hand.new ≡ own hand.old }
{
    if hand.has_several() {
        bell.ring();
    }
}
