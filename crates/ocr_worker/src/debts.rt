// A worker delivers what its clerk owes.
ghost use Rattle.std.specs.Prelude.{◌≡◌, true, false, IfOk, OnErr, OnOk};
ghost use Rattle.ocr_worker_clerk.specs.Push.{IsPushed, PushesReady};
ghost use Rattle.ocr_worker_clerk.specs.Work.{IsGone, Stays};
ghost use Rattle.ocr_worker.specs.Debts.{HasDelivered, HasRested};
ghost use Rattle.ocr_worker.specs.Progress.{IsBetween};

use ocr_steal::Hand;
use ocr_turns::Clerk;
use ocr_worker_clerk::{Gate, Job, Ocr, Over};
use ocr_worker_delivery::deliver_owed;
use std::alloc::Global;
use std::sync::Wait;

/// Delivers all that the clerk owes: whether it owed anything.
// Mostly nothing is owed, and then nothing is called.
#[inline(always)]
pub fn deliver_all<R: Wait, G: Gate>(
    alloc: Global,
    job: &Job<R, G>,
    worker: u32,
    clerk: &mut Clerk<Ocr>,
    hand: &mut Hand,
) -> Result<bool, Over>
    requires between { IsBetween job.now.turns.now job.now.program.now clerk.old }
    ensures stays { Stays clerk.old clerk.new }
    ensures hand { IsPushed hand.old hand.new }
    ensures pushed { OnOk result (PushesReady clerk.old clerk.new hand.old hand.new) }
    ensures done { OnOk result (IsBetween job.now.turns.now job.now.program.now clerk.new
        × HasDelivered clerk.new) }
    ensures some { IfOk result (λ any. any ≡ true → HasDelivered clerk.old → ⊥) }
    ensures none { IfOk result (λ any. any ≡ false → (clerk.new ≡ clerk.old)
        × (hand.new ≡ hand.old)) }
    ensures rests { HasDelivered clerk.old → HasRested result clerk.old clerk.new }
    ensures left { OnErr result (IsGone job.now.turns.now worker clerk.new) }
{
    if clerk.owed_len() == 0 {
        return Ok(false);
    }
    deliver_owing(alloc, job, worker, clerk, hand)?;
    Ok(true)
}

// Delivers until nothing is owed.
#[inline(never)]
fn deliver_owing<R: Wait, G: Gate>(
    alloc: Global,
    job: &Job<R, G>,
    worker: u32,
    clerk: &mut Clerk<Ocr>,
    hand: &mut Hand,
) -> Result<(), Over>
    requires between { IsBetween job.now.turns.now job.now.program.now clerk.old }
    ensures stays { Stays clerk.old clerk.new }
    ensures hand { IsPushed hand.old hand.new }
    ensures pushed { OnOk result (PushesReady clerk.old clerk.new hand.old hand.new) }
    ensures done { OnOk result (IsBetween job.now.turns.now job.now.program.now clerk.new
        × HasDelivered clerk.new) }
    ensures left { OnErr result (IsGone job.now.turns.now worker clerk.new) }
{
    for _ in job.rt.forever() {
        if clerk.owed_len() == 0 {
            return Ok(());
        }
        deliver_owed(alloc, job, worker, clerk, hand)?;
    }
    unreachable!()
}
