// How a worker leaves its work.
ghost use Rattle.std.specs.Prelude.{◌≡◌, OnErr, OnOk};
ghost use Rattle.ocr_worker_clerk.specs.Work.{IsGone, Stays};
ghost use Rattle.ocr_worker_machine.specs.Ocr.{meaning};
ghost use Rattle.ocr_turns_rule.specs.Steps.{SeesOpen};
ghost use Rattle.ocr_worker.specs.Debts.{HasRested, IsAtRest};
ghost use Rattle.ocr_worker.specs.Progress.{IsBetween};

use ocr_steal::Hand;
use ocr_turns::Clerk;
use ocr_worker_clerk::{Gate, Job, Ocr, Over};
use std::sync::Wait;

/// Why a worker leaves.
#[derive(Clone, Copy, PartialEq, Eq, Debug)]
pub enum Leave {
    /// Nothing can come any more: so many entries the run has.
    Quiet { entries: u64 },
    /// The run has ended: the commit word that the clerk read, at least 2^48.
    Closed(u64),
}

/// A worker that has left.
#[derive(Drop)]
pub struct Worked {
    pub clerk: Clerk<Ocr>,
    pub hand: Hand,
    pub leave: Leave,
}

/// Looks whether the run goes on.
pub(crate) fn look_on<R: Wait, G: Gate>(
    job: &Job<R, G>,
    worker: u32,
    clerk: &mut Clerk<Ocr>,
) -> Result<(), Over>
    requires between { IsBetween job.now.turns.now job.now.program.now clerk.old }
    ensures stays { Stays clerk.old clerk.new }
    ensures goes_on { OnOk result ((clerk.new ≡ clerk.old) × SeesOpen meaning clerk.new.view) }
    ensures rests { IsAtRest job.now.turns.now clerk.old → HasRested result clerk.old clerk.new }
    ensures left { OnErr result (IsGone job.now.turns.now worker clerk.new) }
{
    match job.turns.look(clerk) {
        Some(word) => Err(Over(word)),
        None => Ok(()),
    }
}
