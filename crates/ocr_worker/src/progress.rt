// A worker takes an EDT on as far as it goes.
ghost use Rattle.std.specs.Prelude.{◌≡◌, ℕ, [], IfOk, OnErr, OnOk};
ghost use Rattle.ocr_worker_clerk.specs.Push.{IsPushed, PushesReady};
ghost use Rattle.ocr_worker_clerk.specs.Work.{AtWork, HasTakenOn, IsGone, Stays};
ghost use Rattle.ocr_worker_machine.specs.Ocr.{meaning};
ghost use Rattle.ocr_turns_rule.specs.Debts.{IsNumber};
ghost use Rattle.ocr_turns_rule.specs.Words.{SeesReady};
ghost use Rattle.ocr_worker.specs.Debts.{HasRested, IsAtRest};
ghost use Rattle.ocr_worker.specs.Progress.{AdvanceTells, HasCome, IsBetween, PushesBy};

use crate::closed_word::closing_word;
use ocr_count::{Claimed, claim};
use ocr_guid::Guid;
use ocr_steal::Hand;
use ocr_turns::Clerk;
use ocr_worker_acquisition::{Woken, wake};
use ocr_worker_body::run_body;
use ocr_worker_clerk::{Gate, Job, Ocr, Over};
use std::alloc::Global;
use std::sync::Wait;

/// How far an EDT came.
#[derive(Clone, Copy, PartialEq, Eq, Debug)]
pub enum Advanced {
    /// It was not ready: the word that the claim found.
    Lost(u64),
    /// It waits for a block, and whoever resumes it makes it ready.
    Parked,
    /// Its body ran to its end.
    Ended,
    /// The run has ended: the commit word that the clerk read, at least 2^48.
    Closed(u64),
}

/// Claims an EDT and takes it on as far as it goes. Want of memory ends the run.
pub fn advance<R: Wait, G: Gate>(
    alloc: Global,
    job: &Job<R, G>,
    worker: u32,
    clerk: &mut Clerk<Ocr>,
    hand: &mut Hand,
    edt: Guid,
) -> Advanced
    requires between { IsBetween job.now.turns.now job.now.program.now clerk.old }
    requires edt { IsNumber job.now.turns.now.1.limit edt }
    ensures stays { Stays clerk.old clerk.new }
    ensures hand { IsPushed hand.old hand.new }
    ensures pushed { PushesBy result clerk.old clerk.new hand.old hand.new }
    ensures lost { (word : ℕ) → result ≡ Advanced.Lost word → hand.new ≡ hand.old }
    ensures told { AdvanceTells job.now.turns.now job.now.program.now worker result edt clerk.old
        clerk.new }
{
    if let Claimed::Lost(word) = claim(job.turns, clerk, edt) {
        return Advanced::Lost(word);
    }
    match take_on(alloc, job, worker, clerk, hand, edt) {
        Ok(advanced) => advanced,
        Err(_) => Advanced::Closed(closing_word(job.turns, clerk)),
    }
}

/// Takes an EDT on that was claimed, until it waits or its body has run to its end.
fn take_on<R: Wait, G: Gate>(
    alloc: Global,
    job: &Job<R, G>,
    worker: u32,
    clerk: &mut Clerk<Ocr>,
    hand: &mut Hand,
    edt: Guid,
) -> Result<Advanced, Over>
    requires work { AtWork job.now.turns.now job.now.program.now clerk.old }
    requires taken { HasTakenOn job.now.turns.now.1 edt clerk.old }
    requires bare { (clerk.old.view.parts ≡ []) × (clerk.old.parts ≡ []) }
    requires ready { SeesReady meaning clerk.old.view edt }
    ensures stays { Stays clerk.old clerk.new }
    ensures hand { IsPushed hand.old hand.new }
    ensures pushed { OnOk result (PushesReady clerk.old clerk.new hand.old hand.new) }
    ensures came { IfOk result (λ a. HasCome job.now.turns.now job.now.program.now a edt clerk.old
        clerk.new) }
    ensures left { OnErr result (IsGone job.now.turns.now worker clerk.new) }
{
    match wake(alloc, job, worker, clerk, edt)? {
        Woken::Parked => Ok(Advanced::Parked),
        Woken::Ready(payloads) => {
            run_body(alloc, job, worker, clerk, hand, edt, payloads.as_slice())?;
            Ok(Advanced::Ended)
        }
    }
}

/// Takes an EDT on that was found in a deque, where it has a number of the table.
pub fn advance_found<R: Wait, G: Gate>(
    alloc: Global,
    job: &Job<R, G>,
    worker: u32,
    clerk: &mut Clerk<Ocr>,
    hand: &mut Hand,
    edt: Guid,
) -> Result<(), Over>
    requires between { IsBetween job.now.turns.now job.now.program.now clerk.old }
    ensures stays { Stays clerk.old clerk.new }
    ensures hand { IsPushed hand.old hand.new }
    ensures pushed { OnOk result (PushesReady clerk.old clerk.new hand.old hand.new) }
    ensures told { OnOk result (IsNumber job.now.turns.now.1.limit edt → (a : Advanced)
        × AdvanceTells job.now.turns.now job.now.program.now worker a edt clerk.old clerk.new) }
    ensures done { OnOk result (IsBetween job.now.turns.now job.now.program.now clerk.new) }
    ensures rests { IsAtRest job.now.turns.now clerk.old → HasRested result clerk.old clerk.new }
    ensures left { OnErr result (IsGone job.now.turns.now worker clerk.new) }
{
    if edt.0 < 1 || edt.0 > job.turns.limit() {
        return Ok(());
    }
    match advance(alloc, job, worker, clerk, hand, edt) {
        Advanced::Closed(word) => Err(Over(word)),
        _ => Ok(()),
    }
}
