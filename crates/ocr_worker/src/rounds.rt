// A worker's rounds.
ghost use Rattle.std.specs.Prelude.{◌≡◌, false, true, IfNone, IfOk, IfSome, MatchOption, OnErr, OnOk};
ghost use Rattle.ocr_worker_clerk.specs.Work.{IsAway, IsGone, Stays};
ghost use Rattle.ocr_steal.specs.Hand.{IsSame};
ghost use Rattle.ocr_steal.specs.Pool.{IsOfPool};
ghost use Rattle.ocr_worker.specs.Debts.{HasDelivered};
ghost use Rattle.ocr_worker.specs.Progress.{IsBetween};
ghost use Rattle.ocr_worker.specs.Leave.{HasGivenUp, IsWorker, LeavesQuiet, WorkLeaves};
ghost use Rattle.ocr_worker.specs.Steal.{HasDone, HasGot, HasGotNone};

use crate::closed_word::closing_word;
use crate::debts::deliver_all;
use crate::leave::{Leave, Worked, look_on};
use crate::pause::Pause;
use crate::progress::advance_found;
use crate::steal::steal_once;
use ocr_guid::Guid;
use ocr_live::LiveRead;
use ocr_steal::{Hand, Pool};
use ocr_turns::Clerk;
use ocr_worker_clerk::{Gate, Job, Ocr, Over, read_idle};
use std::alloc::Global;
use std::sync::Wait;

/// Works until nothing can come any more, or the run has ended. In each round it delivers what its
/// clerk owes, takes an EDT from its deque, or tries to steal one from each other hand. Where there
/// is nothing of all this, it gives up its units of the live word, and waits while that is not 0.
pub fn work<R: Wait, G: Gate>(
    alloc: Global,
    job: &Job<R, G>,
    worker: u32,
    mut clerk: Clerk<Ocr>,
    mut hand: Hand,
) -> Worked
    requires between { IsBetween job.now.turns.now job.now.program.now clerk }
    requires seat { IsWorker clerk }
    requires pool { IsOfPool job.now.pool.now hand }
    ensures stays { Stays clerk result.clerk × IsSame hand result.hand }
    ensures own { IsAway job.now.turns.now worker result.clerk }
    ensures leaves { WorkLeaves job.now.turns.now job.now.program.now worker result.leave
        result.clerk }
{
    let leave = match work_on(alloc, job, worker, &mut clerk, &mut hand) {
        Ok(entries) => Leave::Quiet { entries },
        Err(_) => Leave::Closed(closing_word(job.turns, &mut clerk)),
    };
    // Those that sleep are to see it, too.
    job.pool.bell.ring_all();
    Worked { clerk, hand, leave }
}

/// Works until nothing can come any more: how many entries there are then.
fn work_on<R: Wait, G: Gate>(
    alloc: Global,
    job: &Job<R, G>,
    worker: u32,
    clerk: &mut Clerk<Ocr>,
    hand: &mut Hand,
) -> Result<u64, Over>
    requires between { IsBetween job.now.turns.now job.now.program.now clerk.old }
    requires seat { IsWorker clerk.old }
    requires pool { IsOfPool job.now.pool.now hand.old }
    ensures stays { Stays clerk.old clerk.new × IsSame hand.old hand.new }
    ensures quiet { IfOk result (λ n. LeavesQuiet job.now.turns.now job.now.program.now n
        clerk.new) }
    ensures left { OnErr result (IsGone job.now.turns.now worker clerk.new) }
{
    let mut pause = Pause::new();
    for _ in job.rt.forever() {
        if round(alloc, job, worker, clerk, hand, &mut pause)? {
            continue;
        }
        if let Some(entries) = find_end(job, worker, clerk)? {
            return Ok(entries);
        }
        pause.wait(job.rt, &job.pool.bell);
    }
    unreachable!()
}

/// One round: whether it found something to do.
fn round<R: Wait, G: Gate>(
    alloc: Global,
    job: &Job<R, G>,
    worker: u32,
    clerk: &mut Clerk<Ocr>,
    hand: &mut Hand,
    pause: &mut Pause,
) -> Result<bool, Over>
    requires between { IsBetween job.now.turns.now job.now.program.now clerk.old }
    requires pool { IsOfPool job.now.pool.now hand.old }
    ensures stays { Stays clerk.old clerk.new × IsSame hand.old hand.new }
    ensures done { OnOk result (IsBetween job.now.turns.now job.now.program.now clerk.new) }
    ensures busy { IfOk result (λ found. found ≡ true → HasDone job.now.turns.now
        job.now.program.now job.now.pool.now worker clerk.old clerk.new hand.old hand.new) }
    ensures idle { IfOk result (λ found. found ≡ false → HasDelivered clerk.old
        × (clerk.new ≡ clerk.old) × HasGotNone job.now.pool.now hand.old hand.new) }
    ensures left { OnErr result (IsGone job.now.turns.now worker clerk.new) }
{
    if deliver_all(alloc, job, worker, clerk, hand)? {
        return Ok(true);
    }
    pause.look(&job.pool.bell);
    let Some(edt) = find(job.pool, hand) else {
        return Ok(false);
    };
    pause.end(&job.pool.bell);
    advance_found(alloc, job, worker, clerk, hand, edt)?;
    Ok(true)
}

/// An EDT of its own deque, or else one that it steals.
fn find(pool: &Pool, hand: &mut Hand) -> Option<Guid>
    requires { IsOfPool pool.now hand.old }
    ensures same { IsSame hand.old hand.new }
    ensures none { IfNone result (HasGotNone pool.now hand.old hand.new) }
    ensures some { IfSome result (HasGot pool.now hand.old hand.new) }
{
    match hand.take() {
        Some(edt) => Some(edt),
        None => steal_once(pool, hand),
    }
}

/// Whether nothing can come any more, for a worker that found nothing to do: how many entries there
/// are then.
fn find_end<R: Wait, G: Gate>(
    job: &Job<R, G>,
    worker: u32,
    clerk: &mut Clerk<Ocr>,
) -> Result<Option<u64>, Over>
    requires between { IsBetween job.now.turns.now job.now.program.now clerk.old }
    requires delivered { HasDelivered clerk.old }
    requires seat { IsWorker clerk.old }
    ensures stays { Stays clerk.old clerk.new }
    ensures told { IfOk result (λ end. MatchOption end
        (HasGivenUp job.now.turns.now job.now.program.now clerk.new)
        (λ n. LeavesQuiet job.now.turns.now job.now.program.now n clerk.new)) }
    ensures left { OnErr result (IsGone job.now.turns.now worker clerk.new) }
{
    job.gate.pass(job.rt, worker, clerk);
    look_on(job, worker, clerk)?;
    match read_idle(job.turns, job.program, clerk) {
        LiveRead::Quiet { entries } => Ok(Some(entries)),
        LiveRead::Busy(_) => Ok(None),
    }
}
