// One worker drains what is left.
ghost use Rattle.std.specs.Prelude.{◌≡◌, false, IfOk, OnErr, OnOk};
ghost use Rattle.ocr_worker_clerk.specs.Work.{IsAway, IsGone, Stays};
ghost use Rattle.ocr_worker_machine.specs.Drained.{IsUnready};
ghost use Rattle.ocr_steal.specs.Hand.{IsSame};
ghost use Rattle.ocr_turns_rule.specs.Debts.{IsNumber};
ghost use Rattle.ocr_worker.specs.declared.drained.Drained.TheVariants as drained;
ghost use Rattle.ocr_worker.specs.Leave.{AllUnready, DrainLeaves};
ghost use Rattle.ocr_worker.specs.Debts.{HasDelivered, HasRested};
ghost use Rattle.ocr_worker.specs.Debts.{IsAlone, IsAtRest, SeesQuiet};
ghost use Rattle.ocr_worker.specs.Progress.{IsBetween};

use crate::closed_word::closing_word;
use crate::debts::deliver_all;
use crate::leave::look_on;
use crate::progress::{Advanced, advance, advance_found};
use ocr_guid::Guid;
use ocr_steal::Hand;
use ocr_turns::Clerk;
use ocr_worker_clerk::{Gate, Job, Ocr, Over};
use std::alloc::Global;
use std::sync::Wait;

/// How a drain ended.
#[derive(Clone, Copy, PartialEq, Eq, Debug)]
pub enum Drained {
    /// Nothing is left to do.
    Quiet,
    /// The run has ended: the commit word that the clerk read, at least 2^48.
    Closed(u64),
}

/// Works with nobody else at work: takes on the EDTs that are given, delivers what its clerk owes,
/// takes on what its deque has, and then claims each EDT of the table, until no claim is won. It
/// ends with `Quiet` exactly where the history is quiet, else with `Closed`, as the run has ended.
pub fn drain<R: Wait, G: Gate>(
    alloc: Global,
    job: &Job<R, G>,
    worker: u32,
    clerk: &mut Clerk<Ocr>,
    hand: &mut Hand,
    ready: &[Guid],
) -> Drained
    requires between { IsBetween job.now.turns.now job.now.program.now clerk.old }
    requires alone { IsAlone clerk.old }
    ensures stays { Stays clerk.old clerk.new × IsSame hand.old hand.new }
    ensures own { IsAway job.now.turns.now worker clerk.new }
    ensures exact { SeesQuiet job.now.turns.now clerk.old → result ≡ drained.Quiet }
    ensures leaves { DrainLeaves job.now.turns.now job.now.program.now worker result clerk.new }
{
    match drain_on(alloc, job, worker, clerk, hand, ready) {
        Ok(()) => Drained::Quiet,
        Err(_) => Drained::Closed(closing_word(job.turns, clerk)),
    }
}

fn drain_on<R: Wait, G: Gate>(
    alloc: Global,
    job: &Job<R, G>,
    worker: u32,
    clerk: &mut Clerk<Ocr>,
    hand: &mut Hand,
    ready: &[Guid],
) -> Result<(), Over>
    requires between { IsBetween job.now.turns.now job.now.program.now clerk.old }
    requires alone { IsAlone clerk.old }
    ensures stays { Stays clerk.old clerk.new × IsSame hand.old hand.new }
    ensures idle { OnOk result (IsBetween job.now.turns.now job.now.program.now clerk.new
        × HasDelivered clerk.new × SeesQuiet job.now.turns.now clerk.new) }
    ensures rests { IsAtRest job.now.turns.now clerk.old → HasRested result clerk.old clerk.new }
    ensures left { OnErr result (IsGone job.now.turns.now worker clerk.new) }
{
    advance_each(alloc, job, worker, clerk, hand, ready)?;
    for _ in job.rt.forever() {
        deliver_all(alloc, job, worker, clerk, hand)?;
        match hand.take() {
            Some(edt) => advance_found(alloc, job, worker, clerk, hand, edt)?,
            None => {
                if !advance_all(alloc, job, worker, clerk, hand)? {
                    return look_on(job, worker, clerk);
                }
            }
        }
    }
    unreachable!()
}

/// Takes these EDTs on.
fn advance_each<R: Wait, G: Gate>(
    alloc: Global,
    job: &Job<R, G>,
    worker: u32,
    clerk: &mut Clerk<Ocr>,
    hand: &mut Hand,
    ready: &[Guid],
) -> Result<(), Over>
    requires between { IsBetween job.now.turns.now job.now.program.now clerk.old }
    ensures stays { Stays clerk.old clerk.new × IsSame hand.old hand.new }
    ensures done { OnOk result (IsBetween job.now.turns.now job.now.program.now clerk.new) }
    ensures rests { IsAtRest job.now.turns.now clerk.old → HasRested result clerk.old clerk.new }
    ensures left { OnErr result (IsGone job.now.turns.now worker clerk.new) }
{
    for edt in ready {
        advance_found(alloc, job, worker, clerk, hand, *edt)?;
    }
    Ok(())
}

/// Takes on each EDT of the table that is ready: whether there was one.
fn advance_all<R: Wait, G: Gate>(
    alloc: Global,
    job: &Job<R, G>,
    worker: u32,
    clerk: &mut Clerk<Ocr>,
    hand: &mut Hand,
) -> Result<bool, Over>
    requires between { IsBetween job.now.turns.now job.now.program.now clerk.old }
    ensures stays { Stays clerk.old clerk.new × IsSame hand.old hand.new }
    ensures done { OnOk result (IsBetween job.now.turns.now job.now.program.now clerk.new) }
    ensures none { IfOk result (λ any. any ≡ false → (clerk.new ≡ clerk.old)
        × AllUnready job.now.turns.now.1.limit clerk.new) }
    ensures rests { IsAtRest job.now.turns.now clerk.old → HasRested result clerk.old clerk.new }
    ensures left { OnErr result (IsGone job.now.turns.now worker clerk.new) }
{
    let mut any = false;
    for number in 0..job.turns.limit() {
        match advance(alloc, job, worker, clerk, hand, Guid(number + 1)) {
            Advanced::Lost(_) => {}
            Advanced::Closed(word) => return Err(Over(word)),
            _ => any = true,
        }
    }
    Ok(any)
}
