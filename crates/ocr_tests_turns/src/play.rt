// What clerks do with the toy's counters.
ghost use Rattle.std.specs.Prelude.{◌≡◌, ◌<◌, ◌≤◌, ◌+◌, ◌*◌, [], All, IfNone, IfOk, IfSome, IsTrue, vec_len};
ghost use Rattle.ocr_base.specs.Mail as mail;
ghost use Rattle.ocr_turns_rule.specs.Steps as steps;
ghost use Rattle.ocr_turns_rule.specs.Contract.{IsOfTable};
ghost use Rattle.ocr_tests_turns.specs.Clerks.{Adds, IsIdle, IsOut};

use crate::toy::{Entry, Toy};
use ocr_base::NoMemory;
use ocr_live::raise;
use ocr_turns::{Change, Clerk, Committed, Taken, Turns};
use std::alloc::{AllocError, Global};
use std::sync::Wait;
use std::thread;
use std::thread::Threads;

/// How many places the clerks use, from 1 on.
pub(crate) const PLACES: u64 = 4;

/// What a clerk is to do.
#[derive(Drop)]
pub struct Job {
    pub clerk: Clerk<Toy>,
    /// How often it takes a place and gives it back, how many entries it makes then, and whether it
    /// ends the run at last.
    pub visits: u64,
    pub turns: u64,
    pub closes: bool,
}

/// What a clerk did.
#[derive(Drop)]
pub struct Worked {
    pub clerk: Clerk<Toy>,
    /// All that it was to do was done.
    pub is_whole: bool,
}

// The name of the message that the clerk has owed for longest.
pub(crate) fn owed_message(clerk: &Clerk<Toy>) -> Option<(u64, u32)>
    ensures has { mail.Has result clerk.now.view.owed }
    ensures none { IfNone result (clerk.now.view.owed ≡ []) }
{
    let owed = clerk.owed();
    if owed.is_empty() {
        return None;
    }
    let (number, index, _) = owed.first();
    Some((*number, *index))
}

/// Takes a place, adds to its counter by one entry, which may deliver a message that the clerk
/// owes, and gives the place back: the entry's number. `None`, where the run has ended, or counter
/// or log are full.
pub fn add<R: Wait>(
    rt: &R,
    alloc: Global,
    turns: &Turns<Toy>,
    clerk: &mut Clerk<Toy>,
    place: u64,
    count: u64,
    delivered: Option<(u64, u32)>,
) -> Result<Option<u64>, NoMemory>
    requires idle { IsIdle turns.now clerk.old }
    requires place { (1 ≤ place) × (place ≤ 2 * turns.now.1.limit) }
    requires owes { mail.Has delivered clerk.old.view.owed }
    requires unit { 1 ≤ clerk.old.view.spares + steps.delivered delivered }
    ensures out { IsOut turns.now clerk.new }
    ensures added { IfOk result (λ r. IfSome r (λ n. Adds turns.now n count delivered
        clerk.old clerk.new)) }
{
    if clerk.weight() >= turns.share() {
        return Ok(None);
    }
    turns.reserve(alloc, clerk, 1)?;
    let Taken::Mine = turns.take(rt, clerk, place) else {
        return Ok(None);
    };
    let found = *clerk.part(place);
    let Some(after) = found.checked_add(count) else {
        return Ok(None);
    };
    let change = Change {
        parts: vec![in alloc; (place, after)]?,
        messages: vec![in alloc; count]?,
    };
    let entry = Entry::Add {
        place,
        found,
        count,
        delivered,
    };
    let Committed::At(number) = turns.commit(clerk, entry, change) else {
        return Ok(None);
    };
    turns.give_back(clerk, place);
    Ok(Some(number))
}

/// The same, where the entry delivers the message that the clerk has owed for longest. False where
/// it was refused.
pub fn turn<R: Wait>(
    rt: &R,
    alloc: Global,
    turns: &Turns<Toy>,
    clerk: &mut Clerk<Toy>,
    place: u64,
    count: u64,
) -> Result<bool, NoMemory>
    requires idle { IsIdle turns.now clerk.old }
    requires place { (1 ≤ place) × (place ≤ 2 * turns.now.1.limit) }
    ensures out { IsOut turns.now clerk.new }
    ensures idle { IfOk result (λ goes. IsTrue goes → IsIdle turns.now clerk.new) }
{
    let delivered = owed_message(clerk);
    let number = add(rt, alloc, turns, clerk, place, count, delivered)?;
    Ok(number.is_some())
}

// So many turns, one place after the other. False where one was refused.
fn make_turns<R: Wait>(
    rt: &R,
    alloc: Global,
    turns: &Turns<Toy>,
    clerk: &mut Clerk<Toy>,
    count: u64,
) -> bool
    requires idle { IsIdle turns.now clerk.old }
    ensures out { IsOut turns.now clerk.new }
    ensures idle { IsTrue result → IsIdle turns.now clerk.new }
{
    for k in 0..count {
        let Ok(true) = turn(rt, alloc, turns, clerk, 1 + k % PLACES, k) else {
            return false;
        };
    }
    true
}

// Takes the first place and gives it back, without an entry. False where it was refused.
fn visit<R: Wait>(rt: &R, turns: &Turns<Toy>, clerk: &mut Clerk<Toy>) -> bool
    requires { IsIdle turns.now clerk.old }
    ensures out { IsOut turns.now clerk.new }
    ensures idle { IsTrue result → IsIdle turns.now clerk.new }
{
    let Taken::Mine = turns.take(rt, clerk, 1) else {
        return false;
    };
    turns.give_back(clerk, 1);
    true
}

// So many visits. False where one was refused.
fn make_visits<R: Wait>(rt: &R, turns: &Turns<Toy>, clerk: &mut Clerk<Toy>, count: u64) -> bool
    requires { IsIdle turns.now clerk.old }
    ensures out { IsOut turns.now clerk.new }
    ensures idle { IsTrue result → IsIdle turns.now clerk.new }
{
    for _ in 0..count {
        if !visit(rt, turns, clerk) {
            return false;
        }
    }
    true
}

// Ends the run, by a unit of its own to spare. False where it had ended.
fn stop(turns: &Turns<Toy>, clerk: &mut Clerk<Toy>) -> bool
    requires { IsIdle turns.now clerk.old }
    ensures { IsOut turns.now clerk.new }
{
    raise(turns, clerk, 1);
    matches!(turns.close(clerk, Entry::Stop, &[]), Committed::At(_))
}

/// Does a job.
pub fn work<R: Wait>(rt: &R, alloc: Global, turns: &Turns<Toy>, job: Job) -> Worked
    requires idle { IsIdle turns.now job.clerk }
    ensures { IsOut turns.now result.clerk }
{
    let Job {
        mut clerk,
        visits,
        turns: entries,
        closes,
    } = job;
    let is_whole = make_visits(rt, turns, &mut clerk, visits)
        && make_turns(rt, alloc, turns, &mut clerk, entries)
        && (!closes || stop(turns, &mut clerk));
    Worked { clerk, is_whole }
}

/// Does each job in a thread of its own.
pub fn work_all<R: Threads + Wait + Sync>(
    rt: &R,
    alloc: Global,
    turns: &Turns<Toy>,
    jobs: Vec<Job>,
) -> Result<Vec<Worked>, AllocError>
    requires jobs { All (λ job. IsIdle turns.now job.clerk) jobs.items }
    ensures many { IfOk result (λ v. vec_len v ≡ vec_len jobs) }
    ensures out { IfOk result (λ v. All (λ w. IsOut turns.now w.clerk) v.items) }
{
    thread::map_vec(
        rt,
        jobs,
        &|job: Job| -> Worked
            requires { IsIdle turns.now job.clerk }
            ensures { IsOut turns.entry.now result.clerk }
        { work(rt, alloc, turns, job) },
    )
}
