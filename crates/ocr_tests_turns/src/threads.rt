// Runs of the toy in threads.
ghost use Rattle.std.specs.Prelude.{◌≡◌, ◌≤◌, ◌<◌, ◌+◌, ◌∷◌, [], All, IfOk, length, map, vec_len};
ghost use Rattle.ocr_turns_rule.specs.Contract.{TermsAre};
ghost use Rattle.ocr_tests_turns.specs.Clerks.{HasUnit, IsIdle, IsOneRun, IsOut, IsRoot};

use crate::play::{Job, Worked, work_all};
use crate::toy::{Entry, Toy};
use ocr_base::NoMemory;
use ocr_live::{raise, split_live};
use ocr_turns::{Clerk, Log, Turns};
use std::alloc::Global;
use std::sync::Wait;
use std::thread::Threads;

/// How many threads take a place and give it back how often, and make how many entries each then;
/// and after how many the first ends the run.
#[derive(Drop)]
pub struct Plan {
    pub threads: u32,
    pub visits: u64,
    pub turns: u64,
    pub stop_after: Option<u64>,
}

/// What came of a run.
#[derive(Drop)]
pub struct Ran {
    /// The logs of the root and of all clerks.
    pub logs: Vec<Log<Entry>>,
    pub entries: u64,
    /// How many messages no entry delivered.
    pub owed: usize,
    /// No clerk was refused anything.
    pub is_whole: bool,
}

// A table for so many clerks besides the root.
pub(crate) fn open(alloc: Global, clerks: u32) -> Result<(Turns<Toy>, Clerk<Toy>), NoMemory>
    requires { clerks < 128 }
    ensures { IfOk result (λ t. IsRoot t.0 t.1 0 × (t.1.view.quota ≡ clerks) × HasUnit t.1 0) }
{
    let setting = 0;
    let opening = vec![in alloc; (1, 0)]?;
    Turns::new(alloc, &setting, opening, 2, 1_000_000, clerks + 1)
}

// A clerk for each thread, with its job and a unit.
fn hire(
    alloc: Global,
    turns: &Turns<Toy>,
    root: &mut Clerk<Toy>,
    plan: &Plan,
) -> Result<Vec<Job>, NoMemory>
    requires root { IsRoot turns.now root.old 0 }
    requires quota { plan.now.threads ≤ root.old.view.quota }
    requires unit { HasUnit root.old 0 }
    ensures root { IfOk result (λ jobs. IsRoot turns.now root.new (vec_len jobs)) }
    ensures jobs { IfOk result (λ jobs. All (λ job. IsIdle turns.now job.clerk) jobs.items) }
{
    let mut jobs = Vec::new(alloc);
    for k in 0..plan.threads {
        raise(turns, root, 1);
        let clerk = split_live(turns, alloc, root)?;
        jobs.push(job(plan, k, clerk))?;
    }
    Ok(jobs)
}

// The job of the clerk of this number.
fn job(plan: &Plan, number: u32, clerk: Clerk<Toy>) -> Job
    ensures { result.clerk ≡ clerk }
{
    match plan.stop_after {
        Some(turns) if number == 0 => Job {
            clerk,
            visits: plan.visits,
            turns,
            closes: true,
        },
        _ => Job {
            clerk,
            visits: plan.visits,
            turns: plan.turns,
            closes: false,
        },
    }
}

// Takes all clerks into the root. Whether none was refused anything.
fn gather(
    alloc: Global,
    turns: &Turns<Toy>,
    root: &mut Clerk<Toy>,
    all: Vec<Worked>,
) -> Result<bool, NoMemory>
    requires root { IsRoot turns.now root.old (vec_len all) }
    requires clerks { All (λ w. IsOut turns.now w.clerk) all.items }
    ensures { IfOk result (λ _. IsRoot turns.now root.new 0) }
{
    let mut is_whole = true;
    for worked in all {
        let Worked {
            clerk,
            is_whole: done,
        } = worked;
        is_whole = is_whole && done;
        turns.join(alloc, root, clerk)?;
    }
    Ok(is_whole)
}

/// Runs the toy so.
pub fn run<R: Threads + Wait + Sync>(rt: &R, alloc: Global, plan: &Plan) -> Result<Ran, NoMemory>
    requires { plan.now.threads < 128 }
    ensures { IfOk result (λ ran. IsOneRun ran.entries (map (λ log. log.items) ran.logs.items)) }
{
    let (turns, mut root) = open(alloc, plan.threads)?;
    let jobs = hire(alloc, &turns, &mut root, plan)?;
    let worked = work_all(rt, alloc, &turns, jobs)?;
    let is_whole = gather(alloc, &turns, &mut root, worked)?;
    let owed = root.owed().len();
    let closing = turns.finish(alloc, root)?;
    let entries = closing.entries();
    let (logs, _) = closing.into_parts();
    Ok(Ran {
        logs,
        entries,
        owed,
        is_whole,
    })
}
