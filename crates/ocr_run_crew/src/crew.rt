// A run, from the opening to its journal.
ghost use Rattle.std.specs.Prelude.{◌≡◌, ◌≤◌, ◌+◌, IfOk, OnOk};
ghost use Rattle.ocr_body_code.specs.Checked.{checked_tree};
ghost use Rattle.ocr_worker_machine.specs.Clerks.{of_terms};
ghost use Rattle.ocr_turns_rule.specs.Contract.{TermsAre};
ghost use Rattle.ocr_run_crew.specs.Ended.{CanRun, IsWholeRun};
ghost use Rattle.ocr_machine_history.specs.History.{setting_of};
ghost use Rattle.ocr_run_crew.specs.Seats.{IsGathering, IsHiring};

use crate::limits::Limits;
use crate::logs::join_all;
use crate::seats::hire;
use crate::threads::work_all;
use ocr_base::NoMemory;
use ocr_body_code::Checked;
use ocr_journal_merge::{Merged, merge};
use ocr_steal::Pool;
use ocr_turns::{Clerk, Turns};
use ocr_worker_clerk::{Gate, Job, Ocr, opening};
use ocr_worker_machine::Setting;
use std::alloc::Global;
use std::sync::Wait;
use std::thread::Threads;

/// For how many EDTs each deque has room from the start on.
const ROOM: u32 = 256;

/// Runs a program by several workers, each in a thread of its own, until the run has ended or
/// nothing is left to do. Where memory is refused to a worker, the run ends with the Stop Memory;
/// `NoMemory` where it is refused before they begin or after they left.
pub fn run<R: Threads + Wait + Sync, G: Gate + Sync>(
    rt: &R,
    alloc: Global,
    setting: &Setting,
    limits: Limits,
    gate: &G,
) -> Result<Merged, NoMemory>
    requires { CanRun setting.now limits }
    ensures { IfOk result (λ m. IsWholeRun (setting_of (checked_tree setting.now.program)
        setting.now.args.items limits.objects) limits.workers limits.share m) }
{
    let (turns, mut root) = open(alloc, setting, limits)?;
    let program = &setting.program;
    work_together(rt, alloc, program, &turns, limits.workers, gate, &mut root)?;
    close(alloc, turns, limits.workers, root)
}

// The table of a run, with its root.
fn open(
    alloc: Global,
    setting: &Setting,
    limits: Limits,
) -> Result<(Turns<Ocr>, Clerk<Ocr>), NoMemory>
    requires { CanRun setting.now limits }
    ensures terms { IfOk result (λ t. TermsAre t.0.1 setting.now limits.objects limits.share
        (limits.workers + 1)) }
    ensures root { IfOk result (λ t. IsHiring t.0 setting.now.program 0 t.1
        × (t.1.view.quota ≡ limits.workers)) }
{
    setting.program.runnable_law();
    let main = setting.program.main_function();
    let parts = opening(alloc, main, setting.args.as_slice(), limits.objects)?;
    let seats = limits.workers + 1;
    Turns::new(alloc, setting, parts, limits.objects, limits.share, seats)
}

// The workers work until each has left.
fn work_together<R: Threads + Wait + Sync, G: Gate + Sync>(
    rt: &R,
    alloc: Global,
    program: &Checked,
    turns: &Turns<Ocr>,
    workers: u32,
    gate: &G,
    root: &mut Clerk<Ocr>,
) -> Result<(), NoMemory>
    requires root { IsHiring turns.now program.now 0 root.old }
    requires workers { (1 ≤ workers) × (workers ≤ 64) × (workers ≤ root.old.view.quota) }
    ensures { OnOk result (IsGathering turns.now workers 0 workers root.new) }
{
    let (pool, hands) = Pool::new(alloc, workers, ROOM)?;
    let job = Job {
        rt,
        program,
        turns,
        pool: &pool,
        gate,
    };
    let seats = hire(alloc, &job, root, hands)?;
    let backs = work_all(rt, alloc, program, turns, &pool, gate, seats)?;
    join_all(alloc, &job, root, backs)
}

// The journal, once all have come home.
fn close(
    alloc: Global,
    turns: Turns<Ocr>,
    workers: u32,
    root: Clerk<Ocr>,
) -> Result<Merged, NoMemory>
    requires root { IsGathering turns workers 0 workers root }
    requires workers { 1 ≤ workers }
    requires most { turns.1.limit ≤ 65536 }
    ensures { IfOk result (λ m. IsWholeRun (of_terms turns.1) workers turns.1.share m) }
{
    let closing = turns.finish(alloc, root)?;
    merge(alloc, closing)
}
