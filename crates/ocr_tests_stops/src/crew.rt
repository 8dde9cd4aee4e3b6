// Two workers, beside whom a gate has a clerk of its own.
ghost use Rattle.std.specs.Prelude.{◌≡◌, ◌≤◌, ◌+◌, All, IfOk, OnOk, Some, length, vec_len};
ghost use Rattle.ocr_steal.specs.Pool.{IsOfPool};
ghost use Rattle.ocr_turns_rule.specs.Contract.{TermsAre};
ghost use Rattle.ocr_tests_stops.specs.Clerks.{CanEnd, IsOut, program_of};
ghost use Rattle.ocr_tests_stops.specs.Seats.{HasUnit, IsRoot, IsSeated};

use crate::closer::{Closer, Plan, Tabled};
use crate::threads::{Seat, work_all};
use ocr_base::NoMemory;
use ocr_body_code::Checked;
use ocr_guid::Guid;
use ocr_journal_merge::{Merged, merge};
use ocr_live::{lower, raise, split_live};
use ocr_machine_history::MAIN_EDT;
use ocr_run_crew::Worked;
use ocr_steal::{Hand, Pool};
use ocr_turns::{Clerk, Turns};
use ocr_worker_clerk::{Ocr, opening};
use ocr_worker_machine::Setting;
use std::alloc::Global;
use std::marker::Brand;
use std::sync::Wait;
use std::thread::Threads;

/// How many workers there are.
const WORKERS: u32 = 2;

/// With the root and the gate's clerk.
const SEATS: u32 = 4;

/// How many objects a run may make, and what the entries of one clerk may weigh.
const OBJECTS: u64 = 64;

const SHARE: u64 = 1000;

/// For how many EDTs each deque has room from the start on.
const ROOM: u32 = 16;

/// What came of a run.
#[derive(Drop)]
pub struct Played {
    pub merged: Merged,
    pub told: Told,
}

/// What the gate's clerk was told: the number of the entry by which it ended the run, and the commit
/// word that it saw once all workers had left, if the run had ended.
#[derive(Clone, Copy, PartialEq, Eq, Debug)]
pub struct Told {
    pub number: Option<u64>,
    pub seen: Option<u64>,
}

/// Runs a program by two workers, at whose passes the gate's clerk acts.
pub fn play<R: Threads + Wait + Sync>(
    rt: &R,
    alloc: Global,
    setting: &Setting,
    plan: Plan,
) -> Result<Played, NoMemory>
    requires { length setting.now.args.items ≤ 32 }
{
    let (turns, mut root) = open(alloc, setting)?;
    let told = work_together::<Brand, R>(rt, alloc, &setting.program, &turns, &mut root, plan)?;
    let closing = turns.finish(alloc, root)?;
    let merged = merge(alloc, closing)?;
    Ok(Played { merged, told })
}

// The table of a run, with its root.
fn open(alloc: Global, setting: &Setting) -> Result<(Turns<Ocr>, Clerk<Ocr>), NoMemory>
    requires { length setting.now.args.items ≤ 32 }
    ensures terms { IfOk result (λ t. TermsAre t.0.1 setting.now 64 1000 4) }
    ensures root { IfOk result (λ t. IsRoot t.0 0 t.1 × HasUnit 0 t.1 × (t.1.view.quota ≡ 3)) }
{
    setting.program.runnable_law();
    let main = setting.program.main_function();
    let parts = opening(alloc, main, setting.args.as_slice(), OBJECTS)?;
    let (turns, root) = Turns::new(alloc, setting, parts, OBJECTS, SHARE, SEATS)?;
    Ok((turns, root))
}

// The workers work until each has left, and all clerks come home.
fn work_together<J: Tabled + Send + Sync, R: Threads + Wait + Sync>(
    rt: &R,
    alloc: Global,
    program: &Checked,
    turns: &Turns<Ocr>,
    root: &mut Clerk<Ocr>,
    plan: Plan,
) -> Result<Told, NoMemory>
    requires table { J.table ≡ Some turns.now }
    requires program { program.now ≡ program_of turns.now }
    requires root { IsRoot turns.now 0 root.old × HasUnit 0 root.old
        × (3 ≤ root.old.view.quota) }
    ensures { OnOk result (IsRoot turns.now 0 root.new) }
{
    let clerk = split_off(alloc, turns, root)?;
    let (pool, hands) = Pool::new(alloc, WORKERS, ROOM)?;
    let seats = hire(alloc, turns, root, &pool, hands)?;
    let closer = Closer::<J>::new(turns, &pool, clerk, plan);
    let backs = work_all(rt, alloc, program, turns, &pool, &closer, seats)?;
    let (clerk, number) = closer.into_parts();
    join_all(alloc, turns, root, backs)?;
    let seen = join_looking(alloc, turns, root, clerk)?;
    Ok(Told { number, seen })
}

// A clerk for the gate, with a unit.
fn split_off(
    alloc: Global,
    turns: &Turns<Ocr>,
    root: &mut Clerk<Ocr>,
) -> Result<Clerk<Ocr>, NoMemory>
    requires root { IsRoot turns.now 0 root.old × HasUnit 0 root.old
        × (1 ≤ root.old.view.quota) }
    ensures root { OnOk result (IsRoot turns.now 1 root.new × HasUnit 1 root.new
        × (root.old.view.quota ≡ root.new.view.quota + 1)) }
    ensures clerk { IfOk result (CanEnd turns.now) }
{
    raise(turns, root, 1);
    split_live(turns, alloc, root)
}

// A seat for each hand. The first begins with the EDT that is ready at the opening. The root gives
// up its unit then.
fn hire(
    alloc: Global,
    turns: &Turns<Ocr>,
    root: &mut Clerk<Ocr>,
    pool: &Pool,
    hands: Vec<Hand>,
) -> Result<Vec<Seat>, NoMemory>
    requires root { IsRoot turns.now 1 root.old × HasUnit 1 root.old
        × (vec_len hands ≤ root.old.view.quota) }
    requires hands { All (IsOfPool pool.now) hands.items }
    ensures root { IfOk result (λ seats. IsRoot turns.now (1 + vec_len seats) root.new) }
    ensures seats { IfOk result (λ seats. All (IsSeated turns.now (program_of turns.now) pool.now)
        seats.items) }
{
    let mut seats = Vec::new(alloc);
    for hand in hands {
        let hand = begun(alloc, hand)?;
        let clerk = turns.split(alloc, root)?;
        seats.push(seated(clerk, hand))?;
    }
    lower(turns, root, 1);
    Ok(seats)
}

fn seated(clerk: Clerk<Ocr>, hand: Hand) -> Seat
    ensures { (result.clerk ≡ clerk) × (result.hand ≡ hand) }
{
    let worker = hand.number().saturating_add(1);
    Seat {
        worker,
        clerk,
        hand,
    }
}

fn begun(alloc: Global, mut hand: Hand) -> Result<Hand, NoMemory>
    ensures { IfOk result (λ h. (pool : Pool) → IsOfPool pool hand → IsOfPool pool h) }
{
    if hand.number() == 0 {
        hand.push(alloc, Guid(MAIN_EDT))?;
    }
    Ok(hand)
}

// Takes the clerks of all workers into the root.
fn join_all(
    alloc: Global,
    turns: &Turns<Ocr>,
    root: &mut Clerk<Ocr>,
    backs: Vec<Worked>,
) -> Result<(), NoMemory>
    requires root { IsRoot turns.now (1 + vec_len backs) root.old }
    requires backs { All (λ back. IsOut turns.now back.clerk) backs.items }
    ensures { OnOk result (IsRoot turns.now 1 root.new) }
{
    for back in backs {
        let Worked {
            clerk,
            hand: _,
            leave: _,
        } = back;
        turns.join(alloc, root, clerk)?;
    }
    Ok(())
}

// Takes a clerk into the root once it has looked whether the run has ended.
fn join_looking(
    alloc: Global,
    turns: &Turns<Ocr>,
    root: &mut Clerk<Ocr>,
    mut clerk: Clerk<Ocr>,
) -> Result<Option<u64>, NoMemory>
    requires root { IsRoot turns.now 1 root.old }
    requires clerk { IsOut turns.now clerk }
    ensures { OnOk result (IsRoot turns.now 0 root.new) }
{
    let seen = turns.look(&mut clerk);
    turns.join(alloc, root, clerk)?;
    Ok(seen)
}
