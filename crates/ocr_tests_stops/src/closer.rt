// A gate that has a clerk of its own.
ghost use Rattle.std.specs.Prelude.{◌≡◌, Some};
ghost use Rattle.ocr_worker_clerk.specs.Work.{OcrTable};
ghost use Rattle.ocr_tests_stops.specs.Clerks.{CanEnd, IsHeld, IsOut};

use ocr_live::lower;
use ocr_machine_history::{Entry, Stop};
use ocr_steal::Pool;
use ocr_turns::{Clerk, Committed, Turns};
use ocr_worker_clerk::{Gate, Ocr};
use std::marker::{Brand, PhantomData};
use std::sync::{Mutex, Wait};

/// Of which table the gate's clerk is, for the proof alone.
pub(crate) trait Tabled {
    ghost use Rattle.std.specs.Prelude.{Option};
    ghost use Rattle.ocr_worker_clerk.specs.Work.{OcrTable};

    ghost table: { Option OcrTable };
}

impl Tabled for Brand {
    ghost use Rattle.std.specs.Prelude.{None};

    ghost table = { None };
}

/// At which pass the gate's clerk acts: it ends the run for want of memory, or else gives up its
/// unit, so that the run may come to its end.
#[derive(Clone, Copy, PartialEq, Eq, Debug)]
pub struct Plan {
    pub pass: u64,
    pub ends: bool,
}

// What lies under the lock: the clerk, and how many passes are left until it acts.
#[derive(Drop)]
struct Holder<J: Tabled> {
    clerk: Clerk<Ocr>,
    left: u64,
    ends: bool,
    /// the number of the entry by which the clerk ended the run
    number: Option<u64>,
    of: PhantomData<J>,
    ghost held: { IsHeld J.table left clerk },
}

impl<J: Tabled> Holder<J> {
    fn pass(&mut self, turns: &Turns<Ocr>)
        requires { J.table ≡ Some turns.now }
    {
        if self.left == 0 {
            return;
        }
        self.left -= 1;
        if self.left == 0 {
            self.number = act(turns, &mut self.clerk, self.ends);
        }
    }
}

// Ends the run, by the entry of this number, or gives up the clerk's unit.
fn act(turns: &Turns<Ocr>, clerk: &mut Clerk<Ocr>, ends: bool) -> Option<u64>
    requires { CanEnd turns.now clerk.old }
    ensures { IsOut turns.now clerk.new }
{
    if !ends {
        lower(turns, clerk, 1);
        return None;
    }
    match turns.close(clerk, Entry::Stop(Stop::Memory), &[]) {
        Committed::At(number) => Some(number),
        Committed::Closed(_) => None,
    }
}

/// A gate that has a clerk of its own behind a lock, and lets nobody sleep.
#[derive(Drop)]
pub(crate) struct Closer<'a, J: Tabled> {
    turns: &'a Turns<Ocr>,
    pool: &'a Pool,
    holder: Mutex<Holder<J>>,
    ghost table: { J.table ≡ Some turns.now },
}

impl<'a, J: Tabled> Closer<'a, J> {
    /// The gate of this clerk.
    pub(crate) fn new(
        turns: &'a Turns<Ocr>,
        pool: &'a Pool,
        clerk: Clerk<Ocr>,
        plan: Plan,
    ) -> Closer<'a, J>
        requires table { J.table ≡ Some turns.now }
        requires clerk { CanEnd turns.now clerk }
    {
        let holder = Holder {
            clerk,
            left: plan.pass,
            ends: plan.ends,
            number: None,
            of: PhantomData,
        };
        Closer {
            turns,
            pool,
            holder: Mutex::new(holder),
        }
    }

    /// The clerk, and the number of the entry by which it ended the run.
    pub(crate) fn into_parts(self) -> (Clerk<Ocr>, Option<u64>)
        ensures { (table : OcrTable) → J.table ≡ Some table → IsOut table result.0 }
    {
        let Closer {
            turns: _,
            pool: _,
            holder,
        } = self;
        let Holder {
            clerk,
            left: _,
            ends: _,
            number,
            of: _,
        } = holder.into_inner();
        (clerk, number)
    }
}

impl<'a, J: Tabled> Gate for Closer<'a, J> {
    fn pass<R: Wait>(&self, rt: &R, _worker: u32, _clerk: &Clerk<Ocr>) {
        self.pool.bell.ring_all();
        self.holder.lock(rt).pass(self.turns);
    }
}
