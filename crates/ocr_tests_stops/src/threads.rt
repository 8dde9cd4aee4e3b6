// Each worker in a thread of its own.
ghost use Rattle.std.specs.Prelude.{◌≡◌, All, IfOk, vec_len};
ghost use Rattle.ocr_tests_stops.specs.Clerks.{IsOut};
ghost use Rattle.ocr_tests_stops.specs.Seats.{IsSeated};

use crate::shared::{parts_move, programs_are_shared};
use ocr_body_code::Checked;
use ocr_run_crew::{Worked, work};
use ocr_steal::{Hand, Pool};
use ocr_turns::{Clerk, Turns};
use ocr_worker_clerk::{Gate, Job, Ocr};
use std::alloc::{AllocError, Global};
use std::sync::Wait;
use std::thread;
use std::thread::Threads;

/// A worker that goes to work.
#[derive(Drop)]
pub(crate) struct Seat {
    pub worker: u32,
    pub clerk: Clerk<Ocr>,
    pub hand: Hand,
}

// A worker's work.
fn work_at<R: Wait, G: Gate>(alloc: Global, job: &Job<R, G>, seat: Seat) -> Worked
    requires { IsSeated job.now.turns.now job.now.program.now job.now.pool.now seat }
    ensures { IsOut job.now.turns.now result.clerk }
{
    let Seat {
        worker,
        clerk,
        hand,
    } = seat;
    work(alloc, job, worker, clerk, hand)
}

/// Lets each worker work, in a thread of its own, until it leaves.
pub(crate) fn work_all<R: Threads + Wait + Sync, G: Gate + Sync>(
    rt: &R,
    alloc: Global,
    program: &Checked,
    turns: &Turns<Ocr>,
    pool: &Pool,
    gate: &G,
    seats: Vec<Seat>,
) -> Result<Vec<Worked>, AllocError>
    requires { All (IsSeated turns.now program.now pool.now) seats.items }
    ensures many { IfOk result (λ backs. vec_len backs ≡ vec_len seats) }
    ensures backs { IfOk result (λ backs. All (λ back. IsOut turns.now back.clerk) backs.items) }
{
    // only for the proof: what the closure borrows may be shared
    parts_move();
    programs_are_shared();
    thread::map_vec(
        rt,
        seats,
        &|seat: Seat| -> Worked
            requires { IsSeated turns.now program.now pool.now seat }
            ensures { IsOut turns.entry.now result.clerk }
        {
            let job = Job {
                rt,
                program,
                turns,
                pool,
                gate,
            };
            work_at(alloc, &job, seat)
        },
    )
}
