// Each worker in a thread of its own.
ghost use Rattle.std.specs.Prelude.{◌≡◌, ◌≤◌, ◌+◌, IfOk, vec_len};
ghost use Rattle.crossbeam_utils.specs.Padded.{padded_value};
ghost use Rattle.ocr_steal.specs.Pool.{IsOfPool, hands_in};
ghost use Rattle.ocr_run_crew.specs.Seats.{AreBack, AreSeats, IsHired, IsHome};

use crate::seats::Seat;
use crate::shared::{parts_move, programs_are_shared};
use crossbeam_utils::CachePadded;
use ocr_body_code::Checked;
use ocr_steal::Pool;
use ocr_turns::Turns;
use ocr_worker::{Worked, work};
use ocr_worker_clerk::{Gate, Job, Ocr};
use std::alloc::{AllocError, Global};
use std::sync::Wait;
use std::thread;
use std::thread::Threads;

// A worker's work.
fn work_at<R: Wait, G: Gate>(
    alloc: Global,
    job: &Job<R, G>,
    seat: CachePadded<Seat>,
) -> CachePadded<Worked>
    requires hired { IsHired job.now.turns.now job.now.program.now (padded_value seat).clerk }
    requires hand { IsOfPool job.now.pool.now (padded_value seat).hand }
    requires worker { ((padded_value seat).worker ≡ (padded_value seat).hand.number + 1)
        × ((padded_value seat).worker ≤ hands_in job.now.pool.now) }
    ensures { IsHome job.now.turns.now (hands_in job.now.pool.now) (padded_value result).clerk }
{
    let Seat {
        worker,
        clerk,
        hand,
    } = seat.into_inner();
    CachePadded::new(work(alloc, job, worker, clerk, hand))
}

/// Lets each worker work, in a thread of its own, until it leaves.
pub(crate) fn work_all<R: Threads + Wait + Sync, G: Gate + Sync>(
    rt: &R,
    alloc: Global,
    program: &Checked,
    turns: &Turns<Ocr>,
    pool: &Pool,
    gate: &G,
    seats: Vec<CachePadded<Seat>>,
) -> Result<Vec<CachePadded<Worked>>, AllocError>
    requires many { vec_len seats ≡ hands_in pool.now }
    requires seats { AreSeats turns.now program.now pool.now seats.items }
    ensures many { IfOk result (λ backs. vec_len backs ≡ vec_len seats) }
    ensures backs { IfOk result (λ backs. AreBack turns.now (hands_in pool.now) backs.items) }
{
    // only for the proof: what the closure borrows may be shared
    parts_move();
    programs_are_shared();
    thread::map_vec(
        rt,
        seats,
        &|seat: CachePadded<Seat>| -> CachePadded<Worked>
            requires { IsHired turns.now program.now (padded_value seat).clerk
                × IsOfPool pool.now (padded_value seat).hand
                × ((padded_value seat).worker ≡ (padded_value seat).hand.number + 1)
                × ((padded_value seat).worker ≤ hands_in pool.now) }
            ensures { IsHome turns.entry.now (hands_in pool.entry.now) (padded_value result).clerk }
        {
            let job = Job {
                rt,
                program,
                turns,
                pool,
                gate,
            };
            work_at(alloc, &job, seat)
        },
    )
}
