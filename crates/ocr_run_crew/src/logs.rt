// The workers come home.
ghost use Rattle.std.specs.Prelude.{◌≡◌, OnOk, vec_len};
ghost use Rattle.ocr_steal.specs.Pool.{hands_in};
ghost use Rattle.ocr_run_crew.specs.Seats.{AreBack, IsGathering};

use crossbeam_utils::CachePadded;
use ocr_base::NoMemory;
use ocr_turns::Clerk;
use ocr_worker::Worked;
use ocr_worker_clerk::{Gate, Job, Ocr};
use std::alloc::Global;
use std::sync::Wait;

/// Takes all clerks into the root.
pub(crate) fn join_all<R: Wait, G: Gate>(
    alloc: Global,
    job: &Job<R, G>,
    root: &mut Clerk<Ocr>,
    backs: Vec<CachePadded<Worked>>,
) -> Result<(), NoMemory>
    requires root { IsGathering job.now.turns.now (hands_in job.now.pool.now) (vec_len backs) 0
        root.old }
    requires many { vec_len backs ≡ hands_in job.now.pool.now }
    requires backs { AreBack job.now.turns.now (hands_in job.now.pool.now) backs.items }
    ensures { OnOk result (IsGathering job.now.turns.now (hands_in job.now.pool.now) 0
        (hands_in job.now.pool.now) root.new) }
{
    for back in backs {
        let Worked {
            clerk,
            hand: _,
            leave: _,
        } = back.into_inner();
        job.turns.join(alloc, root, clerk)?;
    }
    Ok(())
}
