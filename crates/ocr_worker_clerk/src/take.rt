// A worker takes parts.
ghost use Rattle.std.specs.Prelude.{◌≡◌, ◌≤◌, ◌<◌, ◌+◌, ◌∷◌, [], length, OnOk, OnErr};
ghost use Rattle.std.specs.List.{All};
ghost use Rattle.ocr_turns_rule.specs.Steps.{SeesBoth};
ghost use Rattle.ocr_worker_machine.specs.Ocr.{meaning};
ghost use Rattle.ocr_worker_clerk.specs.Work.{AtWork, IsGone, Stays, Took};

use crate::gate::Gate;
use crate::job::Job;
use crate::ocr::Ocr;
use crate::over::Over;
use ocr_turns::{Clerk, Taken};
use std::sync::Wait;

/// Takes the part of a place once its turn is free.
#[inline(always)]
pub fn take_part<R: Wait, G: Gate>(
    job: &Job<R, G>,
    worker: u32,
    clerk: &mut Clerk<Ocr>,
    place: u64,
) -> Result<(), Over>
    requires work { AtWork job.now.turns.now job.now.program.now clerk.old }
    requires place { place ≤ job.now.turns.now.1.limit + job.now.turns.now.1.limit }
    requires room { length clerk.old.parts < 40 }
    ensures stays { Stays clerk.old clerk.new }
    ensures work { OnOk result (AtWork job.now.turns.now job.now.program.now clerk.new) }
    ensures took { OnOk result (Took clerk.old clerk.new (place ∷ [])) }
    ensures sees { OnOk result (SeesBoth meaning clerk.old.view clerk.new.view) }
    ensures gone { OnErr result (IsGone job.now.turns.now worker clerk.new) }
{
    match job.turns.take(job.rt, clerk, place) {
        Taken::Mine => Ok(()),
        Taken::Closed(word) => Err(Over(word)),
    }
}

/// Takes the parts of these places, one after the other. They are to rise, and to come after those
/// that the clerk keeps, so that no two workers wait for each other.
pub fn take_parts<R: Wait, G: Gate>(
    job: &Job<R, G>,
    worker: u32,
    clerk: &mut Clerk<Ocr>,
    places: &[u64],
) -> Result<(), Over>
    requires work { AtWork job.now.turns.now job.now.program.now clerk.old }
    requires places { All (λ p. p ≤ job.now.turns.now.1.limit + job.now.turns.now.1.limit)
        places.now }
    requires room { length clerk.old.parts + length places.now ≤ 40 }
    ensures stays { Stays clerk.old clerk.new }
    ensures work { OnOk result (AtWork job.now.turns.now job.now.program.now clerk.new) }
    ensures took { OnOk result (Took clerk.old clerk.new places.now) }
    ensures gone { OnErr result (IsGone job.now.turns.now worker clerk.new) }
{
    for place in places {
        take_part(job, worker, clerk, *place)?;
    }
    Ok(())
}
