// An entry that names all parts that the clerk keeps.
ghost use Rattle.std.specs.Prelude.{◌≡◌, ◌≤◌, ℕ, IfOk, OnOk, OnErr};
ghost use Rattle.ocr_worker_machine.specs.Ocr.{wakes};
ghost use Rattle.ocr_turns_rule.specs.Contract.{SameRoom};
ghost use Rattle.ocr_turns_rule.specs.Sums.{as_some, one_at, weigh};
ghost use Rattle.ocr_worker_clerk.specs.Entry.{CanMake, PlannedParts};
ghost use Rattle.ocr_worker_clerk.specs.Work.{AtWork, EntersKept, HasAllAtHand, HasFewDuties, IsGone, Stays, in_hand, lifted};

use crate::entry::enter_at_work;
use crate::gate::Gate;
use crate::job::Job;
use crate::ocr::Ocr;
use crate::over::Over;
use crate::stop::close_memory;
use ocr_base::NoMemory;
use ocr_guid::Guid;
use ocr_machine_history::Entry;
use ocr_machine_parts::Part;
use ocr_turns::Clerk;
use std::alloc::Global;
use std::sync::Wait;

// For how many parts more a vector of lifted parts has room: for those of what a call makes.
const MADE: usize = 4;

/// Hands out all parts of the clerk, which are those of these places. For want of memory none is
/// lifted.
pub fn lift_parts(
    alloc: Global,
    clerk: &mut Clerk<Ocr>,
    places: &[u64],
) -> Result<Vec<(u64, Part)>, NoMemory>
    requires hand { HasAllAtHand clerk.old places.now }
    requires once { (p : ℕ) → weigh (one_at p) clerk.old.parts ≤ 1 }
    ensures same { (clerk.new.table ≡ clerk.old.table) × (clerk.new.view ≡ clerk.old.view)
        × SameRoom clerk.old clerk.new }
    ensures parts { IfOk result (λ v. v.items ≡ in_hand clerk.old.parts) }
    ensures left { OnOk result (clerk.new.parts ≡ lifted clerk.old.parts) }
    ensures err { OnErr result (clerk.new.parts ≡ clerk.old.parts) }
{
    let mut parts = clerk.parts_list(alloc, places.len() + MADE)?;
    for place in places {
        parts.push_reserved((*place, clerk.lift(*place)));
    }
    Ok(parts)
}

/// Enters an entry that names all parts that the clerk keeps, and has them at hand after it. Gives
/// the EDTs that it resumes.
#[inline(always)]
pub fn enter_kept<R: Wait, G: Gate>(
    alloc: Global,
    job: &Job<R, G>,
    worker: u32,
    clerk: &mut Clerk<Ocr>,
    entry: Entry,
    places: &[u64],
) -> Result<Vec<Guid>, Over>
    ghost h: { PlannedParts }
    requires work { AtWork job.now.turns.now job.now.program.now clerk.old }
    requires hand { HasAllAtHand clerk.old places.now }
    requires duties { HasFewDuties clerk.old.view }
    requires can { CanMake job.now.turns.now.1 clerk.old.view entry h (in_hand clerk.old.parts) }
    ensures stays { Stays clerk.old clerk.new }
    ensures work { OnOk result (AtWork job.now.turns.now job.now.program.now clerk.new) }
    ensures entered { OnOk result (EntersKept job.now.turns.now.1 clerk.old clerk.new entry h) }
    ensures resumed { IfOk result (λ r. r.items
        ≡ wakes job.now.turns.now.1.limit entry clerk.old.view.parts) }
    ensures gone { OnErr result (IsGone job.now.turns.now worker clerk.new) }
{
    let Ok(parts) = lift_parts(alloc, clerk, places) else {
        return Err(close_memory(job, worker, clerk));
    };
    enter_at_work(alloc, job, worker, clerk, entry, parts)
}
