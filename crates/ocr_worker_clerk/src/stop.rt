// A worker ends the run.
ghost use Rattle.std.specs.Prelude.{◌≡◌, ◌<◌, ◌+◌, ◌++◌, ◌∷◌, ◌⊎◌, [], ℕ, List, Some, length, is_some, true, reverse};
ghost use Rattle.ocr_worker_machine.specs.Clerks.{Knows, of_terms};
ghost use Rattle.ocr_worker_machine.specs.Ocr.{stands};
ghost use Rattle.ocr_machine_history.specs.declared.entry.Entry.{Entry};
ghost use Rattle.ocr_machine_history.specs.declared.entry.Entry.TheVariants as an;
ghost use Rattle.ocr_machine_history.specs.Weight.{weight_of};
ghost use Rattle.ocr_machine_parts.specs.declared.part.Part.{Part};
ghost use Rattle.ocr_machine_parts.specs.Legal.{IsCreating};
ghost use Rattle.ocr_turns_rule.specs.Rule.{FactsOf};
ghost use Rattle.ocr_worker_clerk.specs.Number.{object_count};
ghost use Rattle.ocr_worker_clerk.specs.Entry.{CanMake, PlannedParts};
ghost use Rattle.ocr_worker_clerk.specs.Work.{AtWork, IsGone, IsOwnStop, MayStopSo, Stays, stop_in, told};

use crate::gate::Gate;
use crate::job::Job;
use crate::ocr::Ocr;
use crate::over::Over;
use ocr_body_meaning::Call;
use ocr_guid::Guid;
use ocr_machine_history::{Entry, Stop};
use ocr_turns::{Clerk, Committed};
use ocr_worker_machine::Fact;
use std::snapshot::Snapshot;
use std::sync::Wait;

/// Ends the run by a Stop that is legal now, behind the gate. It stands in the log then, unless the
/// run had ended before.
pub fn close<R: Wait, G: Gate>(
    job: &Job<R, G>,
    worker: u32,
    clerk: &mut Clerk<Ocr>,
    why: Stop,
) -> Over
    requires work { AtWork job.now.turns.now job.now.program.now clerk.old }
    requires may { Knows job.now.turns.now.1 clerk.old.view
        (λ J. MayStopSo (of_terms job.now.turns.now.1) (reverse J) why) }
    requires own { IsOwnStop job.now.turns.now.1 worker clerk.old.view why }
    ensures stays { Stays clerk.old clerk.new }
    ensures gone { IsGone job.now.turns.now worker clerk.new }
    ensures made { (is_some clerk.new.view.closed ≡ true)
        ⊎ (stop_in clerk.new.view.log ≡ Some why) }
{
    close_telling(job, worker, clerk, why, &[])
}

// Ends the run so, and the clerk learns facts that stand from then on.
fn close_telling<R: Wait, G: Gate>(
    job: &Job<R, G>,
    worker: u32,
    clerk: &mut Clerk<Ocr>,
    why: Stop,
    learns: &[Fact],
) -> Over
    requires work { AtWork job.now.turns.now job.now.program.now clerk.old }
    requires may { Knows job.now.turns.now.1 clerk.old.view
        (λ J. MayStopSo (of_terms job.now.turns.now.1) (reverse J) why) }
    requires stand { Knows job.now.turns.now.1 clerk.old.view
        (λ J. FactsOf (stands job.now.turns.now.1.setting.value job.now.turns.now.1.limit
        (J ++ an.Stop why ∷ [])) learns.now) }
    requires own { IsOwnStop job.now.turns.now.1 worker (told clerk.old.view learns.now) why }
    ensures stays { Stays clerk.old clerk.new }
    ensures gone { IsGone job.now.turns.now worker clerk.new }
    ensures made { (is_some clerk.new.view.closed ≡ true)
        ⊎ (stop_in clerk.new.view.log ≡ Some why) }
{
    job.gate.pass(job.rt, worker, clerk);
    match job.turns.close(clerk, Entry::Stop(why), learns) {
        Committed::At(number) => Over(number),
        Committed::Closed(word) => Over(word),
    }
}

/// Ends the run where no number was left for the creation that the EDT's body says next, and fewer
/// are drawn for it than it needs.
pub(crate) fn close_short<R: Wait, G: Gate>(
    job: &Job<R, G>,
    worker: u32,
    clerk: &mut Clerk<Ocr>,
    edt: Guid,
    call: &Call,
) -> Over
    requires work { AtWork job.now.turns.now job.now.program.now clerk.old }
    requires few { length clerk.old.view.drawn < object_count call.now }
    requires reached { is_some clerk.old.view.reached ≡ true }
    requires creating { Knows job.now.turns.now.1 clerk.old.view
        (λ J. IsCreating (of_terms job.now.turns.now.1) (reverse J) edt call.now) }
    ensures stays { Stays clerk.old clerk.new }
    ensures gone { IsGone job.now.turns.now worker clerk.new }
{
    let short = Fact::Short {
        edt: edt.0,
        call: Snapshot::of(call),
    };
    close_telling(job, worker, clerk, Stop::Objects, &[short])
}

/// Ends the run for want of memory.
pub fn close_memory<R: Wait, G: Gate>(job: &Job<R, G>, worker: u32, clerk: &mut Clerk<Ocr>) -> Over
    requires work { AtWork job.now.turns.now job.now.program.now clerk.old }
    ensures stays { Stays clerk.old clerk.new }
    ensures gone { IsGone job.now.turns.now worker clerk.new }
{
    close(job, worker, clerk, Stop::Memory)
}

/// Ends the run where the clerk could make an entry of this weight, and its share has no room for
/// it.
pub fn close_heavy<R: Wait, G: Gate>(
    job: &Job<R, G>,
    worker: u32,
    clerk: &mut Clerk<Ocr>,
    weight: u64,
) -> Over
    requires work { AtWork job.now.turns.now job.now.program.now clerk.old }
    requires can { (e : Entry) × (h : PlannedParts) × (ps : List (ℕ × Part))
        × CanMake job.now.turns.now.1 clerk.old.view e h ps × (weight ≡ weight_of e) }
    requires heavy { job.now.turns.now.1.share < clerk.old.view.weight + weight }
    ensures stays { Stays clerk.old clerk.new }
    ensures gone { IsGone job.now.turns.now worker clerk.new }
{
    close(job, worker, clerk, Stop::Events { worker, weight })
}
