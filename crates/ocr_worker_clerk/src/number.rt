// A number for a new object.
ghost use Rattle.std.specs.Prelude.{◌≡◌, ◌<◌, ◌≤◌, length, reverse, IfOk, OnOk, OnErr};
ghost use Rattle.ocr_worker_machine.specs.Clerks.{Knows, of_terms};
ghost use Rattle.ocr_worker_machine.specs.Ocr.{meaning};
ghost use Rattle.ocr_machine_parts.specs.Legal.{IsCreating};
ghost use Rattle.ocr_turns_rule.specs.Contract.{SameHand};
ghost use Rattle.ocr_turns_rule.specs.Steps.{Sees, with_drawn};
ghost use Rattle.ocr_turns_rule.specs.Sums.{AreBelow};
ghost use Rattle.ocr_worker_clerk.specs.Number.{object_count};
ghost use Rattle.ocr_worker_clerk.specs.Work.{AtWork, IsGone, Stays};

use crate::gate::Gate;
use crate::job::Job;
use crate::ocr::Ocr;
use crate::over::Over;
use crate::stop::close_short;
use ocr_body_meaning::Call;
use ocr_guid::Guid;
use ocr_turns::{Clerk, Drawn};
use std::sync::Wait;

/// Draws a number for the creation that an EDT's body says next, above those drawn for it before,
/// which are fewer than it needs. Where none is left, the run is ended.
pub fn draw_number<R: Wait, G: Gate>(
    job: &Job<R, G>,
    worker: u32,
    clerk: &mut Clerk<Ocr>,
    edt: Guid,
    call: &Call,
) -> Result<u64, Over>
    requires work { AtWork job.now.turns.now job.now.program.now clerk.old }
    requires few { length clerk.old.view.drawn < object_count call.now }
    requires creating { Knows job.now.turns.now.1 clerk.old.view
        (λ J. IsCreating (of_terms job.now.turns.now.1) (reverse J) edt call.now) }
    ensures stays { Stays clerk.old clerk.new }
    ensures work { OnOk result (AtWork job.now.turns.now job.now.program.now clerk.new) }
    ensures number { IfOk result (λ n. (1 ≤ n) × (n ≤ job.now.turns.now.1.limit)
        × (clerk.new.view ≡ with_drawn clerk.old.view n)) }
    ensures rises { IfOk result (λ n. AreBelow n clerk.old.view.drawn) }
    ensures hand { OnOk result (SameHand clerk.old clerk.new × Sees meaning clerk.new.view) }
    ensures gone { OnErr result (IsGone job.now.turns.now worker clerk.new) }
{
    match job.turns.draw(clerk) {
        Drawn::Place(number) => Ok(number),
        Drawn::Full(_count) => Err(close_short(job, worker, clerk, edt, call)),
    }
}
