// An entry whose step was made on the parts at hand.
ghost use Rattle.std.specs.Prelude.{◌≡◌, ◌<◌, ◌^◌, List, [], ℕ, length, OnOk, OnErr};
ghost use Rattle.ocr_worker_machine.specs.Clerks.{IsStep};
ghost use Rattle.ocr_worker_machine.specs.Ocr.{wakes};
ghost use Rattle.ocr_machine_parts.specs.declared.part.Part.{Part};
ghost use Rattle.ocr_turns_rule.specs.Sums.{as_some};
ghost use Rattle.ocr_worker_clerk.specs.Entry.{CanMake, PlannedParts};
ghost use Rattle.ocr_worker_clerk.specs.Work.{AtWork, EntersAs, HasFewDuties, IsGone, Stays, in_hand};

use crate::gate::Gate;
use crate::job::Job;
use crate::ocr::Ocr;
use crate::over::Over;
use crate::payment::{making_units, pay};
use crate::stop::{close_heavy, close_memory};
use ocr_machine::weight;
use ocr_machine_history::{Entry, What};
use ocr_turns::{Clerk, Committed};
use std::alloc::Global;
use std::sync::Wait;

/// Enters an entry that names the parts at hand, as `enter_at_work` enters one. Its step was made
/// on them before, and sends these messages. No part is lifted for it.
// Each caller knows the kind of its entry, and what hangs on it costs nothing there.
#[inline(always)]
pub fn enter_at_hand<R: Wait, G: Gate>(
    alloc: Global,
    job: &Job<R, G>,
    worker: u32,
    clerk: &mut Clerk<Ocr>,
    entry: Entry,
    messages: Vec<What>,
) -> Result<(), Over>
    ghost h: { PlannedParts }
    requires work { AtWork job.now.turns.now job.now.program.now clerk.old }
    requires hand { clerk.old.parts ≡ as_some (in_hand clerk.old.parts) }
    requires can { (was : List (ℕ × Part))
        × CanMake job.now.turns.now.1 clerk.old.view entry h was }
    requires step { IsStep job.now.turns.now.1.limit entry h.members h.parts
        (in_hand clerk.old.parts) messages.items }
    requires few { length messages.items < 2 ^ 32 }
    requires duties { HasFewDuties clerk.old.view }
    requires wakes { wakes job.now.turns.now.1.limit entry clerk.old.view.parts ≡ [] }
    ensures stays { Stays clerk.old clerk.new }
    ensures work { OnOk result (AtWork job.now.turns.now job.now.program.now clerk.new) }
    ensures entered { OnOk result (EntersAs job.now.turns.now.1 clerk.old clerk.new entry h) }
    ensures hand { OnOk result (clerk.new.parts ≡ clerk.old.parts) }
    ensures gone { OnErr result (IsGone job.now.turns.now worker clerk.new) }
{
    let weight = weight(&entry);
    if weight > job.turns.share() - clerk.weight() {
        return Err(close_heavy(job, worker, clerk, weight));
    }
    let Ok(()) = job.turns.reserve(alloc, clerk, messages.len()) else {
        return Err(close_memory(job, worker, clerk));
    };
    let needed = messages.len() as u64 + making_units(&entry);
    pay(job.turns, job.program, clerk, needed);
    job.gate.pass(job.rt, worker, clerk);
    match job.turns.commit_at_hand(clerk, entry, messages) {
        Committed::At(_number) => Ok(()),
        Committed::Closed(word) => Err(Over(word)),
    }
}
