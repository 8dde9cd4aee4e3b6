// An entry that does not end the run.
ghost use Rattle.std.specs.Prelude.{◌≡◌, IfOk, OnErr, OnOk};
ghost use Rattle.ocr_worker_machine.specs.Ocr.{wakes};
ghost use Rattle.ocr_worker_clerk.specs.Entry.{CanMake, PlannedParts};
ghost use Rattle.ocr_worker_clerk.specs.Work.{AtWork, EntersAs, HasFewDuties, IsGone, Stays};

use crate::gate::Gate;
use crate::job::Job;
use crate::ocr::Ocr;
use crate::over::Over;
use crate::payment::pay;
use crate::preparation::prepare;
use crate::stop::{close_heavy, close_memory};
use ocr_guid::Guid;
use ocr_machine::weight;
use ocr_machine_history::Entry;
use ocr_machine_parts::Part;
use ocr_turns::{Clerk, Committed};
use std::alloc::Global;
use std::sync::Wait;

/// Enters an entry that is no Stop and that is legal on these parts, which the clerk lifted, behind
/// the gate. They come back changed once the entry is in the log. Where the log would weigh more
/// than its share then, or memory is refused, the run is ended in its place, and the parts are
/// lost. Gives the EDTs that the entry resumes.
pub fn enter_at_work<R: Wait, G: Gate>(
    alloc: Global,
    job: &Job<R, G>,
    worker: u32,
    clerk: &mut Clerk<Ocr>,
    entry: Entry,
    parts: Vec<(u64, Part)>,
) -> Result<Vec<Guid>, Over>
    ghost h: { PlannedParts }
    requires work { AtWork job.now.turns.now job.now.program.now clerk.old }
    requires duties { HasFewDuties clerk.old.view }
    requires can { CanMake job.now.turns.now.1 clerk.old.view entry h parts.items }
    ensures stays { Stays clerk.old clerk.new }
    ensures work { OnOk result (AtWork job.now.turns.now job.now.program.now clerk.new) }
    ensures entered { OnOk result (EntersAs job.now.turns.now.1 clerk.old clerk.new entry h) }
    ensures resumed { IfOk result (λ r. r.items
        ≡ wakes job.now.turns.now.1.limit entry clerk.old.view.parts) }
    ensures gone { OnErr result (IsGone job.now.turns.now worker clerk.new) }
{
    let weight = weight(&entry);
    if weight > job.turns.share() - clerk.weight() {
        return Err(close_heavy(job, worker, clerk, weight));
    }
    let limit = job.turns.limit();
    let Ok(prepared) = prepare(alloc, job.turns, limit, clerk, &entry, parts) else {
        return Err(close_memory(job, worker, clerk));
    };
    pay(job.turns, job.program, clerk, prepared.units);
    job.gate.pass(job.rt, worker, clerk);
    match job.turns.commit(clerk, entry, prepared.change) {
        Committed::At(_number) => Ok(prepared.resumed),
        Committed::Closed(word) => Err(Over(word)),
    }
}
