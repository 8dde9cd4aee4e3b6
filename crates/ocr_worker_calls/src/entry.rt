// The entry of a call.
ghost use Rattle.std.specs.Prelude.{◌≡◌, ◌++◌, List, ℕ, IfOk, OnOk, OnErr};
ghost use Rattle.ocr_body_meaning.specs.Behaviour.{IsNextWith};
ghost use Rattle.ocr_body_meaning.specs.Body.{Body, says};
ghost use Rattle.ocr_body_meaning.specs.Holds.{is_done, private_of};
ghost use Rattle.ocr_machine_history.specs.declared.entry.Entry.TheVariants as an;
ghost use Rattle.ocr_machine_parts.specs.Codes.{code_of};
ghost use Rattle.ocr_machine_parts.specs.Legal.{carried};
ghost use Rattle.ocr_machine_parts.specs.Taken.{face_in};
ghost use Rattle.ocr_worker_clerk.specs.Entry.{OcrKnown};
ghost use Rattle.ocr_worker_clerk.specs.Push.{ReadiesNone};
ghost use Rattle.ocr_worker_clerk.specs.Work.{AtWork, IsGone, Stays};
ghost use Rattle.ocr_worker_access.specs.Calls.{IsAnswer, IsCoded, drawn_for, faces_of};
ghost use Rattle.ocr_worker_access.specs.Access.{AreOthers, HasEntered, HasLifted, IsCalled, Runs, holds_at, home_at, made_by, places_made};
ghost use Rattle.ocr_worker_access.specs.Served.{own_log};

use ocr_body_meaning::{Answer, Call};
use ocr_guid::Guid;
use ocr_machine_history::{Entry, Writes};
use ocr_machine_parts::Part;
use ocr_turns::Clerk;
use ocr_worker_clerk::{Gate, Job, Ocr, Over, enter_at_work};
use std::alloc::Global;
use std::sync::Wait;

/// Enters a call of the body with its answer and the private writes of the hold that it ends. Gives
/// the EDTs that it resumes.
pub(crate) fn enter_call<R: Wait, G: Gate>(
    alloc: Global,
    job: &Job<R, G>,
    worker: u32,
    clerk: &mut Clerk<Ocr>,
    edt: Guid,
    home: Guid,
    call: Call,
    answer: Answer,
    writes: Writes,
    parts: Vec<(u64, Part)>,
) -> Result<Vec<Guid>, Over>
    ghost s: { Body × OcrKnown }
    requires work { AtWork job.now.turns.now job.now.program.now clerk.old }
    requires runs { Runs job.now.turns.now.1 edt s.0 s.1 }
    requires lifted { HasLifted job.now.turns.now.1 edt s.1 clerk.old
        (faces_of job.now.turns.now.1.limit home call
        ++ places_made job.now.turns.now.1.limit call answer)
        (drawn_for call answer) parts.items }
    requires next { IsNextWith call (private_of call (holds_at s.1))
        (says s.0 (own_log s.1.view.log edt)) }
    requires home { home ≡ home_at s.1 call }
    requires coded { IsCoded call }
    requires answer { IsAnswer clerk.old.view call answer }
    requires code { answer.code
        ≡ code_of edt (face_in job.now.turns.now.1.limit parts.items) call }
    requires writes { writes ≡ carried (is_done answer.code) (private_of call (holds_at s.1)) }
    ensures stays { Stays clerk.old clerk.new }
    ensures readied { OnOk result (ReadiesNone clerk.old clerk.new) }
    ensures work { OnOk result (AtWork job.now.turns.now job.now.program.now clerk.new) }
    ensures entered { IfOk result (λ r. HasEntered job.now.turns.now.1 edt s.0 clerk.new
        (faces_of job.now.turns.now.1.limit home call
        ++ places_made job.now.turns.now.1.limit call answer)
        (made_by job.now.turns.now.1.limit (an.Call edt home call answer writes)
        clerk.old.view.parts) r.items) }
    ensures others { OnOk result (AreOthers job.now.turns.now.1 edt
        (faces_of job.now.turns.now.1.limit home call
        ++ places_made job.now.turns.now.1.limit call answer)) }
    ensures called { OnOk result (IsCalled edt call answer s.1 clerk.new) }
    ensures gone { OnErr result (IsGone job.now.turns.now worker clerk.new) }
{
    let entry = Entry::Call {
        edt,
        home,
        call,
        answer,
        writes,
    };
    enter_at_work(alloc, job, worker, clerk, entry, parts)
}
