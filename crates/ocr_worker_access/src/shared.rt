// The entry of a load or a store of a word that EDTs share, on the face of its block.
ghost use Rattle.std.specs.Prelude.{◌≡◌, ◌∷◌, [], ℕ, IfOk, OnOk, OnErr};
ghost use Rattle.ocr_body_steps.specs.Api.{answer_with};
ghost use Rattle.ocr_body_meaning.specs.Behaviour.{IsNextWith};
ghost use Rattle.ocr_body_meaning.specs.Body.{Body, says};
ghost use Rattle.ocr_worker_clerk.specs.Entry.{OcrKnown};
ghost use Rattle.ocr_worker_clerk.specs.Push.{ReadiesNone};
ghost use Rattle.ocr_worker_clerk.specs.Work.{AtWork, IsGone, Stays};
ghost use Rattle.ocr_worker_access.specs.Accesses.{EntersIn, HasWord, IsAccessOf, second_in};
ghost use Rattle.ocr_worker_access.specs.Access.{HasLifted, IsCalled, Runs, holds_at};
ghost use Rattle.ocr_worker_access.specs.Served.{own_log};

use ocr_body_meaning::{Answer, Call};
use ocr_guid::{Code, Guid};
use ocr_machine_history::{Entry, Writes};
use ocr_machine_parts::Part;
use ocr_turns::Clerk;
use ocr_worker_clerk::{
    Gate, Job, Ocr, Over, close_memory, enter_at_work, give_faces, lift_parts, take_part,
};
use std::alloc::Global;
use std::sync::Wait;

/// Takes the face of a block of which the EDT shares the words, and lifts it behind the core. The
/// block has each word that the EDT may load or store.
#[inline(always)]
pub(crate) fn lift_shared<R: Wait, G: Gate>(
    alloc: Global,
    job: &Job<R, G>,
    worker: u32,
    clerk: &mut Clerk<Ocr>,
    edt: Guid,
    block: Guid,
) -> Result<Vec<(u64, Part)>, Over>
    ghost b: { Body }
    requires work { AtWork job.now.turns.now job.now.program.now clerk.old }
    requires runs { Runs job.now.turns.now.1 edt b clerk.old }
    requires entered { (word : ℕ) × EntersIn (holds_at clerk.old) block word }
    ensures stays { Stays clerk.old clerk.new }
    ensures readied { OnOk result (ReadiesNone clerk.old clerk.new) }
    ensures work { OnOk result (AtWork job.now.turns.now job.now.program.now clerk.new) }
    ensures lifted { IfOk result (λ v. HasLifted job.now.turns.now.1 edt clerk.old clerk.new
        (block ∷ []) [] v.items) }
    ensures words { IfOk result (λ v. (word : ℕ) → EntersIn (holds_at clerk.old) block word
        → HasWord word (second_in v.items)) }
    ensures gone { OnErr result (IsGone job.now.turns.now worker clerk.new) }
{
    take_part(job, worker, clerk, block.0)?;
    let places = [job.turns.limit() + edt.0, block.0];
    let Ok(parts) = lift_parts(alloc, clerk, &places) else {
        return Err(close_memory(job, worker, clerk));
    };
    Ok(parts)
}

/// Enters a load or a store with its value, and gives the block's face back.
#[inline(always)]
pub(crate) fn enter_access<R: Wait, G: Gate>(
    alloc: Global,
    job: &Job<R, G>,
    worker: u32,
    clerk: &mut Clerk<Ocr>,
    edt: Guid,
    block: Guid,
    call: Call,
    value: u64,
    parts: Vec<(u64, Part)>,
) -> Result<(), Over>
    ghost s: { Body × OcrKnown }
    requires work { AtWork job.now.turns.now job.now.program.now clerk.old }
    requires runs { Runs job.now.turns.now.1 edt s.0 s.1 }
    requires lifted { HasLifted job.now.turns.now.1 edt s.1 clerk.old (block ∷ []) []
        parts.items }
    requires next { IsNextWith call [] (says s.0 (own_log s.1.view.log edt)) }
    requires access { IsAccessOf (holds_at s.1) block call value (second_in parts.items) }
    ensures stays { Stays clerk.old clerk.new }
    ensures readied { OnOk result (ReadiesNone clerk.old clerk.new) }
    ensures work { OnOk result (AtWork job.now.turns.now job.now.program.now clerk.new) }
    ensures runs { OnOk result (Runs job.now.turns.now.1 edt s.0 clerk.new) }
    ensures called { OnOk result (IsCalled edt call (answer_with value) s.1 clerk.new) }
    ensures gone { OnErr result (IsGone job.now.turns.now worker clerk.new) }
{
    let entry = Entry::Call {
        edt,
        home: Guid::NULL,
        call,
        answer: answer_with(value),
        writes: Writes::none(alloc),
    };
    enter_at_work(alloc, job, worker, clerk, entry, parts)?;
    give_faces(job.turns, job.program, clerk, edt, &[block.0]);
    Ok(())
}

// The answer of a load or a store.
fn answer_with(value: u64) -> Answer
    ensures { result ≡ answer_with value }
{
    Answer {
        code: Code::Done,
        value,
        scope: Guid::NULL,
        output: Guid::NULL,
    }
}
