// A call of the body that becomes an entry, from the parts that it names to what it leaves.
ghost use Rattle.std.specs.Prelude.{◌≡◌, ◌++◌, ◌∷◌, ◌+◌, IfOk, OnOk, OnErr};
ghost use Rattle.ocr_body_meaning.specs.Behaviour.{IsNextWith};
ghost use Rattle.ocr_body_meaning.specs.Body.{Body, says};
ghost use Rattle.ocr_body_meaning.specs.Holds.{is_done, private_of};
ghost use Rattle.ocr_machine_parts.specs.Codes.{code_of};
ghost use Rattle.ocr_machine_parts.specs.Legal.{carried};
ghost use Rattle.ocr_machine_parts.specs.Taken.{face_in};
ghost use Rattle.ocr_machine_parts.specs.Bodies.{holds_in};
ghost use Rattle.ocr_turns_rule.specs.Sums.{as_some};
ghost use Rattle.ocr_worker_clerk.specs.Entry.{OcrKnown};
ghost use Rattle.ocr_worker_clerk.specs.Push.{IsPushed, PushesReady};
ghost use Rattle.ocr_worker_clerk.specs.Work.{AtWork, IsGone, Stays};
ghost use Rattle.ocr_worker_access.specs.Calls.{IsAnswer, IsCoded, drawn_for, faces_of};
ghost use Rattle.ocr_worker_calls.specs.Calls.{HasCore, HasListed};
ghost use Rattle.ocr_worker_access.specs.Access.{HasLifted, IsCalled, Runs, first_in, holds_at, home_at, places_made};
ghost use Rattle.ocr_worker_access.specs.Served.{own_log};

use crate::answer::answer;
use crate::asked::{Asked, ask};
use crate::entry::enter_call;
use crate::made::edt_made;
use crate::writes::carried_writes;
use ocr_base::NoMemory;
use ocr_body_meaning::{Answer, Call};
use ocr_guid::{Code, Guid};
use ocr_machine_history::Writes;
use ocr_machine_parts::Part;
use ocr_steal::Hand;
use ocr_turns::Clerk;
use ocr_worker_access::conclude;
use ocr_worker_clerk::{Gate, Job, Ocr, Over, close_memory};
use std::alloc::Global;
use std::sync::Wait;

/// Makes a call, as `make_call` does, from the parts that it names, with a name for the clerk as it
/// is before.
pub(crate) fn make_from<R: Wait, G: Gate>(
    alloc: Global,
    job: &Job<R, G>,
    worker: u32,
    clerk: &mut Clerk<Ocr>,
    hand: &mut Hand,
    edt: Guid,
    call: &Call,
) -> Result<Answer, Over>
    ghost s: { Body × OcrKnown }
    requires first { s.1 ≡ clerk.old }
    requires work { AtWork job.now.turns.now job.now.program.now clerk.old }
    requires runs { Runs job.now.turns.now.1 edt s.0 s.1 }
    requires next { IsNextWith call.now (private_of call.now (holds_at s.1))
        (says s.0 (own_log s.1.view.log edt)) }
    requires coded { IsCoded call.now }
    ensures stays { Stays clerk.old clerk.new }
    ensures work { OnOk result (AtWork job.now.turns.now job.now.program.now clerk.new) }
    ensures runs { OnOk result (Runs job.now.turns.now.1 edt s.0 clerk.new) }
    ensures called { IfOk result (λ a. IsCalled edt call.now a s.1 clerk.new) }
    ensures hand { IsPushed hand.old hand.new }
    ensures pushed { OnOk result (PushesReady clerk.old clerk.new hand.old hand.new) }
    ensures gone { OnErr result (IsGone job.now.turns.now worker clerk.new) }
{
    let mut asked = ask(alloc, job, worker, clerk, edt, call)?;
    let given = answer(job, worker, clerk, edt, &mut asked)?;
    enter_asked(alloc, job, worker, clerk, hand, edt, asked, &given)?;
    Ok(given)
}

// Enters the call with its answer, and concludes the entry.
fn enter_asked<R: Wait, G: Gate>(
    alloc: Global,
    job: &Job<R, G>,
    worker: u32,
    clerk: &mut Clerk<Ocr>,
    hand: &mut Hand,
    edt: Guid,
    asked: Asked,
    given: &Answer,
) -> Result<(), Over>
    ghost s: { Body × OcrKnown }
    requires work { AtWork job.now.turns.now job.now.program.now clerk.old }
    requires runs { Runs job.now.turns.now.1 edt s.0 s.1 }
    requires lifted { HasLifted job.now.turns.now.1 edt s.1 clerk.old
        (faces_of job.now.turns.now.1.limit asked.home asked.call
        ++ places_made job.now.turns.now.1.limit asked.call given.now)
        (drawn_for asked.call given.now) asked.parts.items }
    requires places { asked.places.items ≡ (job.now.turns.now.1.limit + edt)
        ∷ (faces_of job.now.turns.now.1.limit asked.home asked.call
        ++ places_made job.now.turns.now.1.limit asked.call given.now) }
    requires next { IsNextWith asked.call (private_of asked.call (holds_at s.1))
        (says s.0 (own_log s.1.view.log edt)) }
    requires home { asked.home ≡ home_at s.1 asked.call }
    requires coded { IsCoded asked.call }
    requires answer { IsAnswer clerk.old.view asked.call given.now }
    requires code { given.now.code
        ≡ code_of edt (face_in job.now.turns.now.1.limit asked.parts.items) asked.call }
    ensures stays { Stays clerk.old clerk.new }
    ensures work { OnOk result (AtWork job.now.turns.now job.now.program.now clerk.new) }
    ensures runs { OnOk result (Runs job.now.turns.now.1 edt s.0 clerk.new) }
    ensures called { OnOk result (IsCalled edt asked.call given.now s.1 clerk.new) }
    ensures hand { IsPushed hand.old hand.new }
    ensures pushed { OnOk result (PushesReady clerk.old clerk.new hand.old hand.new) }
    ensures gone { OnErr result (IsGone job.now.turns.now worker clerk.new) }
{
    let Asked {
        call,
        home,
        places,
        mut parts,
        code: _,
    } = asked;
    let made = edt_made(&call, given, &parts);
    let Ok(writes) = list_carried(alloc, &call, given.code, &mut parts) else {
        return Err(close_memory(job, worker, clerk));
    };
    let resumed = enter_call(
        alloc, job, worker, clerk, edt, home, call, *given, writes, parts,
    )?;
    conclude(
        alloc,
        job,
        worker,
        clerk,
        hand,
        edt,
        made,
        &resumed,
        &places[1..],
    )
}

// The private writes that the call carries, listed in the core, which stands first.
fn list_carried(
    alloc: Global,
    call: &Call,
    code: Code,
    parts: &mut Vec<(u64, Part)>,
) -> Result<Writes, NoMemory>
    requires core { HasCore parts.old.items }
    ensures listed { HasListed parts.old.items parts.new.items }
    ensures writes { IfOk result (λ w. w ≡ carried (is_done code)
        (private_of call.now (holds_in (first_in (as_some parts.old.items))))) }
{
    let Part::Core(core) = &mut parts[0].1 else {
        unreachable!()
    };
    carried_writes(alloc, call, code, core)
}
