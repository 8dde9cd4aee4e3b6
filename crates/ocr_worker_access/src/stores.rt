// A store in a word of a block.
ghost use Rattle.std.specs.Prelude.{◌≡◌, [], ℕ, OnOk, OnErr};
ghost use Rattle.ocr_body_steps.specs.Api.{IsAccessed, IsNextWhereEntered, answer_with};
ghost use Rattle.ocr_body_meaning.specs.Behaviour.{IsNextWith};
ghost use Rattle.ocr_body_meaning.specs.Body.{Body, says};
ghost use Rattle.ocr_body_meaning.specs.Holds.{Entered, Refused, Silent, after_store, store_of};
ghost use Rattle.ocr_body_meaning.specs.declared.call.BodyStop.{BodyStop};
ghost use Rattle.ocr_worker_clerk.specs.Entry.{OcrKnown};
ghost use Rattle.ocr_worker_clerk.specs.Push.{ReadiesNone};
ghost use Rattle.ocr_worker_clerk.specs.Work.{AtWork, IsGone, Stays};
ghost use Rattle.ocr_datablock.specs.Lent as lent;
ghost use Rattle.ocr_machine_parts.specs.Kinds.{kept_on, on_core};
ghost use Rattle.ocr_machine_parts.specs.Loans.{IsStorable, loan_in};
ghost use Rattle.ocr_machine_parts.specs.Progress.{core_after};
ghost use Rattle.ocr_worker_access.specs.Accesses.{IfFault, OnGoing, OnOver};
ghost use Rattle.ocr_worker_access.specs.Access.{IsCalled, Runs, holds_at};
ghost use Rattle.ocr_worker_access.specs.Served.{own_log};

use crate::access::{Found, Refusal, core_at, find_store};
use crate::shared::{enter_access, lift_shared};
use ocr_base::NoMemory;
use ocr_body_meaning::Call;
use ocr_guid::Guid;
use ocr_machine_parts::Part;
use ocr_turns::Clerk;
use ocr_worker_clerk::{Gate, Job, Ocr, Over, close_memory};
use std::alloc::Global;
use std::sync::Wait;

/// Stores a value in a word of a block for the body. Where the EDT holds the block in `Rw`, it is
/// an entry; in `Ew` it is none. It is refused as `NotHeld` where the EDT does not hold the block,
/// as `NotWritable` where it holds it in another mode, as `BadIndex` where the block has no such
/// word, and where the run has ended, as it does for want of memory.
pub fn store<R: Wait, G: Gate>(
    alloc: Global,
    job: &Job<R, G>,
    worker: u32,
    clerk: &mut Clerk<Ocr>,
    edt: Guid,
    block: Guid,
    word: u64,
    value: u64,
) -> Result<(), Refusal>
    ghost b: { Body }
    requires work { AtWork job.now.turns.now job.now.program.now clerk.old }
    requires runs { Runs job.now.turns.now.1 edt b clerk.old }
    requires next { IsNextWhereEntered (store_of (holds_at clerk.old block) word)
        (Call.Store block word value) (says b (own_log clerk.old.view.log edt)) }
    ensures stays { Stays clerk.old clerk.new }
    ensures readied { OnGoing result (ReadiesNone clerk.old clerk.new) }
    ensures work { OnGoing result (AtWork job.now.turns.now job.now.program.now clerk.new) }
    ensures runs { OnGoing result (Runs job.now.turns.now.1 edt b clerk.new) }
    ensures ok { OnOk result (IsAccessed (store_of (holds_at clerk.old block) word)
        (Call.Store block word value) 0 (own_log clerk.old.view.log edt)
        (own_log clerk.new.view.log edt)) }
    ensures holds { OnOk result (holds_at clerk.new
        ≡ after_store (store_of (holds_at clerk.old block) word) block word value
        (holds_at clerk.old)) }
    ensures fault { IfFault result (λ stop. (clerk.new ≡ clerk.old)
        × (store_of (holds_at clerk.old block) word ≡ Refused stop)) }
    ensures over { OnOver result (IsGone job.now.turns.now worker clerk.new) }
    ensures fit { OnOver result ((stop : BodyStop)
        → store_of (holds_at clerk.old block) word ≡ Refused stop → ⊥) }
{
    match find_store(core_at(clerk, job.turns.limit() + edt.0), block, word) {
        Found::Refused(stop) => Err(Refusal::Fault(stop)),
        Found::Silent(_) => Ok(store_lent(
            alloc,
            job,
            worker,
            clerk,
            edt,
            block,
            word as u32,
            value,
        )?),
        Found::Entered => Ok(store_shared(alloc, job, worker, clerk, edt, block, word, value)?),
    }
}

// Stores a value in a word of the loan that the core keeps.
fn store_lent<R: Wait, G: Gate>(
    alloc: Global,
    job: &Job<R, G>,
    worker: u32,
    clerk: &mut Clerk<Ocr>,
    edt: Guid,
    block: Guid,
    word: u32,
    value: u64,
) -> Result<(), Over>
    ghost b: { Body }
    requires work { AtWork job.now.turns.now job.now.program.now clerk.old }
    requires runs { Runs job.now.turns.now.1 edt b clerk.old }
    requires silent { (x : ℕ) × (store_of (holds_at clerk.old block) word ≡ Silent x) }
    ensures stays { Stays clerk.old clerk.new }
    ensures readied { OnOk result (ReadiesNone clerk.old clerk.new) }
    ensures work { OnOk result (AtWork job.now.turns.now job.now.program.now clerk.new) }
    ensures runs { OnOk result (Runs job.now.turns.now.1 edt b clerk.new) }
    ensures log { OnOk result (clerk.new.view.log ≡ clerk.old.view.log) }
    ensures holds { OnOk result (holds_at clerk.new
        ≡ after_store (Silent 0) block word value (holds_at clerk.old)) }
    ensures gone { OnErr result (IsGone job.now.turns.now worker clerk.new) }
{
    let place = job.turns.limit() + edt.0;
    let mut part = clerk.lift(place);
    if store_in(alloc, &mut part, block, word, value).is_err() {
        return Err(close_memory(job, worker, clerk));
    }
    clerk.put(place, part);
    Ok(())
}

// Stores a value in a word of the loan that a core keeps with a block.
fn store_in(
    alloc: Global,
    part: &mut Part,
    block: Guid,
    word: u32,
    value: u64,
) -> Result<(), NoMemory>
    requires { IsStorable (loan_in (kept_on part.old block)) word }
    ensures { OnOk result (part.new
        ≡ on_core part.old (core_after (λ loan. lent.after_store loan word value) block)) }
{
    match part {
        Part::Core(core) => core.store(alloc, block, word, value),
        _ => unreachable!(),
    }
}

// Stores a value in a word that the EDT shares, by an entry.
fn store_shared<R: Wait, G: Gate>(
    alloc: Global,
    job: &Job<R, G>,
    worker: u32,
    clerk: &mut Clerk<Ocr>,
    edt: Guid,
    block: Guid,
    word: u64,
    value: u64,
) -> Result<(), Over>
    ghost s: { Body × OcrKnown }
    requires old { s.1 ≡ clerk.old }
    requires work { AtWork job.now.turns.now job.now.program.now clerk.old }
    requires runs { Runs job.now.turns.now.1 edt s.0 clerk.old }
    requires entered { store_of (holds_at clerk.old block) word ≡ Entered }
    requires next { IsNextWith (Call.Store block word value) []
        (says s.0 (own_log clerk.old.view.log edt)) }
    ensures stays { Stays clerk.old clerk.new }
    ensures readied { OnOk result (ReadiesNone clerk.old clerk.new) }
    ensures work { OnOk result (AtWork job.now.turns.now job.now.program.now clerk.new) }
    ensures runs { OnOk result (Runs job.now.turns.now.1 edt s.0 clerk.new) }
    ensures called { OnOk result (IsCalled edt (Call.Store block word value) (answer_with 0)
        clerk.old clerk.new) }
    ensures gone { OnErr result (IsGone job.now.turns.now worker clerk.new) }
{
    let call = Call::Store {
        block: block.0,
        word,
        value,
    };
    let parts = lift_shared(alloc, job, worker, clerk, edt, block)?;
    enter_access(alloc, job, worker, clerk, edt, block, call, 0, parts)
}
