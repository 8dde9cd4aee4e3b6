// A load of a word of a block.
ghost use Rattle.std.specs.Prelude.{◌≡◌, [], IfOk, OnOk, OnErr};
ghost use Rattle.ocr_body_steps.specs.Api.{IsAccessed, IsNextWhereEntered, answer_with};
ghost use Rattle.ocr_body_meaning.specs.Behaviour.{IsNextWith};
ghost use Rattle.ocr_body_meaning.specs.Body.{Body, says};
ghost use Rattle.ocr_body_meaning.specs.Holds.{Entered, Refused, load_of};
ghost use Rattle.ocr_body_meaning.specs.declared.call.BodyStop.{BodyStop};
ghost use Rattle.ocr_worker_clerk.specs.Entry.{OcrKnown};
ghost use Rattle.ocr_worker_clerk.specs.Push.{ReadiesNone};
ghost use Rattle.ocr_worker_clerk.specs.Work.{AtWork, IsGone, Stays};
ghost use Rattle.ocr_worker_access.specs.Accesses.{HasWord, IfFault, OnGoing, OnOver, second_in, word_at};
ghost use Rattle.ocr_worker_access.specs.Access.{IsCalled, Runs, holds_at};
ghost use Rattle.ocr_worker_access.specs.Served.{own_log};

use crate::access::{Found, Refusal, core_at, find_load};
use crate::shared::{enter_access, lift_shared};
use ocr_body_meaning::Call;
use ocr_guid::Guid;
use ocr_machine_parts::Part;
use ocr_turns::Clerk;
use ocr_worker_clerk::{Gate, Job, Ocr, Over};
use std::alloc::Global;
use std::sync::Wait;

/// Loads a word of a block for the body. Where the EDT holds the block in `Rw` or `Ro`, it is an
/// entry; in `Ew` and `Const` it is none. It is refused as `NotHeld` where the EDT does not hold
/// the block, as `BadIndex` where the block has no such word, and where the run has ended.
pub fn load<R: Wait, G: Gate>(
    alloc: Global,
    job: &Job<R, G>,
    worker: u32,
    clerk: &mut Clerk<Ocr>,
    edt: Guid,
    block: Guid,
    word: u64,
) -> Result<u64, Refusal>
    ghost b: { Body }
    requires work { AtWork job.now.turns.now job.now.program.now clerk.old }
    requires runs { Runs job.now.turns.now.1 edt b clerk.old }
    requires next { IsNextWhereEntered (load_of (holds_at clerk.old block) word)
        (Call.Load block word) (says b (own_log clerk.old.view.log edt)) }
    ensures stays { Stays clerk.old clerk.new }
    ensures readied { OnGoing result (ReadiesNone clerk.old clerk.new) }
    ensures work { OnGoing result (AtWork job.now.turns.now job.now.program.now clerk.new) }
    ensures runs { OnGoing result (Runs job.now.turns.now.1 edt b clerk.new) }
    ensures ok { IfOk result (λ v. IsAccessed (load_of (holds_at clerk.old block) word)
        (Call.Load block word) v (own_log clerk.old.view.log edt)
        (own_log clerk.new.view.log edt)) }
    ensures holds { OnOk result (holds_at clerk.new ≡ holds_at clerk.old) }
    ensures fault { IfFault result (λ stop. (clerk.new ≡ clerk.old)
        × (load_of (holds_at clerk.old block) word ≡ Refused stop)) }
    ensures over { OnOver result (IsGone job.now.turns.now worker clerk.new) }
    ensures fit { OnOver result ((stop : BodyStop)
        → load_of (holds_at clerk.old block) word ≡ Refused stop → ⊥) }
{
    match find_load(core_at(clerk, job.turns.limit() + edt.0), block, word) {
        Found::Refused(stop) => Err(Refusal::Fault(stop)),
        Found::Silent(value) => Ok(value),
        Found::Entered => Ok(load_shared(alloc, job, worker, clerk, edt, block, word)?),
    }
}

// Loads a word that the EDT shares, by an entry.
fn load_shared<R: Wait, G: Gate>(
    alloc: Global,
    job: &Job<R, G>,
    worker: u32,
    clerk: &mut Clerk<Ocr>,
    edt: Guid,
    block: Guid,
    word: u64,
) -> Result<u64, Over>
    ghost s: { Body × OcrKnown }
    requires old { s.1 ≡ clerk.old }
    requires work { AtWork job.now.turns.now job.now.program.now clerk.old }
    requires runs { Runs job.now.turns.now.1 edt s.0 clerk.old }
    requires entered { load_of (holds_at clerk.old block) word ≡ Entered }
    requires next { IsNextWith (Call.Load block word) []
        (says s.0 (own_log clerk.old.view.log edt)) }
    ensures stays { Stays clerk.old clerk.new }
    ensures readied { OnOk result (ReadiesNone clerk.old clerk.new) }
    ensures work { OnOk result (AtWork job.now.turns.now job.now.program.now clerk.new) }
    ensures runs { OnOk result (Runs job.now.turns.now.1 edt s.0 clerk.new) }
    ensures called { IfOk result (λ v. IsCalled edt (Call.Load block word) (answer_with v)
        clerk.old clerk.new) }
    ensures gone { OnErr result (IsGone job.now.turns.now worker clerk.new) }
{
    let call = Call::Load {
        block: block.0,
        word,
    };
    let parts = lift_shared(alloc, job, worker, clerk, edt, block)?;
    let value = shared_word(&parts, word);
    enter_access(alloc, job, worker, clerk, edt, block, call, value, parts)?;
    Ok(value)
}

// The word of the block behind the core.
fn shared_word(parts: &[(u64, Part)], word: u64) -> u64
    requires { HasWord word (second_in parts.now) }
    ensures { result ≡ word_at word (second_in parts.now) }
{
    match &parts[1].1 {
        Part::Block(block) => {
            let block = block.get();
            let _words = block.words();
            block.load(word as u32)
        }
        _ => unreachable!(),
    }
}
