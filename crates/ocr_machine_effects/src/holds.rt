// What ends a hold, and what ends an EDT.
ghost use Rattle.std.specs.Prelude.{◌≡◌, ◌≢◌, true, false, is_some, Some, IfOk};
ghost use Rattle.ocr_acquire.specs.Mode.{mode_in};
ghost use Rattle.ocr_datablock.specs.Steps.{after_release, after_doom};
ghost use Rattle.ocr_machine_parts.specs.Calls.{is_number};
ghost use Rattle.ocr_machine_parts.specs.Effects.{ended_edt, dropping_core, returned, hold_ended, ended};
ghost use Rattle.ocr_machine_parts.specs.Progress.{with_face, with_core, with_phase};
ghost use Rattle.ocr_machine_parts.specs.Kinds.{IsBlock, with_block, on_core, is_running, is_destroyed, loan_on, identity_on};
ghost use Rattle.ocr_machine_parts.specs.LegalOn.{IsEnding, IsDooming, IsEndOn, IsLoanBack};
ghost use Rattle.ocr_machine_parts.specs.Loans.{loan_in};
ghost use Rattle.ocr_machine_parts.specs.Messages.{resumed_by, resumed_by_doom, sent_by_end, payload_of_end};
ghost use Rattle.ocr_machine_effects.specs.AtHand.{state, Becomes, IsReturning, IsDoomable};

use crate::taken::TakenParts;
use ocr_base::NoMemory;
use ocr_datablock::Lent;
use ocr_edt::{Edt, Identity};
use ocr_guid::Guid;
use ocr_machine_history::{What, Writes};
use ocr_machine_parts::{BoxedBlock, Kept, Part, sent_by_end};
use std::alloc::Global;

/// The EDT's hold of the block ends; gives who is resumed. For want of memory what was taken is
/// lost, and the run ends then.
pub fn end_hold(
    alloc: Global,
    parts: &mut TakenParts,
    edt: Guid,
    block: u64,
    writes: &Writes,
) -> Result<Vec<Guid>, NoMemory>
    requires held { IsEnding (state parts.old) edt block }
    requires running { is_running ((state parts.old).core edt) ≡ true }
    ensures parts { IfOk result (λ _. Becomes parts.old parts.new
        (ended after_release (state parts.old) edt block writes.now)) }
    ensures resumed { IfOk result (λ r. r.items ≡ resumed_by ((state parts.old).face block) edt) }
{
    let lent = drop_core(parts, edt, block);
    release_at(alloc, parts, edt, block, lent, writes)
}

/// The EDT drops its hold of the block; gives the loan.
fn drop_core(parts: &mut TakenParts, edt: Guid, block: u64) -> Option<Lent>
    requires { is_running ((state parts.old).core edt) ≡ true }
    ensures loan { result ≡ loan_on ((state parts.old).core edt) block }
    ensures parts { Becomes parts.old parts.new
        (with_core (state parts.old) edt
        (on_core ((state parts.old).core edt) (dropping_core block))) }
{
    let mut core = parts.take_core(edt);
    let kept = core.drop_hold(Guid(block));
    parts.put_core(edt, core);
    loan_in(kept)
}

fn loan_in(kept: Option<Kept>) -> Option<Lent>
    ensures { result ≡ loan_in kept }
{
    match kept {
        Some(kept) => kept.loan,
        None => None,
    }
}

/// The block gets its loan back, and the EDT's hold of it ends; gives who is resumed.
fn release_at(
    alloc: Global,
    parts: &mut TakenParts,
    edt: Guid,
    block: u64,
    lent: Option<Lent>,
    writes: &Writes,
) -> Result<Vec<Guid>, NoMemory>
    requires { IsBlock ((state parts.old).face block) (IsReturning edt lent) }
    ensures parts { IfOk result (λ _. Becomes parts.old parts.new
        (with_face (state parts.old) block
        (with_block ((state parts.old).face block)
        (hold_ended after_release edt writes.now lent)))) }
    ensures resumed { IfOk result (λ r. r.items ≡ resumed_by ((state parts.old).face block) edt) }
{
    let mut state = parts.take_block(block);
    give_back(&mut state, edt, lent, writes);
    let resumed = state.release(alloc, edt)?;
    parts.put_face(block, Part::Block(state));
    Ok(resumed)
}

/// A loan comes back with the private writes of an entry, where there is one.
fn give_back(state: &mut BoxedBlock, edt: Guid, lent: Option<Lent>, writes: &Writes)
    requires { IsLoanBack edt lent state.old }
    ensures state { state.new ≡ returned writes.now lent state.old }
    ensures none { is_number edt state.new.borrower ≡ false }
    ensures holders { state.new.holders ≡ state.old.holders }
    ensures queue { state.new.queue ≡ state.old.queue }
    ensures destroyed { state.new.destroyed ≡ state.old.destroyed }
{
    if let Some(lent) = lent {
        state.take_back_with(edt, lent, writes.as_slice());
    }
}

/// The block is destroyed, and the EDT's hold of it ends, where it has one; gives who is resumed.
/// For want of memory what was taken is lost, and the run ends then.
pub fn destroy(
    alloc: Global,
    parts: &mut TakenParts,
    edt: Guid,
    block: u64,
    writes: &Writes,
) -> Result<Vec<Guid>, NoMemory>
    requires agreed { IsDooming (state parts.old) edt block }
    requires live { is_destroyed ((state parts.old).face block) ≡ false }
    requires running { is_running ((state parts.old).core edt) ≡ true }
    ensures parts { IfOk result (λ _. Becomes parts.old parts.new
        (ended after_doom (state parts.old) edt block writes.now)) }
    ensures resumed { IfOk result (λ r. r.items
        ≡ resumed_by_doom ((state parts.old).face block) edt) }
{
    let lent = drop_core(parts, edt, block);
    doom_at(alloc, parts, edt, block, lent, writes)
}

/// The block gets its loan back, and is destroyed; gives who is resumed.
fn doom_at(
    alloc: Global,
    parts: &mut TakenParts,
    edt: Guid,
    block: u64,
    lent: Option<Lent>,
    writes: &Writes,
) -> Result<Vec<Guid>, NoMemory>
    requires { IsBlock ((state parts.old).face block) (IsDoomable edt lent) }
    ensures parts { IfOk result (λ _. Becomes parts.old parts.new
        (with_face (state parts.old) block
        (with_block ((state parts.old).face block)
        (hold_ended after_doom edt writes.now lent)))) }
    ensures resumed { IfOk result (λ r. r.items
        ≡ resumed_by_doom ((state parts.old).face block) edt) }
{
    let mut state = parts.take_block(block);
    give_back(&mut state, edt, lent, writes);
    let resumed = state.doom(alloc, edt)?;
    parts.put_face(block, Part::Block(state));
    Ok(resumed)
}

/// The EDT ends with this GUID; gives what goes out to its output event and to its home.
pub fn end_step(
    alloc: Global,
    parts: &mut TakenParts,
    edt: Guid,
    returned: u64,
) -> Result<Vec<What>, NoMemory>
    requires { IsEndOn (state parts.old) edt }
    ensures parts { IfOk result (λ _. Becomes parts.old parts.new
        (with_core (state parts.old) edt
        (on_core ((state parts.old).core edt) (with_phase ended_edt)))) }
    ensures messages { IfOk result (λ r. r.items
        ≡ sent_by_end (identity_on ((state parts.old).core edt))
        (payload_of_end ((state parts.old).face returned) returned)) }
{
    let payload = payload_of_end(parts, returned);
    let identity = end_core(parts, edt);
    sent_by_end(alloc, identity, payload)
}

/// What the output event gets: the block that the body returned, and NULL_GUID for anything else.
fn payload_of_end(parts: &TakenParts, returned: u64) -> Guid
    ensures { result ≡ payload_of_end ((state parts.now).face returned) returned }
{
    if parts.is_block(returned) {
        Guid(returned)
    } else {
        Guid::NULL
    }
}

/// The EDT ends; gives what it keeps through all its phases.
fn end_core(parts: &mut TakenParts, edt: Guid) -> Identity
    requires { IsEndOn (state parts.old) edt }
    ensures parts { Becomes parts.old parts.new
        (with_core (state parts.old) edt
        (on_core ((state parts.old).core edt) (with_phase ended_edt))) }
    ensures identity { result ≡ identity_on ((state parts.old).core edt) }
{
    let mut core = parts.take_core(edt);
    let Edt::Running(running) = core.take_edt() else {
        unreachable!()
    };
    let identity = running.identity();
    core.put_edt(Edt::Ended(running.end()));
    parts.put_core(edt, core);
    identity
}
