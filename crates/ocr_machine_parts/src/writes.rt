// The private writes of a hold.
ghost use Rattle.std.specs.Prelude.{◌≡◌, true, IfOk};
ghost use Rattle.ocr_acquire.specs.Mode.{mode_in};
ghost use Rattle.ocr_datablock.specs.Lent.{after_list_writes};
ghost use Rattle.ocr_body_meaning.specs.Holds.{private_in};
ghost use Rattle.ocr_machine_parts.specs.declared.part.Part.TheVariants as part;
ghost use Rattle.ocr_machine_parts.specs.Bodies.{holds_in, writes_in};
ghost use Rattle.ocr_machine_parts.specs.Kinds.{holds_of, work_in};
ghost use Rattle.ocr_machine_parts.specs.Loans.{IsListed, is_apart, kept_in, loan_in};
ghost use Rattle.ocr_machine_parts.specs.Progress.{core_after};

use crate::boxed::BoxedCore;
use crate::loans::{Kept, Loans};
use ocr_acquire::Mode;
use ocr_base::NoMemory;
use ocr_datablock::Lent;
use ocr_edt::Edt;
use ocr_guid::Guid;
use ocr_machine_history::Writes;
use std::alloc::Global;

/// The private writes of the hold of a block, by the core of the EDT that holds it; none where it
/// does not hold the block in EW or CONST. The loan of the block is listed then.
pub fn listed_writes(alloc: Global, core: &mut BoxedCore, block: Guid) -> Result<Writes, NoMemory>
    ensures core { core.new ≡ core_after after_list_writes block core.old }
    ensures writes { IfOk result (λ w. w ≡ private_in (holds_in (part.Core core.old) block)) }
{
    core.list_writes(block);
    if holds_apart(&core.get().edt, block) {
        return writes_among(alloc, &core.get().loans, block);
    }
    Ok(Writes::none(alloc))
}

// Whether the EDT holds the block in EW or CONST.
fn holds_apart(edt: &Edt, block: Guid) -> bool
    ensures { result ≡ is_apart (mode_in block (holds_of (work_in edt.now))) }
{
    let Edt::Running(work) = edt else {
        return false;
    };
    match work.mode(block) {
        Some(Mode::Ew | Mode::Const) => true,
        Some(Mode::Null | Mode::Rw | Mode::Ro) | None => false,
    }
}

// The writes of the loan that is kept with a block.
fn writes_among(alloc: Global, loans: &Loans, block: Guid) -> Result<Writes, NoMemory>
    requires { IsListed (loan_in (kept_in block loans.now)) }
    ensures { IfOk result (λ w. w ≡ writes_in (loan_in (kept_in block loans.now))) }
{
    match loans.get(block) {
        Some(kept) => writes_of(alloc, kept),
        None => Ok(Writes::none(alloc)),
    }
}

fn writes_of(alloc: Global, kept: &Kept) -> Result<Writes, NoMemory>
    requires { IsListed kept.now.loan }
    ensures { IfOk result (λ w. w ≡ writes_in kept.now.loan) }
{
    match &kept.loan {
        None => Ok(Writes::none(alloc)),
        Some(loan) => copied_writes(alloc, loan),
    }
}

fn copied_writes(alloc: Global, loan: &Lent) -> Result<Writes, NoMemory>
    requires { loan.now.listed ≡ true }
    ensures { IfOk result (λ w. w ≡ loan.now.writes) }
{
    let Ok(words) = Vec::from_slice(alloc, loan.writes()) else {
        return Err(NoMemory);
    };
    Ok(Writes::from_vec(words))
}
