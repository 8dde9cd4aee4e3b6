// Claims, and the payloads that a claim lets be read.
ghost use Rattle.std.specs.Prelude.{◌≡◌};
ghost use Rattle.ocr_turns_rule.specs.Contract.{IsOfTable, SameHand};
ghost use Rattle.ocr_turns_rule.specs.Debts.{IsNumber};
ghost use Rattle.ocr_turns_rule.specs.Words.{HasClaim, HasSlot, IsOver, OwesResume, Waits, resuming, unclaiming};
ghost use Rattle.ocr_count.specs.Counts.{ClaimTells, PayloadTells};

use crate::answers::Claimed;
use ocr_guid::Guid;
use ocr_turns::{Clerk, Machine, Turns, WordStep};

/// Claims the EDT where it is ready. `Lost` carries its word, which is not that of a ready EDT.
#[inline(always)]
pub fn claim<M: Machine>(turns: &Turns<M>, clerk: &mut Clerk<M>, edt: Guid) -> Claimed
    requires table { IsOfTable turns.now clerk.old }
    requires edt { IsNumber turns.now.1.limit edt }
    ensures hand { SameHand clerk.old clerk.new }
    ensures told { ClaimTells M.meaning result clerk.old.view clerk.new.view edt }
{
    let found = turns.step_word(clerk, edt.0, WordStep::Claim);
    if found == 0 {
        Claimed::Won
    } else {
        Claimed::Lost(found)
    }
}

/// The payload of a slot of an EDT that this clerk has claimed. The clerk knows from then on that
/// the slot is set to it.
pub fn payload<M: Machine>(turns: &Turns<M>, clerk: &mut Clerk<M>, edt: Guid, slot: u32) -> u64
    requires table { IsOfTable turns.now clerk.old }
    requires claimed { HasClaim clerk.old.view edt }
    requires slot { HasSlot M.meaning turns.now.1 clerk.old.view edt slot }
    ensures hand { SameHand clerk.old clerk.new }
    ensures told { PayloadTells M.meaning result clerk.old.view clerk.new.view edt slot }
{
    turns.step_word(clerk, edt.0, WordStep::Read { slot })
}

/// Gives up the claim of an EDT that waits, so that whoever resumes it makes it ready.
pub fn park<M: Machine>(turns: &Turns<M>, clerk: &mut Clerk<M>, edt: Guid)
    requires table { IsOfTable turns.now clerk.old }
    requires claimed { HasClaim clerk.old.view edt }
    requires waits { Waits M.meaning turns.now.1 clerk.old.view edt }
    ensures hand { SameHand clerk.old clerk.new }
    ensures view { clerk.new.view ≡ unclaiming clerk.old.view edt }
{
    turns.step_word(clerk, edt.0, WordStep::Park);
}

/// Makes an EDT ready that an entry of this clerk resumed.
pub fn resume<M: Machine>(turns: &Turns<M>, clerk: &mut Clerk<M>, edt: Guid)
    requires table { IsOfTable turns.now clerk.old }
    requires owes { OwesResume clerk.old.view edt }
    ensures hand { SameHand clerk.old clerk.new }
    ensures view { clerk.new.view ≡ resuming clerk.old.view edt }
{
    turns.step_word(clerk, edt.0, WordStep::Resume);
}

/// Gives up the claim of an EDT that was destroyed before it started.
pub fn drop_claim<M: Machine>(turns: &Turns<M>, clerk: &mut Clerk<M>, edt: Guid)
    requires table { IsOfTable turns.now clerk.old }
    requires claimed { HasClaim clerk.old.view edt }
    requires over { IsOver M.meaning turns.now.1 clerk.old.view edt }
    ensures hand { SameHand clerk.old clerk.new }
    ensures view { clerk.new.view ≡ unclaiming clerk.old.view edt }
{
    turns.step_word(clerk, edt.0, WordStep::Drop);
}
