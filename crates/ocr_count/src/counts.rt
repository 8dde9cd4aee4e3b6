// Payloads and countdowns.
ghost use Rattle.std.specs.Prelude.{◌≡◌};
ghost use Rattle.ocr_turns_rule.specs.Contract.{IsOfTable, SameHand};
ghost use Rattle.ocr_turns_rule.specs.Words.{OwesCount, OwesMaking, OwesPayload, counting_down, counting_made, putting};
ghost use Rattle.ocr_count.specs.Counts.{DownTells, LeavesSome, left_of};

use crate::answers::Down;
use ocr_guid::Guid;
use ocr_turns::{Clerk, Machine, Turns, WordStep};

/// Puts the payload of a slot that an entry of this clerk set into the slot's word.
pub fn put_payload<M: Machine>(
    turns: &Turns<M>,
    clerk: &mut Clerk<M>,
    edt: Guid,
    slot: u32,
    payload: u64,
)
    requires table { IsOfTable turns.now clerk.old }
    requires owes { OwesPayload clerk.old.view edt slot payload }
    ensures hand { SameHand clerk.old clerk.new }
    ensures view { clerk.new.view ≡ putting clerk.old.view edt slot payload }
{
    turns.step_word(clerk, edt.0, WordStep::Put { slot, payload });
}

/// Counts a slot of the EDT whose payload this clerk put. `Last` comes to one caller for each EDT,
/// where its making and all its slots are counted.
pub fn count_down<M: Machine>(turns: &Turns<M>, clerk: &mut Clerk<M>, edt: Guid) -> Down
    requires table { IsOfTable turns.now clerk.old }
    requires owes { OwesCount clerk.old.view edt }
    ensures hand { SameHand clerk.old clerk.new }
    ensures view { clerk.new.view ≡ counting_down clerk.old.view edt (left_of result) }
    ensures told { DownTells M.meaning result clerk.new.view edt }
{
    let found = turns.step_word(clerk, edt.0, WordStep::Count);
    down_to(found - 1)
}

/// Counts the making of an EDT that an entry of this clerk made with so many slots. It answers as
/// `count_down` does.
pub fn count_made<M: Machine>(turns: &Turns<M>, clerk: &mut Clerk<M>, edt: Guid, depc: u32) -> Down
    requires table { IsOfTable turns.now clerk.old }
    requires owes { OwesMaking clerk.old.view edt depc }
    ensures hand { SameHand clerk.old clerk.new }
    ensures view { clerk.new.view ≡ counting_made clerk.old.view edt (left_of result) }
    ensures told { DownTells M.meaning result clerk.new.view edt }
{
    let found = turns.step_word(clerk, edt.0, WordStep::CountMade { slots: depc });
    down_to(found - (33 - depc as u64))
}

fn down_to(left: u64) -> Down
    ensures left { left_of result ≡ left }
    ensures some { LeavesSome result }
{
    if left == 0 {
        Down::Last
    } else {
        Down::More(left)
    }
}
