// Raises, lowers and reads.
ghost use Rattle.std.specs.Prelude.{◌≡◌, ◌<◌, ◌≤◌, [], IfOk, OnErr};
ghost use Rattle.ocr_turns_rule.specs.Steps as steps;
ghost use Rattle.ocr_turns_rule.specs.Contract.{IsOfTable, SameHand};
ghost use Rattle.ocr_turns_rule.specs.Live.{MayLower, MayRaise, lowering, raising};
ghost use Rattle.ocr_live.specs.Live.{LiveReads};

use crate::answers::LiveRead;
use ocr_base::NoMemory;
use ocr_turns::{Clerk, LiveStep, Machine, Turns};
use std::alloc::Global;

/// Adds units to the live word, which the clerk has to spare then.
pub fn raise<M: Machine>(turns: &Turns<M>, clerk: &mut Clerk<M>, units: u64)
    requires table { IsOfTable turns.now clerk.old }
    requires may { MayRaise clerk.old.view units }
    ensures hand { SameHand clerk.old clerk.new }
    ensures view { clerk.new.view ≡ raising clerk.old.view units }
{
    turns.step_live(clerk, LiveStep::Raise { units });
}

/// Takes units that the clerk has to spare from the live word.
pub fn lower<M: Machine>(turns: &Turns<M>, clerk: &mut Clerk<M>, units: u64)
    requires table { IsOfTable turns.now clerk.old }
    requires may { MayLower clerk.old.view units }
    ensures hand { SameHand clerk.old clerk.new }
    ensures view { clerk.new.view ≡ lowering clerk.old.view units }
{
    turns.step_live(clerk, LiveStep::Lower { units });
}

/// A new clerk, made by the root, which has a spare unit of the root's.
pub fn split_live<M: Machine>(
    turns: &Turns<M>,
    alloc: Global,
    root: &mut Clerk<M>,
) -> Result<Clerk<M>, NoMemory>
    requires table { IsOfTable turns.now root.old }
    requires root { (root.old.view.root ≡ 1) × (0 < root.old.view.quota) }
    requires spare { MayLower root.old.view 1 }
    ensures root { IfOk result (λ _. SameHand root.old root.new
        × (root.new.view ≡ steps.parted_spare root.old.view)) }
    ensures clerk { IfOk result (λ c. (c.table ≡ root.old.table)
        × (c.view ≡ steps.fresh_spare root.old.view) × (c.parts ≡ []) × (1 ≤ c.room)
        × (64 ≤ c.spare)) }
    ensures err { OnErr result (root.new ≡ root.old) }
{
    turns.split_spare(alloc, root)
}

/// Whether anything can come any more. `Quiet` comes exactly where the live word was 0.
pub fn live<M: Machine>(turns: &Turns<M>, clerk: &mut Clerk<M>) -> LiveRead
    requires table { IsOfTable turns.now clerk.old }
    ensures hand { SameHand clerk.old clerk.new }
    ensures told { LiveReads M.meaning result clerk.old.view clerk.new.view }
{
    let found = turns.step_live(clerk, LiveStep::Read);
    if found != 0 {
        return LiveRead::Busy(found);
    }
    let entries = turns.step_live(clerk, LiveStep::Entries);
    LiveRead::Quiet { entries }
}
