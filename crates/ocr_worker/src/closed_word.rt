// The commit word of a run that has ended.
ghost use Rattle.std.specs.Prelude.{◌≡◌, ◌≤◌, ℕ, Some};
ghost use Rattle.ocr_worker_clerk.specs.Work.{HasEnded, IsAway, Stays};
ghost use Rattle.ocr_turns_rule.specs.Contract.{IsOfTable};
ghost use Rattle.ocr_turns_rule.specs.Rule.{OPEN};

use ocr_turns::{Clerk, Turns};
use ocr_worker_clerk::Ocr;

/// The commit word of a run that has ended, as this clerk knows.
pub fn closing_word(turns: &Turns<Ocr>, clerk: &mut Clerk<Ocr>) -> u64
    requires table { IsOfTable turns.now clerk.old }
    requires ended { HasEnded clerk.old }
    ensures stays { Stays clerk.old clerk.new }
    ensures closed { (OPEN ≤ result) × (clerk.new.view.closed ≡ Some result) }
    ensures left { (worker : ℕ) → IsAway turns.now worker clerk.old
        → IsAway turns.now worker clerk.new }
{
    match turns.look(clerk) {
        Some(word) => word,
        None => unreachable!(),
    }
}
