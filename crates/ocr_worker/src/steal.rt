// One round of steals.
ghost use Rattle.std.specs.Prelude.{◌≡◌, ◌≢◌, ◌<◌, ◌≤◌, ℕ, IfNone, IfSome};
ghost use Rattle.ocr_steal.specs.Hand.{Gets, IsSame, knows, own};
ghost use Rattle.ocr_steal.specs.Pool.{IsOfPool, hands_in};
ghost use Rattle.ocr_worker.specs.Steal.{HasMissedMore};

use ocr_guid::Guid;
use ocr_steal::{Hand, Pool, Steal};

/// Tries to steal once from each other hand: the first EDT that it gets.
pub(crate) fn steal_once(pool: &Pool, hand: &mut Hand) -> Option<Guid>
    requires { IsOfPool pool.now hand.old }
    ensures same { IsSame hand.old hand.new × (own hand.new ≡ own hand.old) }
    ensures none { IfNone result ((knows hand.new ≡ knows hand.old)
        × HasMissedMore (hands_in pool.now) hand.old hand.new) }
    ensures some { IfSome result (λ edt. (victim : ℕ) × (victim < hands_in pool.now)
        × (victim ≢ hand.old.number) × Gets hand.old hand.new victim edt) }
{
    for victim in 0..pool.hands() {
        if victim != hand.number() {
            if let Steal::Got(edt) = hand.steal(pool, victim) {
                return Some(edt);
            }
        }
    }
    None
}
