// A clerk that owes many messages.
ghost use Rattle.std.specs.Prelude.{◌≡◌, ◌≤◌, ◌+◌, ℕ, Some, IfSome, IsTrue};
ghost use Rattle.ocr_base.specs.Mail as mail;
ghost use Rattle.ocr_tests_turns.specs.Clerks.{IsIdle, IsOut};

use crate::play::{PLACES, add, owed_message};
use crate::threads::open;
use crate::toy::Toy;
use ocr_base::NoMemory;
use ocr_live::{raise, split_live};
use ocr_turns::{Clerk, Turns};
use std::alloc::Global;
use std::sync::Wait;

// Makes so many entries that deliver nothing: the name of the last one's message. `None`, where one
// was refused, or for no entry.
fn pile_up<R: Wait>(
    rt: &R,
    alloc: Global,
    turns: &Turns<Toy>,
    clerk: &mut Clerk<Toy>,
    count: u64,
) -> Option<(u64, u32)>
    requires idle { IsIdle turns.now clerk.old }
    requires units { count ≤ clerk.old.view.spares }
    ensures idle { IfSome result (λ _. IsIdle turns.now clerk.new
        × (clerk.old.view.spares ≤ clerk.new.view.spares + count)) }
    ensures last { IfSome result (λ name. mail.Has (Some name) clerk.new.view.owed) }
    ensures rest { IfSome result (λ _. (name : ℕ × ℕ) → mail.Has (Some name) clerk.old.view.owed
        → mail.Has (Some name) clerk.new.view.owed) }
{
    let mut last = None;
    for k in 0..count {
        let Ok(Some(number)) = add(rt, alloc, turns, clerk, 1 + k % PLACES, k, None) else {
            return None;
        };
        last = Some((number, 0));
    }
    last
}

// Makes so many entries, each of which delivers the message that the clerk has owed for longest.
// Whether these were the messages of so many entries from this number on.
fn deliver_in_order<R: Wait>(
    rt: &R,
    alloc: Global,
    turns: &Turns<Toy>,
    clerk: &mut Clerk<Toy>,
    from: u64,
    count: u64,
) -> bool
    requires { IsIdle turns.now clerk.old }
    ensures { IsTrue result → IsIdle turns.now clerk.new }
{
    for k in 0..count {
        let name = owed_message(clerk);
        if name != Some((from.wrapping_add(k), 0)) {
            return false;
        }
        let Ok(Some(_)) = add(rt, alloc, turns, clerk, 1, 0, name) else {
            return false;
        };
    }
    true
}

/// Lets a clerk owe 10,000 messages, and delivers the 5,000th and then all others. Whether these
/// came in order, and the messages that were sent meanwhile after them.
pub fn deliver_many<R: Wait>(rt: &R, alloc: Global) -> Result<bool, NoMemory> {
    let (turns, mut root) = open(alloc, 1)?;
    raise(&turns, &mut root, 1);
    let mut clerk = split_live(&turns, alloc, &mut root)?;
    raise(&turns, &mut clerk, 10_000);
    let Some(middle) = pile_up(rt, alloc, &turns, &mut clerk, 5_000) else {
        return Ok(false);
    };
    let Some(_) = pile_up(rt, alloc, &turns, &mut clerk, 5_000) else {
        return Ok(false);
    };
    let Some(_) = add(rt, alloc, &turns, &mut clerk, 1, 0, Some(middle))? else {
        return Ok(false);
    };
    let is_so = middle == (4_999, 0)
        && deliver_in_order(rt, alloc, &turns, &mut clerk, 0, 4_999)
        && deliver_in_order(rt, alloc, &turns, &mut clerk, 5_000, 5_000);
    Ok(is_so && clerk.owed().len() == 10_000 && owed_message(&clerk) == Some((10_000, 0)))
}
