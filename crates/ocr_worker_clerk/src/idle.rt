// An idle clerk gives up its units.
ghost use Rattle.std.specs.Prelude.{◌≡◌, []};
ghost use Rattle.ocr_turns_rule.specs.Units.{units};
ghost use Rattle.ocr_worker_clerk.specs.Work.{IsIdleClerk, IsResting, ReadsIdle, Stays};

use crate::ocr::Ocr;
use ocr_body_code::Checked;
use ocr_live::{LiveRead, live, lower};
use ocr_turns::{Clerk, Turns};

/// Gives up all units of an idle clerk that owes no message, and reads the live word. After `Quiet`
/// nothing can come any more, whoever is at work.
pub fn read_idle(turns: &Turns<Ocr>, _program: &Checked, clerk: &mut Clerk<Ocr>) -> LiveRead
    requires rests { IsResting turns.now _program.now clerk.old }
    requires idle { IsIdleClerk clerk.old }
    requires delivered { clerk.old.view.owed ≡ [] }
    requires seat { clerk.old.view.seat ≡ 1 }
    ensures rests { IsResting turns.now _program.now clerk.new }
    ensures idle { IsIdleClerk clerk.new }
    ensures stays { Stays clerk.old clerk.new }
    ensures units { units clerk.new.view ≡ 0 }
    ensures told { ReadsIdle result clerk.new }
{
    let units = clerk.units();
    if units > 0 {
        lower(turns, clerk, units);
    }
    live(turns, clerk)
}
