// A worker parks an EDT that was let wait.
ghost use Rattle.std.specs.Prelude.{◌≡◌, ◌+◌, []};
ghost use Rattle.ocr_worker_clerk.specs.Work.{AtWork, HasTakenOn, IsIdleClerk};
ghost use Rattle.ocr_worker_acquisition.specs.Park.{IsLetWait};

use ocr_body_code::Checked;
use ocr_count::park;
use ocr_guid::Guid;
use ocr_turns::{Clerk, Turns};
use ocr_worker_clerk::{Ocr, give_all};

/// Parks an EDT that waits for a block, and gives back all parts, which are those of these places.
/// Whoever ends the hold that it waits for makes the EDT ready.
pub fn park_edt(
    turns: &Turns<Ocr>,
    program: &Checked,
    clerk: &mut Clerk<Ocr>,
    edt: Guid,
    places: &[u64],
)
    requires work { AtWork turns.now program.now clerk.old }
    requires taken { HasTakenOn turns.now.1 edt clerk.old }
    requires waits { IsLetWait turns.now.1 edt places.now clerk.old }
    ensures work { AtWork turns.now program.now clerk.new }
    ensures idle { IsIdleClerk clerk.new }
    ensures table { clerk.new.table ≡ clerk.old.table }
    ensures view { clerk.new.view ≡ record clerk.old.view {
      parts = [];
      claims = [];
      spares
          = clerk.old.view.spares + 1;
    } }
{
    park(turns, clerk, edt);
    give_all(turns, program, clerk, places);
}
