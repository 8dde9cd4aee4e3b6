// A worker gives parts back.
ghost use Rattle.std.specs.Prelude.{◌≡◌, [], take};
ghost use Rattle.ocr_worker_clerk.specs.Work.{AtWork, HasTakenOn, KeepsFaces, KeepsLoose};

use crate::ocr::Ocr;
use ocr_body_code::Checked;
use ocr_guid::Guid;
use ocr_turns::{Clerk, Turns};

/// Gives back the faces of these places, and keeps the core of the EDT alone.
#[inline(always)]
pub fn give_faces(
    turns: &Turns<Ocr>,
    program: &Checked,
    clerk: &mut Clerk<Ocr>,
    edt: Guid,
    places: &[u64],
)
    requires work { AtWork turns.now program.now clerk.old }
    requires taken { HasTakenOn turns.now.1 edt clerk.old }
    requires keeps { KeepsFaces turns.now.1 edt places.now clerk.old }
    ensures work { AtWork turns.now program.now clerk.new }
    ensures table { clerk.new.table ≡ clerk.old.table }
    ensures view { clerk.new.view ≡ record clerk.old.view { parts = take 1 clerk.old.view.parts } }
    ensures hand { clerk.new.parts ≡ take 1 clerk.old.parts }
{
    // From the last on, so that no part behind has to move up.
    for place in places.iter().rev() {
        turns.give_back(clerk, *place);
    }
}

/// Gives back the parts of these places, which are all that the clerk keeps. It has no claim.
pub fn give_all(turns: &Turns<Ocr>, program: &Checked, clerk: &mut Clerk<Ocr>, places: &[u64])
    requires work { AtWork turns.now program.now clerk.old }
    requires keeps { KeepsLoose turns.now.1 places.now clerk.old }
    ensures work { AtWork turns.now program.now clerk.new }
    ensures table { clerk.new.table ≡ clerk.old.table }
    ensures view { clerk.new.view ≡ record clerk.old.view { parts = [] } }
    ensures hand { clerk.new.parts ≡ [] }
{
    for place in places {
        turns.give_back(clerk, *place);
    }
}
