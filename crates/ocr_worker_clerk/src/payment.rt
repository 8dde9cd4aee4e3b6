// Units for what an entry adds.
ghost use Rattle.std.specs.Prelude.{◌≡◌, ◌<◌, ◌≤◌};
ghost use Rattle.ocr_turns_rule.specs.Contract.{SameHand};
ghost use Rattle.ocr_worker_clerk.specs.Entry.{making_units};
ghost use Rattle.ocr_worker_clerk.specs.Work.{AtWork, HasFewDuties, Pays};

use crate::ocr::Ocr;
use ocr_body_code::Checked;
use ocr_body_meaning::Call;
use ocr_live::raise;
use ocr_machine_history::Entry;
use ocr_turns::{Clerk, Turns};

/// How many units more than it needs a clerk raises at once.
const BATCH: u64 = 32;

/// Raises the live word where the clerk has too few units to spare: so many are needed, beside that
/// of the message that is delivered. One stays, or a claim.
#[inline(always)]
pub(crate) fn pay(turns: &Turns<Ocr>, program: &Checked, clerk: &mut Clerk<Ocr>, needed: u64)
    requires work { AtWork turns.now program.now clerk.old }
    requires duties { HasFewDuties clerk.old.view }
    requires needed { needed ≤ 4294967298 }
    requires light { clerk.old.view.weight < turns.now.1.share }
    ensures hand { SameHand clerk.old clerk.new }
    ensures paid { Pays needed clerk.old.view clerk.new.view }
{
    // Most entries need none, and leave as many as there were.
    if needed == 0 {
        return;
    }
    // All but those of its messages and of one claim are to spare.
    let beside = clerk.units().saturating_sub(needed + 1);
    if beside <= clerk.owed_len() as u64 {
        raise(turns, clerk, needed + BATCH);
    }
}

/// The unit of the EDT that an entry makes.
#[inline(always)]
pub(crate) fn making_units(entry: &Entry) -> u64
    ensures is { result ≡ making_units entry.now }
    ensures few { result ≤ 1 }
{
    match entry {
        Entry::Call {
            call: Call::EdtCreate { .. },
            ..
        } => 1,
        _ => 0,
    }
}
