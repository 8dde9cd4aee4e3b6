// The satisfactions by messages that were refused.
ghost use Rattle.std.specs.Prelude.{◌≡◌, IfOk};
ghost use Rattle.ocr_machine_history.specs.History.{history_of};
ghost use Rattle.ocr_report.specs.Refused as spec;

use crate::headed::{headed, line};
use ocr_base::NoMemory;
use ocr_guid::Guid;
use ocr_machine_history::{Entry, Journal, Message, What};
use std::alloc::Global;

// The event and the code of a satisfaction that an entry refuses, other than as stale.
fn refusal_in(entry: &Entry) -> Option<(Guid, u64)>
    ensures { result ≡ spec.refusal_in entry.now }
{
    match entry {
        Entry::Deliver {
            message: Message {
                what: What::Satisfy { event, .. },
                ..
            },
            code,
        } => match code.number() {
            0 | 200 => None,
            number => Some((*event, number)),
        },
        _ => None,
    }
}

/// The report on the satisfactions by messages that were refused, but for those on destroyed
/// events: how many there are, and for each the event and the code. NoMemory where memory is
/// refused.
pub fn refused_text(alloc: Global, journal: &Journal) -> Result<Vec<u8>, NoMemory>
    ensures { IfOk result (λ text. text.items ≡ spec.refused_text (history_of journal.now)) }
{
    let entries = journal.entries();
    let mut count: u64 = 0;
    let mut lines = Vec::new(alloc);
    for entry in entries {
        if let Some((event, code)) = refusal_in(entry) {
            line(&mut lines, b"delivery", &[event.0, code])?;
            count += 1;
        }
    }
    headed(alloc, b"refused", count, &lines)
}
