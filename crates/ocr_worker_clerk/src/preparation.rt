// What an entry makes of the parts that it names, and the room that it needs.
ghost use Rattle.std.specs.Prelude.{◌≡◌, ◌≤◌, ◌+◌, length, IfOk};
ghost use Rattle.ocr_worker_machine.specs.Ocr.{wakes};
ghost use Rattle.ocr_worker_clerk.specs.Entry.{CanMake, PlannedParts, IsPrepared, making_units};

use crate::ocr::Ocr;
use crate::payment::making_units;
use ocr_base::NoMemory;
use ocr_guid::Guid;
use ocr_machine::step;
use ocr_machine_history::Entry;
use ocr_machine_parts::Part;
use ocr_turns::{Change, Clerk, Turns};
use std::alloc::Global;

/// What an entry makes of the parts that it names, and the EDTs that it resumes.
#[derive(Drop)]
pub(crate) struct Prepared {
    pub change: Change<Ocr>,
    pub resumed: Vec<Guid>,
    // As many units are needed for it at most, beside that of a message that it delivers.
    pub units: u64,
}

/// The change that an entry makes of these parts, which the clerk lifted, and room for it in the
/// clerk. For want of memory the parts are lost; more messages and resumed EDTs than 32 bits can
/// number want it too.
pub(crate) fn prepare(
    alloc: Global,
    turns: &Turns<Ocr>,
    limit: u64,
    clerk: &mut Clerk<Ocr>,
    entry: &Entry,
    parts: Vec<(u64, Part)>,
) -> Result<Prepared, NoMemory>
    ghost h: { PlannedParts }
    requires limit { (limit ≡ turns.now.1.limit) × (limit ≤ 65536) }
    requires can { CanMake turns.now.1 clerk.old.view entry.now h parts.items }
    ensures table { clerk.new.table ≡ clerk.old.table }
    ensures view { clerk.new.view ≡ clerk.old.view }
    ensures hand { (clerk.new.parts ≡ clerk.old.parts) × (clerk.new.spare ≡ clerk.old.spare) }
    ensures room { clerk.old.room ≤ clerk.new.room }
    ensures change { IfOk result (λ c. IsPrepared turns.now.1 clerk.new entry.now h
        c.change.parts.items c.change.messages.items) }
    ensures units { IfOk result (λ c. (c.units ≡ length c.change.messages.items
        + length c.resumed.items + making_units entry.now) × (c.units ≤ 4294967298)) }
    ensures resumed { IfOk result (λ c. c.resumed.items
        ≡ wakes turns.now.1.limit entry.now clerk.old.view.parts) }
{
    let stepped = step(alloc, limit, entry, parts)?;
    let count = stepped.messages.len();
    let resumed = stepped.resumed.len();
    if count > u32::MAX as usize || resumed > u32::MAX as usize - count {
        return Err(NoMemory);
    }
    turns.reserve(alloc, clerk, count)?;
    let change = Change {
        parts: stepped.parts,
        messages: stepped.messages,
    };
    Ok(Prepared {
        change,
        resumed: stepped.resumed,
        units: (count + resumed) as u64 + making_units(entry),
    })
}
