// What an entry does.
ghost use Rattle.std.specs.Prelude.{◌≡◌, ◌≤◌, ◌<◌, ◌+◌, ◌-◌, ◌^◌, ℕ, length, IfOk};
ghost use Rattle.ocr_machine_parts.specs.Effects.{changed};
ghost use Rattle.ocr_machine_parts.specs.Footprint.{Covers};
ghost use Rattle.ocr_machine_parts.specs.Kinds.{counted_on};
ghost use Rattle.ocr_machine_parts.specs.LegalOn.{IsLegalOn};
ghost use Rattle.ocr_machine_parts.specs.Messages.{sends, resumes};
ghost use Rattle.ocr_machine_parts.specs.Taken.{keys, parts_in, ArePlaced};
ghost use Rattle.ocr_machine_effects.specs.All.{face_at};
ghost use Rattle.ocr_machine_effects.specs.AtHand.{state, Becomes};
ghost use Rattle.ocr_machine_effects.specs.All.{all_parts, AreAllPlaced};

use crate::acquisition::{acquire_step, pass_by, start_core, wait_step};
use crate::calls::{Entered, call_entry, nothing, only_resumed, only_sent};
use ocr_base::NoMemory;
use ocr_guid::{Code, Guid};
use ocr_machine_effects::{TakenParts, deliver_step, end_hold, end_step};
use ocr_machine_history::{Entry, What};
use ocr_machine_parts::{Part, Stepped};
use std::alloc::Global;

/// What an entry does to all parts: these as they are after it, the messages that it sends, and the
/// EDTs that go on by it.
#[derive(Drop)]
pub struct SteppedAll {
    pub parts: Vec<Part>,
    pub messages: Vec<What>,
    pub resumed: Vec<Guid>,
}

/// What the entry does to the parts that it names. It takes these, perhaps with others, and gives
/// them back, changed, with the messages that it sends and the EDTs that it resumes. An EDT that
/// goes on is made ready before. For want of memory the parts are gone.
pub fn step(
    alloc: Global,
    limit: u64,
    entry: &Entry,
    parts: Vec<(u64, Part)>,
) -> Result<Stepped, NoMemory>
    requires legal { IsLegalOn limit (parts_in limit parts.items) entry.now }
    requires covers { Covers limit entry.now parts.items }
    requires counts { (g : ℕ) → counted_on ((parts_in limit parts.items).face g) < 2 ^ 64 - 1 }
    requires limit_fits { limit ≤ 65536 }
    ensures parts { IfOk result (λ r. parts_in limit r.parts.items
        ≡ changed entry.now (parts_in limit parts.items)) }
    ensures keys { IfOk result (λ r. keys r.parts.items ≡ keys parts.items) }
    ensures placed { IfOk result (λ r. ArePlaced limit parts.items
        → ArePlaced limit r.parts.items) }
    ensures messages { IfOk result (λ r. r.messages.items
        ≡ sends entry.now (parts_in limit parts.items)) }
    ensures resumed { IfOk result (λ r. r.resumed.items
        ≡ resumes entry.now (parts_in limit parts.items)) }
{
    let mut taken = TakenParts::listed(limit, parts);
    let entered = enter(alloc, &mut taken, entry)?;
    Ok(Stepped {
        parts: taken.into_listed(),
        messages: entered.messages,
        resumed: entered.resumed,
    })
}

/// What the entry does to all parts of the state, each at its number, as `step` does to those that
/// it names. For want of memory the parts are gone.
pub fn step_all(
    alloc: Global,
    limit: u64,
    entry: &Entry,
    parts: Vec<Part>,
) -> Result<SteppedAll, NoMemory>
    requires legal { IsLegalOn limit (all_parts limit parts.items) entry.now }
    requires all { limit + limit < length parts.items }
    requires counts { (g : ℕ) → counted_on (face_at limit parts.items g) < 2 ^ 64 - 1 }
    requires limit_fits { limit ≤ 65536 }
    ensures parts { IfOk result (λ r. all_parts limit r.parts.items
        ≡ changed entry.now (all_parts limit parts.items)) }
    ensures length { IfOk result (λ r. length r.parts.items ≡ length parts.items) }
    ensures placed { IfOk result (λ r. AreAllPlaced limit parts.items
        → AreAllPlaced limit r.parts.items) }
    ensures messages { IfOk result (λ r. r.messages.items
        ≡ sends entry.now (all_parts limit parts.items)) }
    ensures resumed { IfOk result (λ r. r.resumed.items
        ≡ resumes entry.now (all_parts limit parts.items)) }
{
    let mut taken = TakenParts::whole(limit, parts);
    let entered = enter(alloc, &mut taken, entry)?;
    Ok(SteppedAll {
        parts: taken.into_whole(),
        messages: entered.messages,
        resumed: entered.resumed,
    })
}

/// What the entry does to the parts at hand; gives what it sends, and who is resumed.
#[inline(always)]
fn enter(alloc: Global, parts: &mut TakenParts, entry: &Entry) -> Result<Entered, NoMemory>
    requires legal { IsLegalOn parts.old.limit (state parts.old) entry.now }
    requires covers { Covers parts.old.limit entry.now parts.old.items }
    requires counts { (g : ℕ) → counted_on ((state parts.old).face g) < 2 ^ 64 - 1 }
    ensures parts { IfOk result (λ _. Becomes parts.old parts.new
        (changed entry.now (state parts.old))) }
    ensures messages { IfOk result (λ r. r.messages.items ≡ sends entry.now (state parts.old)) }
    ensures resumed { IfOk result (λ r. r.resumed.items ≡ resumes entry.now (state parts.old)) }
{
    match entry {
        Entry::Call {
            edt,
            home,
            call,
            answer,
            writes,
        } => {
            if answer.code == Code::Done {
                call_entry(alloc, parts, *edt, home.0, call, answer, writes)
            } else {
                Ok(nothing(alloc))
            }
        }
        Entry::Acquire { edt, block } => {
            acquire_step(alloc, parts, *edt, block.0)?;
            Ok(nothing(alloc))
        }
        Entry::Wait { edt, block } => {
            wait_step(alloc, parts, *edt, block.0)?;
            Ok(nothing(alloc))
        }
        Entry::Start { edt } => {
            start_core(parts, *edt);
            Ok(nothing(alloc))
        }
        Entry::Free { edt, block, writes } => {
            let resumed = end_hold(alloc, parts, *edt, block.0, writes)?;
            Ok(only_resumed(alloc, resumed))
        }
        Entry::End { edt, returned } => {
            let messages = end_step(alloc, parts, *edt, returned.0)?;
            Ok(only_sent(alloc, messages))
        }
        Entry::Deliver { message, code } => {
            if *code == Code::Done {
                let messages = deliver_step(alloc, parts, message.what)?;
                Ok(only_sent(alloc, messages))
            } else {
                Ok(nothing(alloc))
            }
        }
        Entry::StaleAcquire { edt, block: _ } => {
            pass_by(parts, *edt);
            Ok(nothing(alloc))
        }
        Entry::Stop(_) => Ok(nothing(alloc)),
    }
}
