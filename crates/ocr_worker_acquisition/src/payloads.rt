// The payloads of an EDT's slots.
ghost use Rattle.std.specs.Prelude.{◌≡◌, ◌++◌, ℕ, List, true, length, None, IfOk};
ghost use mathlib.Core.Option.{some};
ghost use lib.ListN.{get_elem?};
ghost use Rattle.ocr_worker_machine.specs.Ocr.{meaning};
ghost use Rattle.ocr_worker_machine.specs.declared.fact.Fact.{Fact};
ghost use Rattle.ocr_machine_parts.specs.Taken.{is_within};
ghost use Rattle.ocr_turns_rule.specs.Contract.{IsOfTable, SameHand};
ghost use Rattle.ocr_turns_rule.specs.Steps.{Sees};
ghost use Rattle.ocr_turns_rule.specs.Words.{HasClaim};
ghost use Rattle.ocr_worker_clerk.specs.Work.{KnowsPayloads};
ghost use Rattle.ocr_worker_acquisition.specs.Acquisition.{KeepsFace, Learns};

use ocr_base::NoMemory;
use ocr_count::payload;
use ocr_guid::Guid;
use ocr_turns::{Clerk, Turns};
use ocr_worker_clerk::Ocr;
use smallvec::SmallVec;
use std::alloc::Global;

/// What the slots of an EDT are set to, in their order: two of them without memory of their own.
pub type Payloads = SmallVec<Guid, 2>;

/// The payloads of the slots of an EDT, all of which are set. The clerk has claimed it and keeps
/// its face, and knows from then on that they are set so.
pub fn read_payloads(
    alloc: Global,
    turns: &Turns<Ocr>,
    clerk: &mut Clerk<Ocr>,
    edt: Guid,
    count: u32,
) -> Result<Payloads, NoMemory>
    requires table { IsOfTable turns.now clerk.old }
    requires is_open { clerk.old.view.closed ≡ None }
    requires claimed { HasClaim clerk.old.view edt }
    requires number { is_within turns.now.1.limit edt ≡ true }
    requires face { KeepsFace clerk.old.view edt count }
    requires sees { Sees meaning clerk.old.view }
    ensures hand { SameHand clerk.old clerk.new }
    ensures learns { Learns clerk.old.view clerk.new.view }
    ensures sees { Sees meaning clerk.new.view }
    ensures count { IfOk result (λ v. length v.items ≡ count) }
    ensures known { IfOk result (λ v. KnowsPayloads clerk.new.view edt v.items) }
{
    let mut payloads = SmallVec::with_capacity(alloc, count as usize)?;
    for slot in 0..count {
        payloads.push_reserved(Guid(payload(turns, clerk, edt, slot)));
    }
    Ok(payloads)
}
