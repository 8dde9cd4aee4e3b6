// The core of an EDT at hand is made ready, and started.
ghost use Rattle.std.specs.Prelude.{◌≡◌, ◌+◌, length, Some, None, IfOk, OnOk, OnErr};
ghost use Rattle.ocr_machine_parts.specs.declared.part.Part.TheVariants as part;
ghost use Rattle.ocr_turns_rule.specs.Contract.{SameRoom};
ghost use Rattle.ocr_machine_parts.specs.Readiness.{ready_with, started_with};
ghost use Rattle.ocr_worker_clerk.specs.Readiness.{CanStart, HasBoth, PutAs};

use crate::ocr::Ocr;
use ocr_base::NoMemory;
use ocr_guid::Guid;
use ocr_machine_parts::{Part, ready_core, start_core};
use ocr_turns::Clerk;
use std::alloc::Global;

/// Makes the core at hand ready with the plan of the face at hand. For want of memory it is lost.
pub fn put_ready(
    alloc: Global,
    clerk: &mut Clerk<Ocr>,
    place: u64,
    edt: Guid,
    payloads: &[Guid],
) -> Result<(), NoMemory>
    requires both { HasBoth clerk.old.parts place edt (length payloads.now) }
    ensures same { (clerk.new.table ≡ clerk.old.table) × (clerk.new.view ≡ clerk.old.view)
        × SameRoom clerk.old clerk.new × (length clerk.new.parts ≡ length clerk.old.parts) }
    ensures ready { OnOk result (PutAs ready_with clerk.old.parts clerk.new.parts
        place edt payloads.now) }
{
    let Part::Core(mut core) = clerk.lift(place) else {
        unreachable!()
    };
    let Part::Edt(slots) = clerk.part(edt.0) else {
        unreachable!()
    };
    ready_core(alloc, &mut core, slots, payloads)?;
    clerk.put(place, Part::Core(core));
    Ok(())
}

/// Makes the core at hand ready with the plan of the face at hand, and starts it. For want of
/// memory it is lost.
pub fn put_started(
    alloc: Global,
    clerk: &mut Clerk<Ocr>,
    place: u64,
    edt: Guid,
    payloads: &[Guid],
) -> Result<(), NoMemory>
    requires can { CanStart clerk.old.parts place edt payloads.now }
    ensures same { (clerk.new.table ≡ clerk.old.table) × (clerk.new.view ≡ clerk.old.view)
        × SameRoom clerk.old clerk.new × (length clerk.new.parts ≡ length clerk.old.parts) }
    ensures started { OnOk result (PutAs started_with clerk.old.parts clerk.new.parts
        place edt payloads.now) }
{
    let Part::Core(mut core) = clerk.lift(place) else {
        unreachable!()
    };
    let Part::Edt(slots) = clerk.part(edt.0) else {
        unreachable!()
    };
    start_core(alloc, &mut core, slots, payloads)?;
    clerk.put(place, Part::Core(core));
    Ok(())
}
