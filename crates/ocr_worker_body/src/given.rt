// What the body of an EDT is given at its start.
ghost use Rattle.std.specs.Prelude.{◌≡◌, ◌<◌, ◌∷◌, [], List, length, true, Some, None, IfOk, OnOk, OnErr};
ghost use Rattle.ocr_machine_parts.specs.declared.part.Core.{Core};
ghost use Rattle.ocr_machine_parts.specs.declared.part.Part.TheVariants as part;
ghost use Rattle.ocr_machine_parts.specs.Effects.{settled_core};
ghost use Rattle.ocr_machine_parts.specs.Kinds.{is_running};
ghost use Rattle.ocr_slots.specs.Slots.{slot_at};
ghost use Rattle.ocr_slots.specs.declared.Slot.{Slot};
ghost use Rattle.ocr_turns_rule.specs.Sums.{find};
ghost use Rattle.ocr_worker_clerk.specs.Push.{ReadiesNone};
ghost use Rattle.ocr_worker_clerk.specs.Work.{AtWork, CanRun, IsGone, Stays};
ghost use Rattle.ocr_worker_body.specs.Given.{are_used, is_used, value_by, values_by};
ghost use Rattle.ocr_worker_body.specs.Start.{HasCore, IsStartedWith, IsRead, StepsCore};

use ocr_acquire::Mode;
use ocr_base::NoMemory;
use ocr_edt::{Edt, Running};
use ocr_guid::Guid;
use ocr_machine_parts::{Core, Part, copied_words};
use ocr_slots::Slots;
use ocr_turns::Clerk;
use ocr_worker_access::{core_at, start};
use ocr_worker_clerk::{Gate, Job, Ocr, Over, close_memory};
use std::alloc::Global;
use std::snapshot::Snapshot;
use std::sync::Wait;

/// What the body of an EDT is given, for whoever runs it: its function, its parameters and the
/// values of its slots; and the clerk as it was then, for proofs alone.
#[derive(Drop)]
pub struct Inputs {
    pub function: u32,
    pub params: Vec<u64>,
    pub depv: Vec<Guid>,
    pub begun: Snapshot<Clerk<Ocr>>,
}

/// Enters the Start of an EDT whose plan is done, and tells what its body is given. It is refused
/// where the run has ended, or is ended here: for want of memory, or since the Start would pass the
/// clerk's share.
pub fn begin<R: Wait, G: Gate>(
    alloc: Global,
    job: &Job<R, G>,
    worker: u32,
    clerk: &mut Clerk<Ocr>,
    edt: Guid,
    payloads: &[Guid],
) -> Result<Inputs, Over>
    requires work { AtWork job.now.turns.now job.now.program.now clerk.old }
    requires can { CanRun job.now.turns.now.1 edt payloads.now clerk.old }
    ensures stays { Stays clerk.old clerk.new }
    ensures readied { OnOk result (ReadiesNone clerk.old clerk.new) }
    ensures work { OnOk result (AtWork job.now.turns.now job.now.program.now clerk.new) }
    ensures given { IfOk result (λ g. IsStartedWith job.now.turns.now.1 job.now.program.now edt g
        clerk.new) }
    ensures gone { OnErr result (IsGone job.now.turns.now worker clerk.new) }
{
    let Ok(used) = used_slots(alloc, slots_at(clerk, edt.0)) else {
        return Err(close_memory(job, worker, clerk));
    };
    start(alloc, job, worker, clerk, edt, payloads)?;
    let place = job.turns.limit() + edt.0;
    settle_core(clerk, place);
    let Ok(given) = read_given(alloc, clerk, place, &used, payloads) else {
        return Err(close_memory(job, worker, clerk));
    };
    Ok(given)
}

// The slots at hand of an EDT that has not started.
fn slots_at(clerk: &Clerk<Ocr>, place: u64) -> &Slots
    requires { (slots : List Slot)
        × (find place clerk.now.parts ≡ Some (Some (part.Edt slots))) }
    ensures { find place clerk.now.parts ≡ Some (Some (part.Edt result.now)) }
{
    match clerk.part(place) {
        Part::Edt(slots) => slots,
        _ => unreachable!(),
    }
}

// For each slot, whether it is linked in another mode than `Null`.
fn used_slots(alloc: Global, slots: &Slots) -> Result<Vec<bool>, NoMemory>
    ensures { IfOk result (λ v. v.items ≡ are_used slots.now) }
{
    let mut used = Vec::new(alloc);
    for k in 0..slots.depc() {
        used.push(uses_slot(slots, k))?;
    }
    Ok(used)
}

fn uses_slot(slots: &Slots, slot: u32) -> bool
    requires { slot < length slots.now }
    ensures { result ≡ is_used (slot_at slots.now slot) }
{
    slots.is_linked(slot) && slots.mode(slot) != Mode::Null
}

// Forgets what was stored in the loans of the core at hand: the body of its EDT begins.
fn settle_core(clerk: &mut Clerk<Ocr>, place: u64)
    requires { (core : Core) × HasCore place core clerk.old }
    ensures { StepsCore place settled_core clerk.old clerk.new }
{
    // Most EDTs hold nothing when they start.
    if core_at(clerk, place).loans.is_empty() {
        return;
    }
    let Part::Core(mut core) = clerk.lift(place) else {
        unreachable!()
    };
    core.settle();
    clerk.put(place, Part::Core(core));
}

// What the body of a running EDT is given, by its core and the payloads of its slots.
fn read_given(
    alloc: Global,
    clerk: &Clerk<Ocr>,
    place: u64,
    used: &[bool],
    payloads: &[Guid],
) -> Result<Inputs, NoMemory>
    requires core { (core : Core) × HasCore place core clerk.now
        × (is_running (part.Core core) ≡ true) }
    requires sizes { length used.now ≡ length payloads.now }
    ensures { IfOk result (λ g. IsRead place used.now payloads.now g clerk.now) }
{
    let core = core_at(clerk, place);
    let Edt::Running(running) = &core.edt else {
        unreachable!()
    };
    let depv = values(alloc, running, used, payloads)?;
    Ok(Inputs {
        function: core.function,
        params: copied_words(alloc, core.params.as_slice())?,
        depv,
        begun: Snapshot::of(clerk),
    })
}

// The values of the slots: the payloads, and NULL_GUID for a block that was found gone, where the
// slot is used.
fn values(
    alloc: Global,
    running: &Running,
    used: &[bool],
    payloads: &[Guid],
) -> Result<Vec<Guid>, NoMemory>
    requires { length used.now ≡ length payloads.now }
    ensures { IfOk result (λ v. v.items ≡ values_by running.now.stale used.now payloads.now) }
{
    let mut values = Vec::new(alloc);
    for k in 0..payloads.len() {
        values.push(value(running, used[k], payloads[k]))?;
    }
    Ok(values)
}

fn value(running: &Running, used: bool, payload: Guid) -> Guid
    ensures { result ≡ value_by running.now.stale used payload }
{
    if running.is_stale(payload) && used {
        return Guid::NULL;
    }
    payload
}
