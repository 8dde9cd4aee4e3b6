// An EDT is made ready with the plan of its slots, the block that it acquires next, and its start.
ghost use Rattle.std.specs.Prelude.{◌≡◌, ◌↔◌, ◌<◌, ◌++◌, length, true, IsTrue, None, Some, IfOk};
ghost use Rattle.ocr_acquire.specs.Plan.{IsWellFormed};
ghost use Rattle.ocr_edt.specs.declared.Edt.TheVariants as phase;
ghost use Rattle.ocr_edt.specs.declared.Identity.{Identity};
ghost use Rattle.ocr_machine_parts.specs.Calls.{asks_in, asks_of};
ghost use Rattle.ocr_machine_parts.specs.Progress.{made_ready};
ghost use Rattle.ocr_machine_parts.specs.Kinds.{is_acquiring_edt, next_in, progress_in};
ghost use Rattle.ocr_slots.specs.Slots.{slot_at};
ghost use Rattle.ocr_edt.specs.Phases.{first_of};
ghost use Rattle.ocr_machine_parts.specs.Readiness.{filled, plan_from, ready_with, started_with};

use crate::boxed::BoxedCore;
use ocr_acquire::{Mode, Plan, plan};
use ocr_base::NoMemory;
use ocr_edt::Edt;
use ocr_guid::Guid;
use ocr_slots::Slots;
use smallvec::SmallVec;
use std::alloc::Global;

/// Makes an EDT ready with the plan of its slots, set to these payloads, where it is not ready yet.
pub fn ready_core(
    alloc: Global,
    core: &mut BoxedCore,
    slots: &Slots,
    payloads: &[Guid],
) -> Result<(), NoMemory>
    requires { length payloads.now ≡ length slots.now }
    ensures { IfOk result (λ _. core.new ≡ ready_with slots.now payloads.now core.old) }
{
    let edt = core.take_edt();
    core.put_edt(ready_edt(alloc, edt, slots, payloads)?);
    Ok(())
}

/// Makes an EDT ready with the plan of its slots, set to these payloads, and starts it.
pub fn start_core(
    alloc: Global,
    core: &mut BoxedCore,
    slots: &Slots,
    payloads: &[Guid],
) -> Result<(), NoMemory>
    requires sizes { length payloads.now ≡ length slots.now }
    requires acquiring { is_acquiring_edt (ready_with slots.now payloads.now core.old).edt ≡ true }
    requires through { next_in (progress_in (ready_with slots.now payloads.now core.old).edt)
        ≡ None }
    ensures { IfOk result (λ _. core.new ≡ started_with slots.now payloads.now core.old) }
{
    // Many EDTs have no slots, and then nothing is acquired.
    if slots.depc() == 0 && is_filling(&core.get().edt) {
        core.start_bare(alloc);
        return Ok(());
    }
    let edt = core.take_edt();
    let Edt::Acquiring(acquiring) = ready_edt(alloc, edt, slots, payloads)? else {
        unreachable!()
    };
    core.put_edt(Edt::Running(acquiring.start()));
    Ok(())
}

fn is_filling(edt: &Edt) -> bool
    ensures { IsTrue result ↔ ((i : Identity) × (edt.now ≡ phase.Filling i)) }
{
    matches!(edt, Edt::Filling(_))
}

fn ready_edt(alloc: Global, edt: Edt, slots: &Slots, payloads: &[Guid]) -> Result<Edt, NoMemory>
    requires { length payloads.now ≡ length slots.now }
    ensures { IfOk result (λ e. e ≡ made_ready (plan_from slots.now payloads.now) edt) }
{
    if !is_filling(&edt) {
        return Ok(edt);
    }
    Ok(ready(edt, plan_with(alloc, slots, payloads)?))
}

/// Makes an EDT ready with this plan, where it is not ready yet.
#[inline(always)]
pub fn ready(edt: Edt, members: Plan) -> Edt
    requires { IsWellFormed members.items }
    ensures { result ≡ made_ready members.items edt }
{
    match edt {
        Edt::Filling(filling) => Edt::Acquiring(filling.ready(members)),
        Edt::Acquiring(acquiring) => Edt::Acquiring(acquiring),
        Edt::Waiting(waiting) => Edt::Waiting(waiting),
        Edt::Running(running) => Edt::Running(running),
        Edt::Ended(ended) => Edt::Ended(ended),
    }
}

/// The plan of the slots of an EDT, set to these payloads.
pub fn plan_with(alloc: Global, slots: &Slots, payloads: &[Guid]) -> Result<Plan, NoMemory>
    requires { length payloads.now ≡ length slots.now }
    ensures plan { IfOk result (λ plan. plan.items ≡ plan_from slots.now payloads.now) }
    ensures well_formed { IfOk result (λ plan. IsWellFormed plan.items) }
{
    // Many EDTs have no slots, and then there is nothing to ask for.
    if slots.depc() == 0 {
        return Ok(SmallVec::new(alloc));
    }
    let asks = asks(alloc, slots, payloads)?;
    plan(alloc, &asks)
}

// What the slots of an EDT ask for, set to these payloads.
#[tactic(auto, using(crate::proofs::Asked::asks_step))]
fn asks(alloc: Global, slots: &Slots, payloads: &[Guid]) -> Result<Vec<(Guid, Mode)>, NoMemory>
    requires { length payloads.now ≡ length slots.now }
    ensures { IfOk result (λ v. v.items ≡ asks_in (filled slots.now payloads.now)) }
{
    let mut asks = Vec::new(alloc);
    for k in 0..slots.depc() {
        ask_one(&mut asks, slots, k, Some(payloads[k as usize]))?;
    }
    Ok(asks)
}

/// Adds what a slot asks for: the payload that it is set to, in its mode; nothing where it is not
/// set or not linked.
#[inline(always)]
pub fn ask_one(
    asks: &mut Vec<(Guid, Mode)>,
    slots: &Slots,
    slot: u32,
    payload: Option<Guid>,
) -> Result<(), NoMemory>
    requires { slot < length slots.now }
    ensures { IfOk result (λ _. asks.new.items
        ≡ asks.old.items ++ asks_of payload (slot_at slots.now slot).mode) }
{
    if slots.is_linked(slot) {
        if let Some(payload) = payload {
            asks.push((payload, slots.mode(slot)))?;
        }
    }
    Ok(())
}

/// The block that an EDT acquires next, once it is ready with the plan of its slots, set to these
/// payloads.
#[inline(always)]
pub fn next_with(
    alloc: Global,
    edt: &Edt,
    slots: &Slots,
    payloads: &[Guid],
) -> Result<Option<(Guid, Mode)>, NoMemory>
    requires { length payloads.now ≡ length slots.now }
    ensures { IfOk result (λ next. next
        ≡ next_in (progress_in (made_ready (plan_from slots.now payloads.now) edt.now))) }
{
    match edt {
        // Many EDTs have no slots, and then no block is acquired.
        Edt::Filling(_) if slots.depc() == 0 => Ok(None),
        Edt::Filling(_) => {
            let plan = plan_with(alloc, slots, payloads)?;
            Ok(first(plan.as_slice()))
        }
        made => Ok(next_of(made)),
    }
}

/// The block that an EDT acquires next or waits for; None where its plan is not made, and where it
/// has acquired it.
#[inline(always)]
pub fn next_of(edt: &Edt) -> Option<(Guid, Mode)>
    ensures { result ≡ next_in (progress_in edt.now) }
{
    match edt {
        Edt::Acquiring(acquiring) => acquiring.next(),
        Edt::Waiting(waiting) => Some(waiting.next()),
        Edt::Filling(_) | Edt::Running(_) | Edt::Ended(_) => None,
    }
}

/// The first of the blocks of a plan.
pub fn first(members: &[(Guid, Mode)]) -> Option<(Guid, Mode)>
    ensures { result ≡ first_of members.now }
{
    if members.is_empty() {
        return None;
    }
    Some(members[0])
}
