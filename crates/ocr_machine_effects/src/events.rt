// What messages bring: what satisfies events, what their targets get, and who leaves a scope.
ghost use Rattle.std.specs.Prelude.{◌≡◌, ◌≤◌, ◌<◌, ◌-◌, ◌^◌, ◌++◌, ℕ, length, map, true, IfOk};
ghost use Rattle.ocr_event_any.specs.AnyEvent.{after_satisfy};
ghost use Rattle.ocr_guid.specs.Target.{sent_by_firing, sent_by_linking};
ghost use Rattle.ocr_guid.specs.declared.Code.TheVariants as code;
ghost use Rattle.ocr_guid.specs.declared.target.Target.{Target as TargetOf};
ghost use Rattle.ocr_machine_parts.specs.Effects.{deps_linked, brought};
ghost use Rattle.ocr_machine_parts.specs.Progress.{with_face, linked_to, linked_if};
ghost use Rattle.ocr_machine_parts.specs.Kinds.{is_event, with_event, counted_on};
ghost use Rattle.ocr_machine_parts.specs.LegalOn.{IsSatisfiable, IsDeliverOn};
ghost use Rattle.ocr_machine_parts.specs.Messages.{what_to, carried_by, satisfied, linked, linked_by, dep_sends, sent_by_message};
ghost use Rattle.ocr_machine_effects.specs.AtHand.{state, Becomes};

use crate::scopes::leave_at;
use crate::taken::TakenParts;
use ocr_base::NoMemory;
use ocr_event_any::AnyEvent;
use ocr_guid::Guid;
use ocr_guid::target::{Linked, Satisfied, Target};
use ocr_machine_codes::is_object;
use ocr_machine_history::What;
use ocr_machine_parts::Part;
use std::alloc::Global;

/// What an accepted message does; gives what it sets off. For want of memory what was taken is
/// lost, and the run ends then.
pub fn deliver_step(
    alloc: Global,
    parts: &mut TakenParts,
    message: What,
) -> Result<Vec<What>, NoMemory>
    requires accepted { IsDeliverOn (state parts.old) message code.Done }
    requires counts { (g : ℕ) → counted_on ((state parts.old).face g) < 2 ^ 64 - 1 }
    ensures parts { IfOk result (λ _. Becomes parts.old parts.new
        (brought message (state parts.old))) }
    ensures messages { IfOk result (λ r. r.items ≡ sent_by_message message (state parts.old)) }
{
    match message {
        What::Satisfy {
            event,
            slot,
            payload,
        } => satisfy_at(alloc, parts, event.0, u64::from(slot), payload.0),
        What::Leave { scope } => leave_at(alloc, parts, scope.0),
        What::Set { .. } => Ok(Vec::new(alloc)),
    }
}

/// The event is satisfied; gives what this sets off. For want of memory what was taken is lost, and
/// the run ends then.
pub fn satisfy_at(
    alloc: Global,
    parts: &mut TakenParts,
    event: u64,
    slot: u64,
    payload: u64,
) -> Result<Vec<What>, NoMemory>
    requires slot { IsSatisfiable slot ((state parts.old).face event) }
    requires count { counted_on ((state parts.old).face event) < 2 ^ 64 - 1 }
    ensures parts { IfOk result (λ _. Becomes parts.old parts.new
        (with_face (state parts.old) event
        (with_event ((state parts.old).face event) (λ st. after_satisfy st slot payload)))) }
    ensures messages { IfOk result (λ r. r.items
        ≡ satisfied ((state parts.old).face event) slot payload) }
{
    let mut state = parts.take_event(event);
    let carried = carried_by(state.get(), payload);
    let answer = state.satisfy(alloc, slot as u32, Guid(payload))?;
    parts.put_face(event, Part::Event(state));
    set_off(alloc, carried, answer)
}

/// What the targets of an event get where it is satisfied with this payload: of a latch NULL_GUID.
fn carried_by(event: &AnyEvent, payload: u64) -> Guid
    ensures { result ≡ carried_by event.now payload }
{
    match event {
        AnyEvent::Latch(_) => Guid::NULL,
        AnyEvent::Plain(_) | AnyEvent::Channel(_) => Guid(payload),
    }
}

/// The messages to the targets that a satisfaction reaches.
fn set_off(alloc: Global, payload: Guid, answer: Satisfied) -> Result<Vec<What>, NoMemory>
    ensures { IfOk result (λ r. r.items ≡ map what_to (sent_by_firing payload answer)) }
{
    match answer {
        Satisfied::Fired(targets) => sent_to(alloc, payload, targets.as_slice()),
        Satisfied::Kept | Satisfied::Ignored | Satisfied::Refused(_) => Ok(Vec::new(alloc)),
    }
}

/// The payload to each target, in their order.
fn sent_to(alloc: Global, payload: Guid, targets: &[Target]) -> Result<Vec<What>, NoMemory>
    ensures { IfOk result (λ r. r.items
        ≡ map (λ (t : TargetOf). what_to (payload, t)) targets.now) }
{
    let mut messages = Vec::new(alloc);
    for target in targets {
        messages.push(what_to(payload, *target))?;
    }
    Ok(messages)
}

/// The message that brings a payload to a target.
fn what_to(payload: Guid, target: Target) -> What
    ensures { result ≡ what_to (payload, target) }
{
    if target.is_edt {
        What::Set {
            edt: target.object,
            slot: target.slot,
            payload,
        }
    } else {
        What::Satisfy {
            event: target.object,
            slot: target.slot,
            payload,
        }
    }
}

/// A dependence: an event that is named as its source is linked to the target, which gets at once
/// what the event has for it; any other source reaches the target at once. For want of memory what
/// was taken is lost, and the run ends then.
pub fn depend(
    alloc: Global,
    parts: &mut TakenParts,
    messages: &mut Vec<What>,
    is_named: bool,
    source: u64,
    target: &Target,
) -> Result<(), NoMemory>
    ensures parts { IfOk result (λ _. Becomes parts.old parts.new
        (linked_if is_named source target.now (state parts.old))) }
    ensures messages { IfOk result (λ _. messages.new.items
        ≡ messages.old.items ++ linked_by is_named source target.now (state parts.old)) }
{
    if is_named && parts.is_event(source) {
        let linked = link_event(alloc, parts, source, *target)?;
        get_now(messages, linked, *target)
    } else {
        get_now(messages, Linked::Now(Guid(source)), *target)
    }
}

/// The event gets a target; gives its answer.
fn link_event(
    alloc: Global,
    parts: &mut TakenParts,
    event: u64,
    target: Target,
) -> Result<Linked, NoMemory>
    requires { is_event ((state parts.old).face event) ≡ true }
    ensures parts { IfOk result (λ _. Becomes parts.old parts.new
        (linked_to event target (state parts.old))) }
    ensures answer { IfOk result (λ r. map what_to (sent_by_linking target r)
        ≡ linked ((state parts.old).face event) event target) }
{
    let mut state = parts.take_event(event);
    let linked = state.link(alloc, target)?;
    parts.put_face(event, Part::Event(state));
    Ok(linked)
}

/// What a target that was linked gets at once.
fn get_now(messages: &mut Vec<What>, linked: Linked, target: Target) -> Result<(), NoMemory>
    ensures { IfOk result (λ _. messages.new.items
        ≡ messages.old.items ++ map what_to (sent_by_linking target linked)) }
{
    if let Linked::Now(payload) = linked {
        messages.push(what_to(payload, target))?;
    }
    Ok(())
}

/// The dependences that are given to a new EDT, slot by slot; gives what goes at once. For want of
/// memory what was taken is lost, and the run ends then.
pub fn depend_all(
    alloc: Global,
    parts: &mut TakenParts,
    edt: Guid,
    deps: &[u64],
) -> Result<Vec<What>, NoMemory>
    requires { length deps.now ≤ 32 }
    ensures parts { IfOk result (λ _. Becomes parts.old parts.new
        (deps_linked edt 0 deps.now (state parts.old))) }
    ensures messages { IfOk result (λ r. r.items
        ≡ dep_sends edt 0 deps.now (state parts.old)) }
{
    let mut messages = Vec::new(alloc);
    for k in 0..deps.len() {
        if deps[k] != u64::MAX {
            let target = Target {
                object: edt,
                is_edt: true,
                slot: k as u32,
            };
            depend(
                alloc,
                parts,
                &mut messages,
                is_object(deps[k]),
                deps[k],
                &target,
            )?;
        }
    }
    Ok(messages)
}
