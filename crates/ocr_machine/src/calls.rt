// What an accepted call does.
ghost use Rattle.std.specs.Prelude.{◌≡◌, ◌≤◌, ◌<◌, ◌-◌, ◌^◌, ◌==◌, ℕ, [], None, IfOk, List, true, false, not};
ghost use Rattle.ocr_datablock.specs.Steps.{after_store};
ghost use Rattle.ocr_guid.specs.declared.Code.TheVariants as code;
ghost use Rattle.ocr_slots.specs.declared.Slot.{Slot};
ghost use Rattle.ocr_slots.specs.Steps.{after_link};
ghost use Rattle.ocr_machine_parts.specs.Calls.{mode_named, target_of};
ghost use Rattle.ocr_machine_parts.specs.Codes.{link_code, dependence_code, brings_block};
ghost use Rattle.ocr_machine_parts.specs.Effects.{called, joined, doomed_template};
ghost use Rattle.ocr_machine_parts.specs.Progress.{with_face, linked_if};
ghost use Rattle.ocr_machine_parts.specs.Kinds.{IsBlock, with_block, with_links, with_template, is_template, with_event, is_event, is_edt_face, counted_on};
ghost use Rattle.ocr_event_any.specs.AnyEvent.{after_destroy};
ghost use Rattle.ocr_machine_parts.specs.Messages.{sent_by, linked_by, resumed_by_call};
ghost use Rattle.ocr_machine_effects.specs.AtHand.{state, Becomes, IsAccepted, IsStorable};

use crate::creation::{create_block, create_event, create_template, make_edt};
use ocr_acquire::Mode;
use ocr_base::NoMemory;
use ocr_body_meaning::{Answer, Call};
use ocr_guid::Guid;
use ocr_guid::target::Target;
use ocr_machine_effects::{TakenParts, depend, destroy, end_hold, join_home, satisfy_at};
use ocr_machine_history::{What, Writes};
use ocr_machine_parts::Part;
use std::alloc::Global;

/// What an entry sent, and who goes on by it.
#[derive(Drop)]
pub struct Entered {
    pub messages: Vec<What>,
    pub resumed: Vec<Guid>,
}

/// What the entry of an accepted call does; gives what it sends, and who is resumed.
pub(crate) fn call_entry(
    alloc: Global,
    parts: &mut TakenParts,
    edt: Guid,
    home: u64,
    call: &Call,
    answer: &Answer,
    writes: &Writes,
) -> Result<Entered, NoMemory>
    requires accepted { IsAccepted parts.old edt home call.now answer.now writes.now }
    requires counts { (g : ℕ) → counted_on ((state parts.old).face g) < 2 ^ 64 - 1 }
    ensures parts { IfOk result (λ _. Becomes parts.old parts.new
        (joined call.now home (called edt call.now answer.now writes.now (state parts.old)))) }
    ensures messages { IfOk result (λ r. r.messages.items
        ≡ sent_by call.now answer.now (state parts.old)) }
    ensures resumed { IfOk result (λ r. r.resumed.items
        ≡ resumed_by_call edt call.now (state parts.old)) }
{
    let called = call_step(alloc, parts, edt, home, call, answer, writes)?;
    join_home(parts, home, call);
    Ok(called)
}

/// What an accepted call does; gives what it sends, and who is resumed.
fn call_step(
    alloc: Global,
    parts: &mut TakenParts,
    edt: Guid,
    home: u64,
    call: &Call,
    answer: &Answer,
    writes: &Writes,
) -> Result<Entered, NoMemory>
    requires accepted { IsAccepted parts.old edt home call.now answer.now writes.now }
    requires counts { (g : ℕ) → counted_on ((state parts.old).face g) < 2 ^ 64 - 1 }
    ensures parts { IfOk result (λ _. Becomes parts.old parts.new
        (called edt call.now answer.now writes.now (state parts.old))) }
    ensures messages { IfOk result (λ r. r.messages.items
        ≡ sent_by call.now answer.now (state parts.old)) }
    ensures resumed { IfOk result (λ r. r.resumed.items
        ≡ resumed_by_call edt call.now (state parts.old)) }
{
    match call {
        Call::Print { .. } => Ok(nothing(alloc)),
        Call::Load { block: _, word: _ } => Ok(nothing(alloc)),
        Call::Store { block, word, value } => {
            store_at(parts, *block, *word, *value);
            Ok(nothing(alloc))
        }
        Call::DbCreate { length, flags } => {
            create_block(alloc, parts, edt, *length, *flags, answer.value)?;
            Ok(nothing(alloc))
        }
        Call::DbRelease { block } => {
            Ok(only_resumed(alloc, end_hold(alloc, parts, edt, *block, writes)?))
        }
        Call::DbDestroy { block } => {
            Ok(only_resumed(alloc, destroy(alloc, parts, edt, *block, writes)?))
        }
        Call::TemplateDestroy { template } => {
            doom_template(parts, *template);
            Ok(nothing(alloc))
        }
        Call::AddDependence {
            source,
            target,
            slot,
            mode,
        } => {
            let messages = add_dependence(alloc, parts, *source, *target, *slot, *mode)?;
            Ok(only_sent(alloc, messages))
        }
        Call::TemplateCreate {
            function,
            paramc,
            depc,
        } => {
            create_template(parts, *function, *paramc, *depc, answer.value);
            Ok(nothing(alloc))
        }
        Call::EdtCreate {
            template,
            paramc: _,
            params,
            depc,
            deps,
            flags,
            output: _,
        } => {
            let messages = make_edt(
                alloc, parts, home, *template, params, *depc, deps, *flags, answer,
            )?;
            Ok(only_sent(alloc, messages))
        }
        Call::EventCreate { kind, flags } => {
            create_event(alloc, parts, *kind, *flags, 0, answer.value)?;
            Ok(nothing(alloc))
        }
        Call::EventCreateParams {
            kind,
            flags,
            max_gen,
            nb_sat: _,
            nb_deps: _,
        } => {
            create_event(alloc, parts, *kind, *flags, *max_gen, answer.value)?;
            Ok(nothing(alloc))
        }
        Call::EventDestroy { event } => {
            destroy_event(parts, *event);
            Ok(nothing(alloc))
        }
        Call::Satisfy {
            event,
            payload,
            slot,
        } => {
            let messages = satisfy_at(alloc, parts, *event, *slot, *payload)?;
            Ok(only_sent(alloc, messages))
        }
        Call::Shutdown | Call::Abort { .. } => unreachable!(),
    }
}

/// A call that sends nothing and lets nobody go on.
pub(crate) fn nothing(alloc: Global) -> Entered
    ensures messages { result.messages.items ≡ [] }
    ensures resumed { result.resumed.items ≡ [] }
{
    Entered {
        messages: Vec::new(alloc),
        resumed: Vec::new(alloc),
    }
}

pub(crate) fn only_sent(alloc: Global, messages: Vec<What>) -> Entered
    ensures messages { result.messages.items ≡ messages.items }
    ensures resumed { result.resumed.items ≡ [] }
{
    Entered {
        messages,
        resumed: Vec::new(alloc),
    }
}

pub(crate) fn only_resumed(alloc: Global, resumed: Vec<Guid>) -> Entered
    ensures messages { result.messages.items ≡ [] }
    ensures resumed { result.resumed.items ≡ resumed.items }
{
    Entered {
        messages: Vec::new(alloc),
        resumed,
    }
}

/// A word of the block is set.
fn store_at(parts: &mut TakenParts, block: u64, word: u64, value: u64)
    requires { IsBlock ((state parts.old).face block) (IsStorable word) }
    ensures { Becomes parts.old parts.new
        (with_face (state parts.old) block
        (with_block ((state parts.old).face block) (λ st. after_store st word value))) }
{
    let mut state = parts.take_block(block);
    let _words = state.get().words();
    state.store(word as u32, value);
    parts.put_face(block, Part::Block(state));
}

/// The template is destroyed.
fn doom_template(parts: &mut TakenParts, template: u64)
    requires { is_template ((state parts.old).face template) ≡ true }
    ensures { Becomes parts.old parts.new
        (with_face (state parts.old) template
        (with_template ((state parts.old).face template) doomed_template)) }
{
    let mut made = parts.template(template);
    made.destroyed = true;
    parts.put_face(template, Part::Template(made));
}

/// The event is destroyed.
fn destroy_event(parts: &mut TakenParts, event: u64)
    requires { is_event ((state parts.old).face event) ≡ true }
    ensures { Becomes parts.old parts.new
        (with_face (state parts.old) event
        (with_event ((state parts.old).face event) after_destroy)) }
{
    let mut made = parts.take_event(event);
    let _code = made.destroy();
    parts.put_face(event, Part::Event(made));
}

/// A slot of an EDT or of an event gets a source; gives what goes to it at once.
fn add_dependence(
    alloc: Global,
    parts: &mut TakenParts,
    source: u64,
    target: u64,
    slot: u64,
    mode: u64,
) -> Result<Vec<What>, NoMemory>
    requires apart { (source == target) ≡ false }
    requires accepted { dependence_code (brings_block (state parts.old).face source)
        ((state parts.old).face target) slot mode ≡ code.Done }
    ensures parts { IfOk result (λ _. Becomes parts.old parts.new
        (linked_if (not (source == 0)) source
        (target_of (is_edt_face ((state parts.old).face target)) target slot)
        (with_face (state parts.old) target
        (with_links ((state parts.old).face target)
        (λ slots. after_link slots slot (mode_named mode)))))) }
    ensures messages { IfOk result (λ r. r.items
        ≡ linked_by (not (source == 0)) source
        (target_of (is_edt_face ((state parts.old).face target)) target slot)
        (state parts.old)) }
{
    let is_edt = parts.is_edt(target);
    if is_edt {
        link_at(parts, target, slot, mode);
    }
    let target = Target {
        object: Guid(target),
        is_edt,
        slot: slot as u32,
    };
    let mut messages = Vec::new(alloc);
    depend(alloc, parts, &mut messages, source != 0, source, &target)?;
    Ok(messages)
}

/// The slot of an EDT is linked.
fn link_at(parts: &mut TakenParts, edt: u64, slot: u64, mode: u64)
    requires { link_code ((state parts.old).face edt) slot ≡ code.Done }
    ensures few { slot < 32 }
    ensures parts { Becomes parts.old parts.new
        (with_face (state parts.old) edt
        (with_links ((state parts.old).face edt)
        (λ slots. after_link slots slot (mode_named mode)))) }
{
    let mut slots = parts.take_slots(Guid(edt));
    let _depc = slots.depc();
    slots.link(slot, named_mode(mode));
    parts.put_face(edt, Part::Edt(slots));
}

fn named_mode(mode: u64) -> Mode
    ensures { result ≡ mode_named mode }
{
    match Mode::of(mode) {
        Some(mode) => mode,
        None => Mode::Null,
    }
}
