// The code of a call.
ghost use Rattle.std.specs.Prelude.{◌≡◌};
ghost use Rattle.ocr_machine_parts.specs.Calls.{is_object};
ghost use Rattle.ocr_machine_parts.specs.Codes.{code_of, code_or, wanted, wanted_sources, is_any, is_its_own, is_count, template_code, block_code, creation_code, counted_code, slot_most, satisfy_code, brings_block, link_code, dependence_code, number_code, event_code, channel_code};
ghost use Rattle.ocr_machine_parts.specs.LegalOn.{delivery_code};
ghost use Rattle.ocr_machine_parts.specs.Taken.{face_in};
ghost use Rattle.ocr_machine_parts.specs.declared.part.Part.TheVariants as part;
ghost use Rattle.ocr_template.specs.Template.{counts_of};
ghost use Rattle.ocr_machine_codes.specs.Lookup.{faces_of, sort_of, test_of};

use crate::lookup::Faces;
use ocr_body_meaning::Call;
use ocr_channel_event::MOST_GENERATIONS;
use ocr_event_any::{AnyEvent, CHANNEL, LATCH};
use ocr_guid::{Code, Guid};
use ocr_machine_parts::Part;
use ocr_template::{EDT_PARAM_UNK, MOST_DEPENDENCES, MOST_PARAMETERS, Template, counts};

/// What an object is wanted for.
#[derive(Clone, Copy)]
enum Sort {
    ABlock,
    ToRelease,
    Held,
    Source,
    Target,
    ATemplate,
    AnEvent,
}

/// Why an object refuses a call.
#[derive(Clone, Copy)]
enum Test {
    Missing,
    OtherKind,
    Stale,
}

/// The code of a call of this EDT, by the parts that the call names: the first refusal, of ENOENT
/// where an object is not there, EINVAL where one is of another kind, STALE where one is destroyed,
/// EINVAL for a number, a count, a flag or a slot, EPERM, and EBUSY.
pub fn decide(limit: u64, edt: Guid, call: &Call, parts: &[(u64, Part)]) -> Code
    ensures { result ≡ code_of edt (face_in limit parts.now) call.now }
{
    code_at(edt, call, &Faces::Taken(limit, parts))
}

/// The code with which an event answers a satisfaction that a message brings, by the parts that the
/// message names.
pub fn delivery_code(limit: u64, event: Guid, payload: Guid, parts: &[(u64, Part)]) -> Code
    ensures { result ≡ delivery_code (face_in limit parts.now event) payload }
{
    Faces::Taken(limit, parts).delivery_code(event.0, payload)
}

/// The code of a call, by the faces of the objects that it wants.
pub fn code_at(edt: Guid, call: &Call, faces: &Faces) -> Code
    ensures { result ≡ code_of edt (faces_of faces.now) call.now }
{
    if is_any(Test::Missing, edt, call, faces) {
        return Code::Enoent;
    }
    if is_its_own(call) || is_any(Test::OtherKind, edt, call, faces) {
        return Code::Einval;
    }
    if is_any(Test::Stale, edt, call, faces) {
        return Code::Stale;
    }
    number_code(edt, call, faces)
}

/// Whether the source of a dependence is its target.
#[inline(always)]
fn is_its_own(call: &Call) -> bool
    ensures { result ≡ is_its_own call.now }
{
    if let Call::AddDependence {
        source,
        target,
        slot: _,
        mode: _,
    } = call
    {
        return *source == *target;
    }
    false
}

/// Whether one of the objects that a call wants refuses it so.
// Each caller knows the test: where all are inlined, the kind of the call is asked once.
#[inline(always)]
fn is_any(test: Test, edt: Guid, call: &Call, faces: &Faces) -> bool
    ensures { result ≡ is_any (test_of edt test) (faces_of faces.now) (wanted call.now) }
{
    match call {
        Call::DbRelease { block } => refuses(test, edt, Sort::ToRelease, *block, faces),
        Call::DbDestroy { block } => refuses(test, edt, Sort::ABlock, *block, faces),
        Call::TemplateDestroy { template } => {
            refuses(test, edt, Sort::ATemplate, *template, faces)
        }
        Call::EventDestroy { event } => refuses(test, edt, Sort::AnEvent, *event, faces),
        Call::Load { block, word: _ } => refuses(test, edt, Sort::Held, *block, faces),
        Call::Store {
            block,
            word: _,
            value: _,
        } => refuses(test, edt, Sort::Held, *block, faces),
        Call::AddDependence {
            source,
            target,
            slot: _,
            mode: _,
        } => {
            refuses(test, edt, Sort::Target, *target, faces)
                || (*source != 0 && refuses(test, edt, Sort::Source, *source, faces))
        }
        Call::Satisfy {
            event,
            payload,
            slot: _,
        } => {
            refuses(test, edt, Sort::AnEvent, *event, faces)
                || (*payload != 0 && refuses(test, edt, Sort::ABlock, *payload, faces))
        }
        Call::EdtCreate {
            template,
            paramc: _,
            params: _,
            depc: _,
            deps,
            flags: _,
            output: _,
        } => {
            refuses(test, edt, Sort::ATemplate, *template, faces)
                || is_any_source(test, edt, deps.as_slice(), faces)
        }
        Call::Print { .. }
        | Call::DbCreate { .. }
        | Call::EventCreate { .. }
        | Call::EventCreateParams { .. }
        | Call::TemplateCreate { .. }
        | Call::Shutdown
        | Call::Abort { .. } => false,
    }
}

/// Whether a dependence names an object.
pub fn is_object(dep: u64) -> bool
    ensures { result ≡ is_object dep }
{
    dep != u64::MAX && dep != 0
}

/// Whether one of the objects that are named as dependences refuses so.
fn is_any_source(test: Test, edt: Guid, deps: &[u64], faces: &Faces) -> bool
    ensures { result ≡ is_any (test_of edt test) (faces_of faces.now) (wanted_sources deps.now) }
{
    for k in 0..deps.len() {
        if is_object(deps[k]) && refuses(test, edt, Sort::Source, deps[k], faces) {
            return true;
        }
    }
    false
}

/// Whether the object refuses so, where it is wanted for this.
#[inline(always)]
fn refuses(test: Test, edt: Guid, sort: Sort, object: u64, faces: &Faces) -> bool
    ensures { result ≡ test_of edt test (sort_of sort) (faces_of faces.now object) }
{
    match test {
        Test::Missing => match sort {
            Sort::Held => false,
            Sort::ABlock => faces.is_vacant(object),
            Sort::ToRelease => faces.is_vacant(object),
            Sort::Source => faces.is_vacant(object),
            Sort::Target => faces.is_vacant(object),
            Sort::ATemplate => faces.is_vacant(object),
            Sort::AnEvent => faces.is_vacant(object),
        },
        Test::OtherKind => match sort {
            Sort::Held => false,
            Sort::ABlock => !faces.is_block(object),
            Sort::ToRelease => !faces.is_block(object),
            Sort::Source => !faces.is_block(object) && !faces.is_event(object),
            Sort::Target => !faces.is_edt(object) && !faces.is_event(object),
            Sort::ATemplate => !faces.is_template(object),
            Sort::AnEvent => !faces.is_event(object),
        },
        Test::Stale => match sort {
            Sort::Held => false,
            Sort::ABlock => faces.is_destroyed(object),
            Sort::ToRelease => faces.is_destroyed(object) && !faces.is_held_by(object, edt),
            Sort::Source => faces.is_destroyed(object),
            Sort::Target => faces.is_destroyed(object),
            Sort::ATemplate => faces.is_destroyed(object),
            Sort::AnEvent => faces.is_destroyed(object),
        },
    }
}

/// The code of a call whose objects do not refuse it.
fn number_code(edt: Guid, call: &Call, faces: &Faces) -> Code
    ensures { result ≡ number_code edt (faces_of faces.now) call.now }
{
    match call {
        Call::Print { .. } | Call::Load { .. } | Call::Store { .. } => Code::Done,
        Call::DbDestroy { .. } => Code::Done,
        Call::TemplateDestroy { .. } | Call::EventDestroy { .. } => Code::Done,
        Call::DbCreate { length, flags } => block_code(*length, *flags),
        Call::DbRelease { block } => {
            if faces.is_held_by(*block, edt) {
                Code::Done
            } else {
                Code::Eperm
            }
        }
        Call::TemplateCreate {
            function: _,
            paramc,
            depc,
        } => template_code(*paramc, *depc),
        Call::EdtCreate {
            template,
            paramc,
            params,
            depc,
            deps,
            flags,
            output: _,
        } => {
            let params = params.as_slice();
            let deps = deps.as_slice();
            creation_code(faces, *template, *paramc, params, *depc, deps, *flags)
        }
        Call::AddDependence {
            source,
            target,
            slot,
            mode,
        } => dependence_code(faces, *source, *target, *slot, *mode),
        Call::EventCreate { kind, flags } => event_code(*kind, *flags),
        Call::EventCreateParams {
            kind,
            flags,
            max_gen,
            nb_sat,
            nb_deps,
        } => channel_code(*kind, *flags, *max_gen, *nb_sat, *nb_deps),
        Call::Satisfy {
            event,
            payload,
            slot,
        } => satisfy_code(faces, *event, *slot, Guid(*payload)),
        Call::Shutdown | Call::Abort { .. } => Code::Einval,
    }
}

/// Whether a template may have this count: at most so many, or open.
fn is_count(most: u32, count: u64) -> bool
    ensures { result ≡ is_count most count }
{
    count <= u64::from(most) || count == EDT_PARAM_UNK
}

fn template_code(paramc: u64, depc: u64) -> Code
    ensures { result ≡ template_code paramc depc }
{
    if is_count(MOST_PARAMETERS, paramc) && is_count(MOST_DEPENDENCES, depc) {
        Code::Done
    } else {
        Code::Einval
    }
}

fn block_code(length: u64, flags: u64) -> Code
    ensures { result ≡ block_code length flags }
{
    if 8 <= length && length <= 524288 && length % 8 == 0 && flags <= 1 {
        Code::Done
    } else {
        Code::Einval
    }
}

/// An event has one of the kinds 1 to 4.
fn event_code(kind: u64, flags: u64) -> Code
    ensures { result ≡ event_code kind flags }
{
    if 1 <= kind && kind <= LATCH && flags <= 1 {
        Code::Done
    } else {
        Code::Einval
    }
}

/// A channel has the kind 5, and keeps at most 1 to 1,024 satisfactions.
fn channel_code(kind: u64, flags: u64, most: u64, sats: u64, deps: u64) -> Code
    ensures { result ≡ channel_code kind flags most sats deps }
{
    let is_most = 1 <= most && most <= u64::from(MOST_GENERATIONS);
    if kind == CHANNEL && flags <= 1 && is_most && sats == 1 && deps == 1 {
        Code::Done
    } else {
        Code::Einval
    }
}

/// The code of the creation of an EDT with these parameters, dependences and flags.
fn creation_code(
    faces: &Faces,
    template: u64,
    paramc: u64,
    params: &[u64],
    depc: u64,
    deps: &[u64],
    flags: u64,
) -> Code
    ensures { result
        ≡ creation_code (faces_of faces.now template) paramc params.now depc deps.now flags }
{
    let Some(Part::Template(template)) = faces.face(template) else {
        return Code::Einval;
    };
    counted_code(template, paramc, params, depc, deps, flags)
}

fn counted_code(
    template: &Template,
    paramc: u64,
    params: &[u64],
    depc: u64,
    deps: &[u64],
    flags: u64,
) -> Code
    ensures { result ≡ counted_code (counts_of template.now paramc depc) params.now deps.now flags }
{
    match counts(template, paramc, depc) {
        Err(code) => code,
        Ok((paramc, depc)) => {
            let is_whole = params.len() == paramc as usize
                && (deps.is_empty() || deps.len() == depc as usize);
            if is_whole && flags <= 1 {
                Code::Done
            } else {
                Code::Einval
            }
        }
    }
}

pub(crate) fn code_or(refusal: Option<Code>) -> Code
    ensures { result ≡ code_or refusal }
{
    match refusal {
        Some(code) => code,
        None => Code::Done,
    }
}

/// The last slot of an event: 1 of a latch, and 0 of the others.
pub(crate) fn most_slot(event: &AnyEvent) -> u64
    ensures { result ≡ slot_most event.now }
{
    match event {
        AnyEvent::Latch(_) => 1,
        AnyEvent::Plain(_) | AnyEvent::Channel(_) => 0,
    }
}

fn satisfy_code(faces: &Faces, event: u64, slot: u64, payload: Guid) -> Code
    ensures { result ≡ satisfy_code (faces_of faces.now event) slot payload }
{
    let Some(Part::Event(event)) = faces.face(event) else {
        return Code::Einval;
    };
    if slot > most_slot(event.get()) {
        return Code::Einval;
    }
    code_or(event.get().refusal(payload))
}

/// The code of a dependence, whose target is a slot of an EDT or of an event.
fn dependence_code(faces: &Faces, source: u64, target: u64, slot: u64, mode: u64) -> Code
    ensures { result ≡ dependence_code (brings_block (faces_of faces.now) source)
        (faces_of faces.now target) slot mode }
{
    if let Some(Part::Event(event)) = faces.face(target) {
        let brings_block = source != 0 && faces.is_block(source);
        return event_link_code(event.get(), slot, brings_block);
    }
    if mode > 4 {
        return Code::Einval;
    }
    link_code(faces, target, slot)
}

/// The code of a dependence of this slot of an event. A block comes only to one that takes it.
fn event_link_code(event: &AnyEvent, slot: u64, brings_block: bool) -> Code
    ensures { result ≡ dependence_code brings_block (part.Event event.now) slot 0 }
{
    if slot > most_slot(event) || (brings_block && !event.takes_arg()) {
        Code::Einval
    } else {
        Code::Done
    }
}

fn link_code(faces: &Faces, target: u64, slot: u64) -> Code
    ensures { result ≡ link_code (faces_of faces.now target) slot }
{
    let Some(Part::Edt(slots)) = faces.face(target) else {
        return Code::Einval;
    };
    if slot >= u64::from(slots.depc()) {
        return Code::Einval;
    }
    if slots.is_linked(slot as u32) {
        return Code::Eperm;
    }
    Code::Done
}
