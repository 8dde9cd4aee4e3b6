// What the calls do that make objects.
ghost use Rattle.std.specs.Prelude.{◌≡◌, ◌≤◌, ◌/◌, ℕ, [], true, false, IfOk, length, ◌==◌, if◌then◌else◌};
ghost use Rattle.ocr_acquire.specs.declared.Mode.TheVariants as mode;
ghost use Rattle.ocr_event_any.specs.AnyEvent.{state_of as event_state};
ghost use Rattle.ocr_datablock.specs.Block.{state_of};
ghost use Rattle.ocr_edt.specs.declared.Edt.TheVariants as phase;
ghost use Rattle.ocr_machine_history.specs.Made.{creator_of};
ghost use Rattle.ocr_slots.specs.Slots.{state_of as slots_of};
ghost use Rattle.ocr_slots.specs.Steps.{after_link};
ghost use Rattle.ocr_template.specs.Template.{count_meant};
ghost use Rattle.ocr_machine_parts.specs.Calls.{dep_links, is_given};
ghost use Rattle.ocr_machine_parts.specs.Effects.{with_named, with_beside, creating_core, new_face, new_core, new_output, new_scope, deps_linked};
ghost use Rattle.ocr_machine_parts.specs.Progress.{with_face, with_core};
ghost use Rattle.ocr_machine_parts.specs.Kinds.{on_core, is_running, is_template};
ghost use Rattle.ocr_machine_parts.specs.Messages.{dep_sends};
ghost use Rattle.ocr_machine_parts.specs.Parts.{new_identity};
ghost use Rattle.ocr_machine_parts.specs.declared.part.Part.TheVariants as part;
ghost use Rattle.ocr_machine_effects.specs.AtHand.{state, Becomes, HasFace, HasCore, HasNamed, HasRoom, slots_meant};

use ocr_acquire::Mode;
use ocr_base::{NoMemory, Seq};
use ocr_body_meaning::Answer;
use ocr_datablock::Block;
use ocr_edt::{Edt, Filling, Identity};
use ocr_event_any::{CHANNEL, event_of};
use ocr_finish::Scope;
use ocr_guid::Guid;
use ocr_machine_effects::{TakenParts, depend_all};
use ocr_machine_history::{OUTPUT_FLAGS, OUTPUT_KIND, What};
use ocr_machine_parts::{BoxedBlock, BoxedCore, BoxedEvent, Core, Loans, Part};
use ocr_slots::Slots;
use ocr_template::{EDT_PARAM_DEF, Template};
use std::alloc::Global;

/// Makes a block, which its creator holds, unless the flag says that it does not.
pub(crate) fn create_block(
    alloc: Global,
    parts: &mut TakenParts,
    edt: Guid,
    length: u64,
    flags: u64,
    block: u64,
) -> Result<(), NoMemory>
    requires running { is_running ((state parts.old).core edt) ≡ true }
    requires some { 8 ≤ length }
    requires few { length ≤ 524288 }
    requires face { HasFace parts.old block }
    ensures { IfOk result (λ _. Becomes parts.old parts.new
        (with_core
        (with_face (state parts.old) block
        (part.Block (state_of (length / 8) (creator_of edt flags) [])))
        edt (on_core ((state parts.old).core edt) (creating_core flags block (length / 8))))) }
{
    let size = (length / 8) as u32;
    let made = Block::new(alloc, size, creator(edt, flags))?;
    let state = BoxedBlock::new(alloc, made)?;
    let mut core = parts.take_core(edt);
    hold_made(alloc, &mut core, block, flags, size)?;
    parts.put_core(edt, core);
    parts.put_face(block, Part::Block(state));
    Ok(())
}

/// Who holds a block that is made.
fn creator(edt: Guid, flags: u64) -> Guid
    ensures { result ≡ creator_of edt flags }
{
    if flags == 0 { edt } else { Guid::NULL }
}

/// An EDT that made a block of so many words holds it, unless the flag says that it does not.
fn hold_made(
    alloc: Global,
    core: &mut BoxedCore,
    block: u64,
    flags: u64,
    size: u32,
) -> Result<(), NoMemory>
    ensures { IfOk result (λ _. core.new ≡ creating_core flags block size core.old) }
{
    if flags == 0 {
        core.hold(alloc, Guid(block), size)?;
    }
    Ok(())
}

/// Makes a template.
pub(crate) fn create_template(
    parts: &mut TakenParts,
    function: u32,
    paramc: u64,
    depc: u64,
    template: u64,
)
    requires { HasFace parts.old template }
    ensures { Becomes parts.old parts.new
        (with_face (state parts.old) template
        (part.Template (record {
          function = function;
          paramc = paramc;
          depc = depc;
          destroyed = false;
        }))) }
{
    let made = Template {
        function,
        paramc,
        depc,
        destroyed: false,
    };
    parts.put_face(template, Part::Template(made));
}

/// Makes an event of the kind of this number, a channel with the most satisfactions that it keeps.
pub(crate) fn create_event(
    alloc: Global,
    parts: &mut TakenParts,
    kind: u64,
    flags: u64,
    most: u64,
    event: u64,
) -> Result<(), NoMemory>
    requires least { kind ≡ CHANNEL → 1 ≤ most }
    requires most { most ≤ 1024 }
    requires face { HasFace parts.old event }
    ensures { IfOk result (λ _. Becomes parts.old parts.new
        (with_face (state parts.old) event (part.Event (event_state kind flags most [])))) }
{
    let state = event_of(alloc, kind, flags, most as u32);
    let made = BoxedEvent::new(alloc, state)?;
    parts.put_face(event, Part::Event(made));
    Ok(())
}

/// Makes an EDT from a template, with its scope and its output event, by one with this home. Its
/// slots get the dependences; gives what goes to them at once.
pub(crate) fn make_edt(
    alloc: Global,
    parts: &mut TakenParts,
    home: u64,
    template: u64,
    params: &Seq<u64>,
    depc: u64,
    deps: &Seq<u64>,
    flags: u64,
    answer: &Answer,
) -> Result<Vec<What>, NoMemory>
    requires template { is_template ((state parts.old).face template) ≡ true }
    requires slots { slots_meant ((state parts.old).face template) depc ≤ 32 }
    requires deps { length deps.now ≤ slots_meant ((state parts.old).face template) depc }
    requires room { HasRoom parts.old answer.now deps.now }
    ensures parts { IfOk result (λ _. Becomes parts.old parts.new
        (deps_linked answer.now.value 0 deps.now
        (with_core
        (with_face (with_beside (state parts.old) home answer.now) answer.now.value
        (new_face ((state parts.old).face template) depc deps.now))
        answer.now.value (new_core ((state parts.old).face template)
        (new_identity answer.now.value flags answer.now home) params.now)))) }
    ensures messages { IfOk result (λ r. r.items
        ≡ dep_sends answer.now.value 0 deps.now (state parts.old)) }
{
    let template = parts.template(template);
    create_beside(alloc, parts, home, answer)?;
    let identity = new_identity(flags, answer, home);
    create_edt(alloc, parts, template, params, depc, deps, identity)?;
    depend_all(alloc, parts, Guid(answer.value), deps.as_slice())
}

/// The output event and the scope of a new EDT, where it has them.
fn create_beside(
    alloc: Global,
    parts: &mut TakenParts,
    home: u64,
    answer: &Answer,
) -> Result<(), NoMemory>
    requires output { HasNamed parts.old answer.now.output }
    requires scope { HasNamed parts.old answer.now.scope }
    ensures { IfOk result (λ _. Becomes parts.old parts.new
        (with_beside (state parts.old) home answer.now)) }
{
    create_output(alloc, parts, answer.output.0)?;
    create_scope(parts, home, answer);
    Ok(())
}

fn create_output(alloc: Global, parts: &mut TakenParts, output: u64) -> Result<(), NoMemory>
    requires { HasNamed parts.old output }
    ensures { IfOk result (λ _. Becomes parts.old parts.new
        (with_named (state parts.old) output new_output)) }
{
    if output != 0 {
        create_event(alloc, parts, OUTPUT_KIND, OUTPUT_FLAGS, 0, output)?;
    }
    Ok(())
}

fn create_scope(parts: &mut TakenParts, home: u64, answer: &Answer)
    requires { HasNamed parts.old answer.now.scope }
    ensures { Becomes parts.old parts.new
        (with_named (state parts.old) answer.now.scope (new_scope home answer.now)) }
{
    if answer.scope != Guid::NULL {
        let made = Scope::new(Guid(home), answer.output);
        parts.put_face(answer.scope.0, Part::Scope(made));
    }
}

/// Who a new EDT is whose maker has this home.
fn new_identity(flags: u64, answer: &Answer, home: u64) -> Identity
    ensures { result ≡ new_identity answer.now.value flags answer.now home }
{
    let finish = flags == 1;
    Identity {
        edt: Guid(answer.value),
        scope: if finish { answer.scope } else { Guid(home) },
        output: answer.output,
        finish,
    }
}

/// Makes an EDT from a template.
fn create_edt(
    alloc: Global,
    parts: &mut TakenParts,
    template: Template,
    params: &Seq<u64>,
    depc: u64,
    deps: &Seq<u64>,
    identity: Identity,
) -> Result<(), NoMemory>
    requires slots { count_meant template.depc depc ≤ 32 }
    requires deps { length deps.now ≤ count_meant template.depc depc }
    requires face { HasFace parts.old identity.edt }
    requires core { HasCore parts.old identity.edt }
    ensures { IfOk result (λ _. Becomes parts.old parts.new
        (with_core
        (with_face (state parts.old) identity.edt
        (new_face (part.Template template) depc deps.now))
        identity.edt (new_core (part.Template template) identity params.now))) }
{
    let edt = identity.edt;
    let count = meant_count(template.depc, depc) as u32;
    let slots = new_slots(alloc, count, deps.as_slice())?;
    let core = made_core(alloc, template.function, params, identity)?;
    parts.put_face(edt.0, Part::Edt(slots));
    parts.put_core(edt, core);
    Ok(())
}

/// The count that a creation means.
fn meant_count(own: u64, given: u64) -> u64
    ensures { result ≡ count_meant own given }
{
    if given == EDT_PARAM_DEF { own } else { given }
}

/// The core of a new EDT.
fn made_core(
    alloc: Global,
    function: u32,
    params: &Seq<u64>,
    identity: Identity,
) -> Result<BoxedCore, NoMemory>
    ensures { IfOk result
        (λ core. core ≡ record {
          function = function;
          params = params.now;
          edt = phase.Filling identity;
          loans = [];
        }) }
{
    let Ok(params) = Vec::from_slice(alloc, params.as_slice()) else {
        return Err(NoMemory);
    };
    let core = Core {
        function,
        params: Seq::from_vec(params),
        edt: filling(identity),
        loans: Loans::new(alloc),
    };
    BoxedCore::new(alloc, core)
}

fn filling(identity: Identity) -> Edt
    ensures { result ≡ phase.Filling identity }
{
    let Identity {
        edt,
        scope,
        output,
        finish,
    } = identity;
    Edt::Filling(Filling::new(edt, scope, output, finish))
}

/// The slots of an EDT, of which dependences are given for some.
fn new_slots(alloc: Global, count: u32, deps: &[u64]) -> Result<Slots, NoMemory>
    requires most { count ≤ 32 }
    requires few { length deps.now ≤ count }
    ensures { IfOk result (λ slots. slots ≡ slots_of count (dep_links 0 deps.now [])) }
{
    let mut slots = Slots::new(alloc, count)?;
    link_all(&mut slots, count, deps);
    Ok(slots)
}

/// Links the slots that dependences are given for.
fn link_all(slots: &mut Slots, count: u32, deps: &[u64])
    requires few { length deps.now ≤ count }
    requires fresh { slots.old ≡ slots_of count [] }
    ensures { slots.new ≡ slots_of count (dep_links 0 deps.now []) }
{
    let _count = count;
    for k in 0..deps.len() {
        link_given(slots, k as u64, deps[k]);
    }
}

fn link_given(slots: &mut Slots, slot: u64, dep: u64)
    ensures { slots.new
        ≡ (if is_given dep then after_link slots.old slot mode.Rw else slots.old) }
{
    if dep != u64::MAX {
        slots.link(slot, Mode::Rw);
    }
}
