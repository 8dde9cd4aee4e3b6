// The creation of an EDT that is given nothing yet, on the parts at hand.
ghost use Rattle.std.specs.Prelude.{◌≡◌, ◌≤◌, ◌<◌, ◌+◌, ◌∷◌, [], ℕ, List, length, true, Some, IfNone, IfOk, IfSome, OnOk, OnErr};
ghost use Rattle.ocr_body_meaning.specs.Behaviour.{IsNextWith};
ghost use Rattle.ocr_body_meaning.specs.Body.{Body, says};
ghost use Rattle.ocr_body_meaning.specs.Holds.{private_of};
ghost use Rattle.ocr_machine_parts.specs.declared.part.Part.{Part};
ghost use Rattle.ocr_machine_parts.specs.declared.part.Part.TheVariants as part;
ghost use Rattle.ocr_machine_parts.specs.Taken.{is_within};
ghost use Rattle.ocr_turns_rule.specs.Contract.{SameRoom};
ghost use Rattle.ocr_turns_rule.specs.Sums.{find, replace};
ghost use Rattle.ocr_worker_clerk.specs.Entry.{OcrKnown};
ghost use Rattle.ocr_worker_clerk.specs.Push.{IsPushed, PushesReady, ReadiesNone};
ghost use Rattle.ocr_worker_clerk.specs.Work.{AtWork, IsGone, Stays};
ghost use Rattle.ocr_worker_calls.specs.Creation.{HasAtHand, IsMadeOf, Suits, bare_core, call_of, made_answer, made_entry};
ghost use Rattle.ocr_worker_access.specs.Access.{IsCalled, Runs, holds_at, home_at};
ghost use Rattle.ocr_worker_access.specs.Served.{own_log};

use crate::asked::home_for;
use crate::named::answer_of;
use ocr_base::{NoMemory, Seq};
use ocr_body_meaning::{Answer, Call};
use ocr_edt::{Edt, Filling};
use ocr_guid::{Code, Guid};
use ocr_machine_history::{Entry, Writes};
use ocr_machine_parts::{BoxedCore, Core, Loans, Part, copied_words};
use ocr_slots::Slots;
use ocr_steal::Hand;
use ocr_template::{Template, counts};
use ocr_turns::Clerk;
use ocr_worker_access::{conclude, core_at};
use ocr_worker_clerk::{
    Gate, Job, Ocr, Over, close_memory, draw_number, enter_at_hand, give_faces, take_part,
};
use std::alloc::Global;
use std::sync::Wait;

/// The creation of an EDT that gets no dependence, no scope of its own and no output event.
#[derive(Clone, Copy)]
pub(crate) struct Bare<'a> {
    pub template: u64,
    pub paramc: u64,
    pub params: &'a Seq<u64>,
    pub depc: u64,
}

// What such a call asks for.
#[inline(always)]
fn bare_of(call: &Call) -> Option<Bare<'_>>
    ensures { IfSome result (λ bare. call.now ≡ call_of bare) }
{
    let Call::EdtCreate {
        template,
        paramc,
        params,
        depc,
        deps,
        flags,
        output,
    } = call
    else {
        return None;
    };
    if !deps.as_slice().is_empty() || *flags != 0 || *output {
        return None;
    }
    Some(Bare {
        template: *template,
        paramc: *paramc,
        params,
        depc: *depc,
    })
}

/// Enters such a creation by an EDT without a home, as `make_call` enters a call; no part is lifted
/// for it. None for every other call, and where it is to be refused: then all is as before.
pub(crate) fn create_bare<R: Wait, G: Gate>(
    alloc: Global,
    job: &Job<R, G>,
    worker: u32,
    clerk: &mut Clerk<Ocr>,
    hand: &mut Hand,
    edt: Guid,
    call: &Call,
) -> Result<Option<Answer>, Over>
    ghost s: { Body × OcrKnown }
    requires first { s.1 ≡ clerk.old }
    requires work { AtWork job.now.turns.now job.now.program.now clerk.old }
    requires runs { Runs job.now.turns.now.1 edt s.0 s.1 }
    requires next { IsNextWith call.now (private_of call.now (holds_at s.1))
        (says s.0 (own_log s.1.view.log edt)) }
    ensures stays { Stays clerk.old clerk.new }
    ensures work { OnOk result (AtWork job.now.turns.now job.now.program.now clerk.new) }
    ensures none { IfOk result (λ o. IfNone o ((clerk.new.view ≡ clerk.old.view)
        × (clerk.new.parts ≡ clerk.old.parts))) }
    ensures some { IfOk result (λ o. IfSome o (λ a. Runs job.now.turns.now.1 edt s.0 clerk.new
        × IsCalled edt call.now a s.1 clerk.new)) }
    ensures hand { IsPushed hand.old hand.new }
    ensures pushed { OnOk result (PushesReady clerk.old clerk.new hand.old hand.new) }
    ensures gone { OnErr result (IsGone job.now.turns.now worker clerk.new) }
{
    let limit = job.turns.limit();
    let Some(bare) = bare_of(call) else {
        return Ok(None);
    };
    if bare.template < 1 || limit < bare.template {
        return Ok(None);
    }
    if home_for(core_at(clerk, limit + edt.0), call) != Guid::NULL {
        return Ok(None);
    }
    create_from(alloc, job, worker, clerk, hand, edt, call, &bare)
}

// Takes the template, and makes the EDT where it is not refused.
fn create_from<R: Wait, G: Gate>(
    alloc: Global,
    job: &Job<R, G>,
    worker: u32,
    clerk: &mut Clerk<Ocr>,
    hand: &mut Hand,
    edt: Guid,
    call: &Call,
    bare: &Bare<'_>,
) -> Result<Option<Answer>, Over>
    ghost s: { Body × OcrKnown }
    requires first { s.1 ≡ clerk.old }
    requires work { AtWork job.now.turns.now job.now.program.now clerk.old }
    requires runs { Runs job.now.turns.now.1 edt s.0 s.1 }
    requires next { IsNextWith call.now (private_of call.now (holds_at s.1))
        (says s.0 (own_log s.1.view.log edt)) }
    requires bare { call.now ≡ call_of bare.now }
    requires within { is_within job.now.turns.now.1.limit bare.now.template ≡ true }
    requires home { home_at s.1 call.now ≡ 0 }
    ensures stays { Stays clerk.old clerk.new }
    ensures work { OnOk result (AtWork job.now.turns.now job.now.program.now clerk.new) }
    ensures none { IfOk result (λ o. IfNone o ((clerk.new.view ≡ clerk.old.view)
        × (clerk.new.parts ≡ clerk.old.parts))) }
    ensures some { IfOk result (λ o. IfSome o (λ a. Runs job.now.turns.now.1 edt s.0 clerk.new
        × IsCalled edt call.now a s.1 clerk.new)) }
    ensures hand { IsPushed hand.old hand.new }
    ensures pushed { OnOk result (PushesReady clerk.old clerk.new hand.old hand.new) }
    ensures gone { OnErr result (IsGone job.now.turns.now worker clerk.new) }
{
    take_part(job, worker, clerk, bare.template)?;
    let Some((made, slots)) = template_for(clerk, bare) else {
        give_faces(job.turns, job.program, clerk, edt, &[bare.template]);
        return Ok(None);
    };
    let answer = create(
        alloc, job, worker, clerk, hand, edt, call, bare, &made, slots,
    )?;
    Ok(Some(answer))
}

// The template at hand with the number of slots that it gives, where it is none that is destroyed
// or that refuses the counts.
#[inline(always)]
fn template_for(clerk: &Clerk<Ocr>, bare: &Bare<'_>) -> Option<(Template, u32)>
    requires { (x : Part) × (find bare.now.template clerk.now.parts ≡ Some (Some x)) }
    ensures found { IfSome result (λ m. find bare.now.template clerk.now.parts
        ≡ Some (Some (part.Template m.0))) }
    ensures suits { IfSome result (λ m. Suits bare.now m.0 m.1) }
{
    let Part::Template(made) = clerk.part(bare.template) else {
        return None;
    };
    if made.destroyed {
        return None;
    }
    match counts(made, bare.paramc, bare.depc) {
        Ok((params, slots)) if bare.params.len() == params as usize => Some((*made, slots)),
        _ => None,
    }
}

// Makes the EDT by this template, whose face stands behind the core at hand.
fn create<R: Wait, G: Gate>(
    alloc: Global,
    job: &Job<R, G>,
    worker: u32,
    clerk: &mut Clerk<Ocr>,
    hand: &mut Hand,
    edt: Guid,
    call: &Call,
    bare: &Bare<'_>,
    made: &Template,
    slots: u32,
) -> Result<Answer, Over>
    ghost s: { Body × OcrKnown }
    requires work { AtWork job.now.turns.now job.now.program.now clerk.old }
    requires runs { Runs job.now.turns.now.1 edt s.0 s.1 }
    requires next { IsNextWith call.now (private_of call.now (holds_at s.1))
        (says s.0 (own_log s.1.view.log edt)) }
    requires bare { call.now ≡ call_of bare.now }
    requires within { is_within job.now.turns.now.1.limit bare.now.template ≡ true }
    requires home { home_at s.1 call.now ≡ 0 }
    requires hand { HasAtHand job.now.turns.now.1 edt s.1 clerk.old (bare.now.template ∷ []) [] }
    requires found { find bare.now.template clerk.old.parts
        ≡ Some (Some (part.Template made.now)) }
    requires suits { Suits bare.now made.now slots }
    ensures stays { Stays clerk.old clerk.new }
    ensures work { OnOk result (AtWork job.now.turns.now job.now.program.now clerk.new) }
    ensures runs { OnOk result (Runs job.now.turns.now.1 edt s.0 clerk.new) }
    ensures called { IfOk result (λ a. IsCalled edt call.now a s.1 clerk.new) }
    ensures hand { IsPushed hand.old hand.new }
    ensures pushed { OnOk result (PushesReady clerk.old clerk.new hand.old hand.new) }
    ensures gone { OnErr result (IsGone job.now.turns.now worker clerk.new) }
{
    let new = take_both(job, worker, clerk, edt, call, bare)?;
    enter_new(
        alloc, job, worker, clerk, hand, edt, call, bare, made, slots, new,
    )?;
    Ok(new_answer(new))
}

// Draws the number of the new EDT, and takes its face and its core.
fn take_both<R: Wait, G: Gate>(
    job: &Job<R, G>,
    worker: u32,
    clerk: &mut Clerk<Ocr>,
    edt: Guid,
    call: &Call,
    bare: &Bare<'_>,
) -> Result<u64, Over>
    ghost s: { Body × OcrKnown }
    requires work { AtWork job.now.turns.now job.now.program.now clerk.old }
    requires runs { Runs job.now.turns.now.1 edt s.0 s.1 }
    requires next { IsNextWith call.now (private_of call.now (holds_at s.1))
        (says s.0 (own_log s.1.view.log edt)) }
    requires bare { call.now ≡ call_of bare.now }
    requires within { is_within job.now.turns.now.1.limit bare.now.template ≡ true }
    requires hand { HasAtHand job.now.turns.now.1 edt s.1 clerk.old (bare.now.template ∷ []) [] }
    requires suits { (made : Template) × (slots : ℕ)
        × (find bare.now.template clerk.old.parts ≡ Some (Some (part.Template made)))
        × Suits bare.now made slots }
    ensures stays { Stays clerk.old clerk.new }
    ensures readied { OnOk result (ReadiesNone clerk.old clerk.new) }
    ensures work { OnOk result (AtWork job.now.turns.now job.now.program.now clerk.new) }
    ensures some { IfOk result (λ n. (1 ≤ n) × (n ≤ job.now.turns.now.1.limit)) }
    ensures hand { IfOk result (λ n. HasAtHand job.now.turns.now.1 edt s.1 clerk.new
        (bare.now.template ∷ n ∷ (job.now.turns.now.1.limit + n) ∷ []) (n ∷ [])) }
    ensures found { OnOk result (find bare.now.template clerk.new.parts
        ≡ find bare.now.template clerk.old.parts) }
    ensures gone { OnErr result (IsGone job.now.turns.now worker clerk.new) }
{
    let new = draw_number(job, worker, clerk, edt, call)?;
    take_part(job, worker, clerk, new)?;
    take_part(job, worker, clerk, job.turns.limit() + new)?;
    Ok(new)
}

// Puts the face and the core of the new EDT at their places.
fn put_new(
    alloc: Global,
    clerk: &mut Clerk<Ocr>,
    limit: u64,
    new: u64,
    bare: &Bare<'_>,
    function: u32,
    slots: u32,
) -> Result<(), NoMemory>
    requires few { slots ≤ 32 }
    requires low { (limit ≤ 65536) × (1 ≤ new) × (new ≤ limit) }
    requires face { (x : Part) × (find new clerk.old.parts ≡ Some (Some x)) }
    requires core { (x : Part) × (find (limit + new) clerk.old.parts ≡ Some (Some x)) }
    ensures rest { (clerk.new.table ≡ clerk.old.table) × (clerk.new.view ≡ clerk.old.view)
        × SameRoom clerk.old clerk.new × (length clerk.new.parts ≡ length clerk.old.parts) }
    ensures parts { OnOk result (IsMadeOf limit new bare.now function slots
        clerk.old.parts clerk.new.parts) }
{
    let face = Slots::new(alloc, slots)?;
    let core = BoxedCore::new(alloc, new_core(alloc, new, bare, function)?)?;
    put_over(clerk, new, Part::Edt(face));
    put_over(clerk, limit + new, Part::Core(core));
    Ok(())
}

// Puts a part in the place of the one that stands there, which is mostly vacant: then nothing is
// called to drop it.
#[inline(always)]
fn put_over(clerk: &mut Clerk<Ocr>, place: u64, part: Part)
    requires { (x : Part) × (find place clerk.old.parts ≡ Some (Some x)) }
    ensures parts { clerk.new.parts ≡ replace place (Some part) clerk.old.parts }
    ensures rest { (clerk.new.table ≡ clerk.old.table) × (clerk.new.view ≡ clerk.old.view)
        × SameRoom clerk.old clerk.new }
{
    match clerk.exchange(place, part) {
        Part::Vacant => {}
        other => drop(other),
    }
}

// The core of the new EDT, which no dependence was given for yet.
fn new_core(alloc: Global, new: u64, bare: &Bare<'_>, function: u32) -> Result<Core, NoMemory>
    ensures { IfOk result (λ core. core ≡ bare_core new bare.now function) }
{
    let filling = Filling::new(Guid(new), Guid::NULL, Guid::NULL, false);
    Ok(Core {
        function,
        params: Seq::from_vec(copied_words(alloc, bare.params.as_slice())?),
        edt: Edt::Filling(filling),
        loans: Loans::new(alloc),
    })
}

// Puts the parts of the new EDT at their places, enters the creation, and concludes it.
fn enter_new<R: Wait, G: Gate>(
    alloc: Global,
    job: &Job<R, G>,
    worker: u32,
    clerk: &mut Clerk<Ocr>,
    hand: &mut Hand,
    edt: Guid,
    call: &Call,
    bare: &Bare<'_>,
    made: &Template,
    slots: u32,
    new: u64,
) -> Result<(), Over>
    ghost s: { Body × (OcrKnown × OcrKnown) }
    requires before { s.1.1 ≡ clerk.old }
    requires work { AtWork job.now.turns.now job.now.program.now clerk.old }
    requires runs { Runs job.now.turns.now.1 edt s.0 s.1.0 }
    requires next { IsNextWith call.now (private_of call.now (holds_at s.1.0))
        (says s.0 (own_log s.1.0.view.log edt)) }
    requires bare { call.now ≡ call_of bare.now }
    requires within { is_within job.now.turns.now.1.limit bare.now.template ≡ true }
    requires home { home_at s.1.0 call.now ≡ 0 }
    requires new { (1 ≤ new) × (new ≤ job.now.turns.now.1.limit) }
    requires hand { HasAtHand job.now.turns.now.1 edt s.1.0 s.1.1
        (bare.now.template ∷ new ∷ (job.now.turns.now.1.limit + new) ∷ []) (new ∷ []) }
    requires found { find bare.now.template s.1.1.parts ≡ Some (Some (part.Template made.now)) }
    requires suits { Suits bare.now made.now slots }
    ensures stays { Stays clerk.old clerk.new }
    ensures work { OnOk result (AtWork job.now.turns.now job.now.program.now clerk.new) }
    ensures runs { OnOk result (Runs job.now.turns.now.1 edt s.0 clerk.new) }
    ensures called { OnOk result (IsCalled edt call.now (made_answer new) s.1.0 clerk.new) }
    ensures hand { IsPushed hand.old hand.new }
    ensures pushed { OnOk result (PushesReady clerk.old clerk.new hand.old hand.new) }
    ensures gone { OnErr result (IsGone job.now.turns.now worker clerk.new) }
{
    let limit = job.turns.limit();
    let Ok(()) = put_new(alloc, clerk, limit, new, bare, made.function, slots) else {
        return Err(close_memory(job, worker, clerk));
    };
    let Ok(entry) = new_entry(alloc, edt, bare, new) else {
        return Err(close_memory(job, worker, clerk));
    };
    enter_at_hand(alloc, job, worker, clerk, entry, Vec::new(alloc))?;
    let places = [bare.template, new, limit + new];
    let one = Some((Guid(new), slots));
    conclude(alloc, job, worker, clerk, hand, edt, one, &[], &places)
}

// The entry of the creation.
fn new_entry(alloc: Global, edt: Guid, bare: &Bare<'_>, new: u64) -> Result<Entry, NoMemory>
    ensures { IfOk result (λ entry. entry ≡ made_entry edt (call_of bare.now) new) }
{
    let call = Call::EdtCreate {
        template: bare.template,
        paramc: bare.paramc,
        params: Seq::from_vec(copied_words(alloc, bare.params.as_slice())?),
        depc: bare.depc,
        deps: Seq::new(alloc),
        flags: 0,
        output: false,
    };
    Ok(Entry::Call {
        edt,
        home: Guid::NULL,
        call,
        answer: new_answer(new),
        writes: Writes::none(alloc),
    })
}

fn new_answer(new: u64) -> Answer
    ensures { result ≡ made_answer new }
{
    answer_of(Code::Done, new)
}
