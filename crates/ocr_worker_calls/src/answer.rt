// What a call is answered.
ghost use Rattle.std.specs.Prelude.{◌≡◌, ◌<◌, ◌≤◌, ◌+◌, ◌++◌, ◌∷◌, ◌&&◌, [], true, false, drop, length, reverse, IfOk, OnOk, OnErr};
ghost use Rattle.std.specs.List.{All};
ghost use Rattle.ocr_body_meaning.specs.Behaviour.{IsNext};
ghost use Rattle.ocr_guid.specs.Code.{number_of};
ghost use Rattle.ocr_body_meaning.specs.Body.{Body, says};
ghost use Rattle.ocr_body_meaning.specs.Call.{is_creation};
ghost use Rattle.ocr_body_meaning.specs.Holds.{is_done};
ghost use Rattle.ocr_machine_parts.specs.Codes.{code_of};
ghost use Rattle.ocr_machine_parts.specs.Footprint.{makes_core};
ghost use Rattle.ocr_machine_parts.specs.Taken.{face_in};
ghost use Rattle.ocr_worker_clerk.specs.Number.{object_count};
ghost use Rattle.ocr_worker_clerk.specs.Entry.{OcrKnown};
ghost use Rattle.ocr_worker_clerk.specs.Work.{AtWork, IsGone, Stays};
ghost use Rattle.ocr_worker_machine.specs.Clerks.{Knows, of_terms};
ghost use Rattle.ocr_worker_machine.specs.Ocr.{some_number};
ghost use Rattle.ocr_machine_parts.specs.Legal.{IsCreating};
ghost use Rattle.ocr_worker_access.specs.Calls.{IsAnswer, drawn_for, faces_of, makes_output, makes_scope};
ghost use Rattle.ocr_worker_calls.specs.Calls.{Drew, DrewIf, HasMore};
ghost use Rattle.ocr_worker_access.specs.Access.{HasLifted, Runs, new_places, places_made};
ghost use Rattle.ocr_worker_access.specs.Served.{own_log};

use crate::asked::Asked;
use crate::named::answer_of;
use ocr_body_meaning::{Answer, Call};
use ocr_guid::{Code, Guid};
use ocr_turns::Clerk;
use ocr_worker_clerk::{Gate, Job, Ocr, Over, close_memory, draw_number, take_part};
use std::sync::Wait;

/// The answer of the call. A creation that is not refused answers the numbers that are drawn for
/// it, and the parts of what it makes are taken and lifted.
pub(crate) fn answer<R: Wait, G: Gate>(
    job: &Job<R, G>,
    worker: u32,
    clerk: &mut Clerk<Ocr>,
    edt: Guid,
    asked: &mut Asked,
) -> Result<Answer, Over>
    ghost g: { Body × OcrKnown }
    requires work { AtWork job.now.turns.now job.now.program.now clerk.old }
    requires runs { Runs job.now.turns.now.1 edt g.0 g.1 }
    requires next { IsNext asked.old.call (says g.0 (own_log g.1.view.log edt)) }
    requires few { length asked.old.places.items ≤ 35 }
    requires lifted { HasLifted job.now.turns.now.1 edt g.1 clerk.old
        (faces_of job.now.turns.now.1.limit asked.old.home asked.old.call) []
        asked.old.parts.items }
    requires places { asked.old.places.items ≡ (job.now.turns.now.1.limit + edt)
        ∷ faces_of job.now.turns.now.1.limit asked.old.home asked.old.call }
    requires code { asked.old.code
        ≡ code_of edt (face_in job.now.turns.now.1.limit asked.old.parts.items) asked.old.call }
    ensures stays { Stays clerk.old clerk.new }
    ensures work { OnOk result (AtWork job.now.turns.now job.now.program.now clerk.new) }
    ensures same { (asked.new.call ≡ asked.old.call) × (asked.new.home ≡ asked.old.home) }
    ensures more { OnOk result (HasMore asked.old.parts.items asked.new.parts.items) }
    ensures code { IfOk result (λ a. a.code ≡ asked.old.code) }
    ensures answer { IfOk result (λ a. IsAnswer clerk.new.view asked.old.call a) }
    ensures lifted { IfOk result (λ a. HasLifted job.now.turns.now.1 edt g.1 clerk.new
        (faces_of job.now.turns.now.1.limit asked.old.home asked.old.call
        ++ places_made job.now.turns.now.1.limit asked.old.call a)
        (drawn_for asked.old.call a) asked.new.parts.items) }
    ensures places { IfOk result (λ a. asked.new.places.items ≡ asked.old.places.items
        ++ places_made job.now.turns.now.1.limit asked.old.call a) }
    ensures gone { OnErr result (IsGone job.now.turns.now worker clerk.new) }
{
    if makes_object(&asked.call, asked.code) {
        return make(job, worker, clerk, edt, asked);
    }
    Ok(plain_answer(&asked.call, asked.code))
}

// The answer of a creation that is not refused.
fn make<R: Wait, G: Gate>(
    job: &Job<R, G>,
    worker: u32,
    clerk: &mut Clerk<Ocr>,
    edt: Guid,
    asked: &mut Asked,
) -> Result<Answer, Over>
    ghost g: { Body × OcrKnown }
    requires work { AtWork job.now.turns.now job.now.program.now clerk.old }
    requires runs { Runs job.now.turns.now.1 edt g.0 g.1 }
    requires next { IsNext asked.old.call (says g.0 (own_log g.1.view.log edt)) }
    requires makes { (is_creation asked.old.call && is_done asked.old.code) ≡ true }
    requires few { length asked.old.places.items ≤ 35 }
    requires lifted { HasLifted job.now.turns.now.1 edt g.1 clerk.old
        (faces_of job.now.turns.now.1.limit asked.old.home asked.old.call) []
        asked.old.parts.items }
    requires places { asked.old.places.items ≡ (job.now.turns.now.1.limit + edt)
        ∷ faces_of job.now.turns.now.1.limit asked.old.home asked.old.call }
    requires code { asked.old.code
        ≡ code_of edt (face_in job.now.turns.now.1.limit asked.old.parts.items) asked.old.call }
    ensures stays { Stays clerk.old clerk.new }
    ensures work { OnOk result (AtWork job.now.turns.now job.now.program.now clerk.new) }
    ensures same { (asked.new.call ≡ asked.old.call) × (asked.new.home ≡ asked.old.home) }
    ensures more { OnOk result (HasMore asked.old.parts.items asked.new.parts.items) }
    ensures code { IfOk result (λ a. a.code ≡ asked.old.code) }
    ensures answer { IfOk result (λ a. IsAnswer clerk.new.view asked.old.call a) }
    ensures lifted { IfOk result (λ a. HasLifted job.now.turns.now.1 edt g.1 clerk.new
        (faces_of job.now.turns.now.1.limit asked.old.home asked.old.call
        ++ places_made job.now.turns.now.1.limit asked.old.call a)
        (drawn_for asked.old.call a) asked.new.parts.items) }
    ensures places { IfOk result (λ a. asked.new.places.items ≡ asked.old.places.items
        ++ places_made job.now.turns.now.1.limit asked.old.call a) }
    ensures gone { OnErr result (IsGone job.now.turns.now worker clerk.new) }
{
    let given = draw_all(job, worker, clerk, edt, &asked.call, asked.code)?;
    take_made(job, worker, clerk, edt, asked, &given)?;
    Ok(given)
}

// Draws the numbers of all that the call makes: an EDT's before those of its scope and its output
// event.
fn draw_all<R: Wait, G: Gate>(
    job: &Job<R, G>,
    worker: u32,
    clerk: &mut Clerk<Ocr>,
    edt: Guid,
    call: &Call,
    code: Code,
) -> Result<Answer, Over>
    requires work { AtWork job.now.turns.now job.now.program.now clerk.old }
    requires makes { (is_creation call.now && is_done code) ≡ true }
    requires unused { clerk.old.view.drawn ≡ [] }
    requires creating { Knows job.now.turns.now.1 clerk.old.view
        (λ J. IsCreating (of_terms job.now.turns.now.1) (reverse J) edt call.now) }
    ensures stays { Stays clerk.old clerk.new }
    ensures work { OnOk result (AtWork job.now.turns.now job.now.program.now clerk.new) }
    ensures code { IfOk result (λ a. a.code ≡ code) }
    ensures drew { IfOk result (λ a. Drew job.now.turns.now.1.limit call.now a
        clerk.old clerk.new) }
    ensures gone { OnErr result (IsGone job.now.turns.now worker clerk.new) }
{
    let value = draw_number(job, worker, clerk, edt, call)?;
    let scope = draw_if(job, worker, clerk, edt, call, makes_scope(call))?;
    let output = draw_if(job, worker, clerk, edt, call, makes_output(call))?;
    Ok(Answer {
        code,
        value,
        scope,
        output,
    })
}

// Draws one number more where one is wanted.
fn draw_if<R: Wait, G: Gate>(
    job: &Job<R, G>,
    worker: u32,
    clerk: &mut Clerk<Ocr>,
    edt: Guid,
    call: &Call,
    wanted: bool,
) -> Result<Guid, Over>
    requires work { AtWork job.now.turns.now job.now.program.now clerk.old }
    requires few { wanted ≡ true → length clerk.old.view.drawn < object_count call.now }
    requires creating { Knows job.now.turns.now.1 clerk.old.view
        (λ J. IsCreating (of_terms job.now.turns.now.1) (reverse J) edt call.now) }
    ensures stays { Stays clerk.old clerk.new }
    ensures work { OnOk result (AtWork job.now.turns.now job.now.program.now clerk.new) }
    ensures drew { IfOk result (λ n. DrewIf wanted job.now.turns.now.1.limit
        clerk.old clerk.new n) }
    ensures gone { OnErr result (IsGone job.now.turns.now worker clerk.new) }
{
    if !wanted {
        return Ok(Guid::NULL);
    }
    let number = draw_number(job, worker, clerk, edt, call)?;
    Ok(Guid(number))
}

// Whether the call makes a scope, and whether an output event, beside an EDT.
fn makes_scope(call: &Call) -> bool
    ensures { result ≡ makes_scope call.now }
{
    match call {
        Call::EdtCreate { flags, .. } => *flags == 1,
        _ => false,
    }
}

fn makes_output(call: &Call) -> bool
    ensures { result ≡ makes_output call.now }
{
    match call {
        Call::EdtCreate { output, .. } => *output,
        _ => false,
    }
}

// Whether the call makes an object.
fn makes_object(call: &Call, code: Code) -> bool
    ensures { result ≡ (is_creation call.now && is_done code) }
{
    if !call.is_creation() {
        return false;
    }
    match code {
        Code::Done => true,
        Code::Eperm | Code::Enoent | Code::Ebusy | Code::Einval | Code::Stale => false,
    }
}

// The answer of a call that makes nothing.
fn plain_answer(call: &Call, code: Code) -> Answer
    ensures code { result.code ≡ code }
    ensures refused { is_creation call.now ≡ true → result.value ≡ 0 }
    ensures number { is_creation call.now ≡ false → result.value ≡ number_of code }
    ensures plain { (result.scope ≡ 0) × (result.output ≡ 0) }
{
    if call.is_creation() {
        answer_of(code, 0)
    } else {
        answer_of(code, code.number())
    }
}

// Takes and lifts the parts of what the call makes: a face, and of an EDT its core and the faces of
// its scope and its output event.
fn take_made<R: Wait, G: Gate>(
    job: &Job<R, G>,
    worker: u32,
    clerk: &mut Clerk<Ocr>,
    edt: Guid,
    asked: &mut Asked,
    given: &Answer,
) -> Result<(), Over>
    ghost g: { OcrKnown }
    requires work { AtWork job.now.turns.now job.now.program.now clerk.old }
    requires makes { (is_creation asked.old.call && is_done given.now.code) ≡ true }
    requires some { 1 ≤ given.now.value }
    requires within { All (λ n. n ≤ job.now.turns.now.1.limit)
        (drawn_for asked.old.call given.now) }
    requires answer { IsAnswer clerk.old.view asked.old.call given.now }
    requires first { 1 ≤ length asked.old.places.items }
    requires few { length asked.old.places.items ≤ 35 }
    requires lifted { HasLifted job.now.turns.now.1 edt g clerk.old
        (drop 1 asked.old.places.items) clerk.old.view.drawn asked.old.parts.items }
    ensures stays { Stays clerk.old clerk.new }
    ensures work { OnOk result (AtWork job.now.turns.now job.now.program.now clerk.new) }
    ensures same { (asked.new.call ≡ asked.old.call) × (asked.new.code ≡ asked.old.code)
        × (asked.new.home ≡ asked.old.home) }
    ensures drawn { OnOk result (clerk.new.view.drawn ≡ clerk.old.view.drawn) }
    ensures more { OnOk result (HasMore asked.old.parts.items asked.new.parts.items) }
    ensures lifted { OnOk result (HasLifted job.now.turns.now.1 edt g clerk.new
        (drop 1 asked.old.places.items
        ++ new_places job.now.turns.now.1.limit asked.old.call given.now)
        clerk.old.view.drawn asked.new.parts.items) }
    ensures places { OnOk result (asked.new.places.items ≡ asked.old.places.items
        ++ new_places job.now.turns.now.1.limit asked.old.call given.now) }
    ensures gone { OnErr result (IsGone job.now.turns.now worker clerk.new) }
{
    take_some(job, worker, clerk, edt, asked, given.value)?;
    if !has_core(&asked.call) {
        return Ok(());
    }
    let core = job.turns.limit() + given.value;
    take_some(job, worker, clerk, edt, asked, core)?;
    take_some(job, worker, clerk, edt, asked, given.scope.0)?;
    take_some(job, worker, clerk, edt, asked, given.output.0)?;
    Ok(())
}

// Takes and lifts the part of a place more, where there is one.
fn take_some<R: Wait, G: Gate>(
    job: &Job<R, G>,
    worker: u32,
    clerk: &mut Clerk<Ocr>,
    edt: Guid,
    asked: &mut Asked,
    place: u64,
) -> Result<(), Over>
    ghost g: { OcrKnown }
    requires work { AtWork job.now.turns.now job.now.program.now clerk.old }
    requires place { place ≤ job.now.turns.now.1.limit + job.now.turns.now.1.limit }
    requires room { length asked.old.places.items < 39 }
    requires lifted { HasLifted job.now.turns.now.1 edt g clerk.old
        (drop 1 asked.old.places.items) clerk.old.view.drawn asked.old.parts.items }
    ensures stays { Stays clerk.old clerk.new }
    ensures work { OnOk result (AtWork job.now.turns.now job.now.program.now clerk.new) }
    ensures same { (asked.new.call ≡ asked.old.call) × (asked.new.code ≡ asked.old.code)
        × (asked.new.home ≡ asked.old.home) }
    ensures more { OnOk result (HasMore asked.old.parts.items asked.new.parts.items) }
    ensures lifted { OnOk result (HasLifted job.now.turns.now.1 edt g clerk.new
        (drop 1 asked.old.places.items ++ some_number place)
        clerk.old.view.drawn asked.new.parts.items) }
    ensures places { OnOk result (asked.new.places.items
        ≡ asked.old.places.items ++ some_number place) }
    ensures gone { OnErr result (IsGone job.now.turns.now worker clerk.new) }
{
    if place == 0 {
        return Ok(());
    }
    take_new(job, worker, clerk, edt, asked, place)
}

// Takes and lifts the part of a place more.
fn take_new<R: Wait, G: Gate>(
    job: &Job<R, G>,
    worker: u32,
    clerk: &mut Clerk<Ocr>,
    edt: Guid,
    asked: &mut Asked,
    place: u64,
) -> Result<(), Over>
    ghost g: { OcrKnown }
    requires work { AtWork job.now.turns.now job.now.program.now clerk.old }
    requires place { place ≤ job.now.turns.now.1.limit + job.now.turns.now.1.limit }
    requires room { length asked.old.places.items < 39 }
    requires lifted { HasLifted job.now.turns.now.1 edt g clerk.old
        (drop 1 asked.old.places.items) clerk.old.view.drawn asked.old.parts.items }
    ensures stays { Stays clerk.old clerk.new }
    ensures work { OnOk result (AtWork job.now.turns.now job.now.program.now clerk.new) }
    ensures same { (asked.new.call ≡ asked.old.call) × (asked.new.code ≡ asked.old.code)
        × (asked.new.home ≡ asked.old.home) }
    ensures more { OnOk result (HasMore asked.old.parts.items asked.new.parts.items) }
    ensures lifted { OnOk result (HasLifted job.now.turns.now.1 edt g clerk.new
        (drop 1 asked.old.places.items ++ place ∷ []) clerk.old.view.drawn asked.new.parts.items) }
    ensures places { OnOk result (asked.new.places.items ≡ asked.old.places.items ++ place ∷ []) }
    ensures gone { OnErr result (IsGone job.now.turns.now worker clerk.new) }
{
    take_part(job, worker, clerk, place)?;
    let part = clerk.lift(place);
    let Ok(()) = asked.put(place, part) else {
        return Err(close_memory(job, worker, clerk));
    };
    Ok(())
}

// Whether what the call makes is an EDT, which has a core.
fn has_core(call: &Call) -> bool
    ensures { result ≡ makes_core call.now }
{
    matches!(call, Call::EdtCreate { .. })
}
