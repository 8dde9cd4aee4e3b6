// Whether a call is answered so.
ghost use Rattle.std.specs.Prelude.{◌≡◌, ℕ, [], true, false};
ghost use Rattle.ocr_body_meaning.specs.Holds.{is_done};
ghost use Rattle.ocr_machine_parts.specs.Kinds.{IsBlock, mode_on};
ghost use Rattle.ocr_machine_parts.specs.LegalOn.{IsNamed, IsFresh, IsShared, IsLoaded, IsBeside, IsScoped, HasOutput, IsAtHome, IsHome, last_of};
ghost use Rattle.ocr_machine_parts.specs.declared.part.Part.TheVariants as part;
ghost use Rattle.ocr_machine_state.specs.State.{state_in, face_on, core_on};
ghost use Rattle.ocr_replay_legality.specs.Tests.{Whether};
ghost use Rattle.ocr_machine_laws.specs.Answered.{AnswersSo, IsCallSo};

use crate::tests_of::{has_no_core, has_no_face, is_running, mode_at};
use ocr_acquire::Mode;
use ocr_body_meaning::{Answer, Call};
use ocr_guid::{Code, Guid};
use ocr_machine_parts::Part;
use ocr_machine_state::State;

/// Whether the number is one that nothing has yet.
pub(crate) fn is_fresh(table: &State, number: u64) -> bool
    ensures { Whether result (IsFresh table.now.limit (state_in table.now) number) }
{
    1 <= number && number <= table.limit && has_no_face(table, number)
}

fn is_named(table: &State, answer: &Answer) -> bool
    ensures { Whether result (IsNamed table.now.limit (state_in table.now) answer.now) }
{
    if answer.code == Code::Done {
        is_fresh(table, answer.value)
    } else {
        answer.value == 0
    }
}

fn has_new_core(table: &State, answer: &Answer) -> bool
    ensures { Whether result (is_done answer.now.code ≡ true
        → core_on table.now answer.now.value ≡ part.Vacant) }
{
    answer.code != Code::Done || has_no_core(table, Guid(answer.value))
}

fn same_mode(one: Option<Mode>, other: Option<Mode>) -> bool
    ensures { Whether result (one ≡ other) }
{
    one == other
}

/// Whether a word of the block is there, and held in the same mode by the core and by the block.
pub(crate) fn is_shared(table: &State, edt: Guid, block: u64, word: u64) -> bool
    ensures { Whether result (IsBlock (face_on table.now block)
        (IsShared edt word (mode_on (core_on table.now edt) block))) }
{
    let mode = mode_at(table, edt, block);
    let Some(Part::Block(state)) = table.face(block) else {
        return false;
    };
    let state = state.get();
    word < u64::from(state.words())
        && same_mode(mode, state.mode_of(edt))
        && state.borrower().is_none()
}

/// And whether it has this value.
fn is_loaded(table: &State, edt: Guid, block: u64, word: u64, value: u64) -> bool
    ensures { Whether result (IsBlock (face_on table.now block)
        (IsLoaded edt word (mode_on (core_on table.now edt) block) value)) }
{
    let mode = mode_at(table, edt, block);
    let Some(Part::Block(state)) = table.face(block) else {
        return false;
    };
    let state = state.get();
    word < u64::from(state.words())
        && same_mode(mode, state.mode_of(edt))
        && state.borrower().is_none()
        && state.load(word as u32) == value
}

/// Whether the call is answered so, but for the hold that it ends.
fn answers(table: &State, edt: Guid, call: &Call, answer: &Answer) -> bool
    ensures { Whether result (AnswersSo table.now.limit
        (state_in table.now) edt call.now answer.now) }
{
    match call {
        Call::Print { value: _ } => answer.value == 0,
        Call::Load { block, word } => is_loaded(table, edt, *block, *word, answer.value),
        Call::Store {
            block,
            word,
            value: _,
        } => is_shared(table, edt, *block, *word) && answer.value == 0,
        Call::TemplateCreate { .. } => is_named(table, answer),
        Call::DbCreate { .. } => is_named(table, answer),
        Call::EdtCreate { .. } => is_named(table, answer) && has_new_core(table, answer),
        Call::DbRelease { .. } => answer.value == answer.code.number(),
        Call::DbDestroy { .. } => answer.value == answer.code.number(),
        Call::TemplateDestroy { .. } => answer.value == answer.code.number(),
        Call::AddDependence { .. } => answer.value == answer.code.number(),
        Call::EventCreate { .. } => is_named(table, answer),
        Call::EventCreateParams { .. } => is_named(table, answer),
        Call::EventDestroy { .. } => answer.value == answer.code.number(),
        Call::Satisfy { .. } => answer.value == answer.code.number(),
        Call::Shutdown => false,
        Call::Abort { .. } => false,
    }
}

/// Whether an object is made beside another, where one is to be: at a fresh number above it.
fn is_beside(table: &State, on: bool, other: u64, number: u64) -> bool
    ensures { Whether result (IsBeside on table.now.limit (state_in table.now) other number) }
{
    if on {
        is_fresh(table, number) && other < number
    } else {
        number == 0
    }
}

/// Whether a finish EDT that is made has its scope, and no other.
fn is_scoped(table: &State, call: &Call, answer: &Answer) -> bool
    ensures { Whether result (IsScoped table.now.limit (state_in table.now) call.now answer.now) }
{
    match call {
        Call::EdtCreate {
            template: _,
            paramc: _,
            params: _,
            depc: _,
            deps: _,
            flags,
            output: _,
        } => {
            let on = answer.code == Code::Done && *flags == 1;
            is_beside(table, on, answer.value, answer.scope.0)
        }
        _ => answer.scope == Guid::NULL,
    }
}

fn last_of(answer: &Answer) -> u64
    ensures { result ≡ last_of answer.now }
{
    if answer.scope == Guid::NULL {
        answer.value
    } else {
        answer.scope.0
    }
}

/// Whether an EDT that is made has its output event, where one was asked for.
fn has_output(table: &State, call: &Call, answer: &Answer) -> bool
    ensures { Whether result (HasOutput table.now.limit (state_in table.now) call.now answer.now) }
{
    match call {
        Call::EdtCreate {
            template: _,
            paramc: _,
            params: _,
            depc: _,
            deps: _,
            flags: _,
            output,
        } => {
            let on = answer.code == Code::Done && *output;
            is_beside(table, on, last_of(answer), answer.output.0)
        }
        _ => answer.output == Guid::NULL,
    }
}

/// Whether this is the home of the EDT, and one that is made can join it.
pub(crate) fn is_at_home(table: &State, edt: Guid, home: Guid, done: bool) -> bool
    ensures { Whether result (IsAtHome (state_in table.now) edt home done) }
{
    home == table.home(edt) && (!done || home == Guid::NULL || table.is_joinable(home))
}

fn is_home(table: &State, edt: Guid, home: Guid, call: &Call, answer: &Answer) -> bool
    ensures { Whether result (IsHome (state_in table.now) edt home call.now answer.now) }
{
    match call {
        Call::EdtCreate { .. } => is_at_home(table, edt, home, answer.code == Code::Done),
        _ => home == Guid::NULL,
    }
}

/// Whether the EDT may make the call, and it is answered so, but for the hold that it ends.
pub(crate) fn is_call_so(table: &State, edt: Guid, home: Guid, call: &Call, answer: &Answer) -> bool
    ensures { Whether result (IsCallSo table.now.limit
        (state_in table.now) edt home call.now answer.now) }
{
    is_running(table, edt)
        && answer.code == table.decide(edt, call)
        && answers(table, edt, call, answer)
        && is_scoped(table, call, answer)
        && has_output(table, call, answer)
        && is_home(table, edt, home, call, answer)
}
