// What a call that comes next weighs.
ghost use Rattle.std.specs.Prelude.{◌≡◌, ◌≤◌, ◌+◌, ℕ, [], true, false};
ghost use Rattle.ocr_machine_history.specs.History.{Setting, History};
ghost use Rattle.ocr_body_meaning.specs.Holds.{is_done};
ghost use Rattle.ocr_machine_parts.specs.Kinds.{is_running, home_on};
ghost use Rattle.ocr_machine_parts.specs.Codes.{code_of};
ghost use Rattle.ocr_machine_parts.specs.LegalOn.{IsAtHome};
ghost use Rattle.ocr_machine_parts.specs.Legal.{IsRun};
ghost use Rattle.ocr_machine_parts.specs.Parts.{parts_of};
ghost use Rattle.ocr_machine_state.specs.State.{state_in, face_on, core_on, IsStateOf};
ghost use Rattle.ocr_replay_legality.specs.Tests.{Whether};
ghost use Rattle.ocr_replay_legality.specs.Asked.{IsRoom, IsRoomy, HasAnswer, CanWeigh, weighs, weighs_by, edt_numbers};

use crate::calls::{is_at_home, is_fresh, is_shared};
use crate::next::both;
use crate::tests_of::is_running;
use ocr_body_meaning::Call;
use ocr_guid::{Code, Guid};
use ocr_machine_state::State;

fn count_fresh(table: &State) -> u64
    ensures { IsRoom table.now.limit (state_in table.now) result }
{
    let mut room = 0;
    let mut n = table.limit;
    while n > 0 {
        if is_fresh(table, n) {
            room += 1;
        }
        n -= 1;
    }
    room
}

/// How many numbers are left for objects that are made.
pub fn room(table: &State) -> u64
    ensures { (s : Setting) (past : History) → IsStateOf s past table.now
        → IsRoom s.limit (parts_of s past) result }
{
    count_fresh(table)
}

/// How many numbers an EDT takes, with its scope and its output event.
fn edt_numbers(flags: u64, output: bool) -> u64
    ensures { result ≡ edt_numbers flags output }
{
    let mut count = 1;
    if flags == 1 {
        count += 1;
    }
    if output {
        count += 1;
    }
    count
}

/// Whether an EDT can be made: numbers are left, and it can join its home.
fn may_make(table: &State, room: u64, edt: Guid, count: u64, done: bool) -> bool
    ensures { Whether result (IsRoomy room count done
        × IsAtHome (state_in table.now) edt (home_on (core_on table.now edt)) done) }
{
    (!done || count <= room) && is_at_home(table, edt, table.home(edt), done)
}

fn has_answer(table: &State, room: u64, edt: Guid, call: &Call, done: bool) -> bool
    ensures { Whether result (HasAnswer (state_in table.now) room edt call.now done) }
{
    match call {
        Call::Print { value: _ } => true,
        Call::Load { block, word } => is_shared(table, edt, *block, *word),
        Call::Store {
            block,
            word,
            value: _,
        } => is_shared(table, edt, *block, *word),
        Call::TemplateCreate { .. } => !done || room >= 1,
        Call::DbCreate { .. } => !done || room >= 1,
        Call::EdtCreate {
            template: _,
            paramc: _,
            params: _,
            depc: _,
            deps: _,
            flags,
            output,
        } => may_make(table, room, edt, edt_numbers(*flags, *output), done),
        Call::DbRelease { .. } => true,
        Call::DbDestroy { .. } => true,
        Call::TemplateDestroy { .. } => true,
        Call::AddDependence { .. } => true,
        Call::EventCreate { .. } => !done || room >= 1,
        Call::EventCreateParams { .. } => !done || room >= 1,
        Call::EventDestroy { .. } => true,
        Call::Satisfy { .. } => true,
        Call::Shutdown => false,
        Call::Abort { .. } => false,
    }
}

fn may_ask(table: &State, room: u64, edt: Guid, call: &Call, done: bool) -> bool
    ensures { Whether result ((is_running (core_on table.now edt) ≡ true)
        × HasAnswer (state_in table.now) room edt call.now done) }
{
    is_running(table, edt) && has_answer(table, room, edt, call, done)
}

fn accepts(table: &State, edt: Guid, call: &Call) -> bool
    ensures { result ≡ is_done (code_of edt (face_on table.now) call.now) }
{
    table.decide(edt, call) == Code::Done
}

fn weighs_by(call: &Call, done: bool) -> u64
    ensures weight { result ≡ weighs_by call.now done }
    ensures small { result ≤ 1 + 144115188075855872 }
{
    if let Call::DbCreate { length, flags: _ } = call {
        if done {
            return 1 + *length / 8 / 16;
        }
    }
    1
}

fn weighs_so(call: &Call, done: bool, count: usize, weight: u64) -> bool
    ensures { Whether result (weighs call.now done count ≡ weight) }
{
    let base = weighs_by(call, done);
    if done {
        base <= weight && weight - base == count as u64
    } else {
        base == weight
    }
}

/// Whether the EDT runs and some answer lets the call be entered with this weight. The room tells
/// how many numbers are left for objects; a call that is accepted may end a hold of so many
/// private writes.
pub fn can_weigh(
    table: &State,
    room: u64,
    edt: Guid,
    call: &Call,
    count: usize,
    weight: u64,
) -> bool
    ensures { (s : Setting) (past : History) → IsStateOf s past table.now → IsRun s past
        → IsRoom s.limit (parts_of s past) room
        → Whether result (CanWeigh s.limit (parts_of s past) edt call.now count weight) }
{
    let done = accepts(table, edt, call);
    let may = may_ask(table, room, edt, call, done);
    let so = weighs_so(call, done, count, weight);
    both(may, so)
}
