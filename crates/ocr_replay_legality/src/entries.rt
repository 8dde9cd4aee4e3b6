// Whether an entry may come.
ghost use Rattle.std.specs.Prelude.{◌≡◌, ◌&&◌, ℕ, List, [], true, false, not, is_some, IfOk};
ghost use Rattle.ocr_edt.specs.Phases.{least_of};
ghost use Rattle.ocr_machine_history.specs.History.{Setting, History};
ghost use Rattle.ocr_machine_history.specs.declared.entry.Entry.TheVariants as an;
ghost use Rattle.ocr_machine_history.specs.declared.entry.What.TheVariants as what;
ghost use Rattle.ocr_machine_parts.specs.Kinds.{is_running, work_of, holds_of};
ghost use Rattle.ocr_machine_parts.specs.Legal.{IsRun};
ghost use Rattle.ocr_machine_parts.specs.LegalOn.{IsDeliverOn};
ghost use Rattle.ocr_machine_state.specs.State.{state_in, face_on, core_on, IsStateOf};
ghost use Rattle.ocr_machine_laws.specs.Waits.{is_gone_on};
ghost use Rattle.ocr_replay_legality.specs.Tests.{Whether, MayEnter, MayGoOn, IsDeliverable, is_going, is_this};

use crate::calls::is_call_so;
use crate::next::{both, gone_next, opens_next, shuts_there, starts_there};
use crate::tests_of::{begins, is_gone, is_open, is_running, least_held};
use ocr_acquire::Mode;
use ocr_base::NoMemory;
use ocr_body_meaning::{Answer, Call};
use ocr_guid::{Code, Guid};
use ocr_machine_history::{Entry, Message, What};
use ocr_machine_state::State;
use std::alloc::Global;

fn may_acquire(alloc: Global, table: &State, edt: Guid, block: Guid) -> Result<bool, NoMemory>
    ensures { IfOk result (λ answer. (s : Setting) (past : History) → IsStateOf s past table.now
        → IsRun s past → Whether answer (MayEnter s past (an.Acquire edt block))) }
{
    let next = table.next(alloc, edt)?;
    let full = table.is_full(edt);
    let here = opens_next(table, next, edt, block);
    Ok(both(full, here))
}

fn may_wait(alloc: Global, table: &State, edt: Guid, block: Guid) -> Result<bool, NoMemory>
    ensures { IfOk result (λ answer. (s : Setting) (past : History) → IsStateOf s past table.now
        → IsRun s past → Whether answer (MayEnter s past (an.Wait edt block))) }
{
    let next = table.next(alloc, edt)?;
    let full = table.is_full(edt);
    let here = shuts_there(table, next, edt, block);
    Ok(both(full, here))
}

fn may_find_gone(alloc: Global, table: &State, edt: Guid, block: Guid) -> Result<bool, NoMemory>
    ensures { IfOk result (λ answer. (s : Setting) (past : History) → IsStateOf s past table.now
        → IsRun s past → Whether answer (MayEnter s past (an.StaleAcquire edt block))) }
{
    let next = table.next(alloc, edt)?;
    let full = table.is_full(edt);
    let here = gone_next(table, next, block);
    Ok(both(full, here))
}

fn may_start(alloc: Global, table: &State, edt: Guid) -> Result<bool, NoMemory>
    ensures { IfOk result (λ answer. (s : Setting) (past : History) → IsStateOf s past table.now
        → IsRun s past → Whether answer (MayEnter s past (an.Start edt))) }
{
    let next = table.next(alloc, edt)?;
    let full = table.is_full(edt);
    let here = starts_there(table, next, edt);
    Ok(both(full, here))
}

fn is_this(least: Option<Guid>, block: Guid) -> bool
    ensures { result ≡ is_this least block }
{
    match least {
        Some(named) => named == block,
        None => false,
    }
}

fn may_free(table: &State, edt: Guid, block: Guid) -> bool
    ensures { (s : Setting) (past : History) → IsStateOf s past table.now → IsRun s past
        → (writes : List (ℕ × ℕ)) → Whether result (MayEnter s past (an.Free edt block writes)) }
{
    let running = is_running(table, edt);
    let here = is_this(least_held(table, edt), block);
    both(running, here)
}

fn is_nothing(least: Option<Guid>) -> bool
    ensures { result ≡ not (is_some least) }
{
    least.is_none()
}

fn may_end(table: &State, edt: Guid) -> bool
    ensures { (s : Setting) (past : History) → IsStateOf s past table.now → IsRun s past
        → (g : ℕ) → Whether result (MayEnter s past (an.End edt g)) }
{
    let running = is_running(table, edt);
    let here = is_nothing(least_held(table, edt));
    both(running, here)
}

/// Whether the event has this slot, and answers the payload so.
fn may_satisfy(table: &State, event: Guid, slot: u32, payload: Guid, said: Code) -> bool
    ensures { Whether result (IsDeliverOn (state_in table.now) (what.Satisfy event slot payload)
        said) }
{
    table.is_satisfiable(event, slot) && said == table.delivery_code(event, payload)
}

fn may_deliver(table: &State, message: &Message, said: Code) -> bool
    ensures { Whether result (IsDeliverOn (state_in table.now) message.now.what said) }
{
    match message.what {
        What::Set { .. } => said == Code::Done,
        What::Satisfy {
            event,
            slot,
            payload,
        } => may_satisfy(table, event, slot, payload, said),
        What::Leave { scope } => table.has_member(scope) && said == Code::Done,
    }
}

/// Whether the message may be delivered now, however it is answered.
pub fn can_deliver(table: &State, message: What) -> bool
    ensures { Whether result (IsDeliverable (state_in table.now) message) }
{
    match message {
        What::Set { .. } => true,
        What::Satisfy {
            event,
            slot,
            payload: _,
        } => table.is_satisfiable(event, slot),
        What::Leave { scope } => table.has_member(scope),
    }
}

fn may_call(table: &State, edt: Guid, home: Guid, call: &Call, answer: &Answer) -> bool
    ensures { (s : Setting) (past : History) → IsStateOf s past table.now → IsRun s past
        → (writes : List (ℕ × ℕ))
        → Whether result (MayEnter s past (an.Call edt home call.now answer.now writes)) }
{
    is_call_so(table, edt, home, call, answer)
}

/// Whether the entry may come after the run of this table, by the parts and by the facts.
pub fn is_legal(alloc: Global, table: &State, entry: &Entry) -> Result<bool, NoMemory>
    ensures { IfOk result (λ answer. (s : Setting) (past : History) → IsStateOf s past table.now
        → IsRun s past → Whether answer (MayEnter s past entry.now)) }
{
    match entry {
        Entry::Call {
            edt,
            home,
            call,
            answer,
            writes: _,
        } => Ok(may_call(table, *edt, *home, call, answer)),
        Entry::Deliver { message, code } => Ok(may_deliver(table, message, *code)),
        Entry::Acquire { edt, block } => may_acquire(alloc, table, *edt, *block),
        Entry::Wait { edt, block } => may_wait(alloc, table, *edt, *block),
        Entry::StaleAcquire { edt, block } => may_find_gone(alloc, table, *edt, *block),
        Entry::Start { edt } => may_start(alloc, table, *edt),
        Entry::Free {
            edt,
            block,
            writes: _,
        } => Ok(may_free(table, *edt, *block)),
        Entry::End { edt, returned: _ } => Ok(may_end(table, *edt)),
        Entry::Stop(_) => Ok(true),
    }
}

/// Whether the EDT starts, acquires the next block or finds it gone, or waits for it.
fn goes_on(table: &State, next: Option<(Guid, Mode)>, edt: Guid) -> bool
    ensures { result ≡ is_going (face_on table.now) (core_on table.now edt) edt next }
{
    match next {
        Some((block, mode)) => {
            is_open(table, edt, block.0, mode) || is_gone(table, block.0) || begins(table, edt)
        }
        None => begins(table, edt),
    }
}

/// Whether some entry may come by which the EDT goes on to its start.
pub fn can_wake(alloc: Global, table: &State, edt: Guid) -> Result<bool, NoMemory>
    ensures { IfOk result (λ answer. (s : Setting) (past : History) → IsStateOf s past table.now
        → IsRun s past → Whether answer (MayGoOn s past edt)) }
{
    let next = table.next(alloc, edt)?;
    let full = table.is_full(edt);
    let here = goes_on(table, next, edt);
    Ok(both(full, here))
}
