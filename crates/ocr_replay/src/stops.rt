// Whether a run may be stopped so.
ghost use Rattle.std.specs.Prelude.{◌≡◌, ◌&&◌, ◌||◌, ◌==◌, ◌⊎◌, ℕ, List, Option, IfOk};
ghost use Rattle.ocr_machine_history.specs.History.{Setting, History};
ghost use Rattle.ocr_machine_history.specs.declared.entry.Entry.TheVariants as an;
ghost use Rattle.ocr_machine_history.specs.declared.entry.Stop.TheVariants as by;
ghost use Rattle.ocr_machine_history.specs.declared.entry.What.{What};
ghost use Rattle.ocr_body_meaning.specs.declared.call.BodyStop.{BodyStop};
ghost use Rattle.ocr_machine_parts.specs.Legal.{IsLegal, faulted};
ghost use Rattle.ocr_machine_parts.specs.Parts.{parts_of};
ghost use Rattle.ocr_replay_legality.specs.Tests.{Whether};
ghost use Rattle.ocr_replay_legality.specs.Asked.{IsRoom};
ghost use Rattle.ocr_replay.specs.Stops.{IsFront, IsStopping, Creates, RunsWeighed, CouldWeigh, SomeCreates, SomeCould};

use crate::mail_delivery::mail_delivers;
use crate::verdict::{creates_so, stops_so, verdict_of, weighs_so};
use ocr_base::NoMemory;
use ocr_body_meaning::BodyStop;
use ocr_guid::Guid;
use ocr_machine_history::{Fault, Stop};
use ocr_machine_state::State;
use ocr_replay_body::{Mail, Verdict};
use ocr_replay_legality::{can_wake, is_running, room};
use std::alloc::Global;

fn both(one: bool, other: bool) -> bool
    ensures { result ≡ (one && other) }
{
    one && other
}

/// Whether the EDT runs, and its body stops for this.
fn stops(table: &State, verdicts: &[Verdict], edt: Guid, why: BodyStop) -> bool
    ensures { (s : Setting) (past : History) (rows : List (List (Option What)))
        → IsFront s past table.now rows verdicts.now → Whether result (IsStopping s past edt why) }
{
    match verdict_of(verdicts, edt) {
        Some(verdict) => {
            let running = is_running(table, edt);
            let so = stops_so(&verdict.told, why);
            both(running, so)
        }
        None => false,
    }
}

/// Whether the EDT runs, and its body makes an object next and is not refused.
fn creates(table: &State, verdicts: &[Verdict], edt: Guid) -> bool
    ensures { (s : Setting) (past : History) (rows : List (List (Option What)))
        → IsFront s past table.now rows verdicts.now → Whether result (Creates s past edt) }
{
    match verdict_of(verdicts, edt) {
        Some(verdict) => {
            let running = is_running(table, edt);
            let so = creates_so(table, edt, &verdict.told);
            both(running, so)
        }
        None => false,
    }
}

/// Whether the EDT runs, and an entry that its body makes next could come with this weight.
fn runs_weighed(table: &State, room: u64, verdicts: &[Verdict], edt: Guid, weight: u64) -> bool
    ensures { (s : Setting) (past : History) (rows : List (List (Option What)))
        → IsFront s past table.now rows verdicts.now
        → IsRoom s.limit (parts_of s past) room
        → Whether result (RunsWeighed s past edt weight) }
{
    match verdict_of(verdicts, edt) {
        Some(verdict) => {
            let running = is_running(table, edt);
            let so = weighs_so(table, room, edt, &verdict.told, weight);
            both(running, so)
        }
        None => false,
    }
}

/// Whether an entry of the EDT could come with this weight.
fn could(
    alloc: Global,
    table: &State,
    room: u64,
    verdicts: &[Verdict],
    edt: Guid,
    weight: u64,
) -> Result<bool, NoMemory>
    ensures { IfOk result (λ answer. (s : Setting) (past : History)
        (rows : List (List (Option What))) → IsFront s past table.now rows verdicts.now
        → IsRoom s.limit (parts_of s past) room
        → Whether answer (CouldWeigh s past edt weight)) }
{
    let wakes = can_wake(alloc, table, edt)?;
    let one = is_one(weight);
    let goes = both(one, wakes);
    let runs = runs_weighed(table, room, verdicts, edt, weight);
    Ok(either(runs, goes))
}

fn either(one: bool, other: bool) -> bool
    ensures { result ≡ (one || other) }
{
    one || other
}

/// Whether some EDT's body makes an object next and is not refused.
fn some_creates(table: &State, verdicts: &[Verdict]) -> bool
    ensures { (s : Setting) (past : History) (rows : List (List (Option What)))
        → IsFront s past table.now rows verdicts.now → Whether result (SomeCreates s past) }
{
    let mut n = table.limit;
    while n > 0 {
        if creates(table, verdicts, Guid(n)) {
            return true;
        }
        n -= 1;
    }
    creates(table, verdicts, Guid::NULL)
}

/// Whether some entry of an EDT could come with this weight.
fn some_could(
    alloc: Global,
    table: &State,
    room: u64,
    verdicts: &[Verdict],
    weight: u64,
) -> Result<bool, NoMemory>
    ensures { IfOk result (λ answer. (s : Setting) (past : History)
        (rows : List (List (Option What))) → IsFront s past table.now rows verdicts.now
        → IsRoom s.limit (parts_of s past) room
        → Whether answer (SomeCould s past weight)) }
{
    let mut n = table.limit;
    while n > 0 {
        let here = could(alloc, table, room, verdicts, Guid(n), weight)?;
        if here {
            return Ok(true);
        }
        n -= 1;
    }
    let last = could(alloc, table, room, verdicts, Guid::NULL, weight)?;
    Ok(last)
}

fn is_one(weight: u64) -> bool
    ensures { Whether result (weight ≡ 1) }
{
    weight == 1
}

/// Whether the run may be stopped since an entry of this weight would pass a worker's share.
fn weighed(
    alloc: Global,
    table: &State,
    mail: &Mail,
    verdicts: &[Verdict],
    weight: u64,
) -> Result<bool, NoMemory>
    ensures { IfOk result (λ answer. (s : Setting) (past : History)
        → IsFront s past table.now mail.now verdicts.now
        → (worker : ℕ) → Whether answer (IsLegal s past (an.Stop (by.Events worker weight)))) }
{
    let left = room(table);
    let comes = some_could(alloc, table, left, verdicts, weight)?;
    let one = is_one(weight);
    let some = mail_delivers(table, mail);
    let delivers = both(one, some);
    Ok(either(comes, delivers))
}

fn fault_of(fault: Fault) -> BodyStop
    ensures { result ≡ faulted fault }
{
    match fault {
        Fault::ZeroDivisor => BodyStop::ZeroDivisor,
        Fault::BadIndex => BodyStop::BadIndex,
        Fault::NotHeld => BodyStop::NotHeld,
        Fault::NotWritable => BodyStop::NotWritable,
        Fault::Fuel => BodyStop::Fuel,
    }
}

fn may_lack(table: &State, verdicts: &[Verdict]) -> bool
    ensures { (s : Setting) (past : History) (rows : List (List (Option What)))
        → IsFront s past table.now rows verdicts.now
        → Whether result (IsLegal s past (an.Stop by.Objects)) }
{
    some_creates(table, verdicts)
}

fn may_shut_down(table: &State, verdicts: &[Verdict], edt: Guid) -> bool
    ensures { (s : Setting) (past : History) (rows : List (List (Option What)))
        → IsFront s past table.now rows verdicts.now
        → Whether result (IsLegal s past (an.Stop (by.Shutdown edt))) }
{
    stops(table, verdicts, edt, BodyStop::Shutdown)
}

fn may_abort(table: &State, verdicts: &[Verdict], edt: Guid, code: u64) -> bool
    ensures { (s : Setting) (past : History) (rows : List (List (Option What)))
        → IsFront s past table.now rows verdicts.now
        → Whether result (IsLegal s past (an.Stop (by.Abort edt code))) }
{
    stops(table, verdicts, edt, BodyStop::Abort(code))
}

fn may_fault(table: &State, verdicts: &[Verdict], edt: Guid, fault: Fault) -> bool
    ensures { (s : Setting) (past : History) (rows : List (List (Option What)))
        → IsFront s past table.now rows verdicts.now
        → Whether result (IsLegal s past (an.Stop (by.Fault edt fault))) }
{
    let why = fault_of(fault);
    stops(table, verdicts, edt, why)
}

/// Whether the run that has these parts and messages may be stopped so.
pub fn may_stop(
    alloc: Global,
    table: &State,
    mail: &Mail,
    verdicts: &[Verdict],
    stop: Stop,
) -> Result<bool, NoMemory>
    ensures { IfOk result (λ answer. (s : Setting) (past : History)
        → IsFront s past table.now mail.now verdicts.now
        → Whether answer (IsLegal s past (an.Stop stop))) }
{
    match stop {
        Stop::Shutdown { edt } => Ok(may_shut_down(table, verdicts, edt)),
        Stop::Abort { edt, code } => Ok(may_abort(table, verdicts, edt, code)),
        Stop::Fault { edt, fault } => Ok(may_fault(table, verdicts, edt, fault)),
        Stop::Objects => Ok(may_lack(table, verdicts)),
        Stop::Events { worker: _, weight } => weighed(alloc, table, mail, verdicts, weight),
        Stop::Memory => Ok(true),
    }
}
