// What is told of one EDT.
ghost use Rattle.std.specs.Prelude.{◌≡◌, ◌≤◌, ◌+◌, ℕ, List, length, slice_index_or, drop, IfSome, IfNone};
ghost use Rattle.ocr_edt.specs.Phases.{least_of};
ghost use Rattle.ocr_machine_history.specs.History.{Setting, History};
ghost use Rattle.ocr_machine_parts.specs.Kinds.{work_of, holds_of};
ghost use Rattle.ocr_machine_parts.specs.Legal.{IsRun};
ghost use Rattle.ocr_machine_parts.specs.Parts.{parts_of};
ghost use Rattle.ocr_machine_state.specs.State.{face_on, core_on, IsStateOf};
ghost use Rattle.ocr_replay_legality.specs.Tests.{Whether};
ghost use Rattle.ocr_replay_legality.specs.Asked.{IsRoom};
ghost use Rattle.ocr_replay_body.specs.Holds.{count_in};
ghost use Rattle.ocr_replay_body.specs.declared.judge.Told.TheVariants as told;
ghost use Rattle.ocr_replay.specs.Stops.{CreatesBy, WeighsBy, count_of};

use ocr_body_meaning::BodyStop;
use ocr_guid::{Code, Guid};
use ocr_machine_state::State;
use ocr_replay_body::{Told, Verdict};
use ocr_replay_legality::{can_weigh, least_held};

/// The verdict on the EDT; None where there is none.
pub(crate) fn verdict_of(verdicts: &[Verdict], edt: Guid) -> Option<&Verdict>
    ensures some { IfSome result (λ v. v.now ≡ slice_index_or verdicts.now edt v.now) }
    ensures none { IfNone result (length verdicts.now ≤ edt) }
{
    if edt.0 >= verdicts.len() as u64 {
        return None;
    }
    Some(&verdicts[edt.0 as usize])
}

fn is_same(left: BodyStop, right: BodyStop) -> bool
    ensures { Whether result (left ≡ right) }
{
    left == right
}

/// Whether the body stops for this.
pub(crate) fn stops_so(said: &Told, why: BodyStop) -> bool
    ensures { Whether result (said.now ≡ told.Stopped why) }
{
    match said {
        Told::Stopped(other) => is_same(*other, why),
        Told::Asks(_, _) => false,
        Told::Ended(_) => false,
    }
}

/// Whether the body makes an object next, and is not refused.
pub(crate) fn creates_so(table: &State, edt: Guid, said: &Told) -> bool
    ensures { Whether result (CreatesBy (face_on table.now) edt said.now) }
{
    match said {
        Told::Asks(call, _) => call.is_creation() && table.decide(edt, call) == Code::Done,
        Told::Stopped(_) => false,
        Told::Ended(_) => false,
    }
}

/// How many private writes the hold of this block has.
fn count_in(counts: &[(Guid, usize)], block: Guid) -> usize
    ensures { result ≡ count_in counts.now block }
{
    let mut count = 0;
    let mut k = counts.len();
    while k > 0 {
        k -= 1;
        if counts[k].0 == block {
            count = counts[k].1;
        }
    }
    count
}

fn count_of(least: Option<Guid>, counts: &[(Guid, usize)]) -> usize
    ensures { result ≡ count_of least counts.now }
{
    match least {
        Some(block) => count_in(counts, block),
        None => 0,
    }
}

fn is_one_more(weight: u64, count: usize) -> bool
    ensures { Whether result (weight ≡ 1 + count) }
{
    1 <= weight && weight - 1 == count as u64
}

/// Whether the end that the body has come to weighs so.
fn ends_so(table: &State, edt: Guid, counts: &[(Guid, usize)], weight: u64) -> bool
    ensures { Whether result (weight ≡ 1 + count_of
        (least_of (holds_of (work_of (core_on table.now edt)))) counts.now) }
{
    is_one_more(weight, count_of(least_held(table, edt), counts))
}

/// Whether an entry that the body makes next could come with this weight.
pub(crate) fn weighs_so(table: &State, room: u64, edt: Guid, said: &Told, weight: u64) -> bool
    ensures { (s : Setting) (past : History) → IsStateOf s past table.now → IsRun s past
        → IsRoom s.limit (parts_of s past) room
        → Whether result (WeighsBy s.limit (parts_of s past) edt said.now weight) }
{
    match said {
        Told::Ended(counts) => ends_so(table, edt, counts.as_slice(), weight),
        Told::Asks(call, count) => can_weigh(table, room, edt, call, *count, weight),
        Told::Stopped(_) => false,
    }
}
