// What is left in the deques at the end.
ghost use Rattle.std.specs.Prelude.{◌≡◌, ◌≢◌, ℕ, ◌+◌, ◌<◌, List, IfOk, OnOk, All, vec_len, slice_set};
ghost use Rattle.std.specs.List.{slice_index_or, sum_by};
ghost use mathlib.Core.Option.{some};
ghost use lib.ListN.{get_elem?};
ghost use Rattle.crossbeam_deque.specs.Handles.{stealer_deque, worker_deque, worker_flavor, worker_port, worker_view};
ghost use Rattle.ocr_steal.specs.Hand.{got_weight, pool_of, pushed_weight};
ghost use Rattle.ocr_steal.specs.Parts.{Name};
ghost use Rattle.ocr_steal.specs.Pool.{AreAll};
ghost use Rattle.ocr_steal.specs.Rest.{count_if, taken_weight, rows_weight, owners_pushed, owners_took, Column, HasPart, HasNothing, IsLone, IsPlaced, IsRow, IsFullRow};

use crate::account::{Known, Own, Takes, Theirs, Together};
use crate::hand::Hand;
use crate::pool::Pool;
use ocr_base::NoMemory;
use ocr_guid::Guid;
use std::alloc::Global;
use std::mem;

/// What is left in the deques of all hands: what they took, what they stole and what is left is
/// what they pushed, each EDT as often.
pub fn gather(alloc: Global, pool: Pool, hands: Vec<Hand>) -> Result<Vec<Guid>, NoMemory>
    requires { AreAll pool hands.items }
    ensures { IfOk result (λ left. (f : ℕ → ℕ)
        → sum_by f left.items + sum_by (got_weight f) hands.items
        ≡ sum_by (pushed_weight f) hands.items) }
{
    let (mut owners, mut rows) = split(alloc, hands)?;
    let mut left = Vec::new(alloc);
    while let Some((number, own)) = owners.pop() {
        let own = call_in(
            &pool.stealers[number as usize],
            own,
            &mut rows,
            number as usize,
        );
        drain(own, &mut left)?;
    }
    Ok(left)
}

/// The owners, each with its number, and the passes of each hand.
fn split(
    alloc: Global,
    mut hands: Vec<Hand>,
) -> Result<(Vec<(u32, Own)>, Vec<Vec<Known>>), NoMemory>
    ensures many { IfOk result (λ parts. vec_len parts.1 ≡ vec_len hands) }
    ensures counted { IfOk result (λ parts. (k : ℕ)
        → sum_by (λ o. count_if k o.0) parts.0.items
        ≡ sum_by (λ h. count_if k h.number) hands.items) }
    ensures pushed { IfOk result (λ parts. (f : ℕ → ℕ)
        → owners_pushed f parts.0.items ≡ sum_by (pushed_weight f) hands.items) }
    ensures got { IfOk result (λ parts. (f : ℕ → ℕ)
        → owners_took f parts.0.items + rows_weight f parts.1.items
        ≡ sum_by (got_weight f) hands.items) }
    ensures placed { IfOk result (λ parts. (names : List Name)
        → All (λ h. pool_of h ≡ names) hands.items → All (IsPlaced names) parts.0.items
        × All (λ row. IsFullRow names row.items) parts.1.items) }
{
    let mut owners = Vec::new(alloc);
    let mut rows = Vec::new(alloc);
    while let Some(hand) = hands.pop() {
        owners.push((hand.number, hand.own))?;
        rows.push(hand.passes)?;
    }
    Ok((owners, rows))
}

/// Gives the owner what all hands know of its deque, which has this number.
fn call_in(stealer: &Theirs, mut own: Own, rows: &mut Vec<Vec<Known>>, number: usize) -> Own
    requires own { (stealer_deque stealer.now ≡ worker_deque own) × (worker_port own ≡ 0) }
    requires rows { (names : List Name) × (get_elem? names number ≡ some (worker_deque own))
        × All (λ row. IsRow names row.items) rows.old.items }
    ensures own { (worker_deque result ≡ worker_deque own) × (worker_port result ≡ 0)
        × (worker_flavor result ≡ worker_flavor own) }
    ensures pushed { (worker_view result).pushed ≡ (worker_view own).pushed }
    ensures parts { Column HasPart number rows.old.items
        → (worker_view result).parts ≡ (worker_view own).parts + vec_len rows.old }
    ensures weights { (f : ℕ → ℕ)
        → taken_weight f (worker_view result) + rows_weight f rows.new.items
        ≡ taken_weight f (worker_view own) + rows_weight f rows.old.items }
    ensures rows { (vec_len rows.new ≡ vec_len rows.old) × ((names : List Name)
        → All (λ row. IsRow names row.items) rows.old.items
        → All (λ row. IsRow names row.items) rows.new.items) }
    ensures column { Column HasNothing number rows.new.items }
    ensures others { (k : ℕ) → k ≢ number
        → (Column HasPart k rows.old.items → Column HasPart k rows.new.items)
        × (Column HasNothing k rows.old.items → Column HasNothing k rows.new.items) }
{
    for index in 0..rows.len() {
        let pass = exchange(&mut rows[index], number, stealer.pass());
        own.absorb::<Together>(pass);
    }
    own
}

/// Puts another pass in the place of the one that is returned.
fn exchange(row: &mut Vec<Known>, number: usize, other: Known) -> Known
    requires { number < vec_len row.old }
    ensures row { row.new.items ≡ slice_set row.old.items number other }
    ensures pass { result ≡ slice_index_or row.old.items number result }
{
    mem::replace(&mut row[number], other)
}

/// Takes what is left in a deque of which nobody else knows.
fn drain(mut own: Own, left: &mut Vec<Guid>) -> Result<(), NoMemory>
    requires { IsLone own }
    ensures { OnOk result ((f : ℕ → ℕ)
        → sum_by f left.new.items + taken_weight f (worker_view own)
        ≡ sum_by f left.old.items + sum_by f (worker_view own).pushed) }
{
    while let Some(edt) = own.pop_as::<Takes>() {
        left.push(edt)?;
    }
    Ok(())
}
