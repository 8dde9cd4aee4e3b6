// How a pool and its hands are made.
ghost use Rattle.std.specs.Prelude.{◌≡◌, ℕ, ◌+◌, ◌<◌, ◌≤◌, IfOk, OnOk, All, vec_len};
ghost use Rattle.ocr_steal.specs.Deque.{all_parts};
ghost use Rattle.ocr_steal.specs.Parts.{AreFirstInFirstOut, IsNewOwner, IsNewPass, IsNewRow, deques_of_owners, deques_of_passes, deques_of_stealers};
ghost use Rattle.ocr_steal.specs.Pool.{deques_in, hands_in, AreFresh};

use crate::account::{Known, OnePart, Own, Theirs};
use crate::bell::Bell;
use crate::hand::Hand;
use crate::pool::Pool;
use ocr_base::NoMemory;
use std::alloc::Global;

impl Pool {
    /// A pool and its hands, as many as are asked for, by their numbers. Each has a deque with room
    /// for so many EDTs.
    pub fn new(alloc: Global, hands: u32, room: u32) -> Result<(Pool, Vec<Hand>), NoMemory>
        ensures pool { IfOk result (λ made. hands_in made.0 ≡ hands) }
        ensures many { IfOk result (λ made. vec_len made.1 ≡ hands) }
        ensures hands { IfOk result (λ made. AreFresh (deques_in made.0) room made.1.items) }
    {
        let (mut owners, stealers) = deques(alloc, hands, room)?;
        let rows = rows_of(alloc, &mut owners)?;
        let hands = hands_of(alloc, owners, rows)?;
        let bell = Bell::new();
        Ok((Pool { stealers, bell }, hands))
    }

    /// How many hands the pool was made for.
    pub fn hands(&self) -> u32
        ensures { result ≡ hands_in self.now }
    {
        self.stealers.len() as u32
    }
}

/// So many new deques.
fn deques(alloc: Global, count: u32, room: u32) -> Result<(Vec<Own>, Vec<Theirs>), NoMemory>
    ensures many { IfOk result (λ made. vec_len made.0 ≡ count) }
    ensures owners { IfOk result (λ made. All (IsNewOwner 0 room) made.0.items) }
    ensures same { IfOk result
        (λ made. deques_of_stealers made.1.items ≡ deques_of_owners made.0.items) }
    ensures order { IfOk result (λ made. AreFirstInFirstOut made.1.items) }
{
    let mut owners = Vec::new(alloc);
    let mut stealers = Vec::new(alloc);
    for _ in 0..count {
        let own = Own::fifo_as(alloc, room as usize)?;
        stealers.push(own.stealer()?)?;
        owners.push(own)?;
    }
    Ok((owners, stealers))
}

/// A pass of each deque.
fn row_of(alloc: Global, owners: &mut Vec<Own>) -> Result<Vec<Known>, NoMemory>
    requires { (made least : ℕ) × (made + 1 < all_parts)
        × All (IsNewOwner made least) owners.old.items }
    ensures owners { OnOk result ((made least : ℕ) → All (IsNewOwner made least) owners.old.items
        → All (IsNewOwner (made + 1) least) owners.new.items) }
    ensures kept { vec_len owners.new ≡ vec_len owners.old }
    ensures same { OnOk result
        (deques_of_owners owners.new.items ≡ deques_of_owners owners.old.items) }
    ensures row { IfOk result (λ row. IsNewRow (deques_of_owners owners.old.items) row.items) }
{
    let mut row = Vec::new(alloc);
    for index in 0..owners.len() {
        row.push(owners[index].another::<OnePart>())?;
    }
    Ok(row)
}

/// A pass of each deque for each hand.
fn rows_of(alloc: Global, owners: &mut Vec<Own>) -> Result<Vec<Vec<Known>>, NoMemory>
    requires { (vec_len owners.old < all_parts) × All (IsNewOwner 0 0) owners.old.items }
    ensures owners { OnOk result ((least : ℕ) → All (IsNewOwner 0 least) owners.old.items
        → All (IsNewOwner (vec_len owners.old) least) owners.new.items) }
    ensures kept { vec_len owners.new ≡ vec_len owners.old }
    ensures same { OnOk result
        (deques_of_owners owners.new.items ≡ deques_of_owners owners.old.items) }
    ensures many { IfOk result (λ rows. vec_len rows ≡ vec_len owners.old) }
    ensures rows { IfOk result
        (λ rows. All (λ row. IsNewRow (deques_of_owners owners.old.items) row.items) rows.items) }
{
    let mut rows = Vec::new(alloc);
    for _ in 0..owners.len() {
        rows.push(row_of(alloc, owners)?)?;
    }
    Ok(rows)
}

/// A hand for each deque.
fn hands_of(
    alloc: Global,
    mut owners: Vec<Own>,
    mut rows: Vec<Vec<Known>>,
) -> Result<Vec<Hand>, NoMemory>
    requires many { (vec_len rows ≡ vec_len owners) × (vec_len owners < all_parts) }
    requires rows { All (λ row. IsNewRow (deques_of_owners owners.items) row.items) rows.items }
    requires owners { All (IsNewOwner (vec_len owners) 0) owners.items }
    ensures many { IfOk result (λ hands. vec_len hands ≡ vec_len owners) }
    ensures hands { IfOk result (λ hands. (least : ℕ)
        → All (IsNewOwner (vec_len owners) least) owners.items
        → AreFresh (deques_of_owners owners.items) least hands.items) }
{
    let mut hands = Vec::new(alloc);
    while let Some(own) = owners.pop() {
        let Some(passes) = rows.pop() else {
            unreachable!()
        };
        let misses = vec![in alloc; 0; passes.len()]?;
        hands.push(Hand {
            number: owners.len() as u32,
            own,
            passes,
            misses,
            has_missed: false,
        })?;
    }
    hands.reverse();
    Ok(hands)
}
