// Sets of places, each with all places that come before them.
ghost use Rattle.std.specs.Prelude.{◌≡◌, ◌≤◌, ◌<◌, ◌+◌, ◌^◌, ◌||◌, ◌==◌, ◌/◌, ℕ, List, [], ◌∷◌, ◌++◌, length, OnOk, IfSome, IfNone, if◌then◌else◌};
ghost use Rattle.ocr_memory_model_rows.specs.Rows.{has};
ghost use Rattle.ocr_memory_model_rows.specs.Places.{Graph};
ghost use Rattle.ocr_memory_model_rows.specs.Bundles.{row_in};

use crate::row::Row;
use ocr_base::NoMemory;
use std::alloc::Global;
use std::collections::BTreeMap;

// Takes the row of a number out.
fn take(alloc: Global, rows: &mut BTreeMap<u64, Row>, number: u64) -> Row
    ensures row { result ≡ row_in rows.old number }
    ensures rest { (n : ℕ) → row_in rows.new n
        ≡ (if number == n then [] else row_in rows.old n) }
{
    match rows.remove(&number) {
        Some(row) => row,
        None => Row::new(alloc),
    }
}

// Gives a number this row.
fn put(rows: &mut BTreeMap<u64, Row>, number: u64, row: Row) -> Result<(), NoMemory>
    ensures { OnOk result ((n : ℕ) → row_in rows.new n
        ≡ (if number == n then row else row_in rows.old n)) }
{
    rows.insert(number, row)?;
    Ok(())
}

// Puts the places of a row into that of a number.
fn add(alloc: Global, rows: &mut BTreeMap<u64, Row>, number: u64, row: &Row) -> Result<(), NoMemory>
    ensures has { OnOk result ((n a : ℕ) → has (row_in rows.new n) a
        ≡ (if number == n then has (row_in rows.old n) a || has row.now a
        else has (row_in rows.old n) a)) }
    ensures room { OnOk result ((n m : ℕ) → length (row_in rows.old n) ≤ m
        → length row.now ≤ m → length (row_in rows.new n) ≤ m) }
{
    let mut joined = take(alloc, rows, number);
    joined.take_in(row)?;
    put(rows, number, joined)
}

/// For each number a set of places, with all that come before them.
#[derive(Drop)]
pub struct Bundles {
    rows: BTreeMap<u64, Row>,
}

impl Bundles {
    ghost use Rattle.ocr_memory_model_rows.specs.Order.{IsNextRow, AreBundles};
    ghost use Rattle.ocr_memory_model_rows.specs.Bundles.{IsNoted};

    /// Of no places.
    pub fn new(alloc: Global) -> Self
        ensures { AreBundles [] (λ _. []) result }
    {
        Bundles {
            rows: BTreeMap::new(alloc),
        }
    }

    /// The row of a number; None where it has no place.
    pub fn row(&self, number: u64) -> Option<&Row>
        ensures none { IfNone result (row_in self.now.rows number ≡ []) }
        ensures some { IfSome result (λ row. row.now ≡ row_in self.now.rows number) }
    {
        self.rows.get(&number)
    }

    /// Puts the places of a number, and those before them, before the next one.
    pub fn join(&self, row: &mut Row, number: u64) -> Result<(), NoMemory>
        ensures { OnOk result ((g : Graph) (causes : List ℕ) (f : ℕ → List ℕ)
            → AreBundles g f self.now → IsNextRow g causes row.old
            → IsNextRow g (f number ++ causes) row.new) }
    {
        if let Some(places) = self.row(number) {
            row.take_in(places)?;
        }
        Ok(())
    }

    /// Notes one place more, whose row this is, for a number, or for none.
    pub fn note(&mut self, alloc: Global, number: Option<u64>, row: &Row) -> Result<(), NoMemory>
        ensures { OnOk result ((g : Graph) (causes : List ℕ) (f h : ℕ → List ℕ)
            → AreBundles g f self.old → IsNextRow g causes row.now
            → IsNoted number (length g) f h → AreBundles (causes ∷ g) h self.new) }
    {
        if let Some(number) = number {
            add(alloc, &mut self.rows, number, row)?;
        }
        Ok(())
    }
}
