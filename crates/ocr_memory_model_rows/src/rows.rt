// The rows of all places.
ghost use Rattle.std.specs.Prelude.{◌≡◌, ◌≤◌, ◌<◌, ◌+◌, ◌^◌, ◌||◌, ◌==◌, ◌/◌, ℕ, List, [], ◌∷◌, ◌++◌, length, false, true, IfOk, OnOk, vec_len};
ghost use Rattle.std.specs.List.{All};
ghost use Rattle.ocr_memory_model_rows.specs.Rows.{has, row_at};
ghost use Rattle.ocr_memory_model_rows.specs.Places.{Graph, reaches};

use crate::row::Row;
use ocr_base::NoMemory;
use std::alloc::Global;

/// For each place the set of those that come before it, with the place itself.
#[derive(Drop)]
pub struct Rows {
    rows: Vec<Row>,
}

impl Rows {
    ghost use Rattle.ocr_memory_model_rows.specs.Order.{IsOrder, IsNextRow};

    /// Of no places.
    pub fn new(alloc: Global) -> Self
        ensures { IsOrder [] result }
    {
        Rows {
            rows: Vec::new(alloc),
        }
    }

    /// How many places there are.
    pub fn len(&self) -> usize
        ensures { result ≡ vec_len self.now.rows }
    {
        self.rows.len()
    }

    /// The row of a place.
    pub fn row(&self, place: usize) -> &Row
        requires { place < vec_len self.now.rows }
        ensures { result.now ≡ row_at self.now.rows.items place }
    {
        &self.rows[place]
    }

    /// The row of the next place, which no place comes before yet.
    pub fn next(&self, alloc: Global) -> Result<Row, NoMemory>
        requires { vec_len self.now.rows < 2 ^ 32 }
        ensures { IfOk result (λ row. (g : Graph) → IsOrder g self.now → IsNextRow g [] row) }
    {
        Row::of(alloc, self.rows.len())
    }

    /// Puts a place, and those before it, before the next one.
    pub fn join(&self, row: &mut Row, place: usize) -> Result<(), NoMemory>
        requires { place < vec_len self.now.rows }
        ensures { OnOk result ((g : Graph) (causes : List ℕ) → IsOrder g self.now
            → IsNextRow g causes row.old → IsNextRow g (place ∷ causes) row.new) }
    {
        row.take_in(self.row(place))?;
        Ok(())
    }

    /// Puts places, and those before them, before the next one.
    pub fn join_all(&self, row: &mut Row, places: &[u64]) -> Result<(), NoMemory>
        requires { All (λ c. c < vec_len self.now.rows) places.now }
        ensures { OnOk result ((g : Graph) (causes : List ℕ) → IsOrder g self.now
            → IsNextRow g causes row.old → IsNextRow g (places.now ++ causes) row.new) }
    {
        for place in places {
            self.join(row, *place as usize)?;
        }
        Ok(())
    }

    /// Adds the row of the next place.
    pub fn push(&mut self, row: Row) -> Result<(), NoMemory>
        ensures { OnOk result ((g : Graph) (causes : List ℕ) → IsOrder g self.old
            → IsNextRow g causes row → IsOrder (causes ∷ g) self.new) }
    {
        self.rows.push(row)?;
        Ok(())
    }

    /// Whether a place comes before another.
    pub fn before(&self, a: usize, b: usize) -> bool
        ensures within { result ≡ true → b < vec_len self.now.rows }
        ensures only { (g : Graph) → IsOrder g self.now → b < length g
            → result ≡ true → (a < b) × (reaches g a b ≡ true) }
        ensures all { (g : Graph) → IsOrder g self.now → b < length g
            → a < b → reaches g a b ≡ true → result ≡ true }
    {
        a < b && b < self.rows.len() && self.rows[b].has(a)
    }
}
