// A set of places.
ghost use Rattle.std.specs.Prelude.{◌≡◌, ◌≤◌, ◌<◌, ◌+◌, ◌/◌, ◌%◌, ◌^◌, ◌||◌, ◌==◌, ℕ, length, max, slice_index, vec_len, vec_capacity, false, IfOk, OnOk};
ghost use Rattle.ocr_memory_model_rows.specs.Rows.{has};

use ocr_base::NoMemory;
use std::alloc::Global;
use std::marker::Model;

/// A set of places: a bit a place, 64 in a word. Contracts see its words.
#[derive(Drop)]
pub struct Row {
    words: Vec<u64>,
}

impl Model for Row {
    ghost use Rattle.std.specs.Prelude.{List, ℕ};

    ghost Value = { List ℕ };

    ghost view = { λ a. a.words.items };
}

fn zeros(alloc: Global, count: usize) -> Result<Vec<u64>, NoMemory>
    requires { count < 2 ^ 32 }
    ensures len { IfOk result (λ words. length words.items ≡ count) }
    ensures none { IfOk result (λ words. (j : ℕ) → slice_index words.items j ≡ 0) }
{
    let mut words = Vec::with_capacity(alloc, count)?;
    for _ in 0..count {
        words.push_reserved(0u64);
    }
    Ok(words)
}

// Makes it so long, with room for no more.
fn grow(words: &mut Vec<u64>, count: usize) -> Result<(), NoMemory>
    ensures len { OnOk result (vec_len words.new ≡ max (vec_len words.old) count) }
    ensures room { OnOk result (vec_capacity words.new ≡ max (vec_capacity words.old) count) }
    ensures words { OnOk result ((j : ℕ) → slice_index words.new.items j
        ≡ slice_index words.old.items j) }
{
    if count <= words.len() {
        return Ok(());
    }
    words.reserve_exact(count - words.len())?;
    while words.len() < count {
        words.push_reserved(0u64);
    }
    Ok(())
}

fn join_words(words: &mut [u64], others: &[u64])
    requires { length others.now ≤ length words.old }
    ensures len { length words.new ≡ length words.old }
    ensures has { (a : ℕ) → has words.new a ≡ (has words.old a || has others.now a) }
{
    for i in 0..others.len() {
        words[i] |= others[i];
    }
}

impl Row {
    /// The set with no place, with room for none.
    pub fn new(alloc: Global) -> Self
        ensures len { length result ≡ 0 }
        ensures none { (a : ℕ) → has result a ≡ false }
    {
        Row {
            words: Vec::new(alloc),
        }
    }

    /// The set of one place, with room for all places up to it.
    pub fn of(alloc: Global, place: usize) -> Result<Self, NoMemory>
        requires { place < 2 ^ 32 }
        ensures len { IfOk result (λ row. length row ≡ place / 64 + 1) }
        ensures has { IfOk result (λ row. (a : ℕ) → has row a ≡ (a == place)) }
    {
        let mut words = zeros(alloc, place / 64 + 1)?;
        words[place / 64] = 1u64 << (place % 64);
        Ok(Row { words })
    }

    /// How many words it has.
    pub fn len(&self) -> usize
        ensures { result ≡ length self.now }
    {
        self.words.len()
    }

    /// Whether a place is in it.
    pub fn has(&self, place: usize) -> bool
        ensures { result ≡ has self.now place }
    {
        if place / 64 >= self.words.len() {
            return false;
        }
        (self.words[place / 64] >> (place % 64)) & 1 == 1
    }

    /// Puts the places of another set into it, which has no more words.
    pub fn join(&mut self, other: &Row)
        requires { length other.now ≤ length self.old }
        ensures len { length self.new ≡ length self.old }
        ensures has { (a : ℕ) → has self.new a ≡ (has self.old a || has other.now a) }
    {
        join_words(&mut self.words, &other.words);
    }

    /// Puts the places of another set into it, and makes room for them first.
    pub fn take_in(&mut self, other: &Row) -> Result<(), NoMemory>
        ensures len { OnOk result (length self.old ≤ length self.new) }
        ensures most { OnOk result ((n : ℕ) → length self.old ≤ n → length other.now ≤ n
            → length self.new ≤ n) }
        ensures has { OnOk result ((a : ℕ) → has self.new a
            ≡ (has self.old a || has other.now a)) }
    {
        grow(&mut self.words, other.words.len())?;
        join_words(&mut self.words, &other.words);
        Ok(())
    }
}
