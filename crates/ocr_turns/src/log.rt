// A log of entries with numbers.
ghost use Rattle.std.specs.Prelude.{◌≡◌, ◌<◌, ◌≤◌, ◌+◌, ◌-◌, ◌++◌, ◌∷◌, [], ◌↔◌, IsTrue, length, vec_capacity, IfOk, MatchOption};
ghost use Rattle.ocr_turns_rule.specs.Sums.{entries, keys};

use std::alloc::{AllocError, Global};
use std::marker::Model;

/// For how many entries a log has room, at least, once it takes one. A log that is large from the
/// start on grows where it stands, since its memory is mapped by itself: it has to be larger than
/// what was freed before, or the allocator puts it among the others and copies it as it grows.
const STEP: usize = 16384;

/// Entries in the order in which they were entered, each with its number. The numbers stand apart
/// from the entries, so that those can be taken out as they stand.
#[derive(Drop)]
pub struct Log<E> {
    numbers: Vec<u64>,
    entries: Vec<E>,
}

impl<E> Model for Log<E> {
    ghost use Rattle.std.specs.Prelude.{◌≡◌, ◌-◌, length, min, vec_capacity};
    ghost use Rattle.std.specs.List.{zip};
    ghost use Rattle.ocr_turns.specs.Log.{Logged};

    ghost Value = { Logged E };

    ghost view = { λ l. record {
      items = zip l.numbers.items l.entries.items;
      room = min (vec_capacity l.numbers - length l.numbers.items)
          (vec_capacity l.entries - length l.entries.items);
    } };

    ghost invariant = { λ l. length l.numbers.items ≡ length l.entries.items };
}

impl<E> Log<E> {
    /// A log with room for so many entries.
    pub fn with_capacity(alloc: Global, capacity: usize) -> Result<Log<E>, AllocError>
        ensures { IfOk result (λ l. (l.items ≡ []) × (capacity ≤ l.room)) }
    {
        let numbers = Vec::with_capacity(alloc, capacity)?;
        let entries = Vec::with_capacity(alloc, capacity)?;
        Ok(Log { numbers, entries })
    }

    /// How many entries it has.
    pub fn len(&self) -> usize
        ensures { result ≡ length self.now.items }
    {
        self.numbers.len()
    }

    /// The numbers of its entries.
    pub fn numbers(&self) -> &[u64]
        ensures { result.now ≡ keys self.now.items }
    {
        self.numbers.as_slice()
    }

    /// Its entries without their numbers.
    pub fn entries(&self) -> &[E]
        ensures { result.now ≡ entries self.now.items }
    {
        self.entries.as_slice()
    }

    /// Whether it has room for so many entries more.
    #[inline(always)]
    pub fn has_room(&self, more: usize) -> bool
        ensures { IsTrue result ↔ (more ≤ self.now.room) }
    {
        has_room(&self.numbers, more) && has_room(&self.entries, more)
    }

    /// Room for two entries more, where there is none: room for many then.
    // A log that is asked for more than it needs is copied, with all the room that it has.
    pub fn reserve_two(&mut self) -> Result<(), AllocError>
        ensures items { self.new.items ≡ self.old.items }
        ensures grows { self.old.room ≤ self.new.room }
        ensures room { IfOk result (λ _. 2 ≤ self.new.room) }
    {
        if self.has_room(2) {
            return Ok(());
        }
        self.reserve(STEP)
    }

    /// Room for so many entries more.
    pub fn reserve(&mut self, more: usize) -> Result<(), AllocError>
        ensures items { self.new.items ≡ self.old.items }
        ensures grows { self.old.room ≤ self.new.room }
        ensures room { IfOk result (λ _. more ≤ self.new.room) }
    {
        self.numbers.reserve(more)?;
        self.entries.reserve(more)
    }

    /// Enters an entry that there is room for.
    // So the entry is made where it stays.
    #[inline(always)]
    pub fn push_reserved(&mut self, number: u64, entry: E)
        requires { 0 < self.old.room }
        ensures items { self.new.items ≡ self.old.items ++ (number, entry) ∷ [] }
        ensures room { self.new.room + 1 ≡ self.old.room }
    {
        self.numbers.push_reserved(number);
        self.entries.push_reserved(entry);
    }

    /// Takes out the last entry, with its number.
    pub fn pop(&mut self) -> Option<(u64, E)>
        ensures { MatchOption result ((self.old.items ≡ []) × (self.new.items ≡ []))
            (λ x. self.old.items ≡ self.new.items ++ x ∷ []) }
    {
        let entry = self.entries.pop()?;
        match self.numbers.pop() {
            Some(number) => Some((number, entry)),
            None => unreachable!(),
        }
    }

    /// Gives back what memory is free, once it is a part in 32. Only each 64th length asks for it,
    /// so that a short log is not shrunk again and again.
    pub fn spare(&mut self)
        ensures { self.new.items ≡ self.old.items }
    {
        shrink(&mut self.numbers);
        shrink(&mut self.entries);
    }

    /// Its entries as they stand.
    pub fn into_entries(self) -> Vec<E>
        ensures { result.items ≡ entries self.items }
    {
        self.entries
    }
}

/// Whether there is room for so many items more.
#[inline(always)]
pub(crate) fn has_room<T>(items: &Vec<T>, more: usize) -> bool
    ensures { IsTrue result ↔ (more ≤ vec_capacity items.now - length items.now.items) }
{
    items.capacity() - items.len() >= more
}

// Gives back the memory of a Vec that it need not have.
fn shrink<T>(items: &mut Vec<T>)
    ensures { items.new.items ≡ items.old.items }
{
    let many = items.len();
    if many % 64 == 0 && many < items.capacity() / 32 * 31 {
        items.shrink_to_fit();
    }
}
