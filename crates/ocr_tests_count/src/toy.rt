// A machine with one EDT to be made, number 2, whose two slots and whose wait have a place each.
ghost use Rattle.ocr_tests_count.specs.Toy as toy;
ghost use Rattle.ocr_tests_count.specs.Laws as laws;

use ocr_turns::Machine;

/// What the toy's history consists of.
#[derive(Drop)]
pub enum Entry {
    /// Makes the EDT.
    Make,
    /// Sets a slot of it.
    Set { slot: u32, payload: u64 },
    /// Lets it wait, once all its slots are set.
    Wait,
    /// Resumes it.
    Wake,
}

/// The part of a slot's place: the EDT is not made.
pub const UNMADE: u64 = 0;
/// The EDT is made, and the slot is not set.
pub const OPEN: u64 = 1;
/// The slot is set.
pub const FILLED: u64 = 2;
/// The place of the EDT's wait, and its part while it waits.
pub const WAITS: u64 = 2;

/// The part of the place at which an EDT waits.
pub const WAITING: u64 = 1;
/// The place of slot 0. That of slot 1 comes after it.
pub const SLOTS: u64 = 3;

/// A machine for tests of the words that count.
#[derive(Drop)]
pub struct Toy;

impl Machine for Toy {
    type Setting = u64;

    type Part = u64;

    type Entry = Entry;

    type Message = u64;

    type Fact = (u64, u32, u64);

    ghost meaning = { toy.meaning };

    fn vacant() -> u64 {
        UNMADE
    }

    fn first() -> (u64, u64) {
        (1, 0)
    }

    fn weight(_entry: &Entry) -> u64 {
        1
    }

    fn delivers(_entry: &Entry) -> Option<(u64, u32)> {
        None
    }

    ghost laws = { laws.laws };

    ghost counting_laws = { laws.counting_laws };
}
