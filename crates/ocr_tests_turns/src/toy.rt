// A machine with a counter at each place.
ghost use Rattle.ocr_tests_turns.specs.Toy as toy;
ghost use Rattle.ocr_tests_turns.specs.Laws as laws;

use ocr_turns::Machine;

/// What the toy's history consists of.
#[derive(Drop)]
pub enum Entry {
    /// Adds to the counter of a place, which stood as found, sends the count as a message, and may
    /// deliver one.
    Add {
        place: u64,
        found: u64,
        count: u64,
        delivered: Option<(u64, u32)>,
    },
    /// Ends the run.
    Stop,
}

/// A machine for tests of the table.
#[derive(Drop)]
pub struct Toy;

impl Machine for Toy {
    type Setting = u64;

    type Part = u64;

    type Entry = Entry;

    type Message = u64;

    type Fact = u64;

    ghost meaning = { toy.meaning };

    fn vacant() -> u64 {
        0
    }

    fn first() -> (u64, u64) {
        (1, 0)
    }

    fn weight(entry: &Entry) -> u64 {
        match entry {
            Entry::Add { .. } => 1,
            Entry::Stop => 0,
        }
    }

    fn delivers(entry: &Entry) -> Option<(u64, u32)> {
        match entry {
            Entry::Add { delivered, .. } => *delivered,
            Entry::Stop => None,
        }
    }

    ghost laws = { laws.laws };

    ghost counting_laws = { laws.counting_laws };
}
