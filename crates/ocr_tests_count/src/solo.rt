// A machine with one EDT, number 1, which is ready at the opening.
ghost use Rattle.std.specs.Prelude.{◌≡◌};
ghost use Rattle.ocr_tests_count.specs.Solo as solo;
ghost use Rattle.ocr_tests_count.specs.SoloLaws as laws;

use ocr_turns::Machine;

/// What its history consists of.
#[derive(Drop)]
pub enum Act {
    /// The EDT starts.
    Start,
    /// It runs on.
    Work,
    /// It ends.
    End,
    /// It is destroyed before its start.
    Destroy,
    /// Ends the run.
    Stop,
}

/// The place of the EDT's core, whose part is its state.
pub const CORE: u64 = 3;

/// A machine for tests of the live word.
#[derive(Drop)]
pub struct Solo;

impl Machine for Solo {
    type Setting = u64;

    type Part = u64;

    type Entry = Act;

    type Message = u64;

    type Fact = u64;

    ghost meaning = { solo.meaning };

    fn vacant() -> u64 {
        0
    }

    fn first() -> (u64, u64) {
        (1, 0)
    }

    fn weight(entry: &Act) -> u64 {
        match entry {
            Act::Stop => 0,
            _ => 1,
        }
    }

    fn delivers(_entry: &Act) -> Option<(u64, u32)> {
        None
    }

    ghost laws = { laws.laws };

    ghost counting_laws = { laws.counting_laws };
}

/// The state that an act leaves.
pub fn state_after(act: &Act) -> u64
    ensures { result ≡ solo.after act.now }
{
    match act {
        Act::Start | Act::Work => 1,
        Act::End | Act::Destroy => 2,
        Act::Stop => 0,
    }
}
