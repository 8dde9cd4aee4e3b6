// The OCR machine, as a table of turns runs it.
ghost use Rattle.ocr_worker_machine.specs.Ocr.{meaning};
ghost use Rattle.ocr_worker_clerk.specs.Laws as laws;

use ocr_machine::weight;
use ocr_machine_history::{ARGUMENTS, Entry, MAIN_EDT, What};
use ocr_machine_parts::Part;
use ocr_turns::Machine;
use ocr_worker_machine::{Fact, Setting};

/// The OCR machine.
#[derive(Drop)]
pub struct Ocr;

impl Machine for Ocr {
    type Setting = Setting;

    type Part = Part;

    type Entry = Entry;

    type Message = What;

    type Fact = Fact;

    ghost meaning = { meaning };

    fn vacant() -> Part {
        Part::Vacant
    }

    fn first() -> (u64, u64) {
        (MAIN_EDT, ARGUMENTS)
    }

    #[inline(always)]
    fn weight(entry: &Entry) -> u64 {
        weight(entry)
    }

    #[inline(always)]
    fn delivers(entry: &Entry) -> Option<(u64, u32)> {
        match entry {
            Entry::Deliver { message, .. } => Some((message.place, message.index)),
            _ => None,
        }
    }

    ghost laws = { laws.lawful };

    ghost counting_laws = { laws.counted };
}
