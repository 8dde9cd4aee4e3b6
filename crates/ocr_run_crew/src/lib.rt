//! A run of a program by several workers, each in a thread of its own.
#![tactic(auto)]

mod crew;
mod limits;
mod logs;
mod seats;
mod shared;
mod threads;

pub use crew::run;
pub use limits::Limits;
pub use ocr_journal_merge::Merged;
pub use ocr_worker::{Worked, work};
pub use ocr_worker_clerk::{Gate, NoGate};
pub use seats::Seat;
