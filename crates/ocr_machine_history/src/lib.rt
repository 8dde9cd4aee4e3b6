//! The entries of a journal, and what a history of them tells by itself: what was made, which EDTs
//! started and ended, what a run writes and weighs.
#![tactic(auto)]

mod entry;
mod journal;
mod laws;
mod objects;
mod writes;

pub use entry::{Entry, Fault, Message, Stop, What};
pub use journal::Journal;
pub use laws::left_law;
pub use objects::{ARGUMENTS, MAIN_EDT, OUTPUT_FLAGS, OUTPUT_KIND};
pub use writes::Writes;
