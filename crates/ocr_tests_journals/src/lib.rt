//! Journals that are written out by hand, entry by entry, and what replay says of them, as they are
//! and changed; and the machine's calls by themselves.
#![tactic(auto)]

mod lines;
mod programs;
mod tables;

pub use lines::{BOTH, FINISH, Form, Line, Made, OUTPUT, PLAIN, Words, entries_of};
pub use ocr_replay::{ReplayStop, replay};
pub use programs::program_of;
pub use tables::{Change, Row, Table, Wrong, wrong_in, wrong_of};

#[cfg(test)]
mod destroyed;
#[cfg(test)]
mod events;
#[cfg(test)]
mod fibonacci;
#[cfg(test)]
mod linked;
#[cfg(test)]
mod machine;
#[cfg(test)]
mod slots;
