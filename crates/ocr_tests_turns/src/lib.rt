//! Tests of the table of turns, over a toy machine.
#![tactic(auto)]

mod play;
mod queue;
mod threads;
mod toy;

pub use play::{Job, Worked, work, work_all};
pub use queue::deliver_many;
pub use threads::{Plan, Ran, run};
pub use toy::{Entry, Toy};

#[cfg(test)]
mod tests;
