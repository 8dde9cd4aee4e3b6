//! Acquisition: takes a claimed EDT through the blocks of its plan, until it can start or has to
//! wait.
#![tactic(auto)]

mod acquisition;
mod act;
mod block;
mod outcome;
mod park;
mod payloads;
mod rounds;

pub use acquisition::{Woken, wake};
