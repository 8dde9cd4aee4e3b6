//! The journal of a run: the logs of its clerks merged by the numbers of their entries.
#![tactic(auto)]

mod merged;
mod numbered;

pub use merged::{Merged, merge};
