//! The parts of a text that an audit judges: the task text, and the journal behind it.
#![tactic(auto)]

mod input;

pub use input::{MOST_BYTES, input_law, split_input};
