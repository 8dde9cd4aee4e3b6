//! The table of all parts of the machine's state, as entries change it one by one.
#![tactic(auto)]

mod plans;
mod rows;
mod sets;
mod state;

pub use ocr_machine::Entered;
pub use sets::Sets;
pub use state::State;
