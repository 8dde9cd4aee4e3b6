//! The machine: what an entry does to the parts that it names, and the parts before the first one.
#![tactic(auto)]

mod acquisition;
mod beginning;
mod calls;
mod creation;
mod steps;

pub use beginning::opening;
pub use calls::Entered;
pub use ocr_machine_effects::{footprint, home_of, weight};
pub use steps::{SteppedAll, step, step_all};
