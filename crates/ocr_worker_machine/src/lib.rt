//! The OCR machine as a table of turns sees it: the facts of its runs, the laws that a table asks
//! of a machine, and when a run is quiescent by the countdown words of its EDTs.
#![tactic(auto)]

mod drained;
mod fact;
mod laws;
mod setting;

pub use drained::drain_laws;
pub use fact::Fact;
pub use laws::{clerk_laws, counted_laws, home_laws, leaving_laws, owing_laws, table_laws};
pub use setting::Setting;
