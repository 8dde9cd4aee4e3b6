//! The laws of runs: what holds after every run and lasts in it, the quiescent end, what an acquire
//! finds in a block, scopes, and output events.
#![tactic(auto)]

mod laws;
mod memory;
mod outputs;
mod quiet;

pub use laws::{
    entering_laws, found_laws, going_laws, holding_laws, kept_laws, lasting_laws, scope_laws,
    working_laws,
};
pub use memory::memory_laws;
pub use outputs::output_laws;
pub use quiet::{quiet_laws, sent_laws, standing_laws};
