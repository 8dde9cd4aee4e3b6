//! The parts of the machine's state, what an entry does to them, and what a run is, with the laws
//! of these.
#![tactic(auto)]

mod boxed;
mod laws;
mod loans;
mod many;
mod messages;
mod part;
mod readiness;
mod words;
mod writes;

pub use boxed::{BoxedBlock, BoxedCore, BoxedEvent};
pub use laws::{block_laws, event_laws, machine_laws, run_laws, settled_laws};
pub use loans::{Kept, Loans};
pub use messages::{sent_by_end, sent_if_done};
pub use part::{Core, Part, Stepped};
pub use readiness::{ask_one, first, next_of, next_with, plan_with, ready, ready_core, start_core};
pub use words::copied_words;
pub use writes::listed_writes;
