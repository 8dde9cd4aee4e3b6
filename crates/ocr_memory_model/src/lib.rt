//! The memory model told of a run from its journal: which of its entries happen before which, and
//! its races.
#![tactic(auto)]

mod happens_before;
mod keys;
mod laws;
mod links;
mod lists;
mod modes;
mod past;
mod race;
mod sources;
mod stop;
mod touch;
mod walk;

pub use happens_before::{HappensBefore, MOST_ORDERED, order};
pub use laws::race_laws;
pub use ocr_machine_state::State;
pub use ocr_memory_model_order::order_laws;
pub use ocr_worker_machine::Setting;
pub use race::{Race, races};
pub use stop::OrderStop;
pub use walk::{Pair, Touches};
