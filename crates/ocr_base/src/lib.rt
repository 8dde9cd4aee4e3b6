//! What every crate of the project stands on: its one list type, out of memory, counts, limits, and
//! the messages of a history.
#![tactic(auto)]

mod count;
mod default;
mod limits;
mod memory;
mod seq;

pub use count::Count;
pub use default::{EDT_PARAM_DEF, EDT_PARAM_UNK};
pub use limits::{MOST_DEPENDENCES, MOST_OBJECTS, MOST_PARAMETERS, MOST_WORKERS};
pub use memory::NoMemory;
pub use seq::Seq;
