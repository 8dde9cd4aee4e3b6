//! The body of a running EDT on the table of turns but for its calls: its start, accesses and end.
#![tactic(auto)]

mod access;
mod beginning;
mod conclusion;
mod end_step;
mod ending;
mod loads;
mod shared;
mod stop;
mod stores;

pub use access::{Refusal, core_at};
pub use beginning::start;
pub use conclusion::conclude;
pub use ending::end;
pub use loads::load;
pub use stop::stop_run;
pub use stores::store;
