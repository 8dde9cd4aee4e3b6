//! The parts that an entry has at hand, and what changes them in most entries: members that join
//! and leave finish scopes, events that are satisfied, holds and EDTs that end.
#![tactic(auto)]

mod events;
mod holds;
mod scopes;
mod taken;

pub use events::{deliver_step, depend, depend_all, satisfy_at};
pub use holds::{destroy, end_hold, end_step};
pub use ocr_machine_codes::{footprint, weight};
pub use scopes::{home_of, join_home};
pub use taken::TakenParts;
