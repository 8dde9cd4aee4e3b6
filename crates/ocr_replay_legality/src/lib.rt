//! What the table of a run tells of entries: whether one may come by the parts and the facts, and
//! what a call that comes next weighs.
#![tactic(auto)]

mod calls;
mod entries;
mod next;
mod tests_of;
mod weights;

pub use entries::{can_deliver, can_wake, is_legal};
pub use tests_of::{is_running, least_held};
pub use weights::{can_weigh, room};
