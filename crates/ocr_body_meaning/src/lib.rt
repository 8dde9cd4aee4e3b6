//! The meaning of task programs' bodies: the calls that they make, and what they hold.
#![tactic(auto)]

mod call;
mod fuel;
mod laws;

pub use call::{Answer, BodyStop, Call};
pub use fuel::FUEL;
pub use laws::body_laws;
