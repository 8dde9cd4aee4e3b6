//! The words that count: an EDT is ready once it is made and all its slots are set, which one
//! caller learns; it is claimed by one clerk at a time, and parked while it waits.
#![tactic(auto)]

mod answers;
mod claims;
mod counts;

pub use answers::{Claimed, Down};
pub use claims::{claim, drop_claim, park, payload, resume};
pub use counts::{count_down, count_made, put_payload};
