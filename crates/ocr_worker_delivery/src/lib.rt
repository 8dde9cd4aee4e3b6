//! Deliveries: a worker delivers the messages that its clerk owes, to slots, events and finish
//! scopes, and pushes the EDTs that they make ready.
#![tactic(auto)]

mod delivery;
mod event;
mod scope;

pub use delivery::{deliver_owed, deliver_set};
pub use event::deliver_satisfaction;
pub use scope::deliver_leave;
