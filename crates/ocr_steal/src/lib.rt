//! The deques of ready EDTs: each worker has a hand with a deque of its own, takes from it, and
//! steals from those of the others.
#![tactic(auto)]

mod account;
mod bell;
mod creation;
mod hand;
mod moves;
mod pool;
mod remainder;

pub use account::Account;
pub use bell::Bell;
pub use hand::{Hand, Steal};
pub use pool::Pool;
pub use remainder::gather;

#[cfg(test)]
mod tests;
