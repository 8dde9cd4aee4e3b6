//! The live word: how many units of work are left in all, so that a clerk learns that nothing can
//! come any more.
#![tactic(auto)]

mod answers;
mod live_word;

pub use answers::LiveRead;
pub use live_word::{live, lower, raise, split_live};
