//! The body of an EDT on the table of turns, from its start to its end.
#![tactic(auto)]

mod body;
mod desk;
mod frees;
mod given;

pub use body::run_body;
