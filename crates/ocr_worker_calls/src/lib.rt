//! The calls of a running EDT that become entries on the table of turns.
#![tactic(auto)]

mod answer;
mod asked;
mod call;
mod choice;
mod creation;
mod entry;
mod made;
mod named;
mod print;
mod writes;

pub use choice::make_call;
