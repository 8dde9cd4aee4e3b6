//! The rules that a task program keeps.
#![tactic(auto)]

mod names;
mod rules;

pub use rules::{CheckFault, CheckStop, breach_law, check};
