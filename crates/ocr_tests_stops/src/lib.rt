//! Tests of runs that somebody beside the workers stops: a gate that has a clerk of its own.
#![tactic(auto)]

mod closer;
mod crew;
mod shared;
mod threads;

pub use closer::Plan;
pub use crew::{Played, Told, play};

#[cfg(test)]
mod stops;
