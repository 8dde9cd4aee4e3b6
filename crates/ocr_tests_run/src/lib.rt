//! Tests of the top call, which cross crates: words, texts, inputs and outputs; texts that are no
//! programs, limits at their edges, and streams each call of which fails in turn.
#![tactic(auto)]

mod examples;
mod outcomes;
mod programs;
mod rows;
mod streams;

pub use examples::{EXAMPLES, Example, LAST_EXAMPLES, MORE_EXAMPLES};
pub use outcomes::{CREWS, Outcome, outcome_at, outcome_of, run, run_by};
pub use programs::{ADDERS, FIBONACCI, FIRST};
pub use rows::{Row, is_told};
pub use streams::{CALM, Stream, Streams, WHOLE};

#[cfg(test)]
mod cuts;
#[cfg(test)]
mod faults;
#[cfg(test)]
mod loads;
#[cfg(test)]
mod races;
#[cfg(test)]
mod runs;
#[cfg(test)]
mod texts;
