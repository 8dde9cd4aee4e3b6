//! What a run shows after the first entries of its journal: the lines that it has printed, and the
//! words of a block.
#![tactic(auto)]

mod contents;
mod lines;

pub use contents::contents_at;
pub use lines::{front, lines_at, lines_of};
