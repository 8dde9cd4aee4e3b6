//! Data blocks: their words, who holds one, who waits for it, and the loan of its words to one EDT.
#![tactic(auto)]

pub mod datablock;
mod holders;
pub mod loan;
mod roll;
mod row;
mod tally;

pub use datablock::{Asked, Block, MOST_WORDS};
pub use loan::Lent;
