//! The words of the command line: what they ask for, and which words are refused.
#![tactic(auto)]

mod command_line;
mod given;
mod number;
mod reader;
mod wanted;

pub use command_line::{command, words_law};
pub use wanted::{Options, Reports, Wanted, WordsStop};
