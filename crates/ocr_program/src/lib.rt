//! The parser: reads the tokens of a task text to its program, one by one.
#![tactic(auto)]

mod expressions;
mod lists;
mod parser;
mod steps;

pub use parser::{ParseStop, SyntaxFault, parse};
