//! The trees of task programs.
#![tactic(auto)]

mod argument;
mod functions;
mod rules;
mod tree;

pub use argument::Argument;
pub use functions::{main_name, number_named};
pub use rules::{MOST_DEPENDENCES, MOST_PARAMETERS};
pub use tree::{
    BinaryOp, CallName, Constant, Expr, Function, Invoke, Name, Program, Stmt, UnaryOp,
};
