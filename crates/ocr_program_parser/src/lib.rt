//! The states of the parser: what each token of a statement or of a call does to them, and how
//! operators and their operands are folded.
#![tactic(auto)]

mod blocks;
mod calls;
mod folds;
mod invocation;
mod signs;
mod stack;
mod statements;
mod states;
mod wanted;

pub use calls::{
    after_argument, after_flags, after_member, at_call_end, with_list, with_member, with_value,
};
pub use folds::fold;
pub use signs::with_sign;
pub use stack::{Arg, CallSite, Indexed, Stack};
pub use statements::{after_call, at_brace, at_expression_end, at_statement, may_else};
pub use states::{BlockKind, Position, State, Wanted};
pub use wanted::{
    assign_equals, call_open, function_name, function_open, function_word, index_open, let_equals,
    let_name, list_open, name_at, output_and, output_name,
};
