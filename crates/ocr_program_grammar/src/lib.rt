//! The grammar of task programs: what a token is to it, what a program is, and the limits.
#![tactic(auto)]

mod argument_kind;
mod laws;
mod levels;
mod lexeme;
mod limits;
mod tokens;
mod words;

pub use argument_kind::{ArgumentKind, shape};
pub use laws::grammar_laws;
pub use levels::{UNARY_LEVEL, level};
pub use lexeme::{Lexeme, Word};
pub use limits::{MOST_BLOCKS, MOST_TOKENS, Tally, is_over, tally_after};
pub use tokens::read_token;
pub use words::{
    call_text, constant_text, lexeme_of_name, operator_text, sign_text, symbol, word_text,
};
