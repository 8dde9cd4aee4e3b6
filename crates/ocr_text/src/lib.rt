//! Cuts task texts into tokens.
#![tactic(auto)]

mod scan;
mod token;

pub use scan::{number_value, tokens, tokens_laws};
pub use token::{LexFault, Token, TokenKind, TokensStop};
