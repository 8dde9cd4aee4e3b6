// The limits of task texts, and how what they bound is counted along the tokens: those of an
// outermost expression, and the blocks that are open.
ghost use Rattle.std.specs.Prelude.{◌≡◌, ◌<◌, false};
ghost use Rattle.ocr_program_grammar.specs.Limits as limits;
ghost use Rattle.ocr_program_grammar.specs.Counts.{tally_of};

use crate::lexeme::{Lexeme, Word};

/// The most tokens that an outermost expression has.
pub const MOST_TOKENS: usize = 256;

/// The most blocks that may be open at once.
pub const MOST_BLOCKS: usize = 64;

/// How many tokens of an outermost expression were read, where one is being read, and how many
/// blocks are open.
#[derive(Clone, Copy, PartialEq, Eq, Debug)]
pub struct Tally {
    /// The tokens of the outermost expression that is being read; None where none is.
    pub tokens: Option<usize>,
    /// The blocks that are open, the function's own among them.
    pub depth: usize,
}

impl Tally {
    /// No token was read.
    pub const START: Tally = Tally {
        tokens: None,
        depth: 0,
    };
}

/// The tally with one more token, after each token of a text, while none was one too many.
pub fn tally_after(tally: Tally, lexeme: &Lexeme) -> Tally
    requires { limits.is_over (tally_of tally) ≡ false }
    ensures { tally_of result ≡ limits.tally_after (tally_of tally) lexeme.now }
{
    let Tally { tokens, depth } = tally;
    match tokens {
        None => outside(depth, lexeme),
        Some(count) => within(depth, count, lexeme),
    }
}

fn counting(depth: usize, count: usize) -> Tally
    ensures { tally_of result ≡ record { tokens = Some count; depth = depth } }
{
    Tally {
        tokens: Some(count),
        depth,
    }
}

fn resting(depth: usize) -> Tally
    ensures { tally_of result ≡ record { tokens = None; depth = depth } }
{
    Tally {
        tokens: None,
        depth,
    }
}

fn outside(depth: usize, lexeme: &Lexeme) -> Tally
    requires { depth < 65 }
    ensures { tally_of result ≡ limits.outside depth lexeme.now }
{
    match lexeme {
        Lexeme::Word(Word::Print | Word::Return | Word::If | Word::While) => counting(depth, 0),
        Lexeme::Equals => counting(depth, 0),
        Lexeme::Call(_) => counting(depth, 1),
        Lexeme::OpenBrace => resting(depth + 1),
        Lexeme::CloseBrace => resting(depth.saturating_sub(1)),
        _ => resting(depth),
    }
}

fn within(depth: usize, count: usize, lexeme: &Lexeme) -> Tally
    requires depth { depth < 65 }
    requires count { count < 257 }
    ensures { tally_of result ≡ limits.within depth count lexeme.now }
{
    match lexeme {
        Lexeme::Semicolon => resting(depth),
        Lexeme::OpenBrace => resting(depth + 1),
        _ => counting(depth, count + 1),
    }
}

/// Whether the last token is one too many: the 257th of an outermost expression, or the `{` of the
/// 65th level.
pub fn is_over(tally: Tally) -> bool
    ensures { result ≡ limits.is_over (tally_of tally) }
{
    match tally.tokens {
        None => MOST_BLOCKS < tally.depth,
        Some(count) => MOST_TOKENS < count || MOST_BLOCKS < tally.depth,
    }
}
