// Tokens, and why a text has none.
use ocr_base::NoMemory;
use std::alloc::AllocFailed;
use std::error::Error;
use std::fmt;

/// What a token is.
#[derive(Clone, Copy, PartialEq, Eq, Debug)]
pub enum TokenKind {
    /// Spaces, tabs, carriage returns and line feeds.
    Blank,
    /// From a `#` up to the next line feed, which is no part of it, or to the end.
    Comment,
    /// Digits, of a value that is a `u64`.
    Number,
    /// A letter or `_`, and then letters, digits and `_`.
    Name,
    /// An operator, a bracket, a comma or a semicolon.
    Symbol,
}

/// A token of a text, from the byte at `start` up to the byte before `end`.
#[derive(Clone, Copy, PartialEq, Eq, Debug)]
pub struct Token {
    pub kind: TokenKind,
    pub start: usize,
    pub end: usize,
}

/// The first place of a text where no token begins, or a number begins that is no `u64`.
#[derive(Clone, Copy, PartialEq, Eq, Debug)]
pub struct LexFault {
    pub place: usize,
}

impl fmt::Display for LexFault {
    ghost use Rattle.std.specs.Prelude.{Some};
    ghost use Rattle.ocr_text.specs.Messages.{fault_text};

    ghost output = { λ fault. Some (fault_text fault) };

    fn fmt<W: fmt::Write>(&self, f: &mut fmt::Formatter<W>) -> fmt::Result {
        write!(f, "lex fault at {}", self.place)
    }
}

impl Error for LexFault {}

/// Why a text was not cut into tokens.
#[derive(Clone, Copy, PartialEq, Eq, Debug)]
pub enum TokensStop {
    /// The text has no tokens.
    Fault(LexFault),
    /// Memory was refused.
    NoMemory,
}

impl fmt::Display for TokensStop {
    ghost use Rattle.std.specs.Prelude.{Some};
    ghost use Rattle.ocr_text.specs.Messages.{stop_text};

    ghost output = { λ stop. Some (stop_text stop) };

    fn fmt<W: fmt::Write>(&self, f: &mut fmt::Formatter<W>) -> fmt::Result {
        match self {
            TokensStop::Fault(fault) => fault.fmt(f),
            TokensStop::NoMemory => NoMemory.fmt(f),
        }
    }
}

impl Error for TokensStop {}

impl From<LexFault> for TokensStop {
    ghost use Rattle.std.specs.Prelude.{◌≡◌};
    ghost use Rattle.ocr_text.specs.declared.token.TokensStop.TheVariants.{Fault};

    ghost from_gives = { λ fault stop. stop ≡ Fault fault };

    fn from(fault: LexFault) -> Self {
        TokensStop::Fault(fault)
    }
}

impl<T: Drop> From<AllocFailed<T>> for TokensStop {
    ghost use Rattle.std.specs.Prelude.{◌≡◌};
    ghost use Rattle.ocr_text.specs.declared.token.TokensStop.TheVariants.{NoMemory};

    ghost from_gives = { λ _ stop. stop ≡ NoMemory };

    fn from(_failed: AllocFailed<T>) -> Self {
        TokensStop::NoMemory
    }
}
