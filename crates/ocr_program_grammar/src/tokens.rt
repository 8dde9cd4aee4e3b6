// The tokens of a text as the grammar sees them.
ghost use Rattle.std.specs.Prelude.{◌≡◌, IfOk};
ghost use Rattle.ocr_text.specs.Tokens.{IsToken};
ghost use Rattle.ocr_program_grammar.specs.Lexing.{lexeme_of};

use crate::lexeme::Lexeme;
use crate::words::{lexeme_of_name, symbol};
use ocr_text::{Token, TokenKind, number_value};
use std::alloc::{AllocError, Global};

/// What a token is to the grammar, none for a blank and a comment.
#[tactic(auto, using(crate::proofs::Digits::are_digits))]
pub fn read_token(alloc: Global, bytes: &[u8], token: Token) -> Result<Option<Lexeme>, AllocError>
    requires { IsToken bytes.now token }
    ensures { IfOk result (λ l. l ≡ lexeme_of bytes.now token) }
{
    let piece = &bytes[token.start..token.end];
    match token.kind {
        TokenKind::Blank => Ok(None),
        TokenKind::Comment => Ok(None),
        TokenKind::Number => {
            let Some(value) = number_value(piece) else {
                unreachable!()
            };
            Ok(Some(Lexeme::Number(value)))
        }
        TokenKind::Name => Ok(Some(lexeme_of_name(alloc, piece)?)),
        TokenKind::Symbol => Ok(symbol(piece)),
    }
}
