// Cuts a text into tokens.
ghost use Rattle.std.specs.Prelude.{◌≡◌, ◌<◌, ◌≤◌, ◌+◌, ◌^◌, ◌↔◌, IfOk, IfErr, IfSome, IfNone, IsTrue, length, drop, slice_range};
ghost use Rattle.std.specs.List.{list_all};
ghost use Rattle.ocr_text.specs.Forms as form;
ghost use Rattle.ocr_text.specs.Tokens.{AreTokens, IsFault, IsLongest, IsNoToken, text_of};
ghost use Rattle.ocr_text.specs.Texts.{IsInRange};
ghost use Rattle.ocr_text.specs.Scan as spec;
ghost use Rattle.ocr_text.specs.Laws.{TokensLaw, TextsLaw};

use crate::{LexFault, Token, TokenKind, TokensStop};
use std::alloc::Global;

fn is_blank(byte: u8) -> bool
    ensures { result ≡ form.is_blank byte }
{
    [b' ', b'\t', b'\r', b'\n'].contains(&byte)
}

fn is_digit(byte: u8) -> bool
    ensures { result ≡ form.is_digit byte }
{
    b'0' <= byte && byte <= b'9'
}

fn is_letter(byte: u8) -> bool
    ensures { result ≡ form.is_letter byte }
{
    (b'A' <= byte && byte <= b'Z') || (b'a' <= byte && byte <= b'z') || byte == b'_'
}

fn is_single(byte: u8) -> bool
    ensures { result ≡ form.is_single byte }
{
    b"!%&()*+,-/;<=>[]^{|}~".contains(&byte)
}

// Whether the two bytes are one symbol.
fn is_double(first: u8, second: u8) -> bool
    ensures { result ≡ form.is_double first second }
{
    (b"!<=>".contains(&first) && second == b'=') || (b"<>".contains(&first) && first == second)
}

// The kind of the tokens that begin with this byte.
fn kind_at(byte: u8) -> Option<TokenKind>
    ensures { result ≡ spec.kind_at byte }
{
    if is_blank(byte) {
        Some(TokenKind::Blank)
    } else if byte == b'#' {
        Some(TokenKind::Comment)
    } else if is_digit(byte) {
        Some(TokenKind::Number)
    } else if is_letter(byte) {
        Some(TokenKind::Name)
    } else if is_single(byte) {
        Some(TokenKind::Symbol)
    } else {
        None
    }
}

// Whether a token of this kind goes on with this byte, however long it is.
fn goes_on(kind: TokenKind, byte: u8) -> bool
    ensures { result ≡ spec.goes_on kind byte }
{
    match kind {
        TokenKind::Blank => is_blank(byte),
        TokenKind::Comment => byte != b'\n',
        TokenKind::Number => is_digit(byte),
        TokenKind::Name => is_letter(byte) || is_digit(byte),
        TokenKind::Symbol => false,
    }
}

// How many bytes at the front go on a token of this kind.
fn run_of(kind: TokenKind, bytes: &[u8]) -> usize
    ensures is { result ≡ spec.run_of (spec.goes_on kind) bytes.now }
    ensures within { result ≤ length bytes.now }
{
    let mut rest = bytes;
    while let [first, after @ ..] = rest {
        if !goes_on(kind, *first) {
            break;
        }
        rest = after;
    }
    bytes.len() - rest.len()
}

// How many bytes of a token of this kind follow its first.
fn rest_of(kind: TokenKind, first: u8, after: &[u8]) -> usize
    ensures is { result ≡ spec.rest_of kind first after.now }
    ensures within { result ≤ length after.now }
{
    match (kind, after) {
        (TokenKind::Symbol, []) => 0,
        (TokenKind::Symbol, [second, ..]) => is_double(first, *second) as usize,
        _ => run_of(kind, after),
    }
}

// The kind and the length of the token at the front.
fn found(bytes: &[u8]) -> Option<(TokenKind, usize)>
    ensures is { result ≡ spec.found bytes.now }
    ensures within { IfSome result (λ front. front.1 ≤ length bytes.now) }
{
    match bytes {
        [] => None,
        [first, after @ ..] => match kind_at(*first) {
            Some(kind) => Some((kind, rest_of(kind, *first, after) + 1)),
            None => None,
        },
    }
}

// The token at a place, whose value is not looked at.
fn token_at(bytes: &[u8], place: usize) -> Option<Token>
    requires { place < length bytes.now }
    ensures start { IfSome result (λ token. token.start ≡ place) }
    ensures longest { IfSome result (λ token. IsLongest bytes.now place token.kind token.end) }
    ensures none { IfNone result (IsNoToken bytes.now place) }
{
    match found(&bytes[place..]) {
        Some((kind, length)) => Some(Token {
            kind,
            start: place,
            end: place + length,
        }),
        None => None,
    }
}

/// The value of digits, none where it is no `u64`.
#[tactic(auto, using(crate::proofs::Values::next_digit))]
pub fn number_value(digits: &[u8]) -> Option<u64>
    requires { IsTrue (list_all form.is_digit digits.now) }
    ensures some { IfSome result (λ v. v ≡ form.value_of digits.now) }
    ensures none { IfNone result (2 ^ 64 ≤ form.value_of digits.now) }
{
    let mut value: u64 = 0;
    let mut rest = digits;
    while let [first, after @ ..] = rest {
        let Some(tens) = value.checked_mul(10) else {
            return None
        };
        let Some(next) = tens.checked_add((*first - b'0') as u64) else {
            return None
        };
        value = next;
        rest = after;
    }
    Some(value)
}

// Whether a token is no number, or one that is a `u64`.
fn is_in_range(bytes: &[u8], token: Token) -> bool
    requires { IsLongest bytes.now token.start token.kind token.end }
    ensures { IsTrue result ↔ IsInRange token.kind (text_of bytes.now token) }
{
    match token.kind {
        TokenKind::Number => number_value(&bytes[token.start..token.end]).is_some(),
        _ => true,
    }
}

/// The tokens of a text, each the longest at its place. A fault comes exactly where the text has
/// none, and names the first place where no token begins or a number is too large.
pub fn tokens(alloc: Global, bytes: &[u8]) -> Result<Vec<Token>, TokensStop>
    ensures tokens { IfOk result (λ found. AreTokens bytes.now found.items) }
    ensures fault { (fault : LexFault) → result ≡ Err (TokensStop.Fault fault)
        → IsFault bytes.now fault.place }
{
    let mut found = Vec::new(alloc);
    let mut place = 0;
    while place < bytes.len() {
        let Some(token) = token_at(bytes, place) else {
            return Err(LexFault { place }.into())
        };
        if !is_in_range(bytes, token) {
            return Err(LexFault { place }.into());
        }
        found.push(token)?;
        place = token.end;
    }
    Ok(found)
}

/// The laws of tokens. A text has at most one list of tokens, at most one fault, and never both.
/// The kinds and texts of its tokens are told from the front, one after another.
pub fn tokens_laws()
    ensures tokens { TokensLaw }
    ensures texts { TextsLaw }
{}
