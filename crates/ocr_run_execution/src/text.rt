// The program that a task text is.
ghost use Rattle.std.specs.Prelude.{◌≡◌, ◌≤◌, IfOk, IfErr, OnOk, length};
ghost use Rattle.ocr_text.specs.Tokens.{AreTokens};
ghost use Rattle.ocr_program_tree.specs.View.{tree_of};
ghost use Rattle.ocr_program_check.specs.Check.{BreaksNoRule};
ghost use Rattle.ocr_body_code.specs.Checked.{checked_tree};
ghost use Rattle.ocr_program_grammar.specs.Lexemes.{IsTreeOf};
ghost use Rattle.ocr_run_execution.specs.ProgramText.{IsProgramText, IsCanonicalOf, IsTextStop, TextLaw, most_bytes};

use ocr_base::NoMemory;
use ocr_body_code::Checked;
use ocr_program::{ParseStop, SyntaxFault, parse};
use ocr_program_canonical::print_program;
use ocr_program_check::{CheckFault, CheckStop, check};
use ocr_program_tree::Program;
use ocr_text::{LexFault, Token, TokensStop, tokens};
use std::alloc::Global;
use std::error::Error;
use std::fmt;

/// The first thing that is wrong with a text that is no program (docs/LANGUAGE.md, "The
/// program").
#[derive(Clone, Copy, PartialEq, Eq, Debug)]
pub enum TextFault {
    /// No token begins at this place, or a number that is no `u64`.
    Lexical(usize),
    /// No program goes on after the token at this place, or the text ends there too early.
    Syntax(usize),
    /// The program breaks a rule.
    Breach(CheckFault),
}

impl fmt::Display for TextFault {
    ghost use Rattle.std.specs.Prelude.{Some};
    ghost use Rattle.ocr_run_execution.specs.Messages.{fault_text};

    ghost output = { λ fault. Some (fault_text fault) };

    fn fmt<W: fmt::Write>(&self, f: &mut fmt::Formatter<W>) -> fmt::Result {
        match self {
            TextFault::Lexical(place) => write!(f, "lex fault at {place}"),
            TextFault::Syntax(place) => write!(f, "syntax fault at {place}"),
            TextFault::Breach(fault) => fault.fmt(f),
        }
    }
}

impl Error for TextFault {}

/// Why a text gave no program.
#[derive(Clone, Copy, PartialEq, Eq, Debug)]
pub enum TextStop {
    /// It is none.
    Fault(TextFault),
    /// Memory was refused.
    NoMemory,
}

impl fmt::Display for TextStop {
    ghost use Rattle.std.specs.Prelude.{Some};
    ghost use Rattle.ocr_run_execution.specs.Messages.{stop_text};

    ghost output = { λ stop. Some (stop_text stop) };

    fn fmt<W: fmt::Write>(&self, f: &mut fmt::Formatter<W>) -> fmt::Result {
        match self {
            TextStop::Fault(fault) => fault.fmt(f),
            TextStop::NoMemory => NoMemory.fmt(f),
        }
    }
}

impl Error for TextStop {}

fn cut(alloc: Global, bytes: &[u8]) -> Result<Vec<Token>, TextStop>
    ensures tokens { IfOk result (λ found. AreTokens bytes.now found.items) }
    ensures stop { IfErr result (IsTextStop bytes.now) }
{
    match tokens(alloc, bytes) {
        Ok(found) => Ok(found),
        Err(TokensStop::Fault(LexFault { place })) => {
            Err(TextStop::Fault(TextFault::Lexical(place)))
        }
        Err(TokensStop::NoMemory) => Err(TextStop::NoMemory),
    }
}

fn read(alloc: Global, bytes: &[u8], tokens: &[Token]) -> Result<Program, TextStop>
    requires { AreTokens bytes.now tokens.now }
    ensures tree { IfOk result (λ p. IsTreeOf bytes.now tokens.now (tree_of p)) }
    ensures stop { IfErr result (IsTextStop bytes.now) }
{
    match parse(alloc, bytes, tokens) {
        Ok(program) => Ok(program),
        Err(ParseStop::Fault(SyntaxFault { place })) => {
            Err(TextStop::Fault(TextFault::Syntax(place)))
        }
        Err(ParseStop::NoMemory) => Err(TextStop::NoMemory),
    }
}

fn judged(
    alloc: Global,
    bytes: &[u8],
    tokens: &[Token],
    program: Program,
) -> Result<Checked, TextStop>
    requires size { length bytes.now ≤ most_bytes }
    requires tokens { AreTokens bytes.now tokens.now }
    requires tree { IsTreeOf bytes.now tokens.now (tree_of program) }
    ensures tree { IfOk result (λ checked. checked_tree checked ≡ tree_of program) }
    ensures sound { OnOk result (BreaksNoRule (tree_of program)) }
    ensures stop { IfErr result (IsTextStop bytes.now) }
{
    match check(alloc, program) {
        Ok(checked) => Ok(checked),
        Err(CheckStop::Fault(fault)) => Err(TextStop::Fault(TextFault::Breach(fault))),
        Err(CheckStop::NoMemory) => Err(TextStop::NoMemory),
    }
}

/// The program that these bytes are, ready to be run; or the first thing that is wrong with them.
pub fn program_of(alloc: Global, bytes: &[u8]) -> Result<Checked, TextStop>
    requires { length bytes.now ≤ most_bytes }
    ensures program { IfOk result (λ checked. IsProgramText bytes.now (checked_tree checked)) }
    ensures stop { IfErr result (IsTextStop bytes.now) }
{
    let tokens = cut(alloc, bytes)?;
    let program = read(alloc, bytes, &tokens)?;
    judged(alloc, bytes, &tokens, program)
}

/// The canonical text of the program that these bytes are; or the first thing that is wrong with
/// them.
pub fn canonical_of(alloc: Global, bytes: &[u8]) -> Result<Vec<u8>, TextStop>
    requires { length bytes.now ≤ most_bytes }
    ensures text { IfOk result (λ text. IsCanonicalOf bytes.now text.items) }
    ensures stop { IfErr result (IsTextStop bytes.now) }
{
    let checked = program_of(alloc, bytes)?;
    match print_program(alloc, checked.program()) {
        Ok(text) => Ok(text),
        Err(_) => Err(TextStop::NoMemory),
    }
}

/// The laws of texts: one is at most one program, has at most one fault, and never both.
#[tactic(auto, using(crate::proofs::Texts::text_law))]
pub fn text_laws()
    ensures { TextLaw }
{}
