// The parser: reads the tokens of a text to its program, one by one.
ghost use Rattle.std.specs.Prelude.{◌≡◌, ℕ, List, IfOk, option_map};
ghost use Rattle.ocr_program_tree.specs.Tree.{FunctionTree};
ghost use Rattle.ocr_program_tree.specs.View.{tree_of};
ghost use Rattle.ocr_text.specs.Tokens.{AreTokens};
ghost use Rattle.ocr_program_grammar.specs.Lexemes.{IsTreeOf, IsSyntaxFault};
ghost use Rattle.ocr_program.specs.Answers.{Answers, IsFaultOrNoMemory, IsTreeOrNoMemory};
ghost use Rattle.ocr_program_parser.specs.Machine as machine;
ghost use Rattle.ocr_program_parser.specs.View.{state_of};

use crate::steps::step;
use ocr_base::NoMemory;
use ocr_program_grammar::{Tally, is_over, read_token, tally_after};
use ocr_program_parser::State;
use ocr_program_tree::Program;
use ocr_text::Token;
use std::alloc::{AllocError, Global};
use std::error::Error;
use std::fmt;

/// Where a text is no program: the first byte of the first token after which no program goes on, of
/// the 257th token of an outermost expression or of the `{` of the 65th level, whichever is first;
/// the text's length where the text ends too early.
#[derive(Clone, Copy, PartialEq, Eq, Debug)]
pub struct SyntaxFault {
    pub place: usize,
}

impl fmt::Display for SyntaxFault {
    ghost use Rattle.std.specs.Prelude.{Some};
    ghost use Rattle.ocr_program.specs.Messages.{fault_text};

    ghost output = { λ fault. Some (fault_text fault) };

    fn fmt<W: fmt::Write>(&self, f: &mut fmt::Formatter<W>) -> fmt::Result {
        write!(f, "no program goes on at byte {}", self.place)
    }
}

impl Error for SyntaxFault {}

/// Why a text has no program.
#[derive(Clone, Copy, PartialEq, Eq, Debug)]
pub enum ParseStop {
    /// The text is no program.
    Fault(SyntaxFault),
    /// Memory was refused.
    NoMemory,
}

impl fmt::Display for ParseStop {
    ghost use Rattle.std.specs.Prelude.{Some};
    ghost use Rattle.ocr_program.specs.Messages.{stop_text};

    ghost output = { λ stop. Some (stop_text stop) };

    fn fmt<W: fmt::Write>(&self, f: &mut fmt::Formatter<W>) -> fmt::Result {
        match self {
            ParseStop::Fault(fault) => fault.fmt(f),
            ParseStop::NoMemory => NoMemory.fmt(f),
        }
    }
}

impl Error for ParseStop {}

/// What the tokens of a text give.
#[derive(Drop)]
pub enum Parsed {
    Program(Program),
    Fault(usize),
}

/// The program, where the text may end here.
#[tactic(auto, using(crate::proofs::Unfinished::unfinished))]
fn finished(state: State) -> Option<Program>
    ensures { option_map tree_of result ≡ machine.program_of (state_of state) }
{
    match state {
        State::Functions(functions) => Some(Program { functions }),
        State::FunctionName(functions) => {
            drop(functions);
            None
        }
        State::FunctionOpen(functions, name) => {
            drop(functions);
            drop(name);
            None
        }
        State::InFunction(position, wanted) => {
            drop(position);
            drop(wanted);
            None
        }
    }
}

/// Reads the tokens one by one.
fn read(alloc: Global, bytes: &[u8], tokens: &[Token]) -> Result<Parsed, AllocError>
    requires { AreTokens bytes.now tokens.now }
    ensures { IfOk result (λ parsed. Answers parsed bytes.now tokens.now) }
{
    let mut state = State::Functions(Vec::new(alloc));
    let mut tally = Tally::START;
    for place in 0..tokens.len() {
        let token = tokens[place];
        let Some(lexeme) = read_token(alloc, bytes, token)? else {
            continue
        };
        tally = tally_after(tally, &lexeme);
        if is_over(tally) {
            drop(state);
            return Ok(Parsed::Fault(token.start));
        }
        let Some(next) = step(alloc, state, lexeme)? else {
            return Ok(Parsed::Fault(token.start))
        };
        state = next;
    }
    match finished(state) {
        Some(program) => Ok(Parsed::Program(program)),
        None => Ok(Parsed::Fault(bytes.len())),
    }
}

/// The program of a text with these tokens, or the first place where it is none.
#[tactic(auto, using(crate::proofs::One::same_tree, crate::proofs::One::same_place, crate::proofs::One::no_tree))]
pub fn parse(alloc: Global, bytes: &[u8], tokens: &[Token]) -> Result<Program, ParseStop>
    requires { AreTokens bytes.now tokens.now }
    ensures tree { IfOk result (λ p. IsTreeOf bytes.now tokens.now (tree_of p)) }
    ensures fault { (f : SyntaxFault) → result ≡ Err (ParseStop.Fault f)
        → IsSyntaxFault bytes.now tokens.now f.place }

    // The tree and the fault are one: what has a tree is refused for want of memory alone, and what
    // has a fault is refused.
    ensures whole_tree { (program : List FunctionTree) → IsTreeOf bytes.now tokens.now program
        → IsTreeOrNoMemory result program }
    ensures whole_fault { (place : ℕ) → IsSyntaxFault bytes.now tokens.now place
        → IsFaultOrNoMemory result place }
{
    match read(alloc, bytes, tokens) {
        Ok(Parsed::Program(program)) => Ok(program),
        Ok(Parsed::Fault(place)) => Err(ParseStop::Fault(SyntaxFault { place })),
        Err(_) => Err(ParseStop::NoMemory),
    }
}
