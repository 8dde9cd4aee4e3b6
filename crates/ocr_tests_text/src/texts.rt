// How far a text gets, and its canonical text.
use ocr_program::{ParseStop, parse};
use ocr_program_canonical::print_program;
use ocr_program_check::{CheckStop, check};
use ocr_text::{TokensStop, tokens};
use std::alloc::Global;

/// Where a text stops.
#[derive(Clone, Copy, PartialEq, Eq, Debug)]
pub enum Stop {
    /// No token begins at the place.
    Token(usize),
    /// No program goes on at the place.
    Syntax(usize),
    /// The function breaks the rule.
    Rule(u32, u32),
    /// No test has so many.
    TooManyFunctions,
    NoMemory,
}

/// Where a text stops, none where it is a program that breaks no rule.
pub fn stop_of(alloc: Global, text: &[u8]) -> Option<Stop> {
    let list = match tokens(alloc, text) {
        Ok(list) => list,
        Err(TokensStop::Fault(fault)) => return Some(Stop::Token(fault.place)),
        Err(TokensStop::NoMemory) => return Some(Stop::NoMemory),
    };
    let program = match parse(alloc, text, list.as_slice()) {
        Ok(program) => program,
        Err(ParseStop::Fault(fault)) => return Some(Stop::Syntax(fault.place)),
        Err(ParseStop::NoMemory) => return Some(Stop::NoMemory),
    };
    if program.functions.len() > 1000 {
        return Some(Stop::TooManyFunctions);
    }
    match check(alloc, program) {
        Ok(_) => None,
        Err(CheckStop::Fault(fault)) => Some(Stop::Rule(fault.rule, fault.function)),
        Err(CheckStop::NoMemory) => Some(Stop::NoMemory),
    }
}

/// The canonical text of the program that a text is, where it is one.
pub fn canonical_of(alloc: Global, text: &[u8]) -> Option<Vec<u8>> {
    let list = tokens(alloc, text).ok()?;
    let program = parse(alloc, text, list.as_slice()).ok()?;
    print_program(alloc, &program).ok()
}
