// The steps where one token alone goes on.
ghost use Rattle.std.specs.Prelude.{◌≡◌, IfOk};
ghost use Rattle.ocr_program_tree.specs.View.{expression_of, functions_of, statements_of};
ghost use Rattle.ocr_program_parser.specs.Machine as machine;
ghost use Rattle.ocr_program_parser.specs.View.{args_of, slots_after, stack_of, site_of, position_of, indexed_of, state_of, state_if_any};

use crate::calls::{argument, with_name};
use crate::stack::{Arg, CallSite, Indexed, Purpose, Stack};
use crate::statements::first_operand;
use crate::states::{Position, State, Wanted};
use ocr_program_grammar::{Lexeme, Word};
use ocr_program_tree::{BinaryOp, CallName, Function, Name};
use std::alloc::{AllocError, Global};

/// Wants `fn`.
pub fn function_word(functions: Vec<Function>, lexeme: &Lexeme) -> Option<State>
    ensures { state_if_any result
        ≡ machine.step (machine.Functions (functions_of functions.items)) lexeme.now }
{
    match lexeme {
        Lexeme::Word(Word::Fn) => Some(State::FunctionName(functions)),
        _ => None,
    }
}

/// Wants the name of a function.
pub fn function_name(functions: Vec<Function>, lexeme: Lexeme) -> Option<State>
    ensures { state_if_any result
        ≡ machine.step (machine.FunctionName (functions_of functions.items)) lexeme }
{
    match lexeme {
        Lexeme::Name(name) => Some(State::FunctionOpen(functions, name)),
        _ => None,
    }
}

/// Wants the `{` of a function.
pub fn function_open(
    alloc: Global,
    functions: Vec<Function>,
    name: Name,
    lexeme: &Lexeme,
) -> Option<State>
    ensures { state_if_any result
        ≡ machine.step (machine.FunctionOpen (functions_of functions.items) name) lexeme.now }
{
    match lexeme {
        Lexeme::OpenBrace => {
            let position = Position {
                functions,
                name,
                enclosing: Vec::new(alloc),
                statements: Vec::new(alloc),
            };
            Some(State::InFunction(position, Wanted::Statement))
        }
        _ => None,
    }
}

/// Wants the name of a variable after `let`.
pub fn let_name(position: Position, lexeme: Lexeme) -> Option<State>
    ensures { state_if_any result
        ≡ machine.step (machine.LetName (position_of position)) lexeme }
{
    match lexeme {
        Lexeme::Name(name) => Some(State::InFunction(position, Wanted::LetEquals(name))),
        _ => None,
    }
}

/// Wants the `=` of a `let`.
pub fn let_equals(position: Position, name: Name, lexeme: &Lexeme) -> Option<State>
    ensures { state_if_any result
        ≡ machine.step (machine.LetEquals (position_of position) name) lexeme.now }
{
    match lexeme {
        Lexeme::Equals => Some(first_operand(position, Purpose::Let(name))),
        _ => None,
    }
}

/// Wants the `=` of an assignment.
pub fn assign_equals(position: Position, name: Name, lexeme: &Lexeme) -> Option<State>
    ensures { state_if_any result
        ≡ machine.step (machine.AssignEquals (position_of position) name) lexeme.now }
{
    match lexeme {
        Lexeme::Equals => Some(first_operand(position, Purpose::Assign(name))),
        _ => None,
    }
}

/// Wants `[` after `paramv` or `depv`.
pub fn index_open(
    alloc: Global,
    position: Position,
    which: Indexed,
    stack: Stack,
    lexeme: &Lexeme,
) -> Result<Option<State>, AllocError>
    ensures { IfOk result (λ s. state_if_any s
        ≡ machine.step (machine.IndexOpen (position_of position) (indexed_of which)
        (stack_of stack)) lexeme.now) }
{
    match lexeme {
        Lexeme::OpenSquare => index_start(alloc, position, which, stack),
        _ => Ok(None),
    }
}

/// The state where an index begins.
fn index_start(
    alloc: Global,
    position: Position,
    which: Indexed,
    stack: Stack,
) -> Result<Option<State>, AllocError>
    ensures { IfOk result (λ s. state_if_any s
        ≡ Some (machine.Operand (position_of position)
        (machine.Index (indexed_of which) (stack_of stack)))) }
{
    let below = Box::new(alloc, stack)?;
    Ok(Some(State::InFunction(position, Wanted::Operand(Stack::Index(which, below)))))
}

/// Wants `(` after the name of a call.
#[tactic(auto, using(crate::proofs::CallLemmas::opened))]
pub fn call_open(
    alloc: Global,
    position: Position,
    call: CallName,
    site: CallSite,
    lexeme: &Lexeme,
) -> Option<State>
    ensures { state_if_any result
        ≡ machine.step (machine.CallOpen (position_of position) call (site_of site))
        lexeme.now }
{
    match lexeme {
        Lexeme::OpenRound => Some(argument(position, call, Vec::new(alloc), site)),
        _ => None,
    }
}

/// Wants the `[` of a list.
pub fn list_open(
    position: Position,
    call: CallName,
    args: Vec<Arg>,
    site: CallSite,
    lexeme: &Lexeme,
) -> Option<State>
    ensures { state_if_any result
        ≡ machine.step (machine.ListOpen (position_of position) call (args_of args.items)
        (slots_after call args.items) (site_of site)) lexeme.now }
{
    match lexeme {
        Lexeme::OpenSquare => {
            Some(State::InFunction(position, Wanted::ListStart(call, args, site)))
        }
        _ => None,
    }
}

/// Wants the name of a function as an argument.
#[tactic(auto, using(crate::proofs::CallLemmas::after_pushed))]
pub fn name_at(
    position: Position,
    call: CallName,
    args: Vec<Arg>,
    site: CallSite,
    lexeme: Lexeme,
) -> Result<Option<State>, AllocError>
    ensures { IfOk result (λ s. state_if_any s
        ≡ machine.step (machine.NameAt (position_of position) call (args_of args.items)
        (slots_after call args.items) (site_of site)) lexeme) }
{
    match lexeme {
        Lexeme::Name(name) => {
            let args = with_name(args, name)?;
            Ok(Some(State::InFunction(position, Wanted::AfterArgument(call, args, site))))
        }
        _ => Ok(None),
    }
}

/// Wants the `&` before an output.
pub fn output_and(
    position: Position,
    call: CallName,
    args: Vec<Arg>,
    site: CallSite,
    lexeme: &Lexeme,
) -> Option<State>
    ensures { state_if_any result
        ≡ machine.step (machine.OutputAnd (position_of position) call (args_of args.items)
        (site_of site)) lexeme.now }
{
    match lexeme {
        Lexeme::Operator(BinaryOp::And) => {
            Some(State::InFunction(position, Wanted::OutputName(call, args, site)))
        }
        _ => None,
    }
}

/// Wants the name of the variable after `&`.
#[tactic(auto, using(crate::proofs::CallLemmas::ending_pushed))]
pub fn output_name(
    position: Position,
    call: CallName,
    args: Vec<Arg>,
    site: CallSite,
    lexeme: Lexeme,
) -> Result<Option<State>, AllocError>
    ensures { IfOk result (λ s. state_if_any s
        ≡ machine.step (machine.OutputName (position_of position) call (args_of args.items)
        (site_of site)) lexeme) }
{
    match lexeme {
        Lexeme::Name(name) => {
            let args = with_name(args, name)?;
            Ok(Some(State::InFunction(position, Wanted::CallEnd(call, args, site))))
        }
        _ => Ok(None),
    }
}
