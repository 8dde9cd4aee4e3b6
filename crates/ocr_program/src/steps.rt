// One step of the reading: what is wanted next, and the token that comes.
ghost use Rattle.std.specs.Prelude.{◌≡◌, IfOk};
ghost use Rattle.ocr_program_parser.specs.Machine as machine;
ghost use Rattle.ocr_program_parser.specs.Fits.{IsFittingState};
ghost use Rattle.ocr_program_parser.specs.View.{position_of, wanted_of, state_of, state_if_any};

use crate::expressions::{after_operand, operand};
use crate::lists::list_start;
use ocr_program_grammar::Lexeme;
use ocr_program_parser::{
    BlockKind, Position, State, Wanted, after_argument, after_call, assign_equals, at_brace,
    at_call_end, at_statement, call_open, function_name, function_open, function_word, index_open,
    let_equals, let_name, list_open, may_else, name_at, output_and, output_name,
};
use std::alloc::{AllocError, Global};

/// The state after one more token, none where no program goes on with it.
pub fn step(alloc: Global, state: State, lexeme: Lexeme) -> Result<Option<State>, AllocError>
    requires { IsFittingState (state_of state) }
    ensures { IfOk result (λ s. state_if_any s ≡ machine.step (state_of state) lexeme) }
{
    match state {
        State::Functions(functions) => Ok(function_word(functions, &lexeme)),
        State::FunctionName(functions) => Ok(function_name(functions, lexeme)),
        State::FunctionOpen(functions, name) => {
            Ok(function_open(alloc, functions, name, &lexeme))
        }
        State::InFunction(position, wanted) => step_within(alloc, position, wanted, lexeme),
    }
}

fn step_within(
    alloc: Global,
    position: Position,
    wanted: Wanted,
    lexeme: Lexeme,
) -> Result<Option<State>, AllocError>
    requires { IsFittingState (wanted_of (position_of position) wanted) }
    ensures { IfOk result
        (λ s. state_if_any s ≡ machine.step (wanted_of (position_of position) wanted) lexeme) }
{
    match wanted {
        Wanted::Statement => at_statement(position, lexeme),
        Wanted::LetName => Ok(let_name(position, lexeme)),
        Wanted::LetEquals(name) => Ok(let_equals(position, name, &lexeme)),
        Wanted::AssignEquals(name) => Ok(assign_equals(position, name, &lexeme)),
        Wanted::AfterCall(call) => after_call(position, call, &lexeme),
        Wanted::MayElse(test, first) => may_else(alloc, position, test, first, lexeme),
        Wanted::ElseOpen(test, first) => {
            at_brace(alloc, position, BlockKind::ElseBody(test, first), &lexeme)
        }
        Wanted::Operand(stack) => operand(alloc, position, stack, lexeme),
        Wanted::IndexOpen(which, stack) => index_open(alloc, position, which, stack, &lexeme),
        Wanted::CallOpen(call, site) => Ok(call_open(alloc, position, call, site, &lexeme)),
        Wanted::CallEnd(call, args, site) => {
            at_call_end(alloc, position, call, args, site, &lexeme)
        }
        Wanted::ListOpen(call, args, site) => Ok(list_open(position, call, args, site, &lexeme)),
        Wanted::ListStart(call, args, site) => {
            list_start(alloc, position, call, args, site, lexeme)
        }
        Wanted::NameAt(call, args, site) => name_at(position, call, args, site, lexeme),
        Wanted::AfterArgument(call, args, site) => {
            after_argument(alloc, position, call, args, site, &lexeme)
        }
        Wanted::OutputAnd(call, args, site) => {
            Ok(output_and(position, call, args, site, &lexeme))
        }
        Wanted::OutputName(call, args, site) => output_name(position, call, args, site, lexeme),
        Wanted::AfterOperand(stack, value) => after_operand(alloc, position, stack, value, &lexeme),
    }
}
