// Calls: what stands between the round brackets of one, and after it.
ghost use Rattle.std.specs.Prelude.{◌≡◌, ◌∷◌, IfOk, true, slice_get};
ghost use Rattle.ocr_program_tree.specs.Tree as tree;
ghost use Rattle.ocr_program_tree.specs.View.{expression_of, members_of};
ghost use Rattle.ocr_program_grammar.specs.Shape.{shape as slots_of};
ghost use Rattle.ocr_program_parser.specs.Joined.{with};
ghost use Rattle.ocr_program_parser.specs.Machine as machine;
ghost use Rattle.ocr_program_parser.specs.Fits.{fits, LeadsTo};
ghost use Rattle.ocr_program_parser.specs.View.{IsPushed, args_of, slots_left, slots_after, site_of, position_of, state_of, state_if_any};

use crate::invocation::invoke;
use crate::stack::{Arg, CallSite, Stack};
use crate::states::{Position, State, Wanted};
use ocr_program_grammar::{ArgumentKind, Lexeme, shape};
use ocr_program_tree::{CallName, Expr, Name};
use std::alloc::{AllocError, Global};

/// The slot that comes after so many arguments.
fn next_slot(call: CallName, place: usize) -> Option<ArgumentKind>
    ensures { result ≡ slice_get (slots_of call) place }
{
    shape(call).get(place).copied()
}

/// A call as an operand.
fn invoked(alloc: Global, call: CallName, args: Vec<Arg>) -> Result<Box<Expr>, AllocError>
    requires { fits (slots_of call) (args_of args.items) ≡ true }
    ensures { IfOk result
        (λ e. expression_of e.value ≡ tree.Invoked call (args_of args.items)) }
{
    let invoke = invoke(alloc, call, args)?;
    Ok(Box::new(alloc, Expr::Invoke(invoke))?)
}

/// The state after a whole call.
fn call_end(
    alloc: Global,
    position: Position,
    call: CallName,
    args: Vec<Arg>,
    site: CallSite,
) -> Result<State, AllocError>
    requires { fits (slots_of call) (args_of args.items) ≡ true }
    ensures { IfOk result (λ s. state_of s
        ≡ machine.after_call (position_of position) call (args_of args.items) (site_of site)) }
{
    match site {
        CallSite::InExpression(below) => {
            let operand = invoked(alloc, call, args)?;
            let stack = Box::into_inner(below);
            Ok(State::InFunction(position, Wanted::AfterOperand(stack, operand)))
        }
        CallSite::AsStatement => {
            let invoke = invoke(alloc, call, args)?;
            Ok(State::InFunction(position, Wanted::AfterCall(invoke)))
        }
    }
}

/// The state where the next argument of a call begins, or its end where it has no slot more.
#[tactic(auto, using(crate::proofs::CallLemmas::argument_none, crate::proofs::CallLemmas::argument_value, crate::proofs::CallLemmas::argument_values, crate::proofs::CallLemmas::argument_named, crate::proofs::CallLemmas::argument_flags))]
pub fn argument(position: Position, call: CallName, args: Vec<Arg>, site: CallSite) -> State
    ensures { state_of result ≡ machine.argument (position_of position) call (args_of args.items)
        (slots_left call args.items) (site_of site) }
{
    let wanted = match next_slot(call, args.len()) {
        None => Wanted::CallEnd(call, args, site),
        Some(ArgumentKind::Value) => Wanted::Operand(Stack::Argument(call, args, site)),
        Some(ArgumentKind::Values) => Wanted::ListOpen(call, args, site),
        Some(ArgumentKind::NameOfFunction) => Wanted::NameAt(call, args, site),
        Some(ArgumentKind::FlagsAndOutput) => Wanted::Operand(Stack::FlagsArgument(
            call, args, site,
        )),
    };
    State::InFunction(position, wanted)
}

/// The token after the last argument: `)`. None with another, and an `Err` where memory is refused.
pub fn at_call_end(
    alloc: Global,
    position: Position,
    call: CallName,
    args: Vec<Arg>,
    site: CallSite,
    lexeme: &Lexeme,
) -> Result<Option<State>, AllocError>
    requires { fits (slots_of call) (args_of args.items) ≡ true }
    ensures { IfOk result (λ s. state_if_any s ≡ machine.at_end (position_of position) call
        (args_of args.items) (site_of site) lexeme.now) }
{
    match lexeme {
        Lexeme::CloseRound => Ok(Some(call_end(alloc, position, call, args, site)?)),
        _ => Ok(None),
    }
}

/// The token after an argument that is not the last.
fn at_comma(
    position: Position,
    call: CallName,
    args: Vec<Arg>,
    site: CallSite,
    lexeme: &Lexeme,
) -> Option<State>
    ensures { state_if_any result ≡ machine.at_comma (position_of position) call
        (args_of args.items) (slots_left call args.items) (site_of site) lexeme.now }
{
    match lexeme {
        Lexeme::Comma => Some(argument(position, call, args, site)),
        _ => None,
    }
}

/// The token after an argument: `,` where a slot is left, else `)`. None with another, and an `Err`
/// where memory is refused.
#[tactic(auto, using(crate::proofs::CallLemmas::followed_none, crate::proofs::CallLemmas::followed_some, crate::proofs::CallLemmas::fits_at_end))]
pub fn after_argument(
    alloc: Global,
    position: Position,
    call: CallName,
    args: Vec<Arg>,
    site: CallSite,
    lexeme: &Lexeme,
) -> Result<Option<State>, AllocError>
    requires { LeadsTo call (args_of args.items) (slots_left call args.items) }
    ensures { IfOk result (λ s. state_if_any s ≡ machine.after_argument (position_of position) call
        (args_of args.items) (slots_left call args.items) (site_of site) lexeme.now) }
{
    match next_slot(call, args.len()) {
        None => at_call_end(alloc, position, call, args, site, lexeme),
        Some(_) => Ok(at_comma(position, call, args, site, lexeme)),
    }
}

/// The arguments so far and a value. An `Err` where memory is refused.
pub fn with_value(args: Vec<Arg>, value: Box<Expr>) -> Result<Vec<Arg>, AllocError>
    ensures { IfOk result
        (λ r. IsPushed args.items r.items (tree.value (expression_of value.value) tree.empty)) }
{
    let mut args = args;
    args.push(Arg::Value(value))?;
    Ok(args)
}

/// The arguments so far and a list. An `Err` where memory is refused.
pub fn with_list(args: Vec<Arg>, members: Vec<Expr>) -> Result<Vec<Arg>, AllocError>
    ensures { IfOk result
        (λ r. IsPushed args.items r.items (tree.list (members_of members.items) tree.empty)) }
{
    let mut args = args;
    args.push(Arg::List(members))?;
    Ok(args)
}

/// The arguments so far and a name. An `Err` where memory is refused.
pub fn with_name(args: Vec<Arg>, name: Name) -> Result<Vec<Arg>, AllocError>
    ensures { IfOk result (λ r. IsPushed args.items r.items (tree.named name tree.empty)) }
{
    let mut args = args;
    args.push(Arg::Named(name))?;
    Ok(args)
}

/// The members of a list so far and one more. An `Err` where memory is refused.
#[tactic(auto, using(crate::proofs::Lists::members_more))]
pub fn with_member(members: Vec<Expr>, member: Box<Expr>) -> Result<Vec<Expr>, AllocError>
    ensures { IfOk result (λ r. members_of r.items
        ≡ with (members_of members.items) (tree.value (expression_of member.value) tree.empty)) }
{
    let mut members = members;
    members.push(Box::into_inner(member))?;
    Ok(members)
}

/// The token after a member of a list: `,` or `]`. None with another, and an `Err` where memory is
/// refused.
#[tactic(auto, using(crate::proofs::CallLemmas::after_pushed))]
pub fn after_member(
    position: Position,
    call: CallName,
    args: Vec<Arg>,
    members: Vec<Expr>,
    site: CallSite,
    lexeme: &Lexeme,
) -> Result<Option<State>, AllocError>
    ensures { IfOk result (λ s. state_if_any s ≡ machine.after_member (position_of position) call
        (args_of args.items) (members_of members.items) (slots_after call args.items)
        (site_of site) lexeme.now) }
{
    match lexeme {
        Lexeme::Comma => {
            let next = Stack::Member(call, args, members, site);
            Ok(Some(State::InFunction(position, Wanted::Operand(next))))
        }
        Lexeme::CloseSquare => {
            let args = with_list(args, members)?;
            Ok(Some(State::InFunction(position, Wanted::AfterArgument(call, args, site))))
        }
        _ => Ok(None),
    }
}

/// The token after the flags of a call: `)`, or `,` before an output. None with another, and an
/// `Err` where memory is refused.
pub fn after_flags(
    alloc: Global,
    position: Position,
    call: CallName,
    args: Vec<Arg>,
    site: CallSite,
    lexeme: &Lexeme,
) -> Result<Option<State>, AllocError>
    requires { fits (slots_of call) (args_of args.items) ≡ true }
    ensures { IfOk result (λ s. state_if_any s ≡ machine.after_flags (position_of position) call
        (args_of args.items) (site_of site) lexeme.now) }
{
    match lexeme {
        Lexeme::CloseRound => Ok(Some(call_end(alloc, position, call, args, site)?)),
        Lexeme::Comma => {
            Ok(Some(State::InFunction(position, Wanted::OutputAnd(call, args, site))))
        }
        _ => Ok(None),
    }
}
