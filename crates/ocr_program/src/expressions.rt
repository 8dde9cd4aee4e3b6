// Expressions: what begins one, what goes on with it, and what ends it.
ghost use Rattle.std.specs.Prelude.{◌≡◌, ◌∷◌, IfOk};
ghost use Rattle.ocr_program_tree.specs.View.{expression_of, members_of};
ghost use Rattle.ocr_program_tree.specs.Tree as tree;
ghost use Rattle.ocr_program_grammar.specs.declared.argument_kind.ArgumentKind.TheVariants as slot;
ghost use Rattle.ocr_program_parser.specs.Joined.{with};
ghost use Rattle.ocr_program_parser.specs.Machine as machine;
ghost use Rattle.ocr_program_parser.specs.Fits.{LeadsTo, LeadsToFlags, IsFitting};
ghost use Rattle.ocr_program_parser.specs.View.{args_of, slots_after, stack_of, site_of, position_of, indexed_of, state_of, state_if_any};

use ocr_program_grammar::{Lexeme, Word, level};
use ocr_program_parser::{
    Arg, CallSite, Indexed, Position, Stack, State, Wanted, after_argument, after_flags,
    after_member, at_expression_end, fold, with_member, with_sign, with_value,
};
use ocr_program_tree::{BinaryOp, CallName, Expr, UnaryOp};
use std::alloc::{AllocError, Global};

/// The operator between two operands that a token is, if it is one.
fn operator(lexeme: &Lexeme) -> Option<BinaryOp>
    ensures { result ≡ machine.operator lexeme.now }
{
    match lexeme {
        Lexeme::Operator(op) => Some(*op),
        _ => None,
    }
}

/// The token where an operand may begin.
pub fn operand(
    alloc: Global,
    position: Position,
    stack: Stack,
    lexeme: Lexeme,
) -> Result<Option<State>, AllocError>
    ensures { IfOk result
        (λ s. state_if_any s ≡ machine.operand (position_of position) (stack_of stack) lexeme) }
{
    match lexeme {
        Lexeme::Number(number) => leaf(alloc, position, stack, Expr::Number(number)),
        Lexeme::Constant(constant) => leaf(alloc, position, stack, Expr::Constant(constant)),
        Lexeme::Name(name) => leaf(alloc, position, stack, Expr::Var(name)),
        Lexeme::Word(word) => word_operand(alloc, position, stack, word),
        Lexeme::Not => prefix(alloc, position, stack, UnaryOp::Not),
        Lexeme::Invert => prefix(alloc, position, stack, UnaryOp::Invert),
        Lexeme::Operator(BinaryOp::Sub) => prefix(alloc, position, stack, UnaryOp::Minus),
        Lexeme::OpenRound => open_round(alloc, position, stack),
        Lexeme::Call(call) => open_call(alloc, position, stack, call),
        _ => Ok(None),
    }
}

/// The state after an operand of one token.
fn leaf(
    alloc: Global,
    position: Position,
    stack: Stack,
    leaf: Expr,
) -> Result<Option<State>, AllocError>
    ensures { IfOk result (λ s. state_if_any s
        ≡ Some (machine.AfterOperand (position_of position) (stack_of stack)
        (expression_of leaf))) }
{
    let operand = Box::new(alloc, leaf)?;
    Ok(Some(State::InFunction(position, Wanted::AfterOperand(stack, operand))))
}

/// The same where a reserved word stands.
fn word_operand(
    alloc: Global,
    position: Position,
    stack: Stack,
    word: Word,
) -> Result<Option<State>, AllocError>
    ensures { IfOk result (λ s. state_if_any s
        ≡ machine.operand (position_of position) (stack_of stack) (Lexeme.Word word)) }
{
    match word {
        Word::Paramc => leaf(alloc, position, stack, Expr::Paramc),
        Word::Depc => leaf(alloc, position, stack, Expr::Depc),
        Word::Code => leaf(alloc, position, stack, Expr::Code),
        Word::Paramv => Ok(Some(index_of(position, stack, Indexed::Parameters))),
        Word::Depv => Ok(Some(index_of(position, stack, Indexed::Dependences))),
        _ => Ok(None),
    }
}

fn index_of(position: Position, stack: Stack, which: Indexed) -> State
    ensures { state_of result
        ≡ machine.IndexOpen (position_of position) (indexed_of which) (stack_of stack) }
{
    State::InFunction(position, Wanted::IndexOpen(which, stack))
}

fn prefix(
    alloc: Global,
    position: Position,
    stack: Stack,
    op: UnaryOp,
) -> Result<Option<State>, AllocError>
    ensures { IfOk result (λ s. state_if_any s
        ≡ Some (machine.Operand (position_of position) (machine.Prefix op (stack_of stack)))) }
{
    let stack = with_sign(alloc, stack, op)?;
    Ok(Some(State::InFunction(position, Wanted::Operand(stack))))
}

fn open_round(alloc: Global, position: Position, stack: Stack) -> Result<Option<State>, AllocError>
    ensures { IfOk result (λ s. state_if_any s
        ≡ Some (machine.Operand (position_of position) (machine.Round (stack_of stack)))) }
{
    let below = Box::new(alloc, stack)?;
    Ok(Some(State::InFunction(position, Wanted::Operand(Stack::Round(below)))))
}

fn open_call(
    alloc: Global,
    position: Position,
    stack: Stack,
    call: CallName,
) -> Result<Option<State>, AllocError>
    ensures { IfOk result (λ s. state_if_any s
        ≡ Some (machine.CallOpen (position_of position) call
        (machine.InExpression (stack_of stack)))) }
{
    let site = CallSite::InExpression(Box::new(alloc, stack)?);
    Ok(Some(State::InFunction(position, Wanted::CallOpen(call, site))))
}

/// The token after an expression in brackets, after an argument or after a whole expression.
fn at_operand_end(
    alloc: Global,
    position: Position,
    stack: Stack,
    operand: Box<Expr>,
    lexeme: &Lexeme,
) -> Result<Option<State>, AllocError>
    requires { IsFitting (stack_of stack) }
    ensures { IfOk result (λ s. state_if_any s ≡ machine.at_operand_end (position_of position)
        (stack_of stack) (expression_of operand.value) lexeme.now) }
{
    match stack {
        Stack::Bottom(purpose) => at_expression_end(alloc, position, purpose, operand, lexeme),
        Stack::Round(below) => Ok(at_round_end(position, below, operand, lexeme)),
        Stack::Index(which, below) => at_index_end(alloc, position, which, below, operand, lexeme),
        Stack::Argument(call, args, site) => {
            after_value(alloc, position, call, args, site, operand, lexeme)
        }
        Stack::Member(call, args, members, site) => {
            let members = with_member(members, operand)?;
            after_member(position, call, args, members, site, lexeme)
        }
        Stack::FlagsArgument(call, args, site) => {
            after_flags_value(alloc, position, call, args, site, operand, lexeme)
        }
        Stack::Left(left, _, below) => {
            drop(left);
            drop(below);
            Ok(None)
        }
        Stack::Prefix(signs, below) => {
            drop(signs);
            drop(below);
            Ok(None)
        }
    }
}

fn at_round_end(
    position: Position,
    below: Box<Stack>,
    operand: Box<Expr>,
    lexeme: &Lexeme,
) -> Option<State>
    ensures { state_if_any result ≡ machine.at_operand_end (position_of position)
        (machine.Round (stack_of below.value)) (expression_of operand.value) lexeme.now }
{
    match lexeme {
        Lexeme::CloseRound => {
            let stack = Box::into_inner(below);
            Some(State::InFunction(position, Wanted::AfterOperand(stack, operand)))
        }
        _ => None,
    }
}

fn at_index_end(
    alloc: Global,
    position: Position,
    which: Indexed,
    below: Box<Stack>,
    operand: Box<Expr>,
    lexeme: &Lexeme,
) -> Result<Option<State>, AllocError>
    ensures { IfOk result (λ s. state_if_any s ≡ machine.at_operand_end (position_of position)
        (machine.Index (indexed_of which) (stack_of below.value)) (expression_of operand.value)
        lexeme.now) }
{
    match lexeme {
        Lexeme::CloseSquare => {
            let operand = element(alloc, which, operand)?;
            let stack = Box::into_inner(below);
            Ok(Some(State::InFunction(position, Wanted::AfterOperand(stack, operand))))
        }
        _ => Ok(None),
    }
}

/// The element of a list at an index.
fn element(alloc: Global, which: Indexed, index: Box<Expr>) -> Result<Box<Expr>, AllocError>
    ensures { IfOk result (λ e. expression_of e.value
        ≡ machine.element_of (indexed_of which) (expression_of index.value)) }
{
    match which {
        Indexed::Parameters => Ok(Box::new(alloc, Expr::Paramv(index))?),
        Indexed::Dependences => Ok(Box::new(alloc, Expr::Depv(index))?),
    }
}

/// The token after a value that is an argument.
#[tactic(auto, using(ocr_program_parser::proofs::CallLemmas::leads_pushed, ocr_program_parser::proofs::CallLemmas::followed_pushed))]
fn after_value(
    alloc: Global,
    position: Position,
    call: CallName,
    args: Vec<Arg>,
    site: CallSite,
    operand: Box<Expr>,
    lexeme: &Lexeme,
) -> Result<Option<State>, AllocError>
    requires { LeadsTo call (args_of args.items) (slot.Value ∷ slots_after call args.items) }
    ensures { IfOk result (λ s. state_if_any s ≡ machine.after_argument (position_of position) call
        (with (args_of args.items) (tree.value (expression_of operand.value) tree.empty))
        (slots_after call args.items) (site_of site) lexeme.now) }
{
    let args = with_value(args, operand)?;
    after_argument(alloc, position, call, args, site, lexeme)
}

/// The token after a value that is the flags of a call.
#[tactic(auto, using(ocr_program_parser::proofs::CallLemmas::flags_pushed, ocr_program_parser::proofs::CallLemmas::after_flags_pushed))]
fn after_flags_value(
    alloc: Global,
    position: Position,
    call: CallName,
    args: Vec<Arg>,
    site: CallSite,
    operand: Box<Expr>,
    lexeme: &Lexeme,
) -> Result<Option<State>, AllocError>
    requires { LeadsToFlags call (args_of args.items) }
    ensures { IfOk result (λ s. state_if_any s ≡ machine.after_flags (position_of position) call
        (with (args_of args.items) (tree.value (expression_of operand.value) tree.empty))
        (site_of site) lexeme.now) }
{
    let args = with_value(args, operand)?;
    after_flags(alloc, position, call, args, site, lexeme)
}

/// The token after an operand: what goes on with an expression, or ends it.
#[tactic(auto, using(ocr_program_parser::proofs::CallLemmas::closed_held, ocr_program_parser::proofs::CallLemmas::infixed_held, ocr_program_parser::proofs::CallLemmas::fitting_held))]
pub fn after_operand(
    alloc: Global,
    position: Position,
    stack: Stack,
    operand: Box<Expr>,
    lexeme: &Lexeme,
) -> Result<Option<State>, AllocError>
    requires { IsFitting (stack_of stack) }
    ensures { IfOk result (λ s. state_if_any s ≡ machine.after (position_of position)
        (stack_of stack) (expression_of operand.value) lexeme.now (machine.operator lexeme.now)) }
{
    match operator(lexeme) {
        Some(op) => {
            let (stack, left) = fold(alloc, level(op), stack, operand)?;
            let below = Box::new(alloc, stack)?;
            Ok(Some(State::InFunction(position, Wanted::Operand(Stack::Left(left, op, below)))))
        }
        None => {
            let (stack, operand) = fold(alloc, 0, stack, operand)?;
            at_operand_end(alloc, position, stack, operand, lexeme)
        }
    }
}
