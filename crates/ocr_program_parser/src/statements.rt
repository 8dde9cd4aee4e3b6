// Statements, blocks and functions.
ghost use Rattle.std.specs.Prelude.{◌≡◌, IfOk};
ghost use Rattle.ocr_program_tree.specs.Tree as tree;
ghost use Rattle.ocr_program_tree.specs.View.{arguments_of, expression_of, name_of, statement_of, statements_of};
ghost use Rattle.ocr_program_parser.specs.Machine as machine;
ghost use Rattle.ocr_program_parser.specs.Marks.{is_else};
ghost use Rattle.ocr_program_parser.specs.View.{position_of, block_kind_of, purpose_of, state_of, state_if_any, after_block_end};

use crate::blocks::{choice, repetition};
use crate::stack::{CallSite, Purpose, Stack};
use crate::states::{BlockKind, OpenBlock, Position, State, Wanted};
use ocr_program_grammar::{Lexeme, Word};
use ocr_program_tree::{Expr, Function, Invoke, Stmt};
use std::alloc::{AllocError, Global};

/// The place after one more statement.
#[tactic(auto, using(crate::proofs::Lists::statements_more))]
fn with_statement(position: Position, stmt: Stmt) -> Result<Position, AllocError>
    ensures { IfOk result
        (λ p. position_of p ≡ machine.with_statement (position_of position) (statement_of stmt)) }
{
    let mut position = position;
    position.statements.push(stmt)?;
    Ok(position)
}

fn after_statement(position: Position, stmt: Stmt) -> Result<Option<State>, AllocError>
    ensures { IfOk result (λ s. state_if_any s
        ≡ Some (machine.AtStatement
        (machine.with_statement (position_of position) (statement_of stmt)))) }
{
    Ok(Some(State::InFunction(with_statement(position, stmt)?, Wanted::Statement)))
}

/// The state where a block begins.
#[tactic(auto, using(crate::proofs::Lists::enclosing_more))]
pub fn block_start(alloc: Global, position: Position, kind: BlockKind) -> Result<State, AllocError>
    ensures { IfOk result
        (λ s. state_of s ≡ machine.block_start (position_of position) (block_kind_of kind)) }
{
    let Position {
        functions,
        name,
        mut enclosing,
        statements,
    } = position;
    enclosing.push(OpenBlock { statements, kind })?;
    let inner = Position {
        functions,
        name,
        enclosing,
        statements: Vec::new(alloc),
    };
    Ok(State::InFunction(inner, Wanted::Statement))
}

/// The token after a statement that ends with a semicolon.
fn at_semicolon(
    position: Position,
    stmt: Stmt,
    lexeme: &Lexeme,
) -> Result<Option<State>, AllocError>
    ensures { IfOk result (λ s. state_if_any s
        ≡ machine.at_semicolon (position_of position) (statement_of stmt) lexeme.now) }
{
    match lexeme {
        Lexeme::Semicolon => after_statement(position, stmt),
        _ => {
            drop(position);
            drop(stmt);
            Ok(None)
        }
    }
}

/// The token after what stands before a block: `{`. None with another, and an `Err` where memory is
/// refused.
pub fn at_brace(
    alloc: Global,
    position: Position,
    kind: BlockKind,
    lexeme: &Lexeme,
) -> Result<Option<State>, AllocError>
    ensures { IfOk result (λ s. state_if_any s
        ≡ machine.at_brace (position_of position) (block_kind_of kind) lexeme.now) }
{
    match lexeme {
        Lexeme::OpenBrace => Ok(Some(block_start(alloc, position, kind)?)),
        _ => Ok(None),
    }
}

/// The token after a whole outermost expression: `;`, or `{` where it is a test. None with another,
/// and an `Err` where memory is refused.
pub fn at_expression_end(
    alloc: Global,
    position: Position,
    purpose: Purpose,
    operand: Box<Expr>,
    lexeme: &Lexeme,
) -> Result<Option<State>, AllocError>
    ensures { IfOk result (λ s. state_if_any s ≡ machine.at_expression_end (position_of position)
        (purpose_of purpose) (expression_of operand.value) lexeme.now) }
{
    match purpose {
        Purpose::Let(name) => {
            let value = Box::into_inner(operand);
            at_semicolon(position, Stmt::Let { name, value }, lexeme)
        }
        Purpose::Assign(name) => {
            let value = Box::into_inner(operand);
            at_semicolon(position, Stmt::Assign { name, value }, lexeme)
        }
        Purpose::Test => at_brace(alloc, position, BlockKind::IfBody(operand), lexeme),
        Purpose::Repeat => at_brace(alloc, position, BlockKind::WhileBody(operand), lexeme),
        Purpose::Print => {
            let value = Box::into_inner(operand);
            at_semicolon(position, Stmt::Print { value }, lexeme)
        }
        Purpose::Return => {
            let value = Box::into_inner(operand);
            at_semicolon(position, Stmt::Return { value }, lexeme)
        }
    }
}

/// The token after a call that stands alone: `;`. None with another, and an `Err` where memory is
/// refused.
pub fn after_call(
    position: Position,
    call: Box<Invoke>,
    lexeme: &Lexeme,
) -> Result<Option<State>, AllocError>
    ensures { IfOk result (λ s. state_if_any s ≡ machine.at_semicolon (position_of position)
        (tree.Do (name_of call.value) (arguments_of call.value)) lexeme.now) }
{
    at_semicolon(position, Stmt::Invoke(Box::into_inner(call)), lexeme)
}

/// The state after the end of the block at hand.
#[tactic(auto, using(crate::proofs::Lists::enclosing_more, crate::proofs::Lists::functions_more))]
fn block_end(position: Position) -> Result<State, AllocError>
    ensures { IfOk result (λ s. state_of s ≡ after_block_end (position_of position)) }
{
    let Position {
        mut functions,
        name,
        mut enclosing,
        statements: body,
    } = position;
    let Some(last) = enclosing.pop() else {
        functions.push(Function { name, body })?;
        return Ok(State::Functions(functions));
    };
    let OpenBlock { statements, kind } = last;
    let position = Position {
        functions,
        name,
        enclosing,
        statements,
    };
    match kind {
        BlockKind::WhileBody(test) => {
            let stmt = repetition(Box::into_inner(test), body);
            Ok(State::InFunction(with_statement(position, stmt)?, Wanted::Statement))
        }
        BlockKind::IfBody(test) => Ok(State::InFunction(position, Wanted::MayElse(test, body))),
        BlockKind::ElseBody(test, first) => {
            let stmt = choice(Box::into_inner(test), first, body);
            Ok(State::InFunction(with_statement(position, stmt)?, Wanted::Statement))
        }
    }
}

/// The token where a statement may begin, or the block at hand end. None with another, and an `Err`
/// where memory is refused.
pub fn at_statement(position: Position, lexeme: Lexeme) -> Result<Option<State>, AllocError>
    ensures { IfOk result
        (λ s. state_if_any s ≡ machine.at_statement (position_of position) lexeme) }
{
    match lexeme {
        Lexeme::Word(word) => Ok(word_statement(position, word)),
        Lexeme::Name(name) => Ok(Some(State::InFunction(position, Wanted::AssignEquals(name)))),
        Lexeme::Call(call) => {
            let wanted = Wanted::CallOpen(call, CallSite::AsStatement);
            Ok(Some(State::InFunction(position, wanted)))
        }
        Lexeme::CloseBrace => Ok(Some(block_end(position)?)),
        _ => Ok(None),
    }
}

/// The state where an outermost expression begins.
pub fn first_operand(position: Position, purpose: Purpose) -> State
    ensures { state_of result
        ≡ machine.Operand (position_of position) (machine.Bottom (purpose_of purpose)) }
{
    State::InFunction(position, Wanted::Operand(Stack::Bottom(purpose)))
}

/// The same where a reserved word stands.
fn word_statement(position: Position, word: Word) -> Option<State>
    ensures { state_if_any result ≡ machine.at_statement (position_of position) (Lexeme.Word word) }
{
    match word {
        Word::Let => Some(State::InFunction(position, Wanted::LetName)),
        Word::If => Some(first_operand(position, Purpose::Test)),
        Word::While => Some(first_operand(position, Purpose::Repeat)),
        Word::Print => Some(first_operand(position, Purpose::Print)),
        Word::Return => Some(first_operand(position, Purpose::Return)),
        _ => None,
    }
}

/// Whether a second block comes.
fn is_else_word(lexeme: &Lexeme) -> bool
    ensures { result ≡ is_else lexeme.now }
{
    match lexeme {
        Lexeme::Word(Word::Else) => true,
        _ => false,
    }
}

/// The token after the first block of a choice: `else`, or what may stand after the choice. None
/// with another, and an `Err` where memory is refused.
#[tactic(auto, using(crate::proofs::Marks::else_comes))]
pub fn may_else(
    alloc: Global,
    position: Position,
    test: Box<Expr>,
    first: Vec<Stmt>,
    lexeme: Lexeme,
) -> Result<Option<State>, AllocError>
    ensures { IfOk result (λ s. state_if_any s ≡ machine.may_else (position_of position)
        (expression_of test.value) (statements_of first.items) lexeme) }
{
    if is_else_word(&lexeme) {
        return Ok(Some(State::InFunction(position, Wanted::ElseOpen(test, first))));
    }
    let stmt = choice(Box::into_inner(test), first, Vec::new(alloc));
    let position = with_statement(position, stmt)?;
    at_statement(position, lexeme)
}
