// Signs before an operand.
ghost use Rattle.std.specs.Prelude.{◌≡◌, IfOk};
ghost use Rattle.ocr_program_tree.specs.Tree as tree;
ghost use Rattle.ocr_program_tree.specs.View.{expression_of};
ghost use Rattle.ocr_program_parser.specs.Stack as pending;
ghost use Rattle.ocr_program_parser.specs.StackView.{stack_of, under};

use crate::stack::{Signs, Stack};
use ocr_program_tree::{Expr, UnaryOp};
use std::alloc::{AllocError, Global};

/// What waits, and one more sign before the operand. An `Err` where memory is refused.
#[tactic(auto, using(crate::proofs::SignLemmas::onto_last))]
pub fn with_sign(alloc: Global, stack: Stack, op: UnaryOp) -> Result<Stack, AllocError>
    ensures { IfOk result (λ s. stack_of s ≡ pending.Prefix op (stack_of stack)) }
{
    match stack {
        Stack::Prefix(Signs { last, mut before }, below) => {
            before.push(last)?;
            Ok(Stack::Prefix(Signs { last: op, before }, below))
        }
        other => {
            let signs = Signs {
                last: op,
                before: Vec::new(alloc),
            };
            Ok(Stack::Prefix(signs, Box::new(alloc, other)?))
        }
    }
}

fn unary(alloc: Global, op: UnaryOp, operand: Box<Expr>) -> Result<Box<Expr>, AllocError>
    ensures { IfOk result
        (λ e. expression_of e.value ≡ tree.Unary op (expression_of operand.value)) }
{
    Ok(Box::new(alloc, Expr::Unary(op, operand))?)
}

/// The operand with all these signs before it.
#[tactic(auto, using(crate::proofs::SignLemmas::under_last))]
pub fn signed(alloc: Global, signs: Signs, operand: Box<Expr>) -> Result<Box<Expr>, AllocError>
    ensures { IfOk result (λ e. expression_of e.value ≡ under signs.before.items
        (tree.Unary signs.last (expression_of operand.value))) }
{
    let Signs { last, mut before } = signs;
    let mut operand = unary(alloc, last, operand)?;
    while let Some(op) = before.pop() {
        operand = unary(alloc, op, operand)?;
    }
    Ok(operand)
}
