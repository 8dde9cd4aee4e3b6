// Folding: an operand and the operators that wait for it are put together.
ghost use Rattle.std.specs.Prelude.{◌≡◌, IfOk};
ghost use Rattle.ocr_program_tree.specs.Tree as tree;
ghost use Rattle.ocr_program_tree.specs.View.{expression_of};
ghost use Rattle.ocr_program_parser.specs.Stack as pending;
ghost use Rattle.ocr_program_parser.specs.StackView.{held_of, stack_of};

use crate::signs::signed;
use crate::stack::Stack;
use ocr_program_grammar::level;
use ocr_program_tree::{BinaryOp, Expr};
use std::alloc::{AllocError, Global};

fn binary(
    alloc: Global,
    op: BinaryOp,
    left: Box<Expr>,
    right: Box<Expr>,
) -> Result<Box<Expr>, AllocError>
    ensures { IfOk result (λ e. expression_of e.value
        ≡ tree.Binary op (expression_of left.value) (expression_of right.value)) }
{
    Ok(Box::new(alloc, Expr::Binary(op, left, right))?)
}

/// Puts together what binds as close as this level.
#[tactic(auto, using(crate::proofs::SignLemmas::fold_signs, crate::proofs::SignLemmas::signs_height))]
pub fn fold(
    alloc: Global,
    low: u8,
    stack: Stack,
    operand: Box<Expr>,
) -> Result<(Stack, Box<Expr>), AllocError>
    ensures { IfOk result (λ r. held_of r.0 r.1.value
        ≡ pending.fold_of low (stack_of stack) (expression_of operand.value)) }
{
    let mut stack = stack;
    let mut operand = operand;
    loop {
        match stack {
            Stack::Left(left, op, below) => {
                if level(op) < low {
                    return Ok((Stack::Left(left, op, below), operand));
                }
                operand = binary(alloc, op, left, operand)?;
                stack = Box::into_inner(below);
            }
            Stack::Prefix(signs, below) => {
                operand = signed(alloc, signs, operand)?;
                stack = Box::into_inner(below);
            }
            Stack::Bottom(purpose) => return Ok((Stack::Bottom(purpose), operand)),
            Stack::Round(below) => return Ok((Stack::Round(below), operand)),
            Stack::Index(which, below) => return Ok((Stack::Index(which, below), operand)),
            Stack::Argument(call, args, site) => {
                return Ok((Stack::Argument(call, args, site), operand));
            }
            Stack::Member(call, args, members, site) => {
                return Ok((Stack::Member(call, args, members, site), operand));
            }
            Stack::FlagsArgument(call, args, site) => {
                return Ok((Stack::FlagsArgument(call, args, site), operand));
            }
        }
    }
}
