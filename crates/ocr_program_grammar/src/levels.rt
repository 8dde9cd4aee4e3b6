// The levels of the operators: one of a higher level binds its operands closer.
ghost use Rattle.std.specs.Prelude.{◌≡◌};
ghost use Rattle.ocr_program_grammar.specs.Grammar as grammar;

use ocr_program_tree::BinaryOp;

/// The level of what no operator joins, above the levels of the operators.
pub const UNARY_LEVEL: u8 = 8;

/// The level of an operator, from the lowest.
pub fn level(op: BinaryOp) -> u8
    ensures { result ≡ grammar.level op }
{
    match op {
        BinaryOp::Or => 0,
        BinaryOp::Xor => 1,
        BinaryOp::And => 2,
        BinaryOp::Eq | BinaryOp::Ne => 3,
        BinaryOp::Lt | BinaryOp::Le | BinaryOp::Gt | BinaryOp::Ge => 4,
        BinaryOp::Shl | BinaryOp::Shr => 5,
        BinaryOp::Add | BinaryOp::Sub => 6,
        BinaryOp::Mul | BinaryOp::Div | BinaryOp::Rem => 7,
    }
}
