// The operators.
ghost use Rattle.std.specs.Prelude.{◌≡◌, ℕ, IfOk, IfErr};
ghost use Rattle.ocr_body_meaning.specs.Behaviour.{Behaviour, Stops};
ghost use Rattle.ocr_body_meaning.specs.Meaning as meaning;

use ocr_body_meaning::BodyStop;
use ocr_program_tree::{BinaryOp, UnaryOp};

/// The value of an operator before a value.
pub fn apply(op: UnaryOp, x: u64) -> u64
    ensures { result ≡ meaning.unary_value op x }
{
    match op {
        UnaryOp::Not => (x == 0) as u64,
        UnaryOp::Invert => !x,
        UnaryOp::Minus => x.wrapping_neg(),
    }
}

/// The value of an operator between two values. `ZeroDivisor` for a quotient or a remainder by 0.
#[inline(always)]
pub fn operate(op: BinaryOp, x: u64, y: u64) -> Result<u64, BodyStop>
    ensures ok { IfOk result (λ v. (k : ℕ → Behaviour) → meaning.binary_step op x y k ≡ k v) }
    ensures err { IfErr result (λ e. (k : ℕ → Behaviour) → meaning.binary_step op x y k ≡ Stops e) }
{
    match op {
        BinaryOp::Or => Ok(x | y),
        BinaryOp::Xor => Ok(x ^ y),
        BinaryOp::And => Ok(x & y),
        BinaryOp::Eq => Ok((x == y) as u64),
        BinaryOp::Ne => Ok((x != y) as u64),
        BinaryOp::Lt => Ok((x < y) as u64),
        BinaryOp::Le => Ok((x <= y) as u64),
        BinaryOp::Gt => Ok((x > y) as u64),
        BinaryOp::Ge => Ok((x >= y) as u64),
        BinaryOp::Shl => Ok(x.wrapping_shl((y % 64) as u32)),
        BinaryOp::Shr => Ok(x >> (y % 64)),
        BinaryOp::Add => Ok(x.wrapping_add(y)),
        BinaryOp::Sub => Ok(x.wrapping_sub(y)),
        BinaryOp::Mul => Ok(x.wrapping_mul(y)),
        BinaryOp::Div => {
            if y == 0 {
                return Err(BodyStop::ZeroDivisor);
            }
            Ok(x / y)
        }
        BinaryOp::Rem => {
            if y == 0 {
                return Err(BodyStop::ZeroDivisor);
            }
            Ok(x % y)
        }
    }
}
