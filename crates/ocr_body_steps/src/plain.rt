//! Expressions without calls, which are found with their fuel in a register.
ghost use Rattle.std.specs.Prelude.{◌≡◌, ◌<◌, ◌≤◌, ◌+◌, ◌-◌, ◌^◌, true};
ghost use Rattle.ocr_body_steps.specs.Local.{Fits};
ghost use Rattle.ocr_body_steps.specs.Plain.{IsFound, is_expr_in};

use crate::local::{Frame, Local, read};
use crate::operators::{apply, operate};
use ocr_body_code::ExprCode;

/// The fuel that is said to be left of an expression that makes a call or stops. No expression
/// leaves as much, since each spends a unit.
pub const NONE_LEFT: u64 = u64::MAX;

/// The value of an expression, and the fuel that is left.
#[derive(Clone, Copy)]
pub struct Found {
    pub value: u64,
    pub left: u64,
}

const STUCK: Found = Found {
    value: 0,
    left: NONE_LEFT,
};

// This value, with so much fuel left.
#[inline(always)]
fn worth(value: u64, left: u64) -> Found
    ensures value { result.value ≡ value }
    ensures left { result.left ≡ left }
{
    Found { value, left }
}

// The value of an operand. The commonest are read in place.
#[cycle(plain)]
#[inline(always)]
pub(crate) fn operand(frame: &Frame, expr: &ExprCode, fuel: u64, local: &Local) -> Found
    requires fits { Fits frame.now local.now }
    requires placed { is_expr_in frame.now expr.now ≡ true }
    ensures less { result.left < 2 ^ 64 - 1 → result.left < fuel }
    ensures found { result.left < 2 ^ 64 - 1 → IsFound frame.now expr.now local.now fuel result }
{
    if let ExprCode::Variable(place) = expr {
        if fuel == 0 {
            return STUCK;
        }
        return worth(read(frame, *place, local), fuel - 1);
    }
    if let ExprCode::Number(n) = expr {
        if fuel == 0 {
            return STUCK;
        }
        return worth(*n, fuel - 1);
    }
    plain(frame, expr, fuel, local)
}

/// The value of an operand that is a variable or a number: it is read in place. Any other leaves
/// `NONE_LEFT`.
#[inline(always)]
pub fn leaf(frame: &Frame, expr: &ExprCode, fuel: u64, local: &Local) -> Found
    requires fits { Fits frame.now local.now }
    requires placed { is_expr_in frame.now expr.now ≡ true }
    requires some { 1 ≤ fuel }
    ensures less { result.left < 2 ^ 64 - 1 → result.left < fuel }
    ensures most { fuel ≤ result.left + 1 }
    ensures found { result.left < 2 ^ 64 - 1 → IsFound frame.now expr.now local.now fuel result }
{
    if let ExprCode::Variable(place) = expr {
        return worth(read(frame, *place, local), fuel - 1);
    }
    if let ExprCode::Number(n) = expr {
        return worth(*n, fuel - 1);
    }
    STUCK
}

/// The value of an operand that is a dependence by its number, or a variable: it is read in place.
/// Any other leaves `NONE_LEFT`.
#[tactic(auto, using(crate::proofs::Operands::dependence_leaves))]
#[inline(always)]
pub fn dependence(frame: &Frame, expr: &ExprCode, fuel: u64, local: &Local) -> Found
    requires fits { Fits frame.now local.now }
    requires placed { is_expr_in frame.now expr.now ≡ true }
    requires some { 2 ≤ fuel }
    ensures less { result.left < 2 ^ 64 - 1 → result.left < fuel }
    ensures most { fuel ≤ result.left + 2 }
    ensures found { result.left < 2 ^ 64 - 1 → IsFound frame.now expr.now local.now fuel result }
{
    if let ExprCode::Depv(index) = expr {
        if let ExprCode::Number(n) = &**index {
            if *n < frame.deps.len() as u64 {
                let dependence = frame.deps[*n as usize];
                return worth(dependence.0, fuel - 2);
            }
        }
        return STUCK;
    }
    if let ExprCode::Variable(place) = expr {
        return worth(read(frame, *place, local), fuel - 1);
    }
    STUCK
}

/// The value of an expression that makes no call and does not stop. Any other leaves `NONE_LEFT`.
/// An operator between numbers and variables is done here, since a function that calls none saves
/// no registers.
#[tactic(auto, using(crate::proofs::Rulesets::joined))]
#[cycle(plain)]
pub fn plain(frame: &Frame, expr: &ExprCode, fuel: u64, local: &Local) -> Found
    requires fits { Fits frame.now local.now }
    requires placed { is_expr_in frame.now expr.now ≡ true }
    ensures less { result.left < 2 ^ 64 - 1 → result.left < fuel }
    ensures found { result.left < 2 ^ 64 - 1 → IsFound frame.now expr.now local.now fuel result }
{
    if fuel < 3 {
        return deep(frame, expr, fuel, local);
    }
    match expr {
        ExprCode::Number(n) => worth(*n, fuel - 1),
        ExprCode::Variable(place) => worth(read(frame, *place, local), fuel - 1),
        ExprCode::WithNumber(op, place, number) => {
            match operate(*op, read(frame, *place, local), *number) {
                Ok(value) => worth(value, fuel - 3),
                Err(_) => STUCK,
            }
        }
        ExprCode::WithVariable(op, place, other) => {
            match operate(*op, read(frame, *place, local), read(frame, *other, local)) {
                Ok(value) => worth(value, fuel - 3),
                Err(_) => STUCK,
            }
        }
        _ => deep(frame, expr, fuel, local),
    }
}

// The value of an expression by its parts.
#[cycle(plain)]
#[inline(never)]
fn deep(frame: &Frame, expr: &ExprCode, fuel: u64, local: &Local) -> Found
    requires fits { Fits frame.now local.now }
    requires placed { is_expr_in frame.now expr.now ≡ true }
    ensures less { result.left < 2 ^ 64 - 1 → result.left < fuel }
    ensures found { result.left < 2 ^ 64 - 1 → IsFound frame.now expr.now local.now fuel result }
{
    if fuel == 0 {
        return STUCK;
    }
    let left = fuel - 1;
    match expr {
        ExprCode::Number(n) => worth(*n, left),
        ExprCode::Constant(constant) => worth(constant.value(), left),
        ExprCode::Variable(place) => worth(read(frame, *place, local), left),
        ExprCode::Paramc => worth(frame.params.len() as u64, left),
        ExprCode::Depc => worth(frame.deps.len() as u64, left),
        ExprCode::LastCode => worth(local.code, left),
        ExprCode::Unary(op, of) => {
            let x = operand(frame, of, left, local);
            Found {
                value: apply(*op, x.value),
                left: x.left,
            }
        }
        ExprCode::Binary(op, first, second) => {
            if let ExprCode::Invoke(_) = &**second {
                return STUCK; // before the first is found for nothing
            }
            let x = operand(frame, first, left, local);
            if x.left == NONE_LEFT {
                return STUCK;
            }
            let y = operand(frame, second, x.left, local);
            match operate(*op, x.value, y.value) {
                Ok(value) => Found {
                    value,
                    left: y.left,
                },
                Err(_) => STUCK,
            }
        }
        _ => indexed(frame, expr, fuel, local),
    }
}

// The value of a parameter or a dependence by its index.
#[cycle(plain)]
#[inline(never)]
fn indexed(frame: &Frame, expr: &ExprCode, fuel: u64, local: &Local) -> Found
    requires fits { Fits frame.now local.now }
    requires placed { is_expr_in frame.now expr.now ≡ true }
    ensures less { result.left < 2 ^ 64 - 1 → result.left < fuel }
    ensures found { result.left < 2 ^ 64 - 1 → IsFound frame.now expr.now local.now fuel result }
{
    if fuel == 0 {
        return STUCK;
    }
    if let ExprCode::Paramv(index) = expr {
        let i = operand(frame, index, fuel - 1, local);
        if i.left == NONE_LEFT || i.value >= frame.params.len() as u64 {
            return STUCK;
        }
        return worth(frame.params[i.value as usize], i.left);
    }
    if let ExprCode::Depv(index) = expr {
        let i = operand(frame, index, fuel - 1, local);
        if i.left == NONE_LEFT || i.value >= frame.deps.len() as u64 {
            return STUCK;
        }
        let dependence = frame.deps[i.value as usize];
        return worth(dependence.0, i.left);
    }
    STUCK
}
