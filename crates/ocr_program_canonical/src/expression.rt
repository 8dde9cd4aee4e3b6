// Expressions and calls.
ghost use Rattle.std.specs.Prelude.{◌≡◌, ◌++◌, OnOk, codes};
ghost use Rattle.ocr_program_tree.specs.Tree.{Number, Invoked};
ghost use Rattle.ocr_program_tree.specs.View.{expression_of, name_of, arguments_of, members_of};
ghost use Rattle.ocr_program_canonical.specs.Canonical as canonical;
ghost use Rattle.ocr_program_canonical.specs.Canonical.{expression_text, operand_text, arguments_text};
ghost use Rattle.ocr_program_canonical.specs.Written as writing;

use itoa::Buffer;
use ocr_base::NoMemory;
use ocr_program_grammar::{
    UNARY_LEVEL, Word, call_text, constant_text, level, operator_text, sign_text, word_text,
};
use ocr_program_tree::{Argument, Expr, Invoke};
use std::alloc::Global;

// The level of the operator of an expression, above all levels where none joins it.
fn level_of(expression: &Expr) -> u8
    ensures { result ≡ canonical.level_of (expression_of expression.now) }
{
    match expression {
        Expr::Binary(op, _, _) => level(*op),
        _ => UNARY_LEVEL,
    }
}

// A number in decimal.
fn number(text: &mut Vec<u8>, value: u64) -> Result<(), NoMemory>
    ensures { OnOk result (text.new.items ≡ text.old.items ++ expression_text (Number value)) }
{
    let mut buffer = Buffer::new();
    write(text, buffer.format(value).as_bytes())
}

/// Writes bytes at the text's end.
pub fn write(text: &mut Vec<u8>, bytes: &[u8]) -> Result<(), NoMemory>
    ensures { OnOk result (text.new.items ≡ text.old.items ++ bytes.now) }
{
    text.extend_from_slice(bytes)?;
    Ok(())
}

/// Writes an expression at the text's end.
#[cycle(expression)]
pub fn expression(alloc: Global, text: &mut Vec<u8>, expr: &Expr) -> Result<(), NoMemory>
    ensures { OnOk result (text.new.items ≡ text.old.items
        ++ expression_text (expression_of expr.now)) }
{
    match expr {
        Expr::Number(value) => number(text, *value),
        Expr::Constant(constant) => write(text, constant_text(*constant)),
        Expr::Var(name) => write(text, name.as_bytes()),
        Expr::Paramc => write(text, word_text(Word::Paramc)),
        Expr::Depc => write(text, word_text(Word::Depc)),
        Expr::Code => write(text, word_text(Word::Code)),
        Expr::Paramv(index) => {
            write(text, word_text(Word::Paramv))?;
            enclosed(alloc, text, b"[", index, b"]")
        }
        Expr::Depv(index) => {
            write(text, word_text(Word::Depv))?;
            enclosed(alloc, text, b"[", index, b"]")
        }
        Expr::Unary(op, inner) => {
            write(text, sign_text(*op))?;
            operand(alloc, text, inner, UNARY_LEVEL)
        }
        Expr::Binary(op, left, right) => {
            operand(alloc, text, left, level(*op))?;
            write(text, b" ")?;
            write(text, operator_text(*op))?;
            write(text, b" ")?;
            operand(alloc, text, right, level(*op) + 1)
        }
        Expr::Invoke(call) => invoke(alloc, text, call),
    }
}

// An expression between two brackets.
#[cycle(expression)]
fn enclosed(
    alloc: Global,
    text: &mut Vec<u8>,
    opening: &[u8],
    expr: &Expr,
    closing: &[u8],
) -> Result<(), NoMemory>
    ensures { OnOk result (text.new.items
        ≡ text.old.items
        ++ (opening.now ++ expression_text (expression_of expr.now) ++ closing.now)) }
{
    write(text, opening)?;
    expression(alloc, text, expr)?;
    write(text, closing)
}

// An operand, in brackets where its level is below the least that may stand here without.
#[cycle(expression)]
fn operand(alloc: Global, text: &mut Vec<u8>, expr: &Expr, least: u8) -> Result<(), NoMemory>
    ensures { let e = expression_of expr.now in
        OnOk result (text.new.items ≡ text.old.items
        ++ operand_text least (canonical.level_of e) (expression_text e)) }
{
    if level_of(expr) < least {
        enclosed(alloc, text, b"(", expr, b")")
    } else {
        expression(alloc, text, expr)
    }
}

/// Writes a call at the text's end.
#[cycle(expression)]
pub fn invoke(alloc: Global, text: &mut Vec<u8>, call: &Invoke) -> Result<(), NoMemory>
    ensures { let e = Invoked (name_of call.now) (arguments_of call.now) in
        OnOk result (text.new.items ≡ text.old.items ++ expression_text e) }
{
    write(text, call_text(call.name()))?;
    write(text, b"(")?;
    arguments(alloc, text, call)?;
    write(text, b")")
}

// What stands before the argument at a place, from 0.
fn comma_at(place: usize) -> &'static [u8]
    ensures { result.now ≡ writing.comma_at place }
{
    if place == 0 { b"" } else { b", " }
}

// What stands before the name at a place.
fn sign_at(place: usize) -> &'static [u8]
    ensures { result.now ≡ writing.sign_at place }
{
    if place == 0 { b"" } else { b"&" }
}

// The arguments of a call. A name that is not the first is that of a variable, behind `&`.
#[cycle(expression)]
fn arguments(alloc: Global, text: &mut Vec<u8>, call: &Invoke) -> Result<(), NoMemory>
    ensures { OnOk result (text.new.items ≡ text.old.items
        ++ arguments_text (arguments_of call.now)) }
{
    let list = call.arguments(alloc)?;
    for place in 0..list.len() {
        write(text, comma_at(place))?;
        match list[place] {
            Argument::Value(value) => expression(alloc, text, value)?,
            Argument::List(values) => members(alloc, text, values)?,
            Argument::Name(name) => {
                write(text, sign_at(place))?;
                write(text, name.as_bytes())?;
            }
        }
    }
    Ok(())
}

// A list between its brackets.
#[cycle(expression)]
fn members(alloc: Global, text: &mut Vec<u8>, values: &[Expr]) -> Result<(), NoMemory>
    ensures { OnOk result (text.new.items
        ≡ text.old.items ++ (codes "[" ++ arguments_text (members_of values.now) ++ codes "]")) }
{
    write(text, b"[")?;
    for place in 0..values.len() {
        write(text, comma_at(place))?;
        expression(alloc, text, &values[place])?;
    }
    write(text, b"]")
}
