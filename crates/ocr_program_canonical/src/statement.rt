// Statements, functions and whole programs.
ghost use Rattle.std.specs.Prelude.{◌≡◌, ◌++◌, OnOk, IfOk, codes};
ghost use Rattle.ocr_program_tree.specs.View.{expression_of, statement_of, statements_of, function_of, tree_of};
ghost use Rattle.ocr_program_grammar.specs.Texts as texts;
ghost use Rattle.ocr_program_canonical.specs.Canonical as canonical;
ghost use Rattle.ocr_program_canonical.specs.Written as writing;
ghost use Rattle.ocr_program_canonical.specs.Canonical.{expression_text, statement_text, statements_text, function_text, program_text};

use crate::expression::{expression, invoke, write};
use ocr_base::NoMemory;
use ocr_program_grammar::{Word, word_text};
use ocr_program_tree::{Expr, Function, Name, Program, Stmt};
use std::alloc::Global;

// The spaces two deeper.
fn deeper(alloc: Global, margin: &[u8]) -> Result<Vec<u8>, NoMemory>
    ensures { IfOk result (λ inner. inner.items ≡ writing.deeper margin.now) }
{
    let mut inner = Vec::from_slice(alloc, margin)?;
    inner.extend_from_slice(b"  ")?;
    Ok(inner)
}

// An assignment `x = e;`, up to the end of its line.
fn assignment(alloc: Global, text: &mut Vec<u8>, name: &Name, value: &Expr) -> Result<(), NoMemory>
    ensures { let e = expression_text (expression_of value.now) in
        OnOk result (text.new.items ≡ text.old.items
        ++ (name.now ++ codes " = " ++ e ++ codes ";\n")) }
{
    write(text, name.as_bytes())?;
    write(text, b" = ")?;
    expression(alloc, text, value)?;
    write(text, b";\n")
}

// A line of a word, an expression and what ends it.
fn worded(
    alloc: Global,
    text: &mut Vec<u8>,
    margin: &[u8],
    word: Word,
    value: &Expr,
    end: &[u8],
) -> Result<(), NoMemory>
    ensures { let e = expression_text (expression_of value.now) in OnOk result (text.new.items
        ≡ text.old.items
        ++ canonical.line margin.now (texts.word_text word ++ codes " " ++ e ++ end.now)) }
{
    write(text, margin)?;
    write(text, word_text(word))?;
    write(text, b" ")?;
    expression(alloc, text, value)?;
    write(text, end)?;
    write(text, b"\n")
}

// A line `} else {`.
fn else_line(text: &mut Vec<u8>, margin: &[u8]) -> Result<(), NoMemory>
    ensures { OnOk result (text.new.items ≡ text.old.items
        ++ canonical.line margin.now (codes "} else {")) }
{
    write(text, margin)?;
    write(text, b"} ")?;
    write(text, word_text(Word::Else))?;
    write(text, b" {\n")
}

// A line of these bytes alone.
fn line(text: &mut Vec<u8>, margin: &[u8], bytes: &[u8]) -> Result<(), NoMemory>
    ensures { OnOk result (text.new.items ≡ text.old.items ++ canonical.line margin.now bytes.now) }
{
    write(text, margin)?;
    write(text, bytes)?;
    write(text, b"\n")
}

// A statement, each of its lines behind the margin.
#[cycle(statement)]
fn statement(alloc: Global, text: &mut Vec<u8>, margin: &[u8], stmt: &Stmt) -> Result<(), NoMemory>
    ensures { OnOk result (text.new.items ≡ text.old.items
        ++ statement_text margin.now (statement_of stmt.now)) }
{
    match stmt {
        Stmt::Let { name, value } => {
            write(text, margin)?;
            write(text, word_text(Word::Let))?;
            write(text, b" ")?;
            assignment(alloc, text, name, value)
        }
        Stmt::Assign { name, value } => {
            write(text, margin)?;
            assignment(alloc, text, name, value)
        }
        Stmt::Print { value } => worded(alloc, text, margin, Word::Print, value, b";"),
        Stmt::Return { value } => worded(alloc, text, margin, Word::Return, value, b";"),
        Stmt::Invoke(call) => {
            write(text, margin)?;
            invoke(alloc, text, call)?;
            write(text, b";\n")
        }
        Stmt::While { test, body } => {
            worded(alloc, text, margin, Word::While, test, b" {")?;
            block(alloc, text, margin, body)?;
            line(text, margin, b"}")
        }
        Stmt::If { test, yes, no } => {
            worded(alloc, text, margin, Word::If, test, b" {")?;
            block(alloc, text, margin, yes)?;
            if no.is_empty() {
                return line(text, margin, b"}");
            }
            else_line(text, margin)?;
            block(alloc, text, margin, no)?;
            line(text, margin, b"}")
        }
    }
}

// The statements of a block, two spaces deeper than this margin.
#[cycle(statement)]
fn block(alloc: Global, text: &mut Vec<u8>, margin: &[u8], stmts: &[Stmt]) -> Result<(), NoMemory>
    ensures { OnOk result (text.new.items
        ≡ text.old.items
        ++ statements_text (writing.deeper margin.now) (statements_of stmts.now)) }
{
    let inner = deeper(alloc, margin)?;
    for stmt in stmts {
        statement(alloc, text, &inner, stmt)?;
    }
    Ok(())
}

// A function.
fn function(alloc: Global, text: &mut Vec<u8>, function: &Function) -> Result<(), NoMemory>
    ensures { OnOk result (text.new.items ≡ text.old.items
        ++ function_text (function_of function.now)) }
{
    write(text, word_text(Word::Fn))?;
    write(text, b" ")?;
    write(text, function.name.as_bytes())?;
    write(text, b" {\n")?;
    block(alloc, text, b"", &function.body)?;
    write(text, b"}\n")
}

/// Writes the functions of a program at the text's end.
pub fn functions(alloc: Global, text: &mut Vec<u8>, program: &Program) -> Result<(), NoMemory>
    ensures { OnOk result (text.new.items ≡ text.old.items ++ program_text (tree_of program.now)) }
{
    let [first, rest @ ..] = program.functions.as_slice() else {
        return Ok(());
    };
    function(alloc, text, first)?;
    for other in rest {
        write(text, b"\n")?;
        function(alloc, text, other)?;
    }
    Ok(())
}
