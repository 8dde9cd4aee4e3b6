// Building: an expression and blocks are put together as a statement.
ghost use Rattle.std.specs.Prelude.{◌≡◌};
ghost use Rattle.ocr_program_tree.specs.Tree as tree;
ghost use Rattle.ocr_program_tree.specs.View.{expression_of, statement_of, statements_of};

use ocr_program_tree::{Expr, Stmt};

/// A repetition of its test and its body.
pub fn repetition(test: Expr, body: Vec<Stmt>) -> Stmt
    ensures { statement_of result ≡ tree.While (expression_of test) (statements_of body.items) }
{
    Stmt::While { test, body }
}

/// A choice of its test, of what is done where it holds, and of what is done where it does not.
pub fn choice(test: Expr, yes: Vec<Stmt>, no: Vec<Stmt>) -> Stmt
    ensures { statement_of result
        ≡ tree.If (expression_of test) (statements_of yes.items) (statements_of no.items) }
{
    Stmt::If { test, yes, no }
}
