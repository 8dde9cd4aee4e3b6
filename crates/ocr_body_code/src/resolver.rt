// The code of a program: each variable by the place of its name among its function's names.
#![tactic(auto, using(crate::proofs::Names::grew_same, crate::proofs::Names::grew_twice))]

ghost use Rattle.std.specs.Prelude.{◌≡◌, ◌<◌, ◌+◌, ◌^◌, ℕ, List, true, map, length, IfOk};
ghost use Rattle.std.specs.Prelude.{OnOk};
ghost use Rattle.ocr_body_code.specs.Code.{is_placed, expression_at, body_in, bodies_in};
ghost use Rattle.ocr_body_code.specs.Code.{is_sound, are_sound};
ghost use Rattle.ocr_body_code.specs.Resolved.{Grew, IsExpression, IsArguments, IsCall};
ghost use Rattle.ocr_body_code.specs.Resolved.{IsStatement, AreStatements, numbers_of};
ghost use Rattle.ocr_program_tree.specs.Functions.{numbers_in};
ghost use Rattle.ocr_program_tree.specs.Tree as tree;
ghost use Rattle.ocr_program_tree.specs.Tree.{Arguments};
ghost use Rattle.ocr_program_tree.specs.View.{expression_of, name_of, arguments_of, members_of};
ghost use Rattle.ocr_program_tree.specs.View.{statement_of, statements_of, tree_of};

use crate::code::{ArgCode, CallCode, ExprCode, FunctionCode, Named, StmtCode};
use crate::numbers::Numbers;
use crate::places::Places;
use ocr_base::NoMemory;
use ocr_program_tree::{Argument, Expr, Function, Invoke, Name, Program, Stmt};
use std::alloc::Global;

// A node with memory of its own.
fn boxed(alloc: Global, node: ExprCode) -> Result<Box<ExprCode>, NoMemory>
    ensures { IfOk result (λ b. b.value ≡ node) }
{
    match Box::new(alloc, node) {
        Ok(node) => Ok(node),
        Err(_) => Err(NoMemory),
    }
}

// A call with memory of its own.
fn boxed_call(alloc: Global, call: CallCode) -> Result<Box<CallCode>, NoMemory>
    ensures { IfOk result (λ b. b.value ≡ call) }
{
    match Box::new(alloc, call) {
        Ok(call) => Ok(call),
        Err(_) => Err(NoMemory),
    }
}

// The same code in fewer nodes, where an operator stands behind a variable and before a number or a
// variable.
fn joined(node: ExprCode) -> ExprCode
    ensures placed { (numbers : List ℕ → ℕ) (names : List (List ℕ))
        → is_placed numbers names node ≡ true → is_placed numbers names result ≡ true }
    ensures same { (names : List (List ℕ)) → expression_at names result ≡ expression_at names node }
{
    if let ExprCode::Binary(op, left, right) = &node {
        if let ExprCode::Variable(place) = &**left {
            if let ExprCode::Number(n) = &**right {
                return ExprCode::WithNumber(*op, *place, *n);
            }
            if let ExprCode::Variable(other) = &**right {
                return ExprCode::WithVariable(*op, *place, *other);
            }
        }
    }
    node
}

// Arguments with memory of their own.
fn boxed_args(alloc: Global, args: ArgCode) -> Result<Box<ArgCode>, NoMemory>
    ensures { IfOk result (λ b. b.value ≡ args) }
{
    match Box::new(alloc, args) {
        Ok(args) => Ok(args),
        Err(_) => Err(NoMemory),
    }
}

// A list before other arguments, which were resolved over fewer names.
fn list(alloc: Global, list: ArgCode, rest: ArgCode) -> Result<ArgCode, NoMemory>
    ensures { IfOk result (λ args. (numbers : List ℕ → ℕ) (names now : List (List ℕ))
        (xs ys : Arguments) → Grew names now → IsArguments numbers now list xs
        → IsArguments numbers names rest ys → IsArguments numbers now args (tree.list xs ys)) }
{
    let list = boxed_args(alloc, list)?;
    let rest = boxed_args(alloc, rest)?;
    Ok(ArgCode::List(list, rest))
}

// A name before other arguments.
fn named<'a>(
    alloc: Global,
    numbers: &Numbers<'_>,
    name: &'a Name,
    rest: ArgCode,
    names: &mut Places<'a>,
) -> Result<ArgCode, NoMemory>
    ensures grew { OnOk result (Grew names.old names.new) }
    ensures ok { IfOk result (λ args. (xs : Arguments)
        → IsArguments (numbers_of numbers.now) names.old rest xs
        → IsArguments (numbers_of numbers.now) names.new args (tree.named name.now xs)) }
{
    let place = names.place(name)?;
    let number = numbers.number(name.as_bytes());
    let rest = boxed_args(alloc, rest)?;
    Ok(ArgCode::Name(Named { place, number }, rest))
}

// The code of an expression.
#[cycle(expression)]
fn expression<'a>(
    alloc: Global,
    numbers: &Numbers<'_>,
    expr: &'a Expr,
    names: &mut Places<'a>,
) -> Result<ExprCode, NoMemory>
    ensures grew { OnOk result (Grew names.old names.new) }
    ensures ok { IfOk result (λ node. IsExpression (numbers_of numbers.now) names.new node
        (expression_of expr.now)) }
{
    match expr {
        Expr::Number(n) => Ok(ExprCode::Number(*n)),
        Expr::Constant(constant) => Ok(ExprCode::Constant(*constant)),
        Expr::Var(name) => Ok(ExprCode::Variable(names.place(name)?)),
        Expr::Paramc => Ok(ExprCode::Paramc),
        Expr::Depc => Ok(ExprCode::Depc),
        Expr::Code => Ok(ExprCode::LastCode),
        Expr::Paramv(index) => {
            let index = expression(alloc, numbers, index, names)?;
            Ok(ExprCode::Paramv(boxed(alloc, index)?))
        }
        Expr::Depv(index) => {
            let index = expression(alloc, numbers, index, names)?;
            Ok(ExprCode::Depv(boxed(alloc, index)?))
        }
        Expr::Unary(op, operand) => {
            let operand = expression(alloc, numbers, operand, names)?;
            Ok(ExprCode::Unary(*op, boxed(alloc, operand)?))
        }
        Expr::Binary(op, left, right) => {
            let left = expression(alloc, numbers, left, names)?;
            let left = boxed(alloc, left)?;
            let right = expression(alloc, numbers, right, names)?;
            let right = boxed(alloc, right)?;
            Ok(joined(ExprCode::Binary(*op, left, right)))
        }
        Expr::Invoke(made) => {
            let call = invocation(alloc, numbers, made, names)?;
            Ok(ExprCode::Invoke(boxed_call(alloc, call)?))
        }
    }
}

// The code of a call.
#[cycle(expression)]
fn invocation<'a>(
    alloc: Global,
    numbers: &Numbers<'_>,
    made: &'a Invoke,
    names: &mut Places<'a>,
) -> Result<CallCode, NoMemory>
    ensures grew { OnOk result (Grew names.old names.new) }
    ensures ok { IfOk result (λ call. IsCall (numbers_of numbers.now) names.new call
        (name_of made.now) (arguments_of made.now)) }
{
    if let Invoke::Load { block, word } = made {
        let block = expression(alloc, numbers, block, names)?;
        let block = boxed(alloc, block)?;
        let word = expression(alloc, numbers, word, names)?;
        let word = boxed(alloc, word)?;
        return Ok(CallCode::Load(block, word));
    }
    if let Invoke::Store { block, word, value } = made {
        let block = expression(alloc, numbers, block, names)?;
        let block = boxed(alloc, block)?;
        let word = expression(alloc, numbers, word, names)?;
        let word = boxed(alloc, word)?;
        let value = expression(alloc, numbers, value, names)?;
        let value = boxed(alloc, value)?;
        return Ok(CallCode::Store(block, word, value));
    }
    coded(alloc, numbers, made, names)
}

// The code of any call, with its arguments from the last on.
#[cycle(expression)]
fn coded<'a>(
    alloc: Global,
    numbers: &Numbers<'_>,
    made: &'a Invoke,
    names: &mut Places<'a>,
) -> Result<CallCode, NoMemory>
    ensures grew { OnOk result (Grew names.old names.new) }
    ensures ok { IfOk result (λ call. IsCall (numbers_of numbers.now) names.new call
        (name_of made.now) (arguments_of made.now)) }
{
    let arguments = made.arguments(alloc)?;
    let mut args = ArgCode::End;
    for i in 0..arguments.len() {
        match arguments[arguments.len() - 1 - i] {
            Argument::Value(expr) => args = value(alloc, numbers, expr, args, names)?,
            Argument::List(exprs) => {
                let inner = members(alloc, numbers, exprs, names)?;
                args = list(alloc, inner, args)?;
            }
            Argument::Name(name) => args = named(alloc, numbers, name, args, names)?,
        }
    }
    Ok(CallCode::Coded(made.name(), args))
}

// A value before other arguments.
#[cycle(expression)]
fn value<'a>(
    alloc: Global,
    numbers: &Numbers<'_>,
    expr: &'a Expr,
    rest: ArgCode,
    names: &mut Places<'a>,
) -> Result<ArgCode, NoMemory>
    ensures grew { OnOk result (Grew names.old names.new) }
    ensures ok { IfOk result (λ args. (xs : Arguments)
        → IsArguments (numbers_of numbers.now) names.old rest xs
        → IsArguments (numbers_of numbers.now) names.new args
        (tree.value (expression_of expr.now) xs)) }
{
    let node = expression(alloc, numbers, expr, names)?;
    let node = boxed(alloc, node)?;
    let rest = boxed_args(alloc, rest)?;
    Ok(ArgCode::Value(node, rest))
}

// The members of a list, from the last on.
#[cycle(expression)]
fn members<'a>(
    alloc: Global,
    numbers: &Numbers<'_>,
    exprs: &'a [Expr],
    names: &mut Places<'a>,
) -> Result<ArgCode, NoMemory>
    ensures grew { OnOk result (Grew names.old names.new) }
    ensures ok { IfOk result (λ args. IsArguments (numbers_of numbers.now) names.new args
        (members_of exprs.now)) }
{
    let mut args = ArgCode::End;
    for i in 0..exprs.len() {
        let expr = &exprs[exprs.len() - 1 - i];
        args = value(alloc, numbers, expr, args, names)?;
    }
    Ok(args)
}

// The code of a statement.
#[tactic(auto, using(crate::proofs::Names::grew_same, crate::proofs::Blocks::no_statements))]
#[cycle(statement)]
fn statement<'a>(
    alloc: Global,
    numbers: &Numbers<'_>,
    stmt: &'a Stmt,
    names: &mut Places<'a>,
) -> Result<StmtCode, NoMemory>
    ensures grew { OnOk result (Grew names.old names.new) }
    ensures ok { IfOk result (λ step. IsStatement (numbers_of numbers.now) names.new step
        (statement_of stmt.now)) }
{
    match stmt {
        Stmt::Let { name, value } => {
            let place = names.place(name)?;
            Ok(StmtCode::Let(place, expression(alloc, numbers, value, names)?))
        }
        Stmt::Assign { name, value } => {
            let place = names.place(name)?;
            Ok(StmtCode::Assign(place, expression(alloc, numbers, value, names)?))
        }
        Stmt::If { test, yes, no } => {
            let test = expression(alloc, numbers, test, names)?;
            let yes = statements(alloc, numbers, yes, names)?;
            let no = statements(alloc, numbers, no, names)?;
            Ok(StmtCode::If(test, yes, no))
        }
        Stmt::While { test, body } => {
            let test = expression(alloc, numbers, test, names)?;
            let body = statements(alloc, numbers, body, names)?;
            Ok(StmtCode::While(test, body))
        }
        Stmt::Print { value } => Ok(StmtCode::Print(expression(alloc, numbers, value, names)?)),
        Stmt::Return { value } => Ok(StmtCode::Return(expression(alloc, numbers, value, names)?)),
        Stmt::Invoke(made) => Ok(StmtCode::Invoke(invocation(alloc, numbers, made, names)?)),
    }
}

// The code of statements.
#[tactic(auto, using(crate::proofs::Names::grew_same, crate::proofs::Blocks::no_statements))]
#[cycle(statement)]
fn statements<'a>(
    alloc: Global,
    numbers: &Numbers<'_>,
    stmts: &'a [Stmt],
    names: &mut Places<'a>,
) -> Result<Vec<StmtCode>, NoMemory>
    ensures grew { OnOk result (Grew names.old names.new) }
    ensures ok { IfOk result (λ steps. AreStatements (numbers_of numbers.now) names.new
        steps.items (statements_of stmts.now)) }
{
    let mut steps = Vec::new(alloc);
    for stmt in stmts {
        if steps.reserve(1).is_err() {
            return Err(NoMemory);
        }
        let step = statement(alloc, numbers, stmt, names)?;
        steps.push_reserved(step);
    }
    Ok(steps)
}

// The code of a function.
#[tactic(auto, using(crate::proofs::Names::both))]
fn function(
    alloc: Global,
    numbers: &Numbers<'_>,
    function: &Function,
) -> Result<FunctionCode, NoMemory>
    ensures body { IfOk result (λ code. body_in code ≡ statements_of function.now.body.items) }
    ensures sound { IfOk result (λ code. is_sound (numbers_of numbers.now) code ≡ true) }
{
    let mut names = Places::new(alloc);
    let body = statements(alloc, numbers, &function.body, &mut names)?;
    Ok(FunctionCode {
        names: names.into_names(),
        body,
    })
}

/// The code of each function of a program.
#[tactic(auto, using(crate::proofs::Rulesets::resolving))]
pub fn resolve(alloc: Global, program: &Program) -> Result<Vec<FunctionCode>, NoMemory>
    requires few { length (tree_of program.now) + 1 < 2 ^ 32 }
    ensures bodies { IfOk result (λ codes.
        bodies_in codes.items ≡ map (λ f. f.body) (tree_of program.now)) }
    ensures sound { IfOk result (λ codes.
        are_sound (numbers_in (tree_of program.now)) codes.items ≡ true) }
{
    let functions = program.functions.as_slice();
    let numbers = Numbers::new(alloc, functions)?;
    let mut codes = Vec::new(alloc);
    for f in functions {
        if codes.reserve(1).is_err() {
            return Err(NoMemory);
        }
        let code = function(alloc, &numbers, f)?;
        codes.push_reserved(code);
    }
    Ok(codes)
}
