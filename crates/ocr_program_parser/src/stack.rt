// What waits for an operand. Expressions stand in boxes, into which each comes in the end: a large
// value that is handed on again and again is slow to check.
use ocr_program_tree::{BinaryOp, CallName, Expr, Name, UnaryOp};

/// What an outermost expression is for.
#[derive(Drop)]
pub enum Purpose {
    /// The value of a `let`.
    Let(Name),
    /// The value of an assignment.
    Assign(Name),
    /// The test of an `if`.
    Test,
    /// The test of a `while`.
    Repeat,
    /// What is printed.
    Print,
    /// What is returned.
    Return,
}

/// The two lists that have an index.
#[derive(Clone, Copy, PartialEq, Eq, Debug)]
pub enum Indexed {
    Parameters,
    Dependences,
}

/// Signs in a row: the last, which is the nearest to the operand, and those before it.
#[derive(Drop)]
pub struct Signs {
    pub last: UnaryOp,
    pub before: Vec<UnaryOp>,
}

/// An argument of a call.
#[derive(Drop)]
pub enum Arg {
    /// A value.
    Value(Box<Expr>),
    /// A list of values.
    List(Vec<Expr>),
    /// The name of a function, or that of the variable after `&`.
    Named(Name),
}

/// What waits for an operand, the nearest first. A call stands with its arguments so far.
#[cycle(stack)]
#[derive(Drop)]
pub enum Stack {
    /// Nothing: the operand begins an outermost expression.
    Bottom(Purpose),
    /// An operator, with the operand to its left.
    Left(Box<Expr>, BinaryOp, Box<Stack>),
    /// Signs before the operand. They stand together, as a row of them is long and the rest is not.
    Prefix(Signs, Box<Stack>),
    /// A round bracket that is open.
    Round(Box<Stack>),
    /// The index of an element is read.
    Index(Indexed, Box<Stack>),
    /// A value is read.
    Argument(CallName, Vec<Arg>, CallSite),
    /// A member of a list is read, after these.
    Member(CallName, Vec<Arg>, Vec<Expr>, CallSite),
    /// The flags are read, after which an output may stand.
    FlagsArgument(CallName, Vec<Arg>, CallSite),
}

/// Where a call stands.
#[cycle(stack)]
#[derive(Drop)]
pub enum CallSite {
    InExpression(Box<Stack>),
    AsStatement,
}
