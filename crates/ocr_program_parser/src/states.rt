// What was read of the tokens so far. Expressions stand in boxes, into which each comes in the end:
// a large value that is handed on again and again is slow to check.
use crate::stack::{Arg, CallSite, Indexed, Stack};
use ocr_program_tree::{CallName, Expr, Function, Invoke, Name, Stmt};

/// What a block is for, with what was read before it.
#[derive(Drop)]
pub enum BlockKind {
    WhileBody(Box<Expr>),
    IfBody(Box<Expr>),
    ElseBody(Box<Expr>, Vec<Stmt>),
}

/// A block in which another stands: its statements before that one, and what that one is for.
#[derive(Drop)]
pub struct OpenBlock {
    pub statements: Vec<Stmt>,
    pub kind: BlockKind,
}

/// The place in a function.
#[derive(Drop)]
pub struct Position {
    /// The functions before.
    pub functions: Vec<Function>,
    pub name: Name,
    /// The blocks in which the block at hand stands, the outermost first.
    pub enclosing: Vec<OpenBlock>,
    /// The statements of the block at hand so far.
    pub statements: Vec<Stmt>,
}

/// What was read of a text.
#[derive(Drop)]
pub enum State {
    /// These functions, whole.
    Functions(Vec<Function>),
    /// The name of a function is wanted.
    FunctionName(Vec<Function>),
    /// The brace that opens a function is wanted.
    FunctionOpen(Vec<Function>, Name),
    /// The place in a function, and what is wanted there.
    InFunction(Position, Wanted),
}

/// What is wanted next in a function.
#[derive(Drop)]
pub enum Wanted {
    /// A statement, or the end of the block at hand.
    Statement,
    /// The name of the variable after `let`.
    LetName,
    /// The `=` of a `let` of this variable.
    LetEquals(Name),
    /// The `=` of an assignment to this variable.
    AssignEquals(Name),
    /// The semicolon after a call that stands alone.
    AfterCall(Box<Invoke>),
    /// `else`, or the next statement.
    MayElse(Box<Expr>, Vec<Stmt>),
    /// The `{` after `else`.
    ElseOpen(Box<Expr>, Vec<Stmt>),
    /// An operand, or what may stand before one.
    Operand(Stack),
    /// The `[` after `paramv` or `depv`.
    IndexOpen(Indexed, Stack),
    /// The `(` after the name of a call.
    CallOpen(CallName, CallSite),
    /// The `)` after the last argument of a call, or after `(` where it has none.
    CallEnd(CallName, Vec<Arg>, CallSite),
    /// The `[` of a list.
    ListOpen(CallName, Vec<Arg>, CallSite),
    /// The first member of a list, or its end.
    ListStart(CallName, Vec<Arg>, CallSite),
    /// The name of a function, as an argument.
    NameAt(CallName, Vec<Arg>, CallSite),
    /// The `,` after an argument, or the `)` after the last.
    AfterArgument(CallName, Vec<Arg>, CallSite),
    /// The `&` before an output.
    OutputAnd(CallName, Vec<Arg>, CallSite),
    /// The name of the variable after `&`.
    OutputName(CallName, Vec<Arg>, CallSite),
    /// What goes on with an expression, or ends it.
    AfterOperand(Stack, Box<Expr>),
}
