// What a token is to the grammar.
use ocr_program_tree::{BinaryOp, CallName, Constant, Name};

/// The reserved names that are neither a call nor a constant.
#[derive(Clone, Copy, PartialEq, Eq, Debug)]
pub enum Word {
    Fn,
    Let,
    If,
    Else,
    While,
    Print,
    Return,
    Paramc,
    Paramv,
    Depc,
    Depv,
    Code,
}

/// A token as the grammar sees it. Blanks and comments are none.
#[derive(Drop)]
pub enum Lexeme {
    Number(u64),
    /// A name that is not reserved.
    Name(Name),
    Word(Word),
    Call(CallName),
    Constant(Constant),
    /// A symbol that may stand between two operands; `-` and `&` are also used otherwise.
    Operator(BinaryOp),
    /// `!`.
    Not,
    /// `~`.
    Invert,
    OpenBrace,
    CloseBrace,
    OpenRound,
    CloseRound,
    OpenSquare,
    CloseSquare,
    Comma,
    Semicolon,
    Equals,
}
