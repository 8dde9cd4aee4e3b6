// The code of a function: its tree with each variable by its place among the function's names.
ghost use Rattle.std.specs.Prelude.{◌≡◌, ℕ, List, [], IfSome, IfNone, true};
ghost use Rattle.ocr_body_code.specs.Code.{IsFirstName, arguments_at, are_args_placed};
ghost use Rattle.ocr_program_tree.specs.Tree.{names_in};

use ocr_program_tree::{BinaryOp, CallName, Constant, Name, UnaryOp};

/// An expression of the code.
#[cycle(node)]
#[derive(Drop)]
pub enum ExprCode {
    /// A number.
    Number(u64),
    /// A name that stands for a number.
    Constant(Constant),
    /// The variable at this place.
    Variable(usize),
    /// How many parameters there are.
    Paramc,
    /// How many dependences there are.
    Depc,
    /// The number of the code of the last call that has one, 0 before the first.
    LastCode,
    /// The parameter at this index.
    Paramv(Box<ExprCode>),
    /// What the dependence at this index brought.
    Depv(Box<ExprCode>),
    /// An operator before an operand.
    Unary(UnaryOp, Box<ExprCode>),
    /// An operator between two operands.
    Binary(BinaryOp, Box<ExprCode>, Box<ExprCode>),
    /// An operator between a variable and a number, which are nodes of their own in the tree.
    WithNumber(BinaryOp, usize, u64),
    /// An operator between two variables.
    WithVariable(BinaryOp, usize, usize),
    /// A call.
    Invoke(Box<CallCode>),
}

/// A call of the code.
#[cycle(node)]
#[derive(Drop)]
pub enum CallCode {
    /// A load of a block's word. What it is of is found without memory, as for a store.
    Load(Box<ExprCode>, Box<ExprCode>),
    /// A store in a block's word of a value.
    Store(Box<ExprCode>, Box<ExprCode>, Box<ExprCode>),
    /// Any other call.
    Coded(CallName, ArgCode),
}

/// The arguments of a call of the code, from the first on.
#[cycle(node)]
#[derive(Drop)]
pub enum ArgCode {
    /// No argument more.
    End,
    /// A value, and the arguments after it.
    Value(Box<ExprCode>, Box<ArgCode>),
    /// A list by its members, and the arguments after it.
    List(Box<ArgCode>, Box<ArgCode>),
    /// The name of a function, or that of the variable after `&`: each has a place among the names.
    Name(Named, Box<ArgCode>),
}

/// A name among the arguments of a call: its place among the function's names, and its number among
/// those of the program's functions, from 1; one past the last where it is none of theirs.
#[derive(Clone, Copy)]
pub struct Named {
    pub place: usize,
    pub number: u32,
}

impl ArgCode {
    /// The first name among the arguments, where one stands.
    pub fn name(&self) -> Option<Named>
        ensures none { IfNone result ((names : List (List ℕ))
            → names_in (arguments_at names self.now) ≡ []) }
        ensures some { IfSome result (λ named. (numbers : List ℕ → ℕ) (names : List (List ℕ))
            → are_args_placed numbers names self.now ≡ true
            → IsFirstName numbers names named (names_in (arguments_at names self.now))) }
    {
        let mut args = self;
        loop {
            match args {
                ArgCode::End => return None,
                ArgCode::Value(_, rest) => args = rest,
                ArgCode::List(_, rest) => args = rest,
                ArgCode::Name(named, _) => return Some(*named),
            }
        }
    }
}

/// A statement of the code.
#[derive(Drop)]
pub enum StmtCode {
    /// A `let` of the variable at this place, with its value.
    Let(usize, ExprCode),
    /// An assignment to the variable at this place.
    Assign(usize, ExprCode),
    /// A test, what is done where it holds, and what is done where it does not.
    If(ExprCode, Vec<StmtCode>, Vec<StmtCode>),
    /// A test, and what is done as long as it holds.
    While(ExprCode, Vec<StmtCode>),
    /// A value is printed.
    Print(ExprCode),
    /// The body ends and returns a value.
    Return(ExprCode),
    /// A call that stands alone.
    Invoke(CallCode),
}

/// The names of a function, all different, and its statements.
#[derive(Drop)]
pub struct FunctionCode {
    pub names: Vec<Name>,
    pub body: Vec<StmtCode>,
}
