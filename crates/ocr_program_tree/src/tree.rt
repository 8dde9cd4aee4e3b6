// The tree of a task program.
use ocr_base::Seq;
use std::marker::Model;

/// A name in a task program, which contracts see as its bytes.
#[derive(Drop)]
pub struct Name {
    text: Seq<u8>,
}

impl Model for Name {
    ghost use Rattle.std.specs.Prelude.{List, ℕ};

    ghost Value = { List ℕ };

    ghost view = { λ n. n.text };
}

impl Name {
    ghost use Rattle.std.specs.Prelude.{◌≡◌};

    /// The name with these bytes.
    pub fn from_vec(text: Vec<u8>) -> Self
        ensures { result ≡ text.items }
    {
        Name {
            text: Seq::from_vec(text),
        }
    }

    /// Its bytes.
    pub fn as_bytes(&self) -> &[u8]
        ensures { result.now ≡ self.now }
    {
        self.text.as_slice()
    }
}

/// `!`, `~` and `-`.
#[derive(Clone, Copy, PartialEq, Eq, Debug)]
pub enum UnaryOp {
    Not,
    Invert,
    Minus,
}

/// The operators between two operands, from the lowest level to the highest.
#[derive(Clone, Copy, PartialEq, Eq, Debug)]
pub enum BinaryOp {
    Or,
    Xor,
    And,
    Eq,
    Ne,
    Lt,
    Le,
    Gt,
    Ge,
    Shl,
    Shr,
    Add,
    Sub,
    Mul,
    Div,
    Rem,
}

/// The names that stand for a number.
#[derive(Clone, Copy, PartialEq, Eq, Debug)]
pub enum Constant {
    NullGuid,
    UninitializedGuid,
    EdtParamUnk,
    EdtParamDef,
    EdtPropNone,
    EdtPropFinish,
    DbPropNone,
    DbPropNoAcquire,
    EvtPropNone,
    EvtPropTakesArg,
    EventLatchDecrSlot,
    EventLatchIncrSlot,
    DbModeNull,
    DbModeRo,
    DbModeConst,
    DbModeRw,
    DbModeEw,
    EventOnce,
    EventIdem,
    EventSticky,
    EventLatch,
    EventChannel,
}

impl Constant {
    ghost use Rattle.std.specs.Prelude.{◌≡◌};
    ghost use Rattle.ocr_program_tree.specs.Constant.{value_of};

    /// The number that the name stands for.
    pub fn value(self) -> u64
        ensures { result ≡ value_of self }
    {
        match self {
            Constant::NullGuid => 0,
            Constant::UninitializedGuid => u64::MAX,
            Constant::EdtParamUnk => 4_294_967_295,
            Constant::EdtParamDef => 4_294_967_294,
            Constant::EdtPropNone => 0,
            Constant::EdtPropFinish => 1,
            Constant::DbPropNone => 0,
            Constant::DbPropNoAcquire => 1,
            Constant::EvtPropNone => 0,
            Constant::EvtPropTakesArg => 1,
            Constant::EventLatchDecrSlot => 0,
            Constant::EventLatchIncrSlot => 1,
            Constant::DbModeNull => 0,
            Constant::DbModeRo => 1,
            Constant::DbModeConst => 2,
            Constant::DbModeRw => 3,
            Constant::DbModeEw => 4,
            Constant::EventOnce => 1,
            Constant::EventIdem => 2,
            Constant::EventSticky => 3,
            Constant::EventLatch => 4,
            Constant::EventChannel => 5,
        }
    }
}

/// The names of the calls, as a task program writes them: `ocrDbCreate` and so on, `load` and
/// `store`.
#[derive(Clone, Copy, PartialEq, Eq, Debug)]
pub enum CallName {
    DbCreate,
    DbRelease,
    DbDestroy,
    EventCreate,
    EventCreateParams,
    EventDestroy,
    Satisfy,
    SatisfySlot,
    AddDependence,
    TemplateCreate,
    TemplateDestroy,
    EdtCreate,
    Shutdown,
    Abort,
    Load,
    Store,
}

/// An expression. Each of these is one node.
#[cycle(expression)]
#[derive(Drop)]
pub enum Expr {
    Number(u64),
    Constant(Constant),
    Var(Name),
    Paramc,
    Depc,
    Code,
    Paramv(Box<Expr>),
    Depv(Box<Expr>),
    Unary(UnaryOp, Box<Expr>),
    Binary(BinaryOp, Box<Expr>, Box<Expr>),
    Invoke(Box<Invoke>),
}

/// A call as it is written.
#[cycle(expression)]
#[derive(Drop)]
pub enum Invoke {
    DbCreate {
        length: Box<Expr>,
        flags: Box<Expr>,
    },
    DbRelease {
        block: Box<Expr>,
    },
    DbDestroy {
        block: Box<Expr>,
    },
    EventCreate {
        kind: Box<Expr>,
        flags: Box<Expr>,
    },
    EventCreateParams {
        kind: Box<Expr>,
        flags: Box<Expr>,
        max_gen: Box<Expr>,
        nb_sat: Box<Expr>,
        nb_deps: Box<Expr>,
    },
    EventDestroy {
        event: Box<Expr>,
    },
    Satisfy {
        event: Box<Expr>,
        payload: Box<Expr>,
    },
    SatisfySlot {
        event: Box<Expr>,
        payload: Box<Expr>,
        slot: Box<Expr>,
    },
    AddDependence {
        source: Box<Expr>,
        target: Box<Expr>,
        slot: Box<Expr>,
        mode: Box<Expr>,
    },
    TemplateCreate {
        function: Name,
        paramc: Box<Expr>,
        depc: Box<Expr>,
    },
    TemplateDestroy {
        template: Box<Expr>,
    },
    EdtCreate {
        template: Box<Expr>,
        paramc: Box<Expr>,
        params: Vec<Expr>,
        depc: Box<Expr>,
        deps: Vec<Expr>,
        flags: Box<Expr>,
        output: Option<Name>,
    },
    Shutdown,
    Abort {
        code: Box<Expr>,
    },
    Load {
        block: Box<Expr>,
        word: Box<Expr>,
    },
    Store {
        block: Box<Expr>,
        word: Box<Expr>,
        value: Box<Expr>,
    },
}

/// A statement.
#[derive(Drop)]
pub enum Stmt {
    Let {
        name: Name,
        value: Expr,
    },
    Assign {
        name: Name,
        value: Expr,
    },
    If {
        test: Expr,
        yes: Vec<Stmt>,
        no: Vec<Stmt>,
    },
    While {
        test: Expr,
        body: Vec<Stmt>,
    },
    Print {
        value: Expr,
    },
    Return {
        value: Expr,
    },
    Invoke(Invoke),
}

/// A function: the code of EDTs.
#[derive(Drop)]
pub struct Function {
    pub name: Name,
    pub body: Vec<Stmt>,
}

/// A task program, its functions in the order of the text.
#[derive(Drop)]
pub struct Program {
    pub functions: Vec<Function>,
}
