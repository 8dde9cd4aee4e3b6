// How tokens are written.
ghost use Rattle.std.specs.Prelude.{◌≡◌, [], ◌∷◌, IfOk};
ghost use Rattle.ocr_program_grammar.specs.Texts as texts;
ghost use Rattle.ocr_program_grammar.specs.Lexing as lexing;

use crate::lexeme::{Lexeme, Word};
use ocr_program_tree::{BinaryOp, CallName, Constant, Name, UnaryOp};
use std::alloc::{AllocError, Global};

const WORDS: [Word; 12] = [
    Word::Fn,
    Word::Let,
    Word::If,
    Word::Else,
    Word::While,
    Word::Print,
    Word::Return,
    Word::Paramc,
    Word::Paramv,
    Word::Depc,
    Word::Depv,
    Word::Code,
];

const CALLS: [CallName; 16] = [
    CallName::DbCreate,
    CallName::DbRelease,
    CallName::DbDestroy,
    CallName::EventCreate,
    CallName::EventCreateParams,
    CallName::EventDestroy,
    CallName::Satisfy,
    CallName::SatisfySlot,
    CallName::AddDependence,
    CallName::TemplateCreate,
    CallName::TemplateDestroy,
    CallName::EdtCreate,
    CallName::Shutdown,
    CallName::Abort,
    CallName::Load,
    CallName::Store,
];

const CONSTANTS: [Constant; 22] = [
    Constant::NullGuid,
    Constant::UninitializedGuid,
    Constant::EdtParamUnk,
    Constant::EdtParamDef,
    Constant::EdtPropNone,
    Constant::EdtPropFinish,
    Constant::DbPropNone,
    Constant::DbPropNoAcquire,
    Constant::EvtPropNone,
    Constant::EvtPropTakesArg,
    Constant::EventLatchDecrSlot,
    Constant::EventLatchIncrSlot,
    Constant::DbModeNull,
    Constant::DbModeRo,
    Constant::DbModeConst,
    Constant::DbModeRw,
    Constant::DbModeEw,
    Constant::EventOnce,
    Constant::EventIdem,
    Constant::EventSticky,
    Constant::EventLatch,
    Constant::EventChannel,
];

/// The letters of a reserved word.
pub fn word_text(word: Word) -> &'static [u8]
    ensures { result.now ≡ texts.word_text word }
{
    match word {
        Word::Fn => b"fn",
        Word::Let => b"let",
        Word::If => b"if",
        Word::Else => b"else",
        Word::While => b"while",
        Word::Print => b"print",
        Word::Return => b"return",
        Word::Paramc => b"paramc",
        Word::Paramv => b"paramv",
        Word::Depc => b"depc",
        Word::Depv => b"depv",
        Word::Code => b"code",
    }
}

/// The letters of a call's name.
pub fn call_text(call: CallName) -> &'static [u8]
    ensures { result.now ≡ texts.call_text call }
{
    match call {
        CallName::DbCreate => b"ocrDbCreate",
        CallName::DbRelease => b"ocrDbRelease",
        CallName::DbDestroy => b"ocrDbDestroy",
        CallName::EventCreate => b"ocrEventCreate",
        CallName::EventCreateParams => b"ocrEventCreateParams",
        CallName::EventDestroy => b"ocrEventDestroy",
        CallName::Satisfy => b"ocrEventSatisfy",
        CallName::SatisfySlot => b"ocrEventSatisfySlot",
        CallName::AddDependence => b"ocrAddDependence",
        CallName::TemplateCreate => b"ocrEdtTemplateCreate",
        CallName::TemplateDestroy => b"ocrEdtTemplateDestroy",
        CallName::EdtCreate => b"ocrEdtCreate",
        CallName::Shutdown => b"ocrShutdown",
        CallName::Abort => b"ocrAbort",
        CallName::Load => b"load",
        CallName::Store => b"store",
    }
}

/// The letters of a constant.
pub fn constant_text(constant: Constant) -> &'static [u8]
    ensures { result.now ≡ texts.constant_text constant }
{
    match constant {
        Constant::NullGuid => b"NULL_GUID",
        Constant::UninitializedGuid => b"UNINITIALIZED_GUID",
        Constant::EdtParamUnk => b"EDT_PARAM_UNK",
        Constant::EdtParamDef => b"EDT_PARAM_DEF",
        Constant::EdtPropNone => b"EDT_PROP_NONE",
        Constant::EdtPropFinish => b"EDT_PROP_FINISH",
        Constant::DbPropNone => b"DB_PROP_NONE",
        Constant::DbPropNoAcquire => b"DB_PROP_NO_ACQUIRE",
        Constant::EvtPropNone => b"EVT_PROP_NONE",
        Constant::EvtPropTakesArg => b"EVT_PROP_TAKES_ARG",
        Constant::EventLatchDecrSlot => b"OCR_EVENT_LATCH_DECR_SLOT",
        Constant::EventLatchIncrSlot => b"OCR_EVENT_LATCH_INCR_SLOT",
        Constant::DbModeNull => b"DB_MODE_NULL",
        Constant::DbModeRo => b"DB_MODE_RO",
        Constant::DbModeConst => b"DB_MODE_CONST",
        Constant::DbModeRw => b"DB_MODE_RW",
        Constant::DbModeEw => b"DB_MODE_EW",
        Constant::EventOnce => b"OCR_EVENT_ONCE_T",
        Constant::EventIdem => b"OCR_EVENT_IDEM_T",
        Constant::EventSticky => b"OCR_EVENT_STICKY_T",
        Constant::EventLatch => b"OCR_EVENT_LATCH_T",
        Constant::EventChannel => b"OCR_EVENT_CHANNEL_T",
    }
}

/// The symbol of an operator.
pub fn operator_text(op: BinaryOp) -> &'static [u8]
    ensures { result.now ≡ texts.operator_text op }
{
    match op {
        BinaryOp::Or => b"|",
        BinaryOp::Xor => b"^",
        BinaryOp::And => b"&",
        BinaryOp::Eq => b"==",
        BinaryOp::Ne => b"!=",
        BinaryOp::Lt => b"<",
        BinaryOp::Le => b"<=",
        BinaryOp::Gt => b">",
        BinaryOp::Ge => b">=",
        BinaryOp::Shl => b"<<",
        BinaryOp::Shr => b">>",
        BinaryOp::Add => b"+",
        BinaryOp::Sub => b"-",
        BinaryOp::Mul => b"*",
        BinaryOp::Div => b"/",
        BinaryOp::Rem => b"%",
    }
}

/// The sign before an operand.
pub fn sign_text(op: UnaryOp) -> &'static [u8]
    ensures { result.now ≡ texts.sign_text op }
{
    match op {
        UnaryOp::Not => b"!",
        UnaryOp::Invert => b"~",
        UnaryOp::Minus => b"-",
    }
}

fn word_of(text: &[u8]) -> Option<Word>
    ensures { result ≡ lexing.word_of text.now }
{
    WORDS.iter().copied().find(|word| word_text(*word) == text)
}

fn call_of(text: &[u8]) -> Option<CallName>
    ensures { result ≡ lexing.call_of text.now }
{
    CALLS.iter().copied().find(|call| call_text(*call) == text)
}

fn constant_of(text: &[u8]) -> Option<Constant>
    ensures { result ≡ lexing.constant_of text.now }
{
    CONSTANTS
        .iter()
        .copied()
        .find(|constant| constant_text(*constant) == text)
}

/// What these letters are: a reserved name, or one that the program chose.
pub fn lexeme_of_name(alloc: Global, text: &[u8]) -> Result<Lexeme, AllocError>
    ensures { IfOk result (λ l. l ≡ lexing.lexeme_of_name text.now) }
{
    if let Some(word) = word_of(text) {
        return Ok(Lexeme::Word(word));
    }
    if let Some(call) = call_of(text) {
        return Ok(Lexeme::Call(call));
    }
    if let Some(constant) = constant_of(text) {
        return Ok(Lexeme::Constant(constant));
    }
    Ok(Lexeme::Name(Name::from_vec(text.to_vec(alloc)?)))
}

// The symbol of one byte.
fn single(byte: u8) -> Option<Lexeme>
    ensures { result ≡ lexing.symbol (byte ∷ []) }
{
    match byte {
        b'!' => Some(Lexeme::Not),
        b'%' => Some(Lexeme::Operator(BinaryOp::Rem)),
        b'&' => Some(Lexeme::Operator(BinaryOp::And)),
        b'(' => Some(Lexeme::OpenRound),
        b')' => Some(Lexeme::CloseRound),
        b'*' => Some(Lexeme::Operator(BinaryOp::Mul)),
        b'+' => Some(Lexeme::Operator(BinaryOp::Add)),
        b',' => Some(Lexeme::Comma),
        b'-' => Some(Lexeme::Operator(BinaryOp::Sub)),
        b'/' => Some(Lexeme::Operator(BinaryOp::Div)),
        b';' => Some(Lexeme::Semicolon),
        b'<' => Some(Lexeme::Operator(BinaryOp::Lt)),
        b'=' => Some(Lexeme::Equals),
        b'>' => Some(Lexeme::Operator(BinaryOp::Gt)),
        b'[' => Some(Lexeme::OpenSquare),
        b']' => Some(Lexeme::CloseSquare),
        b'^' => Some(Lexeme::Operator(BinaryOp::Xor)),
        b'{' => Some(Lexeme::OpenBrace),
        b'|' => Some(Lexeme::Operator(BinaryOp::Or)),
        b'}' => Some(Lexeme::CloseBrace),
        b'~' => Some(Lexeme::Invert),
        _ => None,
    }
}

// The symbol of two bytes.
fn double(first: u8, second: u8) -> Option<Lexeme>
    ensures { result ≡ lexing.symbol (first ∷ second ∷ []) }
{
    match second {
        b'=' => match first {
            b'!' => Some(Lexeme::Operator(BinaryOp::Ne)),
            b'<' => Some(Lexeme::Operator(BinaryOp::Le)),
            b'=' => Some(Lexeme::Operator(BinaryOp::Eq)),
            b'>' => Some(Lexeme::Operator(BinaryOp::Ge)),
            _ => None,
        },
        b'<' => match first {
            b'<' => Some(Lexeme::Operator(BinaryOp::Shl)),
            _ => None,
        },
        b'>' => match first {
            b'>' => Some(Lexeme::Operator(BinaryOp::Shr)),
            _ => None,
        },
        _ => None,
    }
}

/// The symbol of these bytes, where they are one.
pub fn symbol(text: &[u8]) -> Option<Lexeme>
    ensures { result ≡ lexing.symbol text.now }
{
    match text {
        [first] => single(*first),
        [first, second] => double(*first, *second),
        _ => None,
    }
}
