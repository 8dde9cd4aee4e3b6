//! The names, kinds and codes of objects.
#![tactic(auto)]

ghost use Rattle.std.specs.Prelude.{◌≡◌};
ghost use Rattle.ocr_guid.specs.Code.{number_of};

pub mod target;

pub use ocr_base::{NoMemory, Seq};
use std::error::Error;
use std::fmt;
use std::marker::Model;

/// The name of an object: a number from 1, in the order in which the names were drawn.
/// 0 names nothing, and 2^64 - 1 is no object yet.
#[derive(Clone, Copy, PartialEq, Eq, PartialOrd, Ord, Default, Debug)]
pub struct Guid(pub u64);

// Contracts see a name as its number.
impl Model for Guid {
    ghost use Rattle.std.specs.Prelude.{ℕ};

    ghost Value = { ℕ };

    ghost view = { λ g. g.0 };

    ghost inverse = { λ n. record { 0 = n } };
}

impl Guid {
    /// NULL_GUID.
    pub const NULL: Guid = Guid(0);

    /// UNINITIALIZED_GUID.
    pub const UNINIT: Guid = Guid(u64::MAX);

    /// The block with the arguments of the program, the first name that is drawn.
    pub const ARGUMENTS: Guid = Guid(1);

    /// The EDT of `mainEdt`, the second.
    pub const MAIN_EDT: Guid = Guid(2);
}

/// What an object is.
#[derive(Clone, Copy, PartialEq, Eq, Debug)]
pub enum Kind {
    /// An event-driven task.
    Edt,
    /// An event of any kind.
    Event,
    /// A data block.
    Block,
    /// A template of EDTs.
    Template,
    /// The scope of a finish EDT.
    Scope,
}

/// What a call answers.
#[derive(Clone, Copy, PartialEq, Eq, Debug)]
pub enum Code {
    /// The call was done.
    Done,
    /// The call is not permitted in the object's state.
    Eperm,
    /// An argument names no object that was made.
    Enoent,
    /// A channel is full.
    Ebusy,
    /// A number, kind, flag or payload is not allowed here.
    Einval,
    /// An object was destroyed.
    Stale,
}

impl fmt::Display for Code {
    ghost use Rattle.std.specs.Prelude.{Some};
    ghost use Rattle.ocr_guid.specs.Code.{text_of};

    ghost output = { λ code. Some (text_of code) };

    fn fmt<W: fmt::Write>(&self, f: &mut fmt::Formatter<W>) -> fmt::Result {
        f.write_str(match self {
            Code::Done => "done",
            Code::Eperm => "EPERM",
            Code::Enoent => "ENOENT",
            Code::Ebusy => "EBUSY",
            Code::Einval => "EINVAL",
            Code::Stale => "STALE",
        })
    }
}

// A code other than `Done` is an error of a call.
impl Error for Code {}

impl Code {
    /// The number that a body sees: 0, 1, 2, 16, 22 or 200.
    pub fn number(self) -> u64
        ensures { result ≡ number_of self }
    {
        match self {
            Code::Done => 0,
            Code::Eperm => 1,
            Code::Enoent => 2,
            Code::Ebusy => 16,
            Code::Einval => 22,
            Code::Stale => 200,
        }
    }
}
