//! What events send to, and what they answer.
use crate::{Code, Guid};
use ocr_base::Seq;

/// What a satisfied event reaches: a slot of an EDT or of another event.
#[derive(Clone, Copy, PartialEq, Eq, Debug)]
pub struct Target {
    /// The EDT, or the event.
    pub object: Guid,
    /// Whether it is an EDT.
    pub is_edt: bool,
    /// Its slot, from 0.
    pub slot: u32,
}

/// What an event answers to a satisfaction.
#[derive(Drop)]
pub enum Satisfied {
    /// It sends its payload to these targets, in the order in which they were linked.
    Fired(Seq<Target>),
    /// It waits for more, or keeps the payload for a later link.
    Kept,
    /// It has fired before and passes this one over.
    Ignored,
    /// It refuses, and is as before.
    Refused(Code),
}

/// What an event answers to a new target.
#[derive(Clone, Copy, PartialEq, Eq, Debug)]
pub enum Linked {
    /// The target waits.
    Kept,
    /// The target gets this payload at once.
    Now(Guid),
    /// It refuses, and is as before.
    Refused(Code),
}
