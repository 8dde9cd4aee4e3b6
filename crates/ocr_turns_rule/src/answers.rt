// What the calls of the table are given and answer.
use crate::machine::Machine;

/// The answer of a take.
#[derive(Drop)]
pub enum Taken {
    /// The part is kept.
    Mine,
    /// The run has ended: the commit word that was read, at least 2^48.
    Closed(u64),
}

/// The answer of a draw.
#[derive(Drop)]
pub enum Drawn {
    /// A number for a new object.
    Place(u64),
    /// No number was left: the count of draws that was read, at least the limit.
    Full(u64),
}

/// The answer of a commit or a close.
#[derive(Drop)]
pub enum Committed {
    /// The entry's number in the history.
    At(u64),
    /// The run has ended, and the entry does not exist: the commit word, at least 2^48.
    Closed(u64),
}

/// What an entry leaves: the parts of its places, and the messages that it sends.
#[derive(Drop)]
pub struct Change<M: Machine> {
    pub parts: Vec<(u64, M::Part)>,
    pub messages: Vec<M::Message>,
}
