// What a seat owes to the words that count. No value of the type is made.
use std::collections::LinkedList;

/// What a seat owes to the words that count an EDT's open slots.
pub struct Debts {
    /// the slots that it set and whose payload it did not put, each with the EDT and the payload
    pub unput: LinkedList<(u64, u32, u64)>,
    /// the slots whose payload it put and which it did not count
    pub put: LinkedList<(u64, u32, u64)>,
    /// the EDTs that it made and did not count, each with its slot count
    pub made: LinkedList<(u64, u32)>,
    /// the EDTs that its entries resumed and that it did not resume
    pub resumes: LinkedList<u64>,
    /// the EDTs of which it counted the last unit
    pub lasts: LinkedList<u64>,
    /// the EDTs that it made ready, as it counted the last unit or resumed them, in this order
    pub readied: LinkedList<u64>,
}
