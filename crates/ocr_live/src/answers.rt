// What the live word tells.

/// What a clerk reads of the live word.
#[derive(Drop)]
pub enum LiveRead {
    /// Nothing can come any more: so many entries there are, and there will be no more.
    Quiet { entries: u64 },
    /// The live word, which is not 0.
    Busy(u64),
}
