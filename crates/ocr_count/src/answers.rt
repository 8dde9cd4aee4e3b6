// What the calls answer.

/// What a countdown leaves to be counted.
#[derive(Drop)]
pub enum Down {
    /// Nothing: the EDT is made, all its slots are set, and this caller alone is told so.
    Last,
    /// So many units, never 0.
    More(u64),
}

/// Whether an EDT was claimed.
#[derive(Drop)]
pub enum Claimed {
    /// It was ready, and this clerk has its claim.
    Won,
    /// It was not ready, and this is its word.
    Lost(u64),
}
