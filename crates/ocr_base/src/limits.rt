// Limits that several crates speak of.

/// How many parameters an EDT has at most.
pub const MOST_PARAMETERS: u32 = 16;

/// How many dependences an EDT has at most, and so how many slots.
pub const MOST_DEPENDENCES: u32 = 32;

/// How many objects a run makes at most.
pub const MOST_OBJECTS: u64 = 65_536;

/// How many workers a run has at most.
pub const MOST_WORKERS: u64 = 64;
