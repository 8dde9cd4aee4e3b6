// The fuel of a body.

/// How many units of fuel each body of a run has.
pub const FUEL: u64 = 1_000_000;
