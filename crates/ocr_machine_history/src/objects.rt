// The numbers of what the opening makes, and those that an output event is made with.

/// The number of the argument block.
pub const ARGUMENTS: u64 = 1;

/// The number of the EDT of `mainEdt`.
pub const MAIN_EDT: u64 = 2;

/// The number of the kind of an output event, ONCE.
pub const OUTPUT_KIND: u64 = 1;

/// The flags of an output event: it takes an argument.
pub const OUTPUT_FLAGS: u64 = 1;
