// What the rules of task programs say in numbers.

/// The most parameters that ocrEdtCreate may list.
pub const MOST_PARAMETERS: usize = 16;

/// The most dependences that ocrEdtCreate may list.
pub const MOST_DEPENDENCES: usize = 32;
