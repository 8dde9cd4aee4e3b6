// How far a run may go.

/// How far a run may go: how many workers it has, how many objects it may make, and how much the
/// entries of one worker may weigh together.
#[derive(Clone, Copy, Debug)]
pub struct Limits {
    pub workers: u32,
    pub objects: u64,
    pub share: u64,
}
