// The end of a run, as a clerk is told of it.

/// The run has ended: the commit word that a call on the table read, at least 2^48, or the number
/// of the Stop by which this clerk ended the run.
#[derive(Clone, Copy, Debug)]
pub struct Over(pub u64);
