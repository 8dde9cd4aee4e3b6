// A place at which workers can be held.
use crate::ocr::Ocr;
use ocr_turns::Clerk;
use std::sync::Wait;

/// A place that a worker passes before each entry and before it ends the run, and at the end of
/// each idle round, with its number and its clerk. A gate may hold it there.
pub trait Gate {
    /// Comes back when this worker may go on. Its clerk is only looked at.
    fn pass<R: Wait>(&self, rt: &R, worker: u32, clerk: &Clerk<Ocr>);
}

/// Lets everybody pass at once.
pub struct NoGate;

impl Gate for NoGate {
    fn pass<R: Wait>(&self, _rt: &R, _worker: u32, _clerk: &Clerk<Ocr>) {}
}
