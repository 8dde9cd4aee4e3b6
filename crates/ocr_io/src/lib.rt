//! Where bytes come from and where they go, each with a count of its faults.
#![tactic(auto)]

mod adapters;
mod memory_sink;
mod memory_source;
mod sink;
mod source;

pub use adapters::{StderrSink, StdinSource, StdoutSink};
pub use memory_sink::MemorySink;
pub use memory_source::MemorySource;
pub use sink::{Sink, WriteStop, write_all};
pub use source::{ReadStop, Source, read_all};
use std::error::Error;
use std::fmt;

/// A read or a write failed.
#[derive(Clone, Copy, PartialEq, Eq, Debug)]
pub struct Failed;

impl fmt::Display for Failed {
    ghost use Rattle.std.specs.Prelude.{Some, codes};

    ghost output = { λ _. Some (codes "a read or a write failed") };

    fn fmt<W: fmt::Write>(&self, f: &mut fmt::Formatter<W>) -> fmt::Result {
        f.write_str("a read or a write failed")
    }
}

impl Error for Failed {}
