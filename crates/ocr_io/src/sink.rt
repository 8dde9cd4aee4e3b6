// Where bytes go.
ghost use Rattle.std.specs.Prelude.{◌≡◌, ◌≤◌, ◌<◌, List, ℕ, Option, length, IfOk, IfErr, OnErr, OnOk, take};
ghost use Rattle.std.specs.Io.KnownBytes.{Appends, WriteAppends};
ghost use Rattle.ocr_base.specs.Count.{Rose};

use crate::Failed;
use std::error::Error;
use std::fmt;

/// Where bytes go.
pub trait Sink {
    /// The bytes that it took, where the sink tells them.
    ghost taken: { Self → Option (List ℕ) };

    /// How often it failed. The count stands still at 2^64 - 1.
    ghost failures: { Self → ℕ };

    /// Takes some bytes from the front of a piece, and answers how many: at least one.
    /// A write that fails takes no byte.
    fn write(&mut self, piece: &[u8]) -> Result<usize, Failed>
        requires { 0 < length piece.now }
        ensures bound { IfOk result (λ n. (0 < n) × (n ≤ length piece.now)) }
        ensures bytes { WriteAppends (taken self.old) (taken self.new) result piece.now }
        ensures failed { OnErr result (Rose (failures self.old) (failures self.new)) }
        ensures calm { OnOk result (failures self.new ≡ failures self.old) }
        ensures later { failures self.old ≤ failures self.new };

    /// How often it failed.
    fn faults(&self) -> u64
        ensures { result ≡ failures self.now };
}

/// A write failed, once the first `sent` bytes were taken.
#[derive(Clone, Copy, PartialEq, Eq, Debug)]
pub struct WriteStop {
    pub sent: usize,
}

impl fmt::Display for WriteStop {
    ghost use Rattle.std.specs.Prelude.{◌++◌, Some, codes, decimal};

    ghost output = { λ stop. Some (codes "a write failed after "
        ++ (decimal stop.sent ++ codes " bytes")) };

    fn fmt<W: fmt::Write>(&self, f: &mut fmt::Formatter<W>) -> fmt::Result {
        write!(f, "a write failed after {} bytes", self.sent)
    }
}

impl Error for WriteStop {}

/// Writes the whole piece.
#[tactic(auto, using(crate::proofs::KnownBytes::appends_nothing, crate::proofs::KnownBytes::appends_more))]
pub fn write_all<O: Sink>(sink: &mut O, piece: &[u8]) -> Result<(), WriteStop>
    ensures whole { OnOk result (Appends (O.taken sink.old) (O.taken sink.new) piece.now) }
    ensures sent { IfErr result (λ stop.
        Appends (O.taken sink.old) (O.taken sink.new) (take stop.sent piece.now)) }
    ensures within { IfErr result (λ stop. stop.sent < length piece.now) }
    ensures failed { OnErr result (Rose (O.failures sink.old) (O.failures sink.new)) }
    ensures calm { OnOk result (O.failures sink.new ≡ O.failures sink.old) }
    ensures later { O.failures sink.old ≤ O.failures sink.new }
{
    let mut sent = 0;
    while sent < piece.len() {
        match sink.write(&piece[sent..]) {
            Ok(count) => sent += count,
            Err(Failed) => return Err(WriteStop { sent }),
        }
    }
    Ok(())
}
