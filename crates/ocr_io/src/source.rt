// Where bytes come from.
ghost use Rattle.std.specs.Prelude.{◌≡◌, ◌≤◌, ◌<◌, ◌+◌, ◌^◌, ◌↔◌, List, [], ℕ, Option, Some, length, IfOk, IfErr, OnErr, OnOk, IfSome, IsErrOf};
ghost use Rattle.std.specs.Io.{ReadsAtMost};
ghost use Rattle.std.specs.Io.KnownBytes.{ReadConsumes};
ghost use Rattle.ocr_base.specs.Count.{Rose, RoseBy};
ghost use Rattle.ocr_io.specs.Source.{Took};

use crate::Failed;
use std::alloc::{AllocError, Global};
use std::error::Error;
use std::fmt;

/// Where bytes come from.
pub trait Source {
    /// The bytes that are left, where the source tells them.
    ghost left: { Self → Option (List ℕ) };

    /// How many bytes it gave. Of a count that would pass 2^64 - 1 nothing is said.
    ghost given: { Self → ℕ };

    /// How often it failed. The count stands still at 2^64 - 1.
    ghost failures: { Self → ℕ };

    /// Reads some bytes to the front of a buffer, and answers how many: none only at the end.
    /// A read that fails takes no byte.
    fn read(&mut self, buf: &mut [u8]) -> Result<usize, Failed>
        requires { 0 < length buf.old }
        ensures bound { ReadsAtMost result buf.new }
        ensures bytes { ReadConsumes (left self.old) (left self.new) result buf.new }
        ensures given { IfOk result (λ n. RoseBy (given self.old) (given self.new) n) }
        ensures kept { OnErr result (given self.new ≡ given self.old) }
        ensures failed { OnErr result (Rose (failures self.old) (failures self.new)) }
        ensures calm { OnOk result (failures self.new ≡ failures self.old) }
        ensures later { failures self.old ≤ failures self.new };

    /// How often it failed.
    fn faults(&self) -> u64
        ensures { result ≡ failures self.now };
}

/// Why a reading stopped.
#[derive(Clone, Copy, PartialEq, Eq, Debug)]
pub enum ReadStop {
    /// A read of the source failed.
    Failed,
    /// There were more bytes than were allowed.
    TooBig,
    /// Memory was refused.
    NoMemory,
}

impl From<AllocError> for ReadStop {
    ghost use Rattle.ocr_io.specs.declared.source.ReadStop.TheVariants.{NoMemory};

    ghost from_gives = { λ _ stop. stop ≡ NoMemory };

    fn from(_refused: AllocError) -> Self {
        ReadStop::NoMemory
    }
}

impl fmt::Display for ReadStop {
    ghost use Rattle.std.specs.Prelude.{Some};
    ghost use Rattle.ocr_io.specs.Messages.{read_stop_text};

    ghost output = { λ stop. Some (read_stop_text stop) };

    fn fmt<W: fmt::Write>(&self, f: &mut fmt::Formatter<W>) -> fmt::Result {
        f.write_str(match self {
            ReadStop::Failed => "a read failed",
            ReadStop::TooBig => "there are too many bytes",
            ReadStop::NoMemory => "no memory",
        })
    }
}

impl Error for ReadStop {}

// How many bytes are asked for at once.
const PIECE: usize = 4096;

/// All bytes of the source, which are at most `most`. It takes no more than one byte beyond these.
#[tactic(auto, using(crate::proofs::KnownBytes::consumes_nothing, crate::proofs::KnownBytes::consumes_more))]
pub fn read_all<S: Source>(alloc: Global, source: &mut S, most: usize) -> Result<Vec<u8>, ReadStop>
    ensures whole { IfOk result (λ read. IfSome (S.left source.old) (λ bytes. read.items ≡ bytes)) }
    ensures end { OnOk result (IfSome (S.left source.old) (λ _. S.left source.new ≡ Some [])) }
    ensures most { IfOk result (λ read. length read.items ≤ most) }
    ensures given { IfOk result (λ read.
        RoseBy (S.given source.old) (S.given source.new) (length read.items)) }
    ensures too_big { IsErrOf result ReadStop.TooBig
        → Took (S.left source.old) (S.left source.new)
        (S.given source.old) (S.given source.new) (most + 1) }
    ensures stopped { IfErr result (λ stop. (stop ≡ ReadStop.TooBig → ⊥) → (n : ℕ) × (n ≤ most)
        × Took (S.left source.old) (S.left source.new)
        (S.given source.old) (S.given source.new) n) }
    ensures exactly { S.given source.old + (most + 1) < 2 ^ 64
        → ((result ≡ Err ReadStop.TooBig)
        ↔ (S.given source.new ≡ S.given source.old + (most + 1))) }
    ensures failed { IsErrOf result ReadStop.Failed
        → Rose (S.failures source.old) (S.failures source.new) }
    ensures calm { OnOk result (S.failures source.new ≡ S.failures source.old) }
    ensures unfailed { (IsErrOf result ReadStop.Failed → ⊥)
        → S.failures source.new ≡ S.failures source.old }
    ensures later { S.failures source.old ≤ S.failures source.new }
{
    let mut bytes = Vec::new(alloc);
    let mut piece = [0u8; PIECE];
    loop {
        let room = most - bytes.len();
        let wanted = room.saturating_add(1).min(PIECE);
        match source.read(&mut piece[..wanted]) {
            Err(Failed) => return Err(ReadStop::Failed),
            Ok(0) => return Ok(bytes),
            Ok(count) if room < count => return Err(ReadStop::TooBig),
            Ok(count) => bytes.extend_from_slice(&piece[..count])?,
        }
    }
}
