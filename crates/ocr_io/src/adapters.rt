// The real objects: adapters over std's readers and writers. They tell of bytes what these tell.
ghost use Rattle.std.specs.Prelude.{◌≡◌, ◌<◌, ◌≤◌, IfOk, OnErr, OnOk, MatchResult, length, take};
ghost use Rattle.std.specs.Io.{ReadsAtMost};
ghost use Rattle.std.specs.Io.KnownBytes.{ReadConsumes, WriteAppends};

use crate::{Failed, Sink, Source};
use ocr_base::Count;
use std::io;
use std::io::{ErrorKind, Read, Write};

/// The standard input as a source, over a reader.
#[derive(Drop)]
pub struct StdinSource<R: Read> {
    reader: R,
    given: Count,
    faults: Count,
}

impl<R: Read> StdinSource<R> {
    /// A source over a reader, with its counts at 0.
    pub fn new(reader: R) -> Self
        ensures left { ⟦<StdinSource<R> as Source>⟧.left result ≡ R.remaining reader }
        ensures given { ⟦<StdinSource<R> as Source>⟧.given result ≡ 0 }
        ensures failures { ⟦<StdinSource<R> as Source>⟧.failures result ≡ 0 }
    {
        StdinSource {
            reader,
            given: Count::new(),
            faults: Count::new(),
        }
    }
}

impl<R: Read> Source for StdinSource<R> {
    ghost left = { λ s. R.remaining s.reader };

    ghost given = { λ s. s.given };

    ghost failures = { λ s. s.faults };

    fn read(&mut self, buf: &mut [u8]) -> Result<usize, Failed> {
        match read_retrying(&mut self.reader, buf) {
            Ok(count) => {
                self.given.raise_by(count as u64);
                Ok(count)
            }
            Err(_) => {
                self.faults.raise();
                Err(Failed)
            }
        }
    }

    fn faults(&self) -> u64 {
        self.faults.number()
    }
}

/// The standard output as a sink, over a writer that keeps nothing back.
#[derive(Drop)]
pub struct StdoutSink<W: Write> {
    writer: W,
    faults: Count,
}

impl<W: Write> StdoutSink<W> {
    /// A sink over a writer, with its count at 0.
    pub fn new(writer: W) -> Self
        ensures taken { ⟦<StdoutSink<W> as Sink>⟧.taken result ≡ W.contents writer }
        ensures failures { ⟦<StdoutSink<W> as Sink>⟧.failures result ≡ 0 }
    {
        StdoutSink {
            writer,
            faults: Count::new(),
        }
    }
}

impl<W: Write> Sink for StdoutSink<W> {
    ghost taken = { λ s. W.contents s.writer };

    ghost failures = { λ s. s.faults };

    fn write(&mut self, piece: &[u8]) -> Result<usize, Failed> {
        match write_retrying(&mut self.writer, piece) {
            Ok(count) if 0 < count => Ok(count),
            _ => {
                self.faults.raise();
                Err(Failed)
            }
        }
    }

    fn faults(&self) -> u64 {
        self.faults.number()
    }
}

/// The standard error as a sink, over a writer that keeps nothing back.
#[derive(Drop)]
pub struct StderrSink<W: Write>(StdoutSink<W>);

impl<W: Write> StderrSink<W> {
    /// A sink over a writer, with its count at 0.
    pub fn new(writer: W) -> Self
        ensures taken { ⟦<StderrSink<W> as Sink>⟧.taken result ≡ W.contents writer }
        ensures failures { ⟦<StderrSink<W> as Sink>⟧.failures result ≡ 0 }
    {
        StderrSink(StdoutSink::new(writer))
    }
}

impl<W: Write> Sink for StderrSink<W> {
    ghost taken = { λ s. W.contents s.0.writer };

    ghost failures = { λ s. s.0.faults };

    fn write(&mut self, piece: &[u8]) -> Result<usize, Failed> {
        self.0.write(piece)
    }

    fn faults(&self) -> u64 {
        self.0.faults()
    }
}

// One read, tried again where a signal interrupts it.
#[tactic(auto, using(crate::proofs::KnownBytes::reads_after, crate::proofs::KnownBytes::keeps_all, crate::proofs::KnownBytes::keeps_on))]
fn read_retrying<R: Read>(reader: &mut R, buf: &mut [u8]) -> io::Result<usize>
    ensures bound { ReadsAtMost result buf.new }
    ensures bytes { ReadConsumes (R.remaining reader.old) (R.remaining reader.new) result buf.new }
{
    for _ in 0..u64::MAX {
        match reader.read(buf) {
            Err(error) if error.kind() == ErrorKind::Interrupted => {}
            done => return done,
        }
    }
    reader.read(buf)
}

// One write, tried again where a signal interrupts it.
#[tactic(auto, using(crate::proofs::KnownBytes::writes_after, crate::proofs::KnownBytes::keeps_all, crate::proofs::KnownBytes::keeps_on))]
fn write_retrying<W: Write>(writer: &mut W, piece: &[u8]) -> io::Result<usize>
    ensures bound { IfOk result (λ n. n ≤ length piece.now) }
    ensures bytes { WriteAppends (W.contents writer.old) (W.contents writer.new) result piece.now }
{
    for _ in 0..u64::MAX {
        match writer.write(piece) {
            Err(error) if error.kind() == ErrorKind::Interrupted => {}
            done => return done,
        }
    }
    writer.write(piece)
}
