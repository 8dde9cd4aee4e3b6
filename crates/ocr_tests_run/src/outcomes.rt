// The top call over sources and sinks in memory.
use crate::streams::{Streams, WHOLE, sink, source};
use ocr_io::MemorySink;
use ocr_run::{Ended, Gate, NoGate, ocr_main};
use std::alloc::Global;
use std::sync::Wait;
use std::test::Fail;
use std::thread::Threads;

/// What a call came to, and what it wrote.
#[derive(Drop)]
pub struct Outcome {
    pub ended: Ended,
    pub out: MemorySink,
    pub err: MemorySink,
}

/// The numbers of workers that the tests run programs by.
pub const CREWS: [&str; 3] = ["1", "2", "4"];

fn words(alloc: Global, texts: &[&str]) -> Result<Vec<String>, Fail> {
    let mut words = Vec::new(alloc);
    for text in texts {
        words.push(text.to_string(alloc)?)?;
    }
    Ok(words)
}

/// The call with these words and this input over such streams, whose output has so many bytes of
/// room.
pub fn outcome_of<R: Threads + Wait + Sync>(
    rt: &R,
    alloc: Global,
    texts: &[&str],
    input: Vec<u8>,
    room: usize,
    streams: Streams,
) -> Result<Outcome, Fail> {
    outcome_at(rt, alloc, texts, input, room, streams, &NoGate)
}

/// The same call behind a gate.
pub fn outcome_at<R: Threads + Wait + Sync, G: Gate + Sync>(
    rt: &R,
    alloc: Global,
    texts: &[&str],
    input: Vec<u8>,
    room: usize,
    streams: Streams,
    gate: &G,
) -> Result<Outcome, Fail> {
    let words = words(alloc, texts)?;
    let mut source = source(alloc, input, streams.input)?;
    let mut out = sink(alloc, room, streams.out)?;
    let mut err = sink(alloc, 100, streams.err)?;
    let ended = ocr_main(rt, alloc, &words, &mut source, &mut out, &mut err, gate);
    Ok(Outcome { ended, out, err })
}

/// The run of a text.
pub fn run<R: Threads + Wait + Sync>(
    rt: &R,
    alloc: Global,
    text: &[u8],
    streams: Streams,
) -> Result<Outcome, Fail> {
    outcome_of(rt, alloc, &["run"], text.to_vec(alloc)?, 1000, streams)
}

/// The run of a text by so many workers.
pub fn run_by<R: Threads + Wait + Sync>(
    rt: &R,
    alloc: Global,
    workers: &str,
    text: &[u8],
) -> Result<Outcome, Fail> {
    let words = ["run", "--workers", workers];
    outcome_of(rt, alloc, &words, text.to_vec(alloc)?, 1000, WHOLE)
}
