// Sources and sinks in memory, each of which fails at the call that it is told.
ghost use Rattle.std.specs.Prelude.{◌≤◌};

use ocr_io::{MemorySink, MemorySource};
use std::alloc::Global;
use std::test::Fail;

/// How many bytes a stream gives or takes at a call, at least one, and the call that fails.
#[derive(Clone, Copy)]
pub struct Stream {
    pub most: usize,
    pub fails: Option<u64>,
}

/// The streams of a call.
#[derive(Clone, Copy)]
pub struct Streams {
    pub input: Stream,
    pub out: Stream,
    pub err: Stream,
}

/// A stream that fails nowhere.
pub const CALM: Stream = Stream {
    most: 4096,
    fails: None,
};

/// Streams that fail nowhere.
pub const WHOLE: Streams = Streams {
    input: CALM,
    out: CALM,
    err: CALM,
};

fn fails(alloc: Global, stream: Stream) -> Result<Vec<u64>, Fail> {
    let mut calls = Vec::new(alloc);
    if let Some(call) = stream.fails {
        calls.push(call)?;
    }
    Ok(calls)
}

/// A source that gives this text.
pub(crate) fn source(alloc: Global, text: Vec<u8>, stream: Stream) -> Result<MemorySource, Fail> {
    let fails = fails(alloc, stream)?;
    Ok(MemorySource::new(text, stream.most.max(1), fails))
}

/// A sink with so many bytes of room.
pub(crate) fn sink(alloc: Global, room: usize, stream: Stream) -> Result<MemorySink, Fail> {
    let fails = fails(alloc, stream)?;
    let room = Vec::with_capacity(alloc, room)?;
    Ok(MemorySink::new(room, stream.most.max(1), fails))
}
