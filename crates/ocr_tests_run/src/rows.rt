// What comes of words and a text.
use crate::outcomes::outcome_of;
use crate::streams::Streams;
use std::alloc::Global;
use std::sync::Wait;
use std::test::Fail;
use std::thread::Threads;

/// Words and a text, and what comes of them: the status, the output, and the line on `err`.
#[derive(Clone, Copy)]
pub struct Row<'a> {
    pub words: &'a [&'a str],
    pub text: &'a [u8],
    pub status: u8,
    pub out: &'a [u8],
    pub err: &'a [u8],
}

/// Whether that comes of the row over such streams which it tells.
pub fn is_told<R: Threads + Wait + Sync>(
    rt: &R,
    alloc: Global,
    row: Row,
    streams: Streams,
) -> Result<bool, Fail> {
    let text = row.text.to_vec(alloc)?;
    let done = outcome_of(rt, alloc, row.words, text, 1000, streams)?;
    Ok(
        done.ended.status == row.status
            && done.out.bytes() == row.out
            && done.err.bytes() == row.err,
    )
}
