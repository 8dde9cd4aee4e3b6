// Programs, their runs, and what replay says.
ghost use Rattle.std.specs.Prelude.{◌<◌, ◌+◌, ◌^◌, length};

use crate::edits::add;
use ocr_body_code::Checked;
use ocr_machine_history::Entry;
use ocr_tests_journals::{ReplayStop, program_of, replay};
use ocr_tests_run::run_by;
use std::alloc::Global;
use std::sync::Wait;
use std::test::Fail;
use std::thread::Threads;

/// A program with entries that its run made.
#[derive(Drop)]
pub struct Recording {
    pub program: Checked,
    pub entries: Vec<Entry>,
}

/// The program that a text is, with the entries of its run by one worker.
pub fn recording_of<R: Threads + Wait + Sync>(
    rt: &R,
    alloc: Global,
    text: &[u8],
) -> Result<Recording, Fail> {
    recording_by(rt, alloc, "1", text)
}

/// The program that a text is, with the entries of its run by so many workers.
pub fn recording_by<R: Threads + Wait + Sync>(
    rt: &R,
    alloc: Global,
    workers: &str,
    text: &[u8],
) -> Result<Recording, Fail> {
    let program = program_of(alloc, text)?;
    let done = run_by(rt, alloc, workers, text)?;
    let journal = done.ended.journal.ok_or("a journal")?;
    let mut entries = Vec::new(alloc);
    for entry in journal.journal().entries() {
        add(alloc, &mut entries, entry, None)?;
    }
    Ok(Recording { program, entries })
}

/// What replay says of the entries.
pub fn verdict(alloc: Global, recording: &Recording, entries: &[Entry]) -> Result<(), ReplayStop> {
    replay(alloc, &recording.program, &[], 4096, entries)
}

/// What replay is to say, by the first illegal place.
pub fn wanted(illegal: Option<usize>) -> Result<(), ReplayStop> {
    match illegal {
        Some(place) => Err(ReplayStop::Illegal(place)),
        None => Ok(()),
    }
}

/// Whether each front of the entries is a run.
pub fn are_runs(alloc: Global, recording: &Recording) -> bool {
    let entries = recording.entries.as_slice();
    for length in 0..entries.len() + 1 {
        if verdict(alloc, recording, &entries[..length]).is_err() {
            return false;
        }
    }
    true
}
