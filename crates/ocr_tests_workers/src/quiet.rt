// Small programs that end quiet, run again and again.
use crate::edits::add;
use crate::gates::THREE;
use crate::runs::{Recording, verdict};
use ocr_machine_history::Entry;
use ocr_tests_journals::program_of;
use ocr_tests_run::{WHOLE, outcome_at};
use ocr_turns::Clerk;
use ocr_worker_clerk::{Gate, Ocr};
use std::alloc::Global;
use std::sync::Wait;
use std::sync::atomic::{AtomicU64, Ordering};
use std::test::Fail;
use std::thread::Threads;

// Each EDT but the last makes the next one as the last thing it does.
const CHAIN: &[u8] = b"fn link {
  if paramv[0] { ocrEdtCreate(paramv[1], EDT_PARAM_DEF, [paramv[0] - 1, paramv[1]], 0, [], 0); }
}
fn mainEdt {
  let t = ocrEdtTemplateCreate(link, 2, 0);
  ocrEdtCreate(t, EDT_PARAM_DEF, [9, t], EDT_PARAM_DEF, [], 0);
}";

// Each EDT above the leaves makes two.
const TREE: &[u8] = b"fn node {
  let i = 0;
  if paramv[0] {
    while i < 2 {
      ocrEdtCreate(paramv[1], EDT_PARAM_DEF, [paramv[0] - 1, paramv[1]], 0, [], 0); i = i + 1;
    }
  }
}
fn mainEdt {
  let t = ocrEdtTemplateCreate(node, 2, 0);
  ocrEdtCreate(t, EDT_PARAM_DEF, [4, t], EDT_PARAM_DEF, [], 0);
}";

// Four EDTs hold one block in EW, so all but one of them wait.
const TURNS: &[u8] = b"fn add { store(depv[0], 0, load(depv[0], 0) + 1); }
fn mainEdt {
  let d = ocrDbCreate(8, 0); ocrDbRelease(d);
  let t = ocrEdtTemplateCreate(add, 0, 1); let i = 0;
  while i < 4 {
    let w = ocrEdtCreate(t, EDT_PARAM_DEF, [], EDT_PARAM_DEF, [], 0);
    ocrAddDependence(d, w, 0, DB_MODE_EW); i = i + 1;
  }
}";

// A latch fires once three EDTs have counted it down, and an EDT has a slot that nothing sets.
const STUCK: &[u8] = b"fn down { ocrEventSatisfySlot(paramv[0], 0, OCR_EVENT_LATCH_DECR_SLOT); }
fn after { print depv[0]; }
fn mainEdt {
  let l = ocrEventCreate(OCR_EVENT_LATCH_T, 0); let i = 0;
  ocrEdtCreate(ocrEdtTemplateCreate(after, 0, 1), EDT_PARAM_DEF, [], EDT_PARAM_DEF, [l], 0);
  while i < 3 { ocrEventSatisfySlot(l, 0, OCR_EVENT_LATCH_INCR_SLOT); i = i + 1; }
  let t = ocrEdtTemplateCreate(down, 1, 0); i = 0;
  while i < 3 { ocrEdtCreate(t, EDT_PARAM_DEF, [l], EDT_PARAM_DEF, [], 0); i = i + 1; }
  ocrEdtCreate(ocrEdtTemplateCreate(after, 0, 1), EDT_PARAM_DEF, [], EDT_PARAM_DEF, [], 0);
}";

const PROGRAMS: [(&[u8], u8); 5] = [(THREE, 0), (CHAIN, 0), (TREE, 0), (TURNS, 0), (STUCK, 4)];

/// More turns than any of these runs takes.
const MOST_TURNS: u64 = 1_000_000;

/// Counts the turns of all workers.
#[derive(Drop)]
struct Turned {
    turns: AtomicU64,
}

impl Gate for Turned {
    fn pass<R: Wait>(&self, _rt: &R, _worker: u32, _clerk: &Clerk<Ocr>) {
        self.turns.fetch_add(1, Ordering::SeqCst);
    }
}

// The entries, copied.
fn copied(alloc: Global, entries: &[Entry]) -> Result<Vec<Entry>, Fail> {
    let mut copied = Vec::new(alloc);
    for entry in entries {
        add(alloc, &mut copied, entry, None)?;
    }
    Ok(copied)
}

// The status of a run by so many workers, and its entries.
fn run_counted<R: Threads + Wait + Sync>(
    rt: &R,
    alloc: Global,
    workers: &str,
    text: &[u8],
    gate: &Turned,
) -> Result<(u8, Vec<Entry>), Fail> {
    let words = ["run", "--workers", workers, "--objects", "256"];
    let input = text.to_vec(alloc)?;
    let done = outcome_at(rt, alloc, &words, input, 1000, WHOLE, gate)?;
    let status = done.ended.status;
    let journal = done.ended.journal.ok_or("a journal")?;
    let entries = copied(alloc, journal.journal().entries())?;
    Ok((status, entries))
}

// Whether the entries are a run of the program that a text is, which no Stop ends.
fn are_quiet(alloc: Global, text: &[u8], entries: Vec<Entry>) -> Result<bool, Fail> {
    let program = program_of(alloc, text)?;
    let recording = Recording { program, entries };
    let has_stop = matches!(recording.entries.last(), Some(Entry::Stop(_)));
    let is_run = verdict(alloc, &recording, &recording.entries).is_ok();
    Ok(is_run && !has_stop)
}

// Whether a run by so many workers ends quiet, with this status, within the turns, by a run.
fn ends_quiet<R: Threads + Wait + Sync>(
    rt: &R,
    alloc: Global,
    workers: &str,
    text: &[u8],
    status: u8,
) -> Result<bool, Fail> {
    let gate = Turned {
        turns: AtomicU64::new(0),
    };
    let (ended, entries) = run_counted(rt, alloc, workers, text, &gate)?;
    if ended != status || gate.turns.load(Ordering::SeqCst) >= MOST_TURNS {
        return Ok(false);
    }
    are_quiet(alloc, text, entries)
}

// Whether each of the programs does so in so many runs.
fn end_quiet<R: Threads + Wait + Sync>(
    rt: &R,
    alloc: Global,
    workers: &str,
    runs: u32,
) -> Result<bool, Fail> {
    for _ in 0..runs {
        for (text, status) in PROGRAMS {
            if !ends_quiet(rt, alloc, workers, text, status)? {
                return Ok(false);
            }
        }
    }
    Ok(true)
}

#[test]
fn a_thousand_runs_by_two_workers_end_quiet(rt: HostRuntime) -> Result<(), Fail> {
    assert!(rt; end_quiet(&rt, rt.alloc(), "2", 200)?);
    Ok(())
}

#[test]
fn six_hundred_runs_by_four_workers_end_quiet(rt: HostRuntime) -> Result<(), Fail> {
    assert!(rt; end_quiet(&rt, rt.alloc(), "4", 120)?);
    Ok(())
}

#[test]
fn four_hundred_runs_by_64_workers_end_quiet(rt: HostRuntime) -> Result<(), Fail> {
    assert!(rt; end_quiet(&rt, rt.alloc(), "64", 80)?);
    Ok(())
}
