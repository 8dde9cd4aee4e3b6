// How often one worker touches the word that counts all that can still come.
use ocr_tests_run::{WHOLE, outcome_at};
use ocr_turns::Clerk;
use ocr_worker_clerk::{Gate, Ocr};
use std::alloc::Global;
use std::sync::Wait;
use std::sync::atomic::{AtomicU64, Ordering};
use std::test::Fail;
use std::thread::Threads;

const PRINTS: &[u8] = b"fn mainEdt { let i = 0; while i < 400 { print i; i = i + 1; } }";

const EDTS: &[u8] = b"fn none { }
fn mainEdt {
  let t = ocrEdtTemplateCreate(none, 0, 0); let i = 0;
  while i < 400 { ocrEdtCreate(t, EDT_PARAM_DEF, [], EDT_PARAM_DEF, [], 0); i = i + 1; }
}";

// Each EDT makes the next one.
const CHAIN: &[u8] = b"fn link {
  if paramv[0] { ocrEdtCreate(paramv[1], EDT_PARAM_DEF, [paramv[0] - 1, paramv[1]], 0, [], 0); }
}
fn mainEdt {
  let t = ocrEdtTemplateCreate(link, 2, 0);
  ocrEdtCreate(t, EDT_PARAM_DEF, [400, t], EDT_PARAM_DEF, [], 0);
}";

// Each creation sends three messages.
const LINKS: &[u8] = b"fn none { }
fn mainEdt {
  let e = ocrEventCreate(OCR_EVENT_STICKY_T, 0);
  let t = ocrEdtTemplateCreate(none, 0, 3); let i = 0;
  while i < 100 { ocrEdtCreate(t, EDT_PARAM_DEF, [], EDT_PARAM_DEF, [e, e, e], 0); i = i + 1; }
  ocrEventSatisfy(e, NULL_GUID);
}";

// Blocks that EDTs hold in EW, one after the other.
const TURNS: &[u8] = b"fn add { store(depv[0], 0, load(depv[0], 0) + 1); }
fn mainEdt {
  let d = ocrDbCreate(8, 0); ocrDbRelease(d); let t = ocrEdtTemplateCreate(add, 0, 1); let i = 0;
  while i < 100 {
    let w = ocrEdtCreate(t, EDT_PARAM_DEF, [], EDT_PARAM_DEF, [], 0);
    ocrAddDependence(d, w, 0, DB_MODE_EW); i = i + 1;
  }
}";

const PROGRAMS: [&[u8]; 5] = [PRINTS, EDTS, CHAIN, LINKS, TURNS];

/// By what follows one entry a clerk gets a unit at most. Where it raises the word it gets more
/// than 32 at once.
const RAISED: u64 = 32;

/// Counts how often a worker touches the word.
#[derive(Drop)]
struct Touches {
    /// the units and the entries that the clerk had when it passed last
    units: AtomicU64,
    entries: AtomicU64,
    raises: AtomicU64,
    /// how often it passed once more without an entry, since it was idle
    idle: AtomicU64,
}

impl Touches {
    fn new() -> Self {
        Touches {
            units: AtomicU64::new(0),
            entries: AtomicU64::new(u64::MAX),
            raises: AtomicU64::new(0),
            idle: AtomicU64::new(0),
        }
    }

    // The root lowers the word once. Whoever is idle lowers and reads it, also at the end, where it
    // passes once more after an entry.
    fn count(&self) -> u64 {
        let idle = self.idle.load(Ordering::SeqCst).saturating_add(1);
        let raises = self.raises.load(Ordering::SeqCst);
        raises
            .saturating_add(idle.saturating_mul(2))
            .saturating_add(1)
    }
}

impl Gate for Touches {
    fn pass<R: Wait>(&self, _rt: &R, _worker: u32, clerk: &Clerk<Ocr>) {
        let units = clerk.units();
        let before = self.units.swap(units, Ordering::SeqCst);
        if units >= before.saturating_add(RAISED) {
            self.raises.fetch_add(1, Ordering::SeqCst);
        }
        let entries = clerk.log().len() as u64;
        if self.entries.swap(entries, Ordering::SeqCst) == entries {
            self.idle.fetch_add(1, Ordering::SeqCst);
        }
    }
}

// How often one worker touches the word in a run of the text, and how many entries there are.
fn touches_and_entries<R: Threads + Wait + Sync>(
    rt: &R,
    alloc: Global,
    text: &[u8],
) -> Result<(u64, u64), Fail> {
    let touches = Touches::new();
    let words = ["run", "--workers", "1", "--objects", "2048"];
    let input = text.to_vec(alloc)?;
    let done = outcome_at(rt, alloc, &words, input, 4000, WHOLE, &touches)?;
    let journal = done.ended.journal.ok_or("a journal")?;
    let entries = journal.journal().entries().len() as u64;
    Ok((touches.count(), entries))
}

#[test]
fn one_worker_touches_the_live_word_once_for_32_entries(rt: HostRuntime) -> Result<(), Fail> {
    for text in PROGRAMS {
        let (touches, entries) = touches_and_entries(&rt, rt.alloc(), text)?;
        assert!(rt; touches.saturating_mul(32) <= entries);
    }
    Ok(())
}
