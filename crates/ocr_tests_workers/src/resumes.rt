// An EDT that a release lets go on, run by the worker that did not release.
use ocr_body_meaning::Call;
use ocr_machine_history::Entry;
use ocr_tests_run::{WHOLE, outcome_at};
use ocr_turns::Clerk;
use ocr_worker_clerk::{Gate, Ocr};
use std::alloc::Global;
use std::sync::Wait;
use std::sync::atomic::{AtomicU64, Ordering};
use std::test::Fail;
use std::thread;

// Two EDTs hold one block in EW, one after the other.
const TWO: &[u8] = b"fn add {
  store(depv[0], 0, load(depv[0], 0) + 1); ocrDbRelease(depv[0]); print 1;
}
fn mainEdt {
  let d = ocrDbCreate(8, 0); ocrDbRelease(d);
  let t = ocrEdtTemplateCreate(add, 0, 1); let i = 0;
  while i < 2 {
    let w = ocrEdtCreate(t, EDT_PARAM_DEF, [], EDT_PARAM_DEF, [], 0);
    ocrAddDependence(d, w, 0, DB_MODE_EW); i = i + 1;
  }
}";

/// The block that the two EDTs want.
const BLOCK: u64 = 3;

/// How often a held worker looks again before the test fails.
const TURNS: u64 = 10_000_000;

/// Holds the EDT that was first to acquire the block until the other one waits for it, and once it
/// has released the block until another worker has acquired it.
#[derive(Drop)]
struct Handover {
    /// the worker that acquired the block first
    holder: AtomicU64,
    /// 1 once a worker has let its EDT wait for the block
    waits: AtomicU64,
    /// the worker that acquired the block after that
    next: AtomicU64,
    /// 1 once a wait took too long
    failed: AtomicU64,
}

impl Handover {
    fn new() -> Self {
        Handover {
            holder: AtomicU64::new(0),
            waits: AtomicU64::new(0),
            next: AtomicU64::new(0),
            failed: AtomicU64::new(0),
        }
    }

    fn hold(&self, word: &AtomicU64) {
        for _ in 0..TURNS {
            if word.load(Ordering::SeqCst) != 0 {
                return;
            }
            thread::yield_now();
        }
        self.failed.store(1, Ordering::SeqCst);
    }

    fn acquired(&self, worker: u64) {
        if self.holder.load(Ordering::SeqCst) == 0 {
            self.holder.store(worker, Ordering::SeqCst);
            self.hold(&self.waits);
        } else if self.waits.load(Ordering::SeqCst) == 1 {
            self.next.store(worker, Ordering::SeqCst);
        }
    }

    fn released(&self, worker: u64) {
        if self.holder.load(Ordering::SeqCst) == worker {
            self.hold(&self.next);
        }
    }
}

impl Gate for Handover {
    fn pass<R: Wait>(&self, _rt: &R, worker: u32, clerk: &Clerk<Ocr>) {
        let worker = worker as u64;
        match clerk.log().entries().last() {
            Some(Entry::Acquire { block, .. }) if block.0 == BLOCK => self.acquired(worker),
            Some(Entry::Wait { .. }) => self.waits.store(1, Ordering::SeqCst),
            Some(
                Entry::Call {
                    edt,
                    call: Call::DbRelease { .. },
                    ..
                },
            ) if edt.0 != 2 => self.released(worker),
            _ => {}
        }
    }
}

#[test]
fn a_resumed_edt_is_run_by_another_worker(rt: HostRuntime) -> Result<(), Fail> {
    let alloc: Global = rt.alloc();
    let handover = Handover::new();
    let words = ["run", "--workers", "2", "--summary"];
    let text = TWO.to_vec(alloc)?;
    let done = outcome_at(&rt, alloc, &words, text, 1000, WHOLE, &handover)?;
    assert_eq!(rt; done.ended.status, 0);
    assert_eq!(rt;
        done.out.bytes(),
        b"1\n1\nedts 3 started 3 left 0 stale 0\n".as_slice()
    );
    assert_eq!(rt; handover.failed.load(Ordering::SeqCst), 0);
    let holder = handover.holder.load(Ordering::SeqCst);
    let next = handover.next.load(Ordering::SeqCst);
    assert!(rt; holder != 0 && next != 0 && holder != next);
    Ok(())
}
