// A worker that slept is there once somebody has an EDT to spare.
use crate::gates::{MADE, THREE};
use ocr_machine_history::Entry;
use ocr_tests_run::{WHOLE, outcome_at};
use ocr_turns::Clerk;
use ocr_worker_clerk::{Gate, Ocr};
use std::sync::Wait;
use std::sync::atomic::{AtomicU64, Ordering};
use std::test::Fail;
use std::thread;

/// So many idle rounds a worker has only after it slept: it spins in the first few of them.
const IDLE_ROUNDS: u64 = 12;

/// How often a held worker looks again before the test fails.
const TURNS: u64 = 10_000_000;

/// Holds `mainEdt` at its Start until another worker was idle for so many rounds, and once it has
/// made all EDTs until another worker has an entry.
#[derive(Drop)]
struct Late {
    /// the worker of `mainEdt`
    maker: AtomicU64,
    /// how many rounds another worker was idle since then
    idle: AtomicU64,
    /// 1 once another worker has an entry
    helped: AtomicU64,
    /// 1 once a wait took too long
    failed: AtomicU64,
}

impl Late {
    fn new() -> Self {
        Late {
            maker: AtomicU64::new(0),
            idle: AtomicU64::new(0),
            helped: AtomicU64::new(0),
            failed: AtomicU64::new(0),
        }
    }

    fn hold(&self, word: &AtomicU64, least: u64) {
        for _ in 0..TURNS {
            if word.load(Ordering::SeqCst) >= least {
                return;
            }
            thread::yield_now();
        }
        self.failed.store(1, Ordering::SeqCst);
    }
}

impl Gate for Late {
    fn pass<R: Wait>(&self, _rt: &R, worker: u32, clerk: &Clerk<Ocr>) {
        let worker = worker as u64;
        let maker = self.maker.load(Ordering::SeqCst);
        let log = clerk.log();
        match log.entries().last() {
            None if maker != 0 && maker != worker => {
                self.idle.fetch_add(1, Ordering::SeqCst);
            }
            Some(Entry::Start { edt }) if edt.0 == 2 => {
                self.maker.store(worker, Ordering::SeqCst);
                self.hold(&self.idle, IDLE_ROUNDS);
            }
            Some(_) if maker == worker && log.len() == MADE => self.hold(&self.helped, 1),
            Some(_) if maker != worker => self.helped.store(1, Ordering::SeqCst),
            _ => {}
        }
    }
}

#[test]
fn a_worker_that_slept_takes_what_comes_late(rt: HostRuntime) -> Result<(), Fail> {
    let alloc = rt.alloc();
    let late = Late::new();
    let words = ["run", "--workers", "2"];
    let text = THREE.to_vec(alloc)?;
    let done = outcome_at(&rt, alloc, &words, text, 1000, WHOLE, &late)?;
    assert_eq!(rt; done.ended.status, 0);
    assert_eq!(rt; done.out.bytes(), b"1\n1\n1\n".as_slice());
    assert_eq!(rt; late.failed.load(Ordering::SeqCst), 0);
    assert_eq!(rt; late.helped.load(Ordering::SeqCst), 1);
    Ok(())
}
