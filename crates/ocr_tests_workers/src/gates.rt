// A run that no one worker can do alone: a gate holds whoever is ahead.
use ocr_machine_codes::weight;
use ocr_tests_run::{WHOLE, outcome_at};
use ocr_turns::Clerk;
use ocr_worker_clerk::{Gate, Ocr};
use std::alloc::Global;
use std::sync::Wait;
use std::sync::atomic::{AtomicU64, Ordering};
use std::test::Fail;
use std::thread;

/// Three EDTs without slots.
pub const THREE: &[u8] = b"fn one { print 1; }
fn mainEdt {
  let t = ocrEdtTemplateCreate(one, 0, 0); let i = 0;
  while i < 3 { ocrEdtCreate(t, EDT_PARAM_DEF, [], EDT_PARAM_DEF, [], 0); i = i + 1; }
}";

/// The Acquire, the Start and the four calls of `mainEdt`.
pub const MADE: usize = 6;

/// With them a Free and an End, and of each EDT a Start, a print and an End.
const ENTRIES: usize = 17;

/// How often a held worker looks again before the test fails.
const TURNS: u64 = 10_000_000;

/// How often an idle worker looks whether another one has begun.
const FEW_TURNS: u64 = 1_000_000;

/// Holds an idle worker until another one has made all EDTs, and that one until somebody else has
/// an entry.
#[derive(Drop)]
struct Relay {
    /// how often each worker passed while its log was empty
    idle: Vec<AtomicU64>,
    /// 1 once some log has an entry
    begun: AtomicU64,
    /// the worker that made all EDTs
    maker: AtomicU64,
    /// 1 once another worker's log has an entry
    helped: AtomicU64,
    /// 1 once a wait took too long, or an entry came that no run has
    failed: AtomicU64,
    /// what each entry weighs that was seen last in a log
    weights: Vec<AtomicU64>,
}

fn zeros(alloc: Global, count: usize) -> Result<Vec<AtomicU64>, Fail> {
    let mut zeros = Vec::new(alloc);
    for _ in 0..count {
        zeros.push(AtomicU64::new(0))?;
    }
    Ok(zeros)
}

impl Relay {
    fn new(alloc: Global) -> Result<Self, Fail> {
        Ok(Relay {
            idle: zeros(alloc, 3)?,
            begun: AtomicU64::new(0),
            maker: AtomicU64::new(0),
            helped: AtomicU64::new(0),
            failed: AtomicU64::new(0),
            weights: zeros(alloc, ENTRIES)?,
        })
    }

    // Whether the word was set within so many looks.
    fn is_set(word: &AtomicU64, turns: u64) -> bool {
        for _ in 0..turns {
            if word.load(Ordering::SeqCst) != 0 {
                return true;
            }
            thread::yield_now();
        }
        false
    }

    fn hold(&self, word: &AtomicU64) {
        if !Relay::is_set(word, TURNS) {
            self.failed.store(1, Ordering::SeqCst);
        }
    }

    // The worker's log is empty: at its second pass and later it is idle, where another has begun.
    fn pass_idle(&self, worker: u32) {
        let Some(count) = self.idle.get(worker as usize) else {
            return;
        };
        if count.fetch_add(1, Ordering::SeqCst) == 0 {
            return;
        }
        if Relay::is_set(&self.begun, FEW_TURNS) {
            self.hold(&self.maker);
        }
    }

    fn pass_busy(&self, worker: u64, entries: usize) {
        self.begun.store(1, Ordering::SeqCst);
        let maker = self.maker.load(Ordering::SeqCst);
        if maker == 0 && entries >= MADE {
            self.maker.store(worker, Ordering::SeqCst);
            self.hold(&self.helped);
        } else if maker != 0 && maker != worker {
            self.helped.store(1, Ordering::SeqCst);
        }
    }

    fn note(&self, number: u64, weight: u64) {
        match self.weights.get(number as usize) {
            Some(word) => word.store(weight, Ordering::SeqCst),
            None => self.failed.store(1, Ordering::SeqCst),
        }
    }
}

impl Gate for Relay {
    fn pass<R: Wait>(&self, _rt: &R, worker: u32, clerk: &Clerk<Ocr>) {
        let log = clerk.log();
        match (log.numbers().last(), log.entries().last()) {
            (Some(number), Some(last)) => {
                self.note(*number, weight(last));
                self.pass_busy(worker as u64, log.len());
            }
            _ => self.pass_idle(worker),
        }
    }
}

#[test]
fn two_workers_share_a_run(rt: HostRuntime) -> Result<(), Fail> {
    let alloc = rt.alloc();
    let relay = Relay::new(alloc)?;
    let words = ["run", "--workers", "2"];
    let text = THREE.to_vec(alloc)?;
    let done = outcome_at(&rt, alloc, &words, text, 1000, WHOLE, &relay)?;
    assert_eq!(rt; done.ended.status, 0);
    assert_eq!(rt; done.out.bytes(), b"1\n1\n1\n".as_slice());
    assert_eq!(rt; relay.failed.load(Ordering::SeqCst), 0);
    assert_eq!(rt; relay.helped.load(Ordering::SeqCst), 1);
    let journal = done.ended.journal.as_ref().ok_or("a journal")?;
    let entries = journal.journal().entries();
    assert_eq!(rt; entries.len(), ENTRIES);
    for (number, entry) in entries.iter().enumerate() {
        let seen = relay.weights.get(number).ok_or("a weight")?;
        let seen = seen.load(Ordering::SeqCst);
        assert!(rt; seen == 0 || seen == weight(entry));
    }
    Ok(())
}
