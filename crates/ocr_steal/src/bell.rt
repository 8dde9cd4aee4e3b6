// The bell that wakes workers which sleep.
use crossbeam_utils::CachePadded;
use std::sync::Wait;
use std::sync::atomic::{AtomicU64, Ordering};
use std::time::Duration;

/// Wakes the workers of a pool that sleep since they found nothing to do. All that it keeps are
/// hints, of which no clause tells anything: each sleep ends by itself after a while.
// Who is to sleep lies down first, and looks for work once more then; who brings work rings after
// it. As all steps have one order, one of the two sees the other, and no ring is lost.
#[derive(Drop)]
pub struct Bell {
    // How often it rang. Whoever sleeps does so while this stands still.
    rings: CachePadded<AtomicU64>,
    // How many workers lie down.
    asleep: CachePadded<AtomicU64>,
    // 1 from a ring on, until one of those that lay down then has found work or lies down again.
    searching: CachePadded<AtomicU64>,
}

impl Bell {
    pub(crate) fn new() -> Bell {
        Bell {
            rings: CachePadded::new(AtomicU64::new(0)),
            asleep: CachePadded::new(AtomicU64::new(0)),
            searching: CachePadded::new(AtomicU64::new(0)),
        }
    }

    /// Whether a worker lies down or sleeps.
    #[inline(always)]
    pub fn has_sleepers(&self) -> bool {
        self.asleep.load(Ordering::SeqCst) != 0
    }

    /// Wakes a worker, where one sleeps and none that was woken searches still.
    pub fn ring(&self) {
        if !self.has_sleepers() {
            return;
        }
        let first = self
            .searching
            .compare_exchange(0, 1, Ordering::SeqCst, Ordering::SeqCst);
        if first.is_ok() {
            self.rings.fetch_add(1, Ordering::SeqCst);
            self.rings.wake_one();
        }
    }

    /// Wakes all that sleep.
    pub fn ring_all(&self) {
        self.rings.fetch_add(1, Ordering::SeqCst);
        self.rings.wake_all();
    }

    /// A worker lies down: how often it rang so far. It has to look for work once more before it
    /// sleeps.
    pub fn lie_down(&self) -> u64 {
        self.asleep.fetch_add(1, Ordering::SeqCst);
        self.rings.load(Ordering::SeqCst)
    }

    /// Sleeps for so many milliseconds at most, or until it rings, unless it rang since the worker
    /// lay down.
    pub fn sleep<R: Wait>(&self, rt: &R, rung: u64, millis: u64) {
        let low = (rung % (1 << 32)) as u32;
        self.rings
            .park_timeout(rt, low, Duration::from_millis(millis));
    }

    /// A worker that lay down gets up.
    pub fn get_up(&self) {
        self.asleep.fetch_sub(1, Ordering::SeqCst);
    }

    /// A worker that lay down, or was woken, searches no longer: whether one that was woken still
    /// did.
    pub fn end_search(&self) -> bool {
        self.searching.swap(0, Ordering::SeqCst) != 0
    }
}
