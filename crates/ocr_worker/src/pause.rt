// How a worker pauses that finds nothing to do.
use ocr_steal::Bell;
use std::hint;
use std::sync::Wait;

/// How many rounds in succession find nothing before a worker lies down.
const SPINS: u32 = 3;

/// For how long a worker spins after a round that found nothing.
const TURNS: u32 = 200;

/// The longest sleep is of 2^6 milliseconds.
const DOUBLINGS: u32 = 6;

/// A worker's pause since it last found something to do: a few spins, and then sleeps, each twice
/// as long as the last, until the bell rings. Of all this no clause tells anything.
#[derive(Drop)]
pub(crate) struct Pause {
    // The rounds that found nothing since it last slept.
    idle: u32,
    sleeps: u32,
    // Where it lies down: how often the bell had rung then.
    rung: Option<u64>,
}

impl Pause {
    pub(crate) fn new() -> Pause {
        Pause {
            idle: 0,
            sleeps: 0,
            rung: None,
        }
    }

    /// Before it looks for an EDT: where it did so often enough, it lies down first.
    #[inline(always)]
    pub(crate) fn look(&mut self, bell: &Bell) {
        if self.idle >= SPINS {
            self.lie_down(bell);
        }
    }

    fn lie_down(&mut self, bell: &Bell) {
        if self.sleeps > 0 {
            bell.end_search();
        }
        self.rung = Some(bell.lie_down());
    }

    /// It found an EDT.
    #[inline(always)]
    pub(crate) fn end(&mut self, bell: &Bell) {
        if self.idle > 0 {
            self.get_up(bell);
        }
    }

    // Where there is one EDT there may be more, for the next that sleeps.
    fn get_up(&mut self, bell: &Bell) {
        if self.rung.is_some() {
            bell.get_up();
        }
        let searched = self.rung.is_some() || self.sleeps > 0;
        if searched && bell.end_search() {
            bell.ring();
        }
        *self = Pause::new();
    }

    /// It found nothing to do.
    pub(crate) fn wait<R: Wait>(&mut self, rt: &R, bell: &Bell) {
        let Some(rung) = self.rung else {
            self.idle = self.idle.saturating_add(1);
            // Woken, it has slept enough: it looks again at once.
            if self.sleeps == 0 {
                spin();
            }
            return;
        };
        bell.sleep(rt, rung, 1 << self.sleeps.min(DOUBLINGS));
        bell.get_up();
        self.sleeps = self.sleeps.saturating_add(1);
        self.rung = None;
        // It searches once before it lies down again.
        self.idle = SPINS - 1;
    }
}

fn spin() {
    for _ in 0..TURNS {
        hint::spin_loop();
    }
}
