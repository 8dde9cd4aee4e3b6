// The walk along the pairs of touches that race.
ghost use Rattle.std.specs.Prelude.{◌≡◌, ◌<◌, ◌≤◌, ◌+◌, ◌*◌, length, drop, ℕ, Option, IfOk, IfSome};
ghost use Rattle.ocr_machine_history.specs.History.{Setting, History, history_of};
ghost use Rattle.ocr_machine_parts.specs.Legal.{IsRun};
ghost use Rattle.ocr_memory_model.specs.Orders.{Orders};
ghost use Rattle.ocr_memory_model.specs.RaceList.{AreRaces};
ghost use Rattle.ocr_memory_model.specs.Touches as spec;
ghost use Rattle.ocr_memory_model.specs.Walk.{is_before, first_pair, all_races, pairs_left, IsNextRace, IsPartner};

use crate::happens_before::HappensBefore;
use crate::race::Race;
use crate::touch::{Touch, touch_list};
use ocr_base::NoMemory;
use ocr_guid::Guid;
use ocr_machine_history::Journal;
use std::alloc::Global;

/// A pair of touches: from it a walk along the pairs goes on.
#[derive(Clone, Copy)]
pub struct Pair {
    first: usize,
    second: usize,
}

impl Pair {
    /// The first pair.
    pub fn new() -> Self
        ensures { result ≡ first_pair }
    {
        Pair {
            first: 0,
            second: 1,
        }
    }
}

fn is_unordered(order: &HappensBefore, a: usize, b: usize) -> bool
    ensures { (s : Setting) (J : History) → Orders s J order.now
        → result ≡ spec.is_unordered (is_before s J) a b }
{
    if a < b {
        !order.before(a, b)
    } else {
        !order.before(b, a)
    }
}

// Whether there is a store that is not ordered with an access.
fn is_apart(order: &HappensBefore, store: Option<usize>, access: usize) -> bool
    ensures { (s : Setting) (J : History) → Orders s J order.now
        → result ≡ spec.is_apart (is_before s J) store access }
{
    match store {
        Some(place) => is_unordered(order, place, access),
        None => false,
    }
}

fn are_racing(order: &HappensBefore, x: &Touch, y: &Touch) -> bool
    ensures { (s : Setting) (J : History) → Orders s J order.now
        → result ≡ spec.are_racing (is_before s J) x.now y.now }
{
    is_apart(order, x.places.store, y.places.last) || is_apart(order, y.places.store, x.places.last)
}

fn is_same_word(x: &Touch, y: &Touch) -> bool
    ensures { result ≡ spec.is_same_word x.now y.now }
{
    x.block == y.block && x.word == y.word
}

fn race_of(x: &Touch, y: &Touch) -> Race
    ensures { result ≡ spec.race_of x.now y.now }
{
    Race {
        block: Guid(x.block),
        word: x.word,
        first: Guid(x.edt),
        second: Guid(y.edt),
    }
}

// The next touch of the same word, from a place on, with which a touch races.
fn partner(order: &HappensBefore, x: &Touch, touches: &[Touch], from: usize) -> Option<usize>
    ensures within { IfSome result (λ second. (from ≤ second) × (second < length touches.now)) }
    ensures next { (s : Setting) (J : History) → Orders s J order.now
        → IsPartner (is_before s J) x.now touches.now from result }
{
    for second in from..touches.len() {
        if !is_same_word(x, &touches[second]) {
            return None;
        }
        if are_racing(order, x, &touches[second]) {
            return Some(second);
        }
    }
    None
}

/// Who touched which word last, from which the races are told.
#[derive(Drop)]
pub struct Touches {
    list: Vec<Touch>,
}

impl Touches {
    /// The touches of a journal.
    pub fn of(alloc: Global, journal: &Journal) -> Result<Self, NoMemory>
        ensures races { IfOk result (λ touches. (s : Setting) → IsRun s (history_of journal.now)
            → AreRaces s (history_of journal.now)
            (all_races s (history_of journal.now) touches)) }
        ensures few { IfOk result (λ touches. pairs_left touches first_pair
            ≤ length journal.now * length journal.now + length journal.now) }
    {
        let list = touch_list(alloc, journal.entries())?;
        Ok(Touches { list })
    }

    /// The next race from a pair on, with the pair from which the walk goes on after it; None
    /// where there is none.
    pub fn next_race(&self, order: &HappensBefore, from: Pair) -> Option<(Race, Pair)>
        ensures next { (s : Setting) (J : History) → Orders s J order.now
            → IsNextRace s J self.now from result }
        ensures less { IfSome result (λ found.
            pairs_left self.now found.1 < pairs_left self.now from) }
    {
        let touches = self.list.as_slice();
        let mut at = from;
        while at.first < touches.len() {
            let x = &touches[at.first];
            if let Some(second) = partner(order, x, touches, at.second) {
                let race = race_of(x, &touches[second]);
                return Some((
                    race,
                    Pair {
                        first: at.first,
                        second: second + 1,
                    },
                ));
            }
            at = Pair {
                first: at.first + 1,
                second: at.first + 2,
            };
        }
        None
    }
}
