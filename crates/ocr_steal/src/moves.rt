// How a hand pushes, takes and steals.
ghost use Rattle.std.specs.Prelude.{◌≡◌, ◌≢◌, ◌<◌, ◌≤◌, ◌++◌, [], ◌∷◌, length, OnOk, OnErr, IfNone, IfSome};
ghost use Rattle.ocr_steal.specs.Deque.{IsFound, TakesFirst};
ghost use Rattle.ocr_steal.specs.Hand.{own, knows, misses_of, missed, pool_of, room, IsSame, HasNoMisses, IsMissed, OnSteal};
ghost use Rattle.ocr_steal.specs.Pool.{IsOfPool, hands_in};

use crate::account::{Looks, Pushes, Steals, Takes};
use crate::hand::{Hand, Steal};
use crate::pool::Pool;
use crossbeam_deque::Steal as Stolen;
use ocr_base::NoMemory;
use ocr_guid::Guid;
use std::alloc::Global;

impl Hand {
    /// The hand's place in the list of `Pool::new`, from 0. A victim is named by this number.
    pub fn number(&self) -> u32
        ensures { result ≡ self.now.number }
    {
        self.number
    }

    /// Puts an EDT at the end of the hand's deque. The first pushes, as many as the room that was
    /// asked for, succeed.
    #[inline(always)]
    pub fn push(&mut self, _alloc: Global, edt: Guid) -> Result<(), NoMemory>
        ensures same { IsSame self.old self.new × (knows self.new ≡ knows self.old) }
        ensures misses { misses_of self.new ≡ misses_of self.old }
        ensures ok { OnOk result
            (own self.new ≡ record (own self.old) { pushed = (own self.old).pushed ++ edt ∷ [] }) }
        ensures err { OnErr result
            ((own self.new ≡ own self.old) × (room self.old ≤ length (own self.old).pushed)) }
    {
        match self.own.push_as::<Pushes>(edt) {
            Ok(()) => Ok(()),
            Err(_) => Err(NoMemory),
        }
    }

    /// Whether the hand's deque has two EDTs or more: a hint, of which no clause tells anything.
    pub fn has_several(&mut self) -> bool
        ensures same { IsSame self.old self.new × (knows self.new ≡ knows self.old) }
        ensures own { own self.new ≡ own self.old }
        ensures misses { misses_of self.new ≡ misses_of self.old }
    {
        self.own.len_as::<Looks>() > 1
    }

    /// Takes the first EDT of the hand's deque. With `None` the hand is as before, and the rule of
    /// the deque has a state in which it is empty; no clause tells at which step it was.
    pub fn take(&mut self) -> Option<Guid>
        ensures same { IsSame self.old self.new × (knows self.new ≡ knows self.old) }
        ensures none { IfNone result (IsFound 0 [] (own self.old) × (own self.new ≡ own self.old)
            × (misses_of self.new ≡ misses_of self.old)) }
        ensures some { IfSome result
            (λ edt. TakesFirst 0 (own self.old) (edt ∷ []) (own self.new) × HasNoMisses self.new) }
    {
        let edt = self.own.pop_as::<Takes>()?;
        self.forget_misses();
        Some(edt)
    }

    /// Takes the first EDT of another hand's deque.
    pub fn steal(&mut self, pool: &Pool, victim: u32) -> Steal
        requires pool { IsOfPool pool.now self.old }
        requires victim { (victim < hands_in pool.now) × (victim ≢ self.old.number) }
        ensures same { IsSame self.old self.new × (own self.new ≡ own self.old) }
        ensures steal { OnSteal result self.old self.new victim }
    {
        let index = victim as usize;
        let stolen = pool.stealers[index].steal_as::<Steals>(&mut self.passes[index]);
        match stolen {
            Stolen::Success(edt) => {
                self.forget_misses();
                Steal::Got(edt)
            }
            Stolen::Empty => {
                self.count_miss(index);
                Steal::Empty
            }
            Stolen::Retry => {
                self.count_miss(index);
                Steal::Again
            }
        }
    }

    /// How many steals from this victim got nothing since the hand last got an EDT, or since it was
    /// made; at most 2^64 - 1.
    pub fn misses(&self, victim: u32) -> u64
        requires { victim < length (pool_of self.now) }
        ensures { result ≡ missed self.now victim }
    {
        self.misses[victim as usize]
    }

    fn forget_misses(&mut self)
        ensures same { IsSame self.old self.new × (own self.new ≡ own self.old) }
        ensures passes { self.new.passes ≡ self.old.passes }
        ensures none { HasNoMisses self.new }
    {
        if self.has_missed {
            self.misses.as_mut_slice().fill(0);
            self.has_missed = false;
        }
    }

    fn count_miss(&mut self, victim: usize)
        requires { victim < length (misses_of self.old) }
        ensures same { IsSame self.old self.new × (own self.new ≡ own self.old) }
        ensures passes { self.new.passes ≡ self.old.passes }
        ensures counted { IsMissed self.old self.new victim }
    {
        self.has_missed = true;
        self.misses[victim] = self.misses[victim].saturating_add(1);
    }
}
