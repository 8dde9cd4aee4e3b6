// EDTs in the order in which they came, each with a mode.
ghost use Rattle.std.specs.Prelude.{◌≡◌, ◌≤◌, ◌<◌, ◌+◌, ◌-◌, ◌^◌, ℕ, List, [], ◌∷◌, ◌++◌, None, IfOk, OnErr, length, drop, MatchOption};
ghost use Rattle.ocr_acquire.specs.declared.Mode.{Mode as ModeOf};
ghost use Rattle.ocr_acquire.specs.Mode.{mode_in};
ghost use Rattle.ocr_datablock.specs.Block.{is_empty, names, without, front_that_fits};
ghost use Rattle.ocr_datablock.specs.Steps.{StandOnce};
ghost use Rattle.ocr_datablock.specs.Tally.{IsTally, IsBounded, CountsOne};

use crate::tally::Tally;
use lru::LruCache;
use ocr_acquire::Mode;
use ocr_base::NoMemory;
use ocr_guid::Guid;
use std::alloc::Global;
use std::marker::Model;

/// EDTs, none of them twice, in the order in which they came. Each call takes the same time however
/// many there are, except those that answer or drop a list.
#[derive(Drop)]
pub struct Row {
    // the last who came first
    cache: LruCache<u64, Mode>,
    tally: Tally,
}

impl Model for Row {
    ghost use Rattle.std.specs.Prelude.{◌≡◌, ◌-◌, ◌^◌, ℕ, List, reverse};
    ghost use Rattle.ocr_acquire.specs.declared.Mode.{Mode};
    ghost use Rattle.ocr_datablock.specs.Steps.{StandOnce};
    ghost use Rattle.ocr_datablock.specs.Tally.{IsTally};

    ghost Value = { List (ℕ × Mode) };

    ghost view = { λ row. reverse row.cache.entries };

    ghost invariant = { λ row. (row.cache.cap ≡ 2 ^ 64 - 1)
        × StandOnce (reverse row.cache.entries)
        × IsTally row.tally (reverse row.cache.entries) };
}

impl Row {
    /// Nobody.
    pub fn new(alloc: Global) -> Result<Row, NoMemory>
        ensures { IfOk result (λ row. row ≡ []) }
    {
        let cache = LruCache::unbounded(alloc)?;
        Ok(Row {
            cache,
            tally: Tally::new(),
        })
    }

    /// Whether nobody is there.
    pub fn is_empty(&self) -> bool
        ensures { result ≡ is_empty self.now }
    {
        self.cache.is_empty()
    }

    /// How many there are.
    pub fn len(&self) -> usize
        ensures length { result ≡ length self.now }
        ensures small { result < 2 ^ 63 }
    {
        self.cache.len()
    }

    /// The mode of an EDT; None where it is not there.
    pub fn mode_of(&self, edt: Guid) -> Option<Mode>
        ensures { result ≡ mode_in edt self.now }
    {
        let _tally = self.tally;
        self.cache.peek(&edt.0).copied()
    }

    /// How many each mode does not go with.
    pub fn tally(&self) -> Tally
        ensures tells { IsTally result self.now }
        ensures bounded { IsBounded result }
        ensures all { result.all < 2 ^ 63 }
    {
        let _count = self.len();
        self.tally
    }

    /// How many but for one each mode does not go with.
    pub fn tally_without(&self, edt: Guid) -> Tally
        ensures tells { IsTally result (without edt self.now) }
        ensures bounded { IsBounded result }
        ensures all { result.all < 2 ^ 63 }
    {
        let _count = self.len();
        let tally = self.tally;
        match self.mode_of(edt) {
            Some(mode) => tally.minus(edt, mode),
            None => tally,
        }
    }

    /// Adds one who is not there. After an error all are as before.
    pub fn push(&mut self, edt: Guid, mode: Mode) -> Result<(), NoMemory>
        requires { mode_in edt self.old ≡ None }
        ensures state { IfOk result (λ _. self.new ≡ self.old ++ (edt, mode) ∷ []) }
        ensures err { OnErr result (self.new ≡ self.old) }
    {
        let _count = self.cache.len();
        let tally = self.tally.plus(edt, mode);
        self.cache.put(edt.0, mode)?;
        self.tally = tally;
        Ok(())
    }

    /// Takes one out, if it is there.
    pub fn remove(&mut self, edt: Guid)
        ensures { self.new ≡ without edt self.old }
    {
        if let Some(mode) = self.cache.pop(&edt.0) {
            self.tally = self.tally.minus(edt, mode);
        }
    }

    /// Takes out the first who came, if somebody is there.
    fn pop_first(&mut self)
        ensures { self.new ≡ drop 1 self.old }
    {
        if let Some((number, mode)) = self.cache.pop_lru() {
            self.tally = self.tally.minus(Guid(number), mode);
        }
    }

    /// Takes out as many as this of those who came first.
    pub fn drop_first(&mut self, count: usize)
        ensures { self.new ≡ drop count self.old }
    {
        for _taken in 0..count {
            self.pop_first();
        }
    }

    /// All names.
    pub fn names(&self, alloc: Global) -> Result<Vec<Guid>, NoMemory>
        ensures { IfOk result (λ all. all.items ≡ names self.now) }
    {
        let mut all = Vec::new(alloc);
        let mut left = self.cache.iter();
        while let Some((number, _)) = left.next_back() {
            all.push(Guid(*number))?;
        }
        Ok(all)
    }

    /// The longest front that fits step by step beside the holders whose tally this is.
    pub fn front(&self, alloc: Global, held: Tally) -> Result<Vec<(Guid, Mode)>, NoMemory>
        requires bounded { IsBounded held }
        requires room { held.all ≤ 2 ^ 63 }
        ensures { IfOk result (λ front. (holders : List (ℕ × ModeOf)) → IsTally held holders
            → front.items ≡ front_that_fits holders self.now) }
    {
        let _count = self.cache.len();
        let mut tally = held;
        let mut front = Vec::new(alloc);
        let mut left = self.cache.iter();
        while let Some((number, mode)) = left.next_back() {
            let edt = Guid(*number);
            if !tally.fits(*mode) {
                break;
            }
            tally = tally.plus(edt, *mode);
            front.push((edt, *mode))?;
        }
        Ok(front)
    }
}
