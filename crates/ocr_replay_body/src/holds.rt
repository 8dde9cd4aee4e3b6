// The holds of one EDT, as its judge keeps them.
ghost use Rattle.std.specs.Prelude.{◌≡◌, ◌==◌, ◌<◌, ◌≤◌, [], ◌∷◌, ◌++◌, length, map, true, false, Some, None, IfOk, IfSome, IfNone, OnErr};
ghost use Rattle.std.specs.Option.{option_copied};
ghost use Rattle.ocr_body_meaning.specs.Holds.{load_of, store_of, word_of, Silent, is_done, private_in, private_of, after_call, after_accepted, with_hold, with_write};
ghost use Rattle.ocr_acquire.specs.Mode.{is_isolated, is_writable};
ghost use Rattle.ocr_datablock.specs.Lent.{words_in};
ghost use Rattle.ocr_machine_parts.specs.Bodies.{hold_of};
ghost use Rattle.ocr_replay_body.specs.Cases.{core_holds, begun_holds, AreFit, IsFitCore, IsFitHold};
ghost use Rattle.ocr_machine_parts.specs.Loans.{kept_in};
ghost use Rattle.ocr_machine_parts.specs.Legal.{carried};
ghost use Rattle.ocr_replay_body.specs.Holds.{held_in, hold_with, with_begun, access_of, counts_of};
ghost use Rattle.ocr_replay_body.specs.Tests.{Whether};

use ocr_acquire::Mode;
use ocr_base::NoMemory;
use ocr_body_meaning::{Answer, BodyStop, Call};
use ocr_datablock::Lent;
use ocr_edt::{Edt, Running};
use ocr_guid::{Code, Guid};
use ocr_machine_parts::{Core, Kept, Loans};
use std::alloc::Global;
use std::collections::BTreeMap;
use std::marker::Model;

/// What a load or a store comes to.
#[derive(Clone, Copy)]
pub enum Found {
    Refused(BodyStop),
    /// It is no entry, and has this value.
    Silent(u64),
    Entered,
}

/// A hold of a block: its mode, the block's length in words, and in `Ew` and `Const` the words
/// with which the hold began, and what was stored since.
#[derive(Drop)]
pub struct Held {
    mode: Mode,
    size: u64,
    began: Vec<u64>,
    writes: BTreeMap<u64, u64>,
}

impl Model for Held {
    ghost use Rattle.ocr_body_meaning.specs.Holds.{Hold};
    ghost use Rattle.ocr_replay_body.specs.Holds.{IsWholeHold};

    ghost Value = { Hold };

    ghost view = { λ h. record {
      mode = h.mode;
      size = h.size;
      began = h.began.items;
      writes = h.writes.entries;
    } };

    ghost invariant = { λ h. IsWholeHold (record {
      mode = h.mode;
      size = h.size;
      began = h.began.items;
      writes = h.writes.entries;
    }) };
}

impl Held {
    /// A hold in `Rw`, `Ro` or `Null`.
    fn shared(alloc: Global, mode: Mode, size: u64) -> Held
        requires { is_isolated mode ≡ false }
        ensures { result ≡ record { mode = mode; size = size; began = []; writes = [] } }
    {
        Held {
            mode,
            size,
            began: Vec::new(alloc),
            writes: BTreeMap::new(alloc),
        }
    }

    /// A hold in `Ew` or `Const` that begins with these words.
    fn isolated(alloc: Global, mode: Mode, size: u64, began: Vec<u64>) -> Held
        requires { length began.items ≡ size }
        ensures { result ≡ record {
          mode = mode;
          size = size;
          began = began.items;
          writes = [];
        } }
    {
        Held {
            mode,
            size,
            began,
            writes: BTreeMap::new(alloc),
        }
    }

    /// What a load of a word comes to.
    #[tactic(auto, using(crate::proofs::Held::silent_load))]
    fn load(&self, word: u64) -> Found
        ensures { access_of result ≡ load_of (Some self.now) word }
    {
        if word >= self.size {
            return Found::Refused(BodyStop::BadIndex);
        }
        if self.mode.is_isolated() {
            return Found::Silent(self.word(word));
        }
        Found::Entered
    }

    #[tactic(auto, using(ocr_acquire::proofs::Writes::word_found, ocr_acquire::proofs::Writes::word_not_found))]
    fn word(&self, word: u64) -> u64
        requires isolated { is_isolated self.now.mode ≡ true }
        requires exists { word < self.now.size }
        ensures { result ≡ word_of self.now word }
    {
        match self.writes.get(&word) {
            Some(value) => *value,
            None => self.began[word as usize],
        }
    }

    /// What a store in a word comes to.
    fn storing(&self, word: u64) -> Found
        ensures { access_of result ≡ store_of (Some self.now) word }
    {
        if !self.mode.is_writable() {
            return Found::Refused(BodyStop::NotWritable);
        }
        if word >= self.size {
            return Found::Refused(BodyStop::BadIndex);
        }
        if self.mode.is_isolated() {
            return Found::Silent(0);
        }
        Found::Entered
    }

    /// A value is stored in a word.
    #[tactic(auto, using(ocr_acquire::proofs::Writes::insert_is_put, ocr_acquire::proofs::Writes::rises_put))]
    fn store(&mut self, word: u64, value: u64) -> Result<(), NoMemory>
        ensures ok { IfOk result (λ _. self.new ≡ hold_with word value self.old) }
        ensures err { OnErr result (self.new ≡ self.old) }
    {
        match self.writes.insert(word, value) {
            Ok(_) => Ok(()),
            Err(_) => Err(NoMemory),
        }
    }

    /// Whether these are its private writes.
    fn has_stored(&self, writes: &[(u32, u64)]) -> bool
        ensures { Whether result (writes.now ≡ self.now.writes) }
    {
        if writes.len() != self.writes.len() {
            return false;
        }
        are_same(writes, &self.writes)
    }

    /// How many private writes it has.
    fn count(&self) -> usize
        ensures { result ≡ length self.now.writes }
    {
        self.writes.len()
    }
}

/// Whether the map has these entries.
fn are_same(writes: &[(u32, u64)], values: &BTreeMap<u64, u64>) -> bool
    requires { length writes.now ≡ length values.now.entries }
    ensures { Whether result (writes.now ≡ values.now.entries) }
{
    let mut place = 0;
    for (word, value) in values {
        let (place_of, written) = writes[place];
        if u64::from(place_of) != *word || written != *value {
            return false;
        }
        place += 1;
    }
    true
}

/// The holds of an EDT. Contracts see the list of blocks with their holds, each block once.
#[derive(Drop)]
pub struct Holding {
    items: BTreeMap<u64, Held>,
}

impl Model for Holding {
    ghost use Rattle.std.specs.Prelude.{ℕ, List};
    ghost use Rattle.ocr_body_meaning.specs.Holds.{Hold};

    ghost Value = { List (ℕ × Hold) };

    ghost view = { λ h. h.items.entries };
}

impl Holding {
    /// What a load of a word comes to.
    pub fn load(&self, block: Guid, word: u64) -> Found
        ensures { access_of result ≡ load_of (held_in self.now block) word }
    {
        match self.find(block) {
            Some(held) => held.load(word),
            None => Found::Refused(BodyStop::NotHeld),
        }
    }

    /// What a store in a word comes to.
    pub fn storing(&self, block: Guid, word: u64) -> Found
        ensures { access_of result ≡ store_of (held_in self.now block) word }
    {
        match self.find(block) {
            Some(held) => held.storing(word),
            None => Found::Refused(BodyStop::NotHeld),
        }
    }

    /// A value is stored in a word of a block.
    pub fn store(&mut self, block: Guid, word: u64, value: u64) -> Result<(), NoMemory>
        ensures { IfOk result (λ _. held_in self.new
            ≡ with_hold block (with_write word value (held_in self.old block)) (held_in self.old)) }
    {
        let Some(held) = self.items.get_mut(&block.0) else {
            return Ok(());
        };
        held.store(word, value)
    }

    /// Whether these are the private writes of a block's hold.
    pub fn has_stored(&self, block: Guid, writes: &[(u32, u64)]) -> bool
        ensures { Whether result (writes.now ≡ private_in (held_in self.now block)) }
    {
        match self.find(block) {
            Some(held) => held.has_stored(writes),
            None => writes.is_empty(),
        }
    }

    /// How many private writes a block's hold has.
    pub fn count(&self, block: Guid) -> usize
        ensures { result ≡ length (private_in (held_in self.now block)) }
    {
        match self.find(block) {
            Some(held) => held.count(),
            None => 0,
        }
    }

    /// Whether an entry of this call with this answer carries these writes.
    pub fn carries(&self, call: &Call, answer: &Answer, writes: &[(u32, u64)]) -> bool
        ensures { Whether result (writes.now
            ≡ carried (is_done answer.now.code) (private_of call.now (held_in self.now))) }
    {
        if answer.code != Code::Done {
            return writes.is_empty();
        }
        match call {
            Call::DbRelease { block } => self.has_stored(Guid(*block), writes),
            Call::DbDestroy { block } => self.has_stored(Guid(*block), writes),
            _ => writes.is_empty(),
        }
    }

    /// How many private writes the hold has that a call ends.
    pub fn count_for(&self, call: &Call) -> usize
        ensures { result ≡ length (private_of call.now (held_in self.now)) }
    {
        match call {
            Call::DbRelease { block } => self.count(Guid(*block)),
            Call::DbDestroy { block } => self.count(Guid(*block)),
            _ => 0,
        }
    }

    /// How many private writes each hold has.
    pub fn counts(&self, alloc: Global) -> Result<Vec<(Guid, usize)>, NoMemory>
        ensures { IfOk result (λ v. v.items ≡ counts_of self.now) }
    {
        let mut counts = Vec::new(alloc);
        for (block, held) in &self.items {
            counts.push((Guid(*block), held.count()))?;
        }
        Ok(counts)
    }

    /// What is held after a call was answered.
    pub fn answered(&mut self, alloc: Global, call: &Call, answer: &Answer) -> Result<(), NoMemory>
        ensures { IfOk result (λ _. held_in self.new
            ≡ after_call call.now answer.now (held_in self.old)) }
    {
        if answer.code != Code::Done {
            return Ok(());
        }
        self.accepted(alloc, call, answer)
    }

    /// What is held after an accepted call.
    fn accepted(&mut self, alloc: Global, call: &Call, answer: &Answer) -> Result<(), NoMemory>
        ensures { IfOk result (λ _. held_in self.new
            ≡ after_accepted call.now answer.now (held_in self.old)) }
    {
        match call {
            Call::DbCreate { length, flags } => {
                if *flags == 0 {
                    let held = Held::shared(alloc, Mode::Rw, *length / 8);
                    begin(&mut self.items, Guid(answer.value), Some(held))?;
                }
            }
            Call::DbRelease { block } => self.end(Guid(*block)),
            Call::DbDestroy { block } => self.end(Guid(*block)),
            _ => (),
        }
        Ok(())
    }

    fn find(&self, block: Guid) -> Option<&Held>
        ensures some { IfSome result (λ h. held_in self.now block ≡ Some h.now) }
        ensures none { IfNone result (held_in self.now block ≡ None) }
    {
        self.items.get(&block.0)
    }

    /// The hold of a block ends, where there is one.
    fn end(&mut self, block: Guid)
        ensures { held_in self.new ≡ with_hold block None (held_in self.old) }
    {
        let _held = self.items.remove(&block.0);
    }
}

/// A hold of a block begins, where there is one.
fn begin(items: &mut BTreeMap<u64, Held>, block: Guid, held: Option<Held>) -> Result<(), NoMemory>
    ensures { IfOk result (λ _. held_in items.new.entries
        ≡ with_begun block held (held_in items.old.entries)) }
{
    let Some(held) = held else {
        return Ok(());
    };
    items.insert(block.0, held)?;
    Ok(())
}

/// What an EDT holds at its start.
pub fn begun(alloc: Global, core: &Core) -> Result<Holding, NoMemory>
    requires { IsFitCore core.now }
    ensures { IfOk result (λ h. held_in h ≡ core_holds core.now) }
{
    match &core.edt {
        Edt::Running(running) => Ok(Holding {
            items: begun_all(alloc, running, &core.loans)?,
        }),
        _ => Ok(Holding {
            items: BTreeMap::new(alloc),
        }),
    }
}

fn begun_all(
    alloc: Global,
    running: &Running,
    loans: &Loans,
) -> Result<BTreeMap<u64, Held>, NoMemory>
    requires { AreFit running.now.holds loans.now }
    ensures { IfOk result (λ items. held_in items.entries
        ≡ begun_holds running.now.holds loans.now) }
{
    let mut items = BTreeMap::new(alloc);
    let blocks = loans.blocks(alloc)?;
    for block in &blocks {
        let held = begun_one(alloc, running.mode(*block), loans.get(*block))?;
        begin(&mut items, *block, held)?;
    }
    Ok(items)
}

/// The hold of a block, by its mode and by what is kept with it.
fn begun_one(
    alloc: Global,
    mode: Option<Mode>,
    kept: Option<&Kept>,
) -> Result<Option<Held>, NoMemory>
    requires { IsFitHold mode (option_copied kept) }
    ensures { IfOk result (λ held. held ≡ hold_of mode (option_copied kept.entry)) }
{
    let Some(mode) = mode else {
        return Ok(None);
    };
    let Some(kept) = kept else {
        return Ok(None);
    };
    let size = u64::from(kept.size);
    if !mode.is_isolated() {
        return Ok(Some(Held::shared(alloc, mode, size)));
    }
    let Some(lent) = &kept.loan else {
        unreachable!();
    };
    let words = words_of(alloc, lent)?;
    Ok(Some(Held::isolated(alloc, mode, size, words)))
}

/// The words of a loan as they are now.
fn words_of(alloc: Global, lent: &Lent) -> Result<Vec<u64>, NoMemory>
    ensures words { IfOk result (λ v. v.items ≡ words_in lent.now) }
    ensures len { IfOk result (λ v. length v.items ≡ length lent.now.began) }
{
    let mut words = Vec::new(alloc);
    for word in 0..lent.words() {
        words.push(lent.load(word))?;
    }
    Ok(words)
}
