// An Api whose EDT holds one block, and whose body makes one load or one store and returns what it
// finds. What it holds in `Ew` or `Const` is a loan; what is held otherwise, all share.
ghost use Rattle.std.specs.Prelude.{◌≡◌, ◌≤◌, ◌<◌, ◌∷◌, ℕ, List, Some, true, false, length, IfOk, OnOk, OnErr, IfErr};
ghost use Rattle.ocr_base.specs.Count.{Rose};
ghost use Rattle.ocr_body_meaning.specs.Behaviour.{Asked};
ghost use Rattle.ocr_body_meaning.specs.Holds.{Silent, Entered, load_of, store_of, with_write};
ghost use Rattle.ocr_acquire.specs.Mode.{is_isolated};
ghost use Rattle.ocr_body_meaning.specs.declared.call.Call as body;
ghost use Rattle.ocr_body_steps.specs.Api.{IsAccessed, IsAccessStop, answer_with};
ghost use Rattle.ocr_tests_body.specs.Served.{asked_of, lent_hold, shared_hold};

use ocr_acquire::Mode;
use ocr_base::NoMemory;
use ocr_body_meaning::{Answer, BodyStop, Call};
use ocr_body_steps::Api;
use ocr_datablock::Lent;
use ocr_guid::{Code, Guid};
use std::alloc::Global;

/// A load of a block's word, or a store of a value in it.
#[derive(Clone, Copy)]
pub enum Access {
    Load(u64, u64),
    Store(u64, u64, u64),
}

/// The words of the block: a loan of them, or the words themselves.
#[derive(Drop)]
pub enum Hold {
    Lent(Lent),
    Shared(Mode, Vec<u64>),
}

/// The Api: the block that is held, the access that its body makes, and what was entered, the
/// newest first.
#[derive(Drop)]
pub struct OneHold {
    pub alloc: Global,
    pub block: Guid,
    pub hold: Hold,
    pub access: Access,
    pub entries: Vec<(Call, Answer)>,
    pub closings: u64,
}

impl Api for OneHold {
    ghost use Rattle.ocr_tests_body.specs.Served.{asked_of, body_of, held, hold_of, start_of, IsFitting};

    type Kept = Guid;

    ghost serves = { λ d. body_of d.access (held d.block (start_of d.hold)) };

    ghost log = { λ d. asked_of d.entries.items };

    ghost holds = { λ d. held d.block (hold_of d.hold) };

    ghost is_ready = { λ d. IsFitting d.hold };

    ghost kept = { λ d. d.block };

    ghost closed = { λ d. d.closings };

    #[tactic(auto, using(crate::proofs::Entries::closed_refused))]
    fn call(&mut self, _call: &Call) -> Result<Answer, BodyStop> {
        self.closings = raised(self.closings);
        Err(BodyStop::Closed)
    }

    #[tactic(auto, using(crate::proofs::Entries::entered_refused))]
    fn load(&mut self, block: Guid, word: u64) -> Result<u64, BodyStop> {
        if block != self.block {
            return Err(BodyStop::NotHeld);
        }
        match &self.hold {
            Hold::Lent(lent) => load_lent(lent, word),
            Hold::Shared(mode, words) => {
                let value = load_shared(*mode, words, word)?;
                let call = Call::Load {
                    block: block.0,
                    word,
                };
                enter(&mut self.entries, call, value)?;
                Ok(value)
            }
        }
    }

    #[tactic(auto, using(crate::proofs::Entries::entered_refused))]
    fn store(&mut self, block: Guid, word: u64, value: u64) -> Result<(), BodyStop> {
        if block != self.block {
            return Err(BodyStop::NotHeld); // before any other fault
        }
        match &mut self.hold {
            Hold::Lent(lent) => store_lent(self.alloc, lent, word, value),
            Hold::Shared(mode, words) => {
                check_shared(*mode, words, word)?;
                let call = Call::Store {
                    block: block.0,
                    word,
                    value,
                };
                enter(&mut self.entries, call, 0)?;
                words[word as usize] = value;
                Ok(())
            }
        }
    }

    fn closings(&self) -> u64 {
        self.closings
    }
}

/// One more, up to the last number.
pub fn raised(count: u64) -> u64
    ensures rose { Rose count result }
    ensures more { count ≤ result }
{
    if count == u64::MAX { count } else { count + 1 }
}

// An entry more.
fn enter(entries: &mut Vec<(Call, Answer)>, call: Call, value: u64) -> Result<(), BodyStop>
    ensures ok { OnOk result (asked_of entries.new.items
        ≡ record { call = call; answer = answer_with value } ∷ asked_of entries.old.items) }
    ensures err { IfErr result (λ e. e ≡ BodyStop.NoMemory) }
    ensures same { OnErr result (entries.new.items ≡ entries.old.items) }
{
    let answer = Answer {
        code: Code::Done,
        value,
        scope: Guid::NULL,
        output: Guid::NULL,
    };
    match entries.insert(0, (call, answer)) {
        Ok(()) => Ok(()),
        Err(_) => Err(BodyStop::NoMemory),
    }
}

/// A load of a word of a loan. `BadIndex` where it has no such word.
pub fn load_lent(lent: &Lent, word: u64) -> Result<u64, BodyStop>
    requires { is_isolated lent.now.mode ≡ true }
    ensures ok { IfOk result (λ v. (call : body.Call) (log : List Asked)
        → IsAccessed (load_of (Some (lent_hold lent.now)) word) call v log log) }
    ensures err { IfErr result (λ e. (before now : ℕ)
        → IsAccessStop (load_of (Some (lent_hold lent.now)) word) (Rose before now) e) }
{
    if word >= u64::from(lent.words()) {
        return Err(BodyStop::BadIndex);
    }
    Ok(lent.load(word as u32))
}

/// A store in a word of a loan. `NotWritable` where it is in `Const`, `BadIndex` where it has no
/// such word, or `NoMemory`.
#[tactic(auto, using(crate::proofs::Entries::silent_refused, crate::proofs::Entries::silent_at))]
pub fn store_lent(alloc: Global, lent: &mut Lent, word: u64, value: u64) -> Result<(), BodyStop>
    requires { is_isolated lent.old.mode ≡ true }
    ensures mode { lent.new.mode ≡ lent.old.mode }
    ensures began { lent.new.began ≡ lent.old.began }
    ensures ok { OnOk result (store_of (Some (lent_hold lent.old)) word ≡ Silent 0) }
    ensures held { OnOk result (Some (lent_hold lent.new)
        ≡ with_write word value (Some (lent_hold lent.old))) }
    ensures err { IfErr result (λ e. (before now : ℕ)
        → IsAccessStop (store_of (Some (lent_hold lent.old)) word) (Rose before now) e) }
{
    if lent.mode() != Mode::Ew {
        return Err(BodyStop::NotWritable);
    }
    if word >= u64::from(lent.words()) {
        return Err(BodyStop::BadIndex); // after a mode that cannot be written
    }
    match lent.store(alloc, word as u32, value) {
        Ok(()) => Ok(()),
        Err(_) => Err(BodyStop::NoMemory),
    }
}

// The word that a load of what all share finds.
fn load_shared(mode: Mode, words: &[u64], word: u64) -> Result<u64, BodyStop>
    requires { is_isolated mode ≡ false }
    ensures ok { OnOk result (load_of (Some (shared_hold mode words.now)) word ≡ Entered) }
    ensures err { IfErr result (λ e. (before now : ℕ)
        → IsAccessStop (load_of (Some (shared_hold mode words.now)) word) (Rose before now) e) }
{
    if word >= words.len() as u64 {
        return Err(BodyStop::BadIndex);
    }
    Ok(words[word as usize])
}

// Whether a store in what all share is an entry.
fn check_shared(mode: Mode, words: &[u64], word: u64) -> Result<(), BodyStop>
    requires { is_isolated mode ≡ false }
    ensures within { OnOk result (word < length words.now) }
    ensures ok { OnOk result (store_of (Some (shared_hold mode words.now)) word ≡ Entered) }
    ensures err { IfErr result (λ e. (before now : ℕ)
        → IsAccessStop (store_of (Some (shared_hold mode words.now)) word) (Rose before now) e) }
{
    if mode != Mode::Rw {
        return Err(BodyStop::NotWritable);
    }
    if word >= words.len() as u64 {
        return Err(BodyStop::BadIndex);
    }
    Ok(())
}
