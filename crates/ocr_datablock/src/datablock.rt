//! A data block: its words, who holds it, and who waits for it.
ghost use Rattle.std.specs.Prelude.{◌≡◌, ◌≢◌, ◌<◌, ◌≤◌, ◌↔◌, List, [], ◌∷◌, ◌++◌, length, take, drop, slice_index, Some, None, true, false, is_some, IfOk, IfSome, OnErr};
ghost use Rattle.ocr_acquire.specs.declared.Mode.TheVariants.{Const, Ew};
ghost use Rattle.ocr_acquire.specs.Mode.{is_exclusive, is_null, mode_in};
ghost use Rattle.ocr_datablock.specs.declared.datablock.Asked.TheVariants as asked;
ghost use Rattle.ocr_datablock.specs.Lent.{words_in};
ghost use Rattle.ocr_datablock.specs.Block.{state_of, GoTogether, IsLentTo, names, without, front_that_fits, rest_that_waits, leavers, line_after_grants, line_without, line, is_gone, is_grantable};
ghost use Rattle.ocr_datablock.specs.Steps.{on_ask, on_release, on_doom, with_line, after_ask, after_release, after_doom, after_store, after_lend, loan_from, after_take_back, after_take_back_with, AskLaw, ReleaseLaw, DoomLaw, StoreLaw, LendLaw, TakeBackLaw, WordsLaw, HoldersLaw, OnceLaw, WaitingLaw, QueueLaw, GoneLaw, LoanLaw};

use crate::holders::Holders;
use crate::loan::Lent;
use crate::roll::Roll;
use ocr_acquire::Mode;
use ocr_base::NoMemory;
use ocr_guid::Guid;
use std::alloc::Global;
use std::marker::Model;

/// How many words a block has at most.
pub const MOST_WORDS: u32 = 65_536;

/// What a block answers to an EDT that asks for it.
#[derive(Clone, Copy, PartialEq, Eq, Debug)]
pub enum Asked {
    /// The EDT holds the block now.
    Granted,
    /// The EDT waits at the end of the block's queue.
    Queued,
    /// The block is gone, and the EDT neither holds it nor waits for it.
    Gone,
}

/// A data block: a number of 64-bit words, the EDTs that hold it, and the EDTs that wait for it,
/// who are served in the order in which they came.
#[derive(Drop)]
pub struct Block {
    size: u32,
    destroyed: bool,
    // none while they are on loan
    words: Vec<u64>,
    // the marks for loans in EW, all clear; a loan that stores makes them
    marks: Vec<u8>,
    // who has the words on loan
    borrower: Option<Guid>,
    holders: Holders,
    queue: Roll,
}

impl Model for Block {
    ghost use Rattle.std.specs.Prelude.{◌≡◌, ◌≤◌, ◌++◌, length, None};
    ghost use Rattle.ocr_datablock.specs.declared.datablock.TheConstants.{MOST_WORDS};
    ghost use Rattle.ocr_datablock.specs.Block.{State, GoTogether, IsLentTo};
    ghost use Rattle.ocr_datablock.specs.Replaced.{AreClear};
    ghost use Rattle.ocr_datablock.specs.Steps.{StandOnce};

    ghost Value = { State };

    ghost view = { λ b. record {
      size = b.size;
      words = b.words.items;
      borrower = b.borrower;
      holders = b.holders;
      queue = b.queue;
      destroyed = b.destroyed;
    } };

    ghost invariant = { λ b. (b.size ≤ MOST_WORDS)
        × (b.borrower ≡ None → length b.words.items ≡ b.size)
        × GoTogether b.holders × IsLentTo b.borrower b.holders
        × AreClear b.marks.items × StandOnce (b.holders ++ b.queue) };
}

impl Block {
    /// A block of zeros, which its creator holds in `Rw`, or nobody where the creator is
    /// `Guid::NULL`.
    pub fn new(alloc: Global, words: u32, creator: Guid) -> Result<Block, NoMemory>
        requires some { 1 ≤ words }
        requires not_too_many { words ≤ MOST_WORDS }
        ensures { IfOk result (λ block. block ≡ state_of words creator []) }
    {
        let zeros = Vec::from_elem(alloc, 0, words as usize)?;
        Ok(Block {
            size: words,
            destroyed: false,
            words: zeros,
            marks: Vec::new(alloc),
            borrower: None,
            holders: Holders::new(creator),
            queue: Roll::new(),
        })
    }

    /// The block's length in words.
    pub fn words(&self) -> u32
        ensures { result ≡ self.now.size }
    {
        self.size
    }

    /// Whether the block was destroyed: nobody more is granted.
    pub fn is_destroyed(&self) -> bool
        ensures { result ≡ self.now.destroyed }
    {
        self.destroyed
    }

    /// Whether the block is destroyed and nobody holds it.
    pub fn is_gone(&self) -> bool
        ensures { result ≡ is_gone self.now }
    {
        self.destroyed && self.holders.is_empty()
    }

    /// The mode in which the EDT holds the block; None where it does not hold it.
    /// Where it is not `Ew`, the words are not on loan.
    pub fn mode_of(&self, edt: Guid) -> Option<Mode>
        ensures value { result ≡ mode_in edt self.now.holders }
        ensures not_lent { IfSome result (λ mode. is_exclusive mode ≡ false
            → self.now.borrower ≡ None) }
    {
        self.holders.mode_of(edt)
    }

    /// Whether the EDT waits in the block's queue.
    pub fn waits(&self, edt: Guid) -> bool
        ensures { result ≡ is_some (mode_in edt self.now.queue) }
    {
        self.queue.mode_of(edt).is_some()
    }

    /// The EDT that has the words on loan, which holds the block in `Ew`, alone; None where nobody
    /// has them.
    pub fn borrower(&self) -> Option<Guid>
        ensures value { result ≡ self.now.borrower }
        ensures alone { IsLentTo result self.now.holders }
    {
        self.borrower
    }

    /// Whether a newcomer would be granted the block in this mode now.
    pub fn grantable(&self, mode: Mode) -> bool
        requires { is_null mode ≡ false }
        ensures { result ≡ is_grantable self.now mode }
    {
        !self.destroyed && self.queue.is_empty() && self.holders.fits(mode)
    }

    /// Lets an EDT hold the block, or wait for it. After an error the block is as before.
    pub fn ask(&mut self, alloc: Global, edt: Guid, mode: Mode) -> Result<Asked, NoMemory>
        requires no_holder { mode_in edt self.old.holders ≡ None }
        requires not_waiting { mode_in edt self.old.queue ≡ None }
        requires some_mode { is_null mode ≡ false }
        ensures answer { IfOk result (λ answer. answer ≡ on_ask self.old mode) }
        ensures gone { IfOk result (λ answer. (answer ≡ asked.Gone) ↔ (is_gone self.old ≡ true)) }
        ensures granted { IfOk result (λ answer. (answer ≡ asked.Granted)
            ↔ (is_grantable self.old mode ≡ true)) }
        ensures state { IfOk result (λ _. self.new ≡ after_ask self.old edt mode) }
        ensures err { OnErr result (self.new ≡ self.old) }
    {
        if self.is_gone() {
            return Ok(Asked::Gone);
        }
        if self.grantable(mode) {
            self.holders.push(alloc, edt, mode)?;
            return Ok(Asked::Granted);
        }
        self.queue.push(alloc, edt, mode)?;
        Ok(Asked::Queued)
    }

    /// Ends a hold. Answers who is granted the block by that, in the order of the queue; where the
    /// block is gone now, all who waited for it. After an error the block is as before.
    pub fn release(&mut self, alloc: Global, edt: Guid) -> Result<Vec<Guid>, NoMemory>
        requires holder { is_some (mode_in edt self.old.holders) ≡ true }
        requires nothing_lent { self.old.borrower ≢ Some edt }
        ensures answer { IfOk result (λ resumed. resumed.items ≡ on_release self.old edt) }
        ensures state { IfOk result (λ _. self.new ≡ after_release self.old edt) }
        ensures rest_waits { IfOk result (λ resumed. names self.old.queue
            ≡ resumed.items ++ names self.new.queue) }
        ensures err { OnErr result (self.new ≡ self.old) }
    {
        if self.destroyed {
            return self.leave(alloc, edt);
        }
        self.pass_on(alloc, edt)
    }

    /// Destroys the block: nobody more is granted, and who holds it goes on. Ends the hold of this
    /// EDT, if it has one.
    /// Answers all who waited, where the block is gone by that, and else nobody. After an error the
    /// block is as before.
    pub fn doom(&mut self, alloc: Global, edt: Guid) -> Result<Vec<Guid>, NoMemory>
        requires not_destroyed { self.old.destroyed ≡ false }
        requires nothing_lent { self.old.borrower ≢ Some edt }
        ensures answer { IfOk result (λ resumed. resumed.items ≡ on_doom self.old edt) }
        ensures state { IfOk result (λ _. self.new ≡ after_doom self.old edt) }
        ensures rest_waits { IfOk result (λ resumed. names self.old.queue
            ≡ resumed.items ++ names self.new.queue) }
        ensures err { OnErr result (self.new ≡ self.old) }
    {
        let resumed = self.leave(alloc, edt)?;
        self.destroyed = true;
        Ok(resumed)
    }

    /// Ends the hold of an EDT, if it has one, where nobody more is granted: all who wait leave the
    /// queue once nobody holds the block.
    fn leave(&mut self, alloc: Global, edt: Guid) -> Result<Vec<Guid>, NoMemory>
        requires { self.old.borrower ≢ Some edt }
        ensures answer { IfOk result (λ resumed. resumed.items ≡ on_doom self.old edt) }
        ensures state { IfOk result (λ _. self.new ≡ with_line self.old self.old.destroyed
            (line_after_grants true (line_without edt (line self.old)))) }
        ensures rest_waits { IfOk result (λ resumed. names self.old.queue
            ≡ resumed.items ++ names self.new.queue) }
        ensures err { OnErr result (self.new ≡ self.old) }
    {
        if !self.holders.tally_without(edt).is_empty() {
            self.holders.remove(edt);
            return Ok(Vec::new(alloc));
        }
        let resumed = self.queue.names(alloc)?;
        self.holders.remove(edt);
        self.queue = Roll::new();
        Ok(resumed)
    }

    /// Ends a hold where those who wait are granted.
    fn pass_on(&mut self, alloc: Global, edt: Guid) -> Result<Vec<Guid>, NoMemory>
        requires holder { is_some (mode_in edt self.old.holders) ≡ true }
        requires nothing_lent { self.old.borrower ≢ Some edt }
        ensures answer { IfOk result (λ resumed. resumed.items
            ≡ names (leavers false (line_without edt (line self.old)))) }
        ensures state { IfOk result (λ _. self.new ≡ with_line self.old self.old.destroyed
            (line_after_grants false (line_without edt (line self.old)))) }
        ensures rest_waits { IfOk result (λ resumed. names self.old.queue
            ≡ resumed.items ++ names self.new.queue) }
        ensures err { OnErr result (self.new ≡ self.old) }
    {
        let held = self.holders.tally_without(edt);
        let front = self.queue.front(alloc, held)?;
        let resumed = copy_names(alloc, &front)?;
        self.holders.replace(alloc, edt, &front)?;
        self.queue.drop_first(front.len());
        Ok(resumed)
    }

    /// A word of the block.
    pub fn load(&self, word: u32) -> u64
        requires exists { word < self.now.size }
        requires nothing_lent { self.now.borrower ≡ None }
        ensures { result ≡ slice_index self.now.words word }
    {
        self.words[word as usize]
    }

    /// Sets a word of the block.
    pub fn store(&mut self, word: u32, value: u64)
        requires exists { word < self.old.size }
        requires nothing_lent { self.old.borrower ≡ None }
        ensures { self.new ≡ after_store self.old word value }
    {
        self.words[word as usize] = value;
    }

    /// Lends the words themselves to an EDT that holds the block in `Ew`. The block has none until
    /// they come back.
    pub fn lend(&mut self, edt: Guid) -> Lent
        requires writer { mode_in edt self.old.holders ≡ Some Ew }
        requires nothing_lent { self.old.borrower ≡ None }
        ensures loan { result ≡ loan_from self.old Ew }
        ensures state { self.new ≡ after_lend self.old edt }
    {
        let alloc = *self.words.allocator();
        let words = std::mem::replace(&mut self.words, Vec::new(alloc));
        let marks = std::mem::replace(&mut self.marks, Vec::new(alloc));
        self.borrower = Some(edt);
        Lent::new(Mode::Ew, words, marks)
    }

    /// Lends a copy of the words to an EDT that holds the block in `Const`.
    pub fn lend_const(&mut self, alloc: Global, edt: Guid) -> Result<Lent, NoMemory>
        requires reader { mode_in edt self.old.holders ≡ Some Const }
        requires nothing_lent { self.old.borrower ≡ None }
        ensures loan { IfOk result (λ loan. loan ≡ loan_from self.old Const) }
        ensures state { self.new ≡ self.old }
    {
        let words = Vec::from_slice(alloc, &self.words)?;
        Ok(Lent::new(Mode::Const, words, Vec::new(alloc)))
    }

    /// Takes a loan back. The words of the block are those of a loan in `Ew`; a loan in `Const`
    /// changes nothing.
    #[tactic(auto, using(ocr_acquire::proofs::Writes::length_written))]
    pub fn take_back(&mut self, edt: Guid, lent: Lent)
        requires lent_to { lent.mode ≡ Ew → self.old.borrower ≡ Some edt }
        requires same_size { lent.mode ≡ Ew → length lent.began ≡ self.old.size }
        ensures state { self.new ≡ after_take_back self.old lent }
        ensures words { lent.mode ≡ Ew → self.new.words ≡ words_in lent }
        ensures copy { lent.mode ≡ Const → self.new ≡ self.old }
    {
        if lent.mode() == Mode::Ew {
            let (words, marks) = lent.into_words();
            self.words = words;
            self.marks = marks;
            self.borrower = None;
        }
    }

    /// Takes a loan back, with these writes in place of those that it keeps. A write past the last
    /// word is none.
    pub fn take_back_with(&mut self, edt: Guid, lent: Lent, writes: &[(u32, u64)])
        requires lent_to { lent.mode ≡ Ew → self.old.borrower ≡ Some edt }
        requires same_size { lent.mode ≡ Ew → length lent.began ≡ self.old.size }
        ensures { self.new ≡ after_take_back_with self.old lent writes.now }
    {
        if lent.mode() != Mode::Ew {
            return;
        }
        let (words, marks) = lent.into_written(writes);
        self.words = words;
        self.marks = marks;
        self.borrower = None;
    }
}

/// What is told of a block by the list of the calls that it accepted.
pub fn block_laws()
    ensures ask { AskLaw }
    ensures release { ReleaseLaw }
    ensures doom { DoomLaw }
    ensures store { StoreLaw }
    ensures lend { LendLaw }
    ensures take_back { TakeBackLaw }
    ensures words { WordsLaw }
    ensures holders { HoldersLaw }
    ensures once { OnceLaw }
    ensures waiting { WaitingLaw }
    ensures queue { QueueLaw }
    ensures gone { GoneLaw }
    ensures loan { LoanLaw }
{}

fn copy_names(alloc: Global, front: &[(Guid, Mode)]) -> Result<Vec<Guid>, NoMemory>
    ensures { IfOk result (λ copied. copied.items ≡ names front.now) }
{
    let mut copied = Vec::new(alloc);
    for (edt, _) in front {
        copied.push(*edt)?;
    }
    Ok(copied)
}
