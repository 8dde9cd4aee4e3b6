//! The words of a data block on loan to one EDT.
ghost use Rattle.std.specs.Prelude.{◌≡◌, ◌≢◌, ◌<◌, ◌≤◌, ℕ, [], ◌∷◌, ◌++◌, length, map, nat_lt, None, slice_index, true, IfOk, OnErr};
ghost use Rattle.std.specs.List.{All};
ghost use Rattle.std.specs.List.Sorted.{IsNonDecreasingBy, IsPermutation};
ghost use Rattle.ocr_acquire.specs.declared.Mode.TheVariants.{Ew};
ghost use Rattle.ocr_datablock.specs.Lent.{StoredLaw, ListingLaw, WritesLaw, WordLaw, loan_of, words_in, after_store, after_list_writes};
ghost use Rattle.ocr_datablock.specs.Replaced.{AreClear, times, write_of};
ghost use Rattle.ocr_acquire.specs.Writes.{IsRising, value_at, written};

use crate::datablock::MOST_WORDS;
use ocr_acquire::Mode;
use ocr_base::NoMemory;
use std::alloc::Global;
use std::marker::Model;

/// The words of a data block in the hands of one EDT that holds it in `Ew` or `Const`.
/// What the EDT stores there is private until the block takes the loan back.
#[derive(Drop)]
pub struct Lent {
    mode: Mode,
    // the words as they are now
    words: Vec<u64>,
    // the words that were stored, in the order in which each was stored first, with the values with
    // which the loan began
    replaced: Vec<(u32, u64)>,
    // 1 for each word that was stored, and 0 for the others; the block keeps them for its next
    // loan, and there are none before the first store
    marks: Vec<u8>,
    // has as many members as there are such words; where `is_listed`, it lists them, rising, with
    // their values
    list: Vec<(u32, u64)>,
    is_listed: bool,
}

impl Model for Lent {
    ghost use Rattle.std.specs.Prelude.{◌≡◌, ◌≤◌, length, true};
    ghost use Rattle.ocr_datablock.specs.declared.datablock.TheConstants.{MOST_WORDS};
    ghost use Rattle.ocr_acquire.specs.Writes.{written};
    ghost use Rattle.ocr_datablock.specs.Lent.{Loan};
    ghost use Rattle.ocr_datablock.specs.Replaced.{IsMarked, writes_in};

    ghost Value = { Loan };

    ghost view = { λ l. record {
      mode = l.mode;
      began = written l.replaced.items l.words.items;
      writes = writes_in l.replaced.items l.words.items;
      listed = l.is_listed;
    } };

    ghost invariant = { λ l. (length l.words.items ≤ MOST_WORDS)
        × IsMarked l.replaced.items l.marks.items (length l.words.items)
        × (length l.list.items ≡ length l.replaced.items)
        × (l.is_listed ≡ true → l.list.items ≡ writes_in l.replaced.items l.words.items) };
}

impl Lent {
    pub(crate) fn new(mode: Mode, words: Vec<u64>, marks: Vec<u8>) -> Lent
        requires size { length words.items ≤ MOST_WORDS }
        requires clear { AreClear marks.items }
        ensures { result ≡ loan_of mode words.items [] }
    {
        let alloc = *words.allocator();
        Lent {
            mode,
            words,
            replaced: Vec::new(alloc),
            marks,
            list: Vec::new(alloc),
            is_listed: true,
        }
    }

    /// The mode in which the EDT holds the block: `Ew` or `Const`.
    pub fn mode(&self) -> Mode
        ensures { result ≡ self.now.mode }
    {
        self.mode
    }

    /// The block's length in words.
    #[tactic(auto, using(ocr_acquire::proofs::Writes::length_written))]
    pub fn words(&self) -> u32
        ensures { result ≡ length self.now.began }
    {
        self.words.len() as u32
    }

    /// The word as it is now.
    #[tactic(auto, using(crate::proofs::Replaced::word_facts))]
    pub fn load(&self, word: u32) -> u64
        requires exists { word < length self.now.began }
        ensures value { result ≡ slice_index (words_in self.now) word }
    {
        self.words[word as usize]
    }

    /// Sets a word of a loan in `Ew`. After an error the loan is as before.
    pub fn store(&mut self, alloc: Global, word: u32, value: u64) -> Result<(), NoMemory>
        requires exists { word < length self.old.began }
        requires writer { self.old.mode ≡ Ew }
        ensures state { IfOk result (λ _. self.new ≡ after_store self.old word value) }
        ensures err { OnErr result (self.new ≡ self.old) }
    {
        if !is_marked(&self.marks, word) {
            return self.store_first(alloc, word, value);
        }
        self.words[word as usize] = value;
        self.is_listed = false;
        Ok(())
    }

    /// Sets a word that was not stored before.
    fn store_first(&mut self, alloc: Global, word: u32, value: u64) -> Result<(), NoMemory>
        requires exists { word < length self.old.began }
        requires first { value_at word self.old.writes ≡ None }
        ensures state { IfOk result (λ _. self.new ≡ after_store self.old word value) }
        ensures err { OnErr result (self.new ≡ self.old) }
    {
        let size = self.words.len();
        let began = self.words[word as usize];
        make_marks(alloc, &mut self.marks, size)?;
        push_both(&mut self.replaced, &mut self.list, (word, began))?;
        self.marks[word as usize] = 1;
        self.words[word as usize] = value;
        self.is_listed = false;
        Ok(())
    }

    /// Lists the words that were stored, so that `writes` can give them. It takes no memory.
    pub fn list_writes(&mut self)
        ensures { self.new ≡ after_list_writes self.old }
    {
        if !self.is_listed {
            fill(&mut self.list, &self.replaced, &self.words);
            put_in_order(&mut self.list);
            self.is_listed = true;
        }
    }

    /// Forgets what was stored: the words are those with which the loan began.
    pub fn forget_writes(&mut self)
        ensures { self.new ≡ loan_of self.old.mode self.old.began [] }
    {
        let alloc = *self.words.allocator();
        write_each(&mut self.words, &self.replaced);
        self.replaced = Vec::new(alloc);
        self.marks = Vec::new(alloc);
        self.list = Vec::new(alloc);
        self.is_listed = true;
    }

    /// The distinct words that were stored, rising, each with its last value.
    /// They are listed by `list_writes`, since the last store.
    #[tactic(auto, using(crate::proofs::Replaced::rising_in))]
    pub fn writes(&self) -> &[(u32, u64)]
        requires listed { self.now.listed ≡ true }
        ensures writes { result.now ≡ self.now.writes }
        ensures rising { IsRising result.now }
    {
        &self.list
    }

    /// The words as they are now, and marks that are clear.
    #[tactic(auto, using(crate::proofs::Replaced::words_now))]
    pub(crate) fn into_words(self) -> (Vec<u64>, Vec<u8>)
        ensures words { result.0.items ≡ words_in self }
        ensures clear { AreClear result.1.items }
    {
        let Lent {
            mode: _,
            words,
            replaced,
            marks,
            list: _,
            is_listed: _,
        } = self;
        let mut marks = marks;
        clear_marks(&mut marks, &replaced);
        (words, marks)
    }

    /// The words with which the loan began, with these writes, and marks that are clear.
    pub(crate) fn into_written(self, writes: &[(u32, u64)]) -> (Vec<u64>, Vec<u8>)
        ensures words { result.0.items ≡ written writes.now self.began }
        ensures len { length result.0.items ≡ length self.began }
        ensures clear { AreClear result.1.items }
    {
        let Lent {
            mode: _,
            words,
            replaced,
            marks,
            list: _,
            is_listed: _,
        } = self;
        let mut words = words;
        let mut marks = marks;
        write_each(&mut words, &replaced);
        write_each(&mut words, writes);
        clear_marks(&mut marks, &replaced);
        (words, marks)
    }
}

/// What is told of a loan by the list of the calls on it.
pub fn loan_laws()
    ensures store { StoredLaw }
    ensures listing { ListingLaw }
    ensures writes { WritesLaw }
    ensures word { WordLaw }
{}

/// Whether a word is marked.
fn is_marked(marks: &[u8], word: u32) -> bool
    ensures { result ≡ nat_lt 0 (slice_index marks.now word) }
{
    (word as usize) < marks.len() && marks[word as usize] > 0
}

/// Makes the marks, if there are none. After an error they are as before.
fn make_marks(alloc: Global, marks: &mut Vec<u8>, size: usize) -> Result<(), NoMemory>
    requires none { length marks.old.items ≢ size
        → (k : ℕ) → slice_index marks.old.items k ≡ 0 }
    ensures same { (k : ℕ) → slice_index marks.new.items k ≡ slice_index marks.old.items k }
    ensures made { IfOk result (λ _. length marks.new.items ≡ size) }
    ensures err { OnErr result (marks.new.items ≡ marks.old.items) }
{
    if marks.len() != size {
        *marks = Vec::from_elem(alloc, 0, size)?;
    }
    Ok(())
}

/// Clears the marks of the words that were replaced.
fn clear_marks(marks: &mut Vec<u8>, replaced: &[(u32, u64)])
    requires within { All (λ write. write.0 < length marks.old.items) replaced.now }
    requires counted { (k : ℕ) → times k replaced.now ≡ slice_index marks.old.items k }
    ensures { AreClear marks.new.items }
{
    for i in 0..replaced.len() {
        marks[replaced[i].0 as usize] = 0;
    }
}

/// Pushes a word that is replaced, and makes room for it in the list.
fn push_both(
    replaced: &mut Vec<(u32, u64)>,
    list: &mut Vec<(u32, u64)>,
    began: (u32, u64),
) -> Result<(), NoMemory>
    requires { length list.old.items ≡ length replaced.old.items }
    ensures pushed { IfOk result (λ _. replaced.new.items ≡ replaced.old.items ++ began ∷ []) }
    ensures room { length list.new.items ≡ length replaced.new.items }
    ensures same_replaced { OnErr result (replaced.new.items ≡ replaced.old.items) }
    ensures same_list { OnErr result (list.new.items ≡ list.old.items) }
{
    list.push(began)?;
    if replaced.push(began).is_err() {
        let _ = list.pop();
        return Err(NoMemory);
    }
    Ok(())
}

/// Writes over the list the words that were replaced, with their values as they are now.
fn fill(list: &mut Vec<(u32, u64)>, replaced: &[(u32, u64)], words: &[u64])
    requires room { length list.old.items ≡ length replaced.now }
    requires within { All (λ write. write.0 < length words.now) replaced.now }
    ensures { list.new.items ≡ map (write_of words.now) replaced.now }
{
    for i in 0..replaced.len() {
        let word = replaced[i].0;
        list[i] = (word, words[word as usize]);
    }
}

/// Puts a list in the order of its words.
fn put_in_order(list: &mut Vec<(u32, u64)>)
    ensures permutation { IsPermutation list.old.items list.new.items }
    ensures sorted { IsNonDecreasingBy (λ write. write.0) list.new.items }
{
    list.sort_unstable_by_key(|write| write.0);
}

/// Makes the writes one after another, but for those past the last word.
fn write_each(words: &mut Vec<u64>, writes: &[(u32, u64)])
    ensures words { words.new.items ≡ written writes.now words.old.items }
    ensures len { length words.new.items ≡ length words.old.items }
{
    for (word, value) in writes {
        if (*word as usize) < words.len() {
            words[*word as usize] = *value;
        }
    }
}
