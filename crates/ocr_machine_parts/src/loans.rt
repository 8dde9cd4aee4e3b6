// What an EDT keeps with the blocks that it holds.
ghost use Rattle.std.specs.Prelude.{◌≡◌, ◌↔◌, IsTrue, ◌<◌, ◌∷◌, ◌++◌, [], drop, length, map, take, IfNone, IfOk, IfSome, OnErr, OnOk, Some, None, MatchOption};
ghost use Rattle.ocr_acquire.specs.declared.Mode.TheVariants.{Ew};
ghost use Rattle.ocr_datablock.specs.Lent.{after_list_writes, after_store};
ghost use Rattle.ocr_machine_parts.specs.Loans.{IsStorable, kept_after, kept_in, loan_in, settled_loan, settled_loans, with_kept, with_loan, without_kept};

use crate::many::Many;
use ocr_base::NoMemory;
use ocr_datablock::Lent;
use ocr_guid::Guid;
use std::alloc::Global;
use std::marker::Model;

/// What an EDT keeps with a block that it holds: the block's length in words, and in `Ew` and
/// `Const` the loan of its words.
#[derive(Drop)]
pub struct Kept {
    pub size: u32,
    pub loan: Option<Lent>,
}

/// What an EDT keeps with the blocks that it holds. Contracts see the list, the newest first.
#[derive(Drop)]
pub struct Loans {
    // those that came past the first few
    many: Many,
    // the first few, the newest first
    few: Vec<(Guid, Kept)>,
}

/// So many blocks are found by a walk.
const MOST_FEW: usize = 8;

impl Model for Loans {
    ghost use Rattle.std.specs.Prelude.{◌++◌, List, ℕ};
    ghost use Rattle.ocr_machine_parts.specs.declared.loans.Kept.{Kept};

    ghost Value = { List (ℕ × Kept) };

    ghost view = { λ l. l.many ++ l.few.items };
}

impl Loans {
    /// Nothing is held.
    pub fn new(alloc: Global) -> Self
        ensures { result ≡ [] }
    {
        Loans {
            many: Many::none(),
            few: Vec::new(alloc),
        }
    }

    /// Whether nothing is held.
    pub fn is_empty(&self) -> bool
        ensures { IsTrue result ↔ (self.now ≡ []) }
    {
        self.few.is_empty() && self.many.is_empty()
    }

    /// What is kept with a block.
    pub fn get(&self, block: Guid) -> Option<&Kept>
        ensures some { IfSome result (λ kept. kept_in block self.now ≡ Some kept.now) }
        ensures none { IfNone result (kept_in block self.now ≡ None) }
    {
        match self.many.get(block) {
            Some(kept) => Some(kept),
            None => get_among(&self.few, block),
        }
    }

    /// The names of the blocks, the newest first.
    pub fn blocks(&self, alloc: Global) -> Result<Vec<Guid>, NoMemory>
        ensures { IfOk result (λ blocks. blocks.items ≡ map (λ one. one.0) self.now) }
    {
        let mut blocks = Vec::new(alloc);
        self.many.push_blocks(&mut blocks)?;
        push_among(&mut blocks, &self.few)?;
        Ok(blocks)
    }

    /// With a block more, in place of what was kept with it.
    pub fn put(&mut self, block: Guid, kept: Kept) -> Result<(), NoMemory>
        ensures ok { IfOk result (λ _. self.new ≡ with_kept block kept self.old) }
        ensures err { OnErr result (self.new ≡ self.old) }
    {
        if self.many.is_empty() && self.few.len() < MOST_FEW {
            return put_among(&mut self.few, block, kept);
        }
        let alloc = *self.few.allocator();
        if self.many.put(alloc, block, kept)? {
            return Ok(());
        }
        leave_out(&mut self.few, block);
        Ok(())
    }

    /// Takes out what is kept with a block, where it is there.
    pub fn take(&mut self, block: Guid) -> Option<Kept>
        ensures kept { result ≡ kept_in block self.old }
        ensures left { self.new ≡ without_kept block self.old }
    {
        match self.many.take(block) {
            Some(kept) => Some(kept),
            None => take_from(&mut self.few, block),
        }
    }

    /// Stores a word in the loan that is kept with a block. After an error all is as before.
    pub fn store(
        &mut self,
        alloc: Global,
        block: Guid,
        word: u32,
        value: u64,
    ) -> Result<(), NoMemory>
        requires { IsStorable (loan_in (kept_in block self.old)) word }
        ensures ok { OnOk result (self.new
            ≡ with_loan block (λ loan. after_store loan word value) self.old) }
        ensures err { OnErr result (self.new ≡ self.old) }
    {
        if self.many.store(alloc, block, word, value)? {
            return Ok(());
        }
        store_among(alloc, &mut self.few, block, word, value)
    }

    /// Lists the words that were stored in the loan that is kept with a block, where there is one.
    pub fn list_writes(&mut self, block: Guid)
        ensures { self.new ≡ with_loan block after_list_writes self.old }
    {
        if self.many.list_writes(block) {
            return;
        }
        list_among(&mut self.few, block);
    }

    /// Forgets what was stored in the loans.
    pub fn settle(&mut self)
        ensures { self.new ≡ settled_loans self.old }
    {
        self.many.settle();
        settle_all(&mut self.few);
    }
}

fn get_among(items: &[(Guid, Kept)], block: Guid) -> Option<&Kept>
    ensures some { IfSome result (λ kept. kept_in block items.now ≡ Some kept.now) }
    ensures none { IfNone result (kept_in block items.now ≡ None) }
{
    for (held, kept) in items {
        if *held == block {
            return Some(kept);
        }
    }
    None
}

fn push_among(blocks: &mut Vec<Guid>, items: &[(Guid, Kept)]) -> Result<(), NoMemory>
    ensures { IfOk result (λ _. blocks.new.items
        ≡ blocks.old.items ++ map (λ one. one.0) items.now) }
{
    for (held, _kept) in items {
        blocks.push(*held)?;
    }
    Ok(())
}

fn put_among(items: &mut Vec<(Guid, Kept)>, block: Guid, kept: Kept) -> Result<(), NoMemory>
    ensures ok { OnOk result (items.new.items ≡ with_kept block kept items.old.items) }
    ensures err { OnErr result (items.new.items ≡ items.old.items) }
{
    let Ok(()) = items.insert(0, (block, kept)) else {
        return Err(NoMemory);
    };
    take_later(items, block);
    Ok(())
}

// Takes out what is kept with a block past the first.
fn take_later(items: &mut Vec<(Guid, Kept)>, block: Guid)
    requires { 0 < length items.old.items }
    ensures { items.new.items
        ≡ take 1 items.old.items ++ without_kept block (drop 1 items.old.items) }
{
    for i in 1..items.len() {
        if items[i].0 == block {
            let _was = items.remove(i);
            return;
        }
    }
}

fn store_among(
    alloc: Global,
    items: &mut Vec<(Guid, Kept)>,
    block: Guid,
    word: u32,
    value: u64,
) -> Result<(), NoMemory>
    requires { IsStorable (loan_in (kept_in block items.old.items)) word }
    ensures ok { OnOk result (items.new.items
        ≡ with_loan block (λ loan. after_store loan word value) items.old.items) }
    ensures err { OnErr result (items.new.items ≡ items.old.items) }
{
    for i in 0..items.len() {
        if items[i].0 == block {
            return store_in(alloc, &mut items[i].1, word, value);
        }
    }
    Ok(())
}

pub(crate) fn store_in(
    alloc: Global,
    kept: &mut Kept,
    word: u32,
    value: u64,
) -> Result<(), NoMemory>
    requires { IsStorable kept.old.loan word }
    ensures ok { OnOk result (kept.new
        ≡ kept_after (λ loan. after_store loan word value) kept.old) }
    ensures err { OnErr result (kept.new ≡ kept.old) }
{
    match &mut kept.loan {
        Some(lent) => lent.store(alloc, word, value),
        None => Ok(()),
    }
}

fn list_among(items: &mut Vec<(Guid, Kept)>, block: Guid)
    ensures { items.new.items ≡ with_loan block after_list_writes items.old.items }
{
    for i in 0..items.len() {
        if items[i].0 == block {
            list_in(&mut items[i].1);
            return;
        }
    }
}

pub(crate) fn list_in(kept: &mut Kept)
    ensures { kept.new ≡ kept_after after_list_writes kept.old }
{
    if let Some(lent) = &mut kept.loan {
        lent.list_writes();
    }
}

fn settle_all(items: &mut Vec<(Guid, Kept)>)
    ensures { items.new.items ≡ settled_loans items.old.items }
{
    for i in 0..items.len() {
        settle_one(&mut items[i].1);
    }
}

pub(crate) fn settle_one(kept: &mut Kept)
    ensures { kept.new ≡ record { size = kept.old.size; loan = settled_loan kept.old.loan } }
{
    if let Some(lent) = &mut kept.loan {
        lent.forget_writes();
    }
}

fn take_from(items: &mut Vec<(Guid, Kept)>, block: Guid) -> Option<Kept>
    ensures kept { result ≡ kept_in block items.old.items }
    ensures left { items.new.items ≡ without_kept block items.old.items }
{
    for i in 0..items.len() {
        if items[i].0 == block {
            let (_, kept) = items.remove(i);
            return Some(kept);
        }
    }
    None
}

fn leave_out(items: &mut Vec<(Guid, Kept)>, block: Guid)
    ensures { items.new.items ≡ without_kept block items.old.items }
{
    let _kept = take_from(items, block);
}
