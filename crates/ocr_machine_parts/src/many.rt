// What an EDT keeps with many blocks, found by their names.
ghost use Rattle.std.specs.Prelude.{◌≡◌, ◌↔◌, IsTrue, ◌<◌, ◌-◌, ◌^◌, ◌∷◌, ◌++◌, [], is_some, length, map, IfNone, IfOk, IfSome, OnErr, OnOk, Some, None};
ghost use Rattle.lru.specs.LruCache.{lru_cache};
ghost use Rattle.ocr_datablock.specs.Lent.{after_list_writes, after_store};
ghost use Rattle.ocr_machine_parts.specs.Loans.{IsStorable, kept_after, kept_in, settled_loan, settled_loans, with_kept, with_loan, without_kept};

use crate::loans::{Kept, list_in, settle_one, store_in};
use lru::LruCache;
use ocr_base::NoMemory;
use ocr_guid::Guid;
use std::alloc::Global;
use std::marker::Model;

/// What is kept with the blocks past the first few, however many there are. Contracts see the list,
/// the newest first.
#[derive(Drop)]
pub(crate) struct Many {
    // none before the first block
    cache: Option<Box<LruCache<u64, Kept>>>,
}

impl Model for Many {
    ghost use Rattle.std.specs.Prelude.{◌≡◌, ◌-◌, ◌^◌, [], IfSome, List, ℕ};
    ghost use Rattle.std.specs.Option.{option_map_or};
    ghost use Rattle.ocr_machine_parts.specs.declared.loans.Kept.{Kept};

    ghost Value = { List (ℕ × Kept) };

    ghost view = { λ m. option_map_or (λ c. c.value.entries) m.cache [] };

    ghost invariant = { λ m. IfSome m.cache (λ c. c.value.cap ≡ 2 ^ 64 - 1) };
}

impl Many {
    pub(crate) fn none() -> Many
        ensures { result ≡ [] }
    {
        Many { cache: None }
    }

    /// Whether nothing is kept.
    pub(crate) fn is_empty(&self) -> bool
        ensures { IsTrue result ↔ (self.now ≡ []) }
    {
        match &self.cache {
            Some(cache) => cache.is_empty(),
            None => true,
        }
    }

    pub(crate) fn get(&self, block: Guid) -> Option<&Kept>
        ensures some { IfSome result (λ kept. kept_in block self.now ≡ Some kept.now) }
        ensures none { IfNone result (kept_in block self.now ≡ None) }
    {
        match &self.cache {
            Some(cache) => get_in(cache, block),
            None => None,
        }
    }

    /// The answer is whether something was kept with the block.
    pub(crate) fn put(&mut self, alloc: Global, block: Guid, kept: Kept) -> Result<bool, NoMemory>
        ensures was { IfOk result (λ was. was ≡ is_some (kept_in block self.old)) }
        ensures ok { OnOk result (self.new ≡ with_kept block kept self.old) }
        ensures err { OnErr result (self.new ≡ self.old) }
    {
        if self.cache.is_none() {
            self.cache = Some(new_cache(alloc)?);
        }
        match &mut self.cache {
            Some(cache) => put_in(cache, block, kept),
            None => unreachable!(),
        }
    }

    pub(crate) fn take(&mut self, block: Guid) -> Option<Kept>
        ensures kept { result ≡ kept_in block self.old }
        ensures left { self.new ≡ without_kept block self.old }
    {
        match &mut self.cache {
            Some(cache) => take_in(cache, block),
            None => None,
        }
    }

    /// The answer is whether something is kept with the block.
    pub(crate) fn store(
        &mut self,
        alloc: Global,
        block: Guid,
        word: u32,
        value: u64,
    ) -> Result<bool, NoMemory>
        requires { IfSome (kept_in block self.old) (λ kept. IsStorable kept.loan word) }
        ensures is { IfOk result (λ is. is ≡ is_some (kept_in block self.old)) }
        ensures ok { OnOk result (self.new
            ≡ with_loan block (λ loan. after_store loan word value) self.old) }
        ensures err { OnErr result (self.new ≡ self.old) }
    {
        match &mut self.cache {
            Some(cache) => store_at(alloc, cache, block, word, value),
            None => Ok(false),
        }
    }

    /// The answer is whether something is kept with the block.
    pub(crate) fn list_writes(&mut self, block: Guid) -> bool
        ensures is { result ≡ is_some (kept_in block self.old) }
        ensures state { self.new ≡ with_loan block after_list_writes self.old }
    {
        match &mut self.cache {
            Some(cache) => list_at(cache, block),
            None => false,
        }
    }

    pub(crate) fn settle(&mut self)
        ensures { self.new ≡ settled_loans self.old }
    {
        if let Some(cache) = &mut self.cache {
            settle_each(cache);
        }
    }

    /// Pushes the names of the blocks.
    pub(crate) fn push_blocks(&self, blocks: &mut Vec<Guid>) -> Result<(), NoMemory>
        ensures { IfOk result (λ _. blocks.new.items
            ≡ blocks.old.items ++ map (λ one. one.0) self.now) }
    {
        match &self.cache {
            Some(cache) => push_names(cache, blocks),
            None => Ok(()),
        }
    }
}

fn new_cache(alloc: Global) -> Result<Box<LruCache<u64, Kept>>, NoMemory>
    ensures { IfOk result (λ cache. cache.value ≡ lru_cache [] (2 ^ 64 - 1)) }
{
    let cache = LruCache::unbounded(alloc)?;
    match Box::new(alloc, cache) {
        Ok(cache) => Ok(cache),
        Err(_) => Err(NoMemory),
    }
}

fn get_in(cache: &LruCache<u64, Kept>, block: Guid) -> Option<&Kept>
    ensures some { IfSome result (λ kept. kept_in block cache.now.entries ≡ Some kept.now) }
    ensures none { IfNone result (kept_in block cache.now.entries ≡ None) }
{
    cache.peek(&block.0)
}

fn take_in(cache: &mut LruCache<u64, Kept>, block: Guid) -> Option<Kept>
    ensures kept { result ≡ kept_in block cache.old.entries }
    ensures left { cache.new ≡ lru_cache (without_kept block cache.old.entries) cache.old.cap }
{
    cache.pop(&block.0)
}

fn put_in(cache: &mut LruCache<u64, Kept>, block: Guid, kept: Kept) -> Result<bool, NoMemory>
    requires { cache.old.cap ≡ 2 ^ 64 - 1 }
    ensures was { IfOk result (λ was. was ≡ is_some (kept_in block cache.old.entries)) }
    ensures ok { OnOk result (cache.new
        ≡ lru_cache (with_kept block kept cache.old.entries) cache.old.cap) }
    ensures err { OnErr result (cache.new ≡ cache.old) }
{
    let _count = cache.len(); // is below the capacity, so that nothing is put out
    match cache.put(block.0, kept) {
        Ok(was) => Ok(was.is_some()),
        Err(_) => Err(NoMemory),
    }
}

fn store_at(
    alloc: Global,
    cache: &mut LruCache<u64, Kept>,
    block: Guid,
    word: u32,
    value: u64,
) -> Result<bool, NoMemory>
    requires { IfSome (kept_in block cache.old.entries) (λ kept. IsStorable kept.loan word) }
    ensures is { IfOk result (λ is. is ≡ is_some (kept_in block cache.old.entries)) }
    ensures ok { OnOk result (cache.new ≡ lru_cache
        (with_loan block (λ loan. after_store loan word value) cache.old.entries) cache.old.cap) }
    ensures err { OnErr result (cache.new ≡ cache.old) }
{
    let Some(kept) = cache.peek_mut(&block.0) else {
        return Ok(false);
    };
    store_in(alloc, kept, word, value)?;
    Ok(true)
}

fn list_at(cache: &mut LruCache<u64, Kept>, block: Guid) -> bool
    ensures is { result ≡ is_some (kept_in block cache.old.entries) }
    ensures state { cache.new
        ≡ lru_cache (with_loan block after_list_writes cache.old.entries) cache.old.cap }
{
    let Some(kept) = cache.peek_mut(&block.0) else {
        return false;
    };
    list_in(kept);
    true
}

// Each turn brings the last to the front, so that all stand as before at the end.
fn settle_each(cache: &mut LruCache<u64, Kept>)
    ensures { cache.new ≡ lru_cache (settled_loans cache.old.entries) cache.old.cap }
{
    for _i in 0..cache.len() {
        settle_last(cache);
    }
}

// Settles the last, and brings it to the front.
fn settle_last(cache: &mut LruCache<u64, Kept>)
    requires { 0 < length cache.old.entries }
    ensures entries { (front : _) (last : _) → cache.old.entries ≡ front ++ last ∷ []
        → cache.new.entries ≡ (
          last.0,
          record {
            size = last.1.size;
            loan = settled_loan last.1.loan;
          },
        ) ∷ front }
    ensures cap { cache.new.cap ≡ cache.old.cap }
{
    let _count = cache.len(); // the names are distinct
    let Some((block, _)) = cache.peek_lru() else {
        unreachable!()
    };
    let block = *block;
    if let Some(kept) = cache.get_mut(&block) {
        settle_one(kept);
    }
}

fn push_names(cache: &LruCache<u64, Kept>, blocks: &mut Vec<Guid>) -> Result<(), NoMemory>
    ensures { IfOk result (λ _. blocks.new.items
        ≡ blocks.old.items ++ map (λ one. one.0) cache.now.entries) }
{
    for (block, _kept) in cache {
        blocks.push(Guid(*block))?;
    }
    Ok(())
}
