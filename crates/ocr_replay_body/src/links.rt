// Links each entry of a journal to the next one of its EDT.
ghost use Rattle.std.specs.Prelude.{◌≡◌, ◌≤◌, ◌<◌, ◌+◌, ◌==◌, ◌||◌, ℕ, length, replicate, slice_index_or, false, IfSome, IfNone, IfOk};
ghost use Rattle.ocr_replay_body.specs.Judge.{runs};
ghost use Rattle.ocr_replay_body.specs.Links.{starts, IsLinkedFrom, IsLinked};

use crate::judge::is_run_by;
use ocr_base::NoMemory;
use ocr_guid::Guid;
use ocr_machine_history::{Entry, Stop};
use std::alloc::Global;

/// Each entry of a journal with the next one of its EDT.
#[derive(Drop)]
pub struct Links {
    /// By place: where the next entry of the EDT's body stands, or the journal's length.
    pub(crate) nexts: Vec<usize>,
    /// By an EDT's number: where the first entry of its body stands, or the journal's length.
    pub(crate) firsts: Vec<usize>,
}

/// The EDT that the entry starts, or whose body it is an entry of.
fn edt_of(entry: &Entry) -> Option<Guid>
    ensures some { IfSome result (λ edt. (t : ℕ)
        → (runs t entry.now || starts t entry.now) ≡ (edt == t)) }
    ensures none { IfNone result ((t : ℕ) → (runs t entry.now || starts t entry.now) ≡ false) }
{
    match entry {
        Entry::Call {
            edt,
            home: _,
            call: _,
            answer: _,
            writes: _,
        } => Some(*edt),
        Entry::Free {
            edt,
            block: _,
            writes: _,
        } => Some(*edt),
        Entry::End { edt, returned: _ } => Some(*edt),
        Entry::Start { edt } => Some(*edt),
        Entry::Stop(stop) => stopper_of(stop),
        Entry::Deliver {
            message: _,
            code: _,
        } => None,
        Entry::Acquire { edt: _, block: _ } => None,
        Entry::Wait { edt: _, block: _ } => None,
        Entry::StaleAcquire { edt: _, block: _ } => None,
    }
}

/// The EDT whose body made the Stop.
fn stopper_of(stop: &Stop) -> Option<Guid>
    ensures some { IfSome result (λ edt. (t : ℕ)
        → (runs t (Entry.Stop stop.now) || starts t (Entry.Stop stop.now)) ≡ (edt == t)) }
    ensures none { IfNone result ((t : ℕ)
        → (runs t (Entry.Stop stop.now) || starts t (Entry.Stop stop.now)) ≡ false) }
{
    match stop {
        Stop::Shutdown { edt } => Some(*edt),
        Stop::Abort { edt, code: _ } => Some(*edt),
        Stop::Fault { edt, fault: _ } => Some(*edt),
        Stop::Objects => None,
        Stop::Events {
            worker: _,
            weight: _,
        } => None,
        Stop::Memory => None,
    }
}

/// Links the entry at a place, where those after it are linked.
fn note(links: &mut Links, entries: &[Entry], limit: u64, place: usize)
    requires within { place < length entries.now }
    requires limit_fits { limit ≤ 65536 }
    requires linked { IsLinkedFrom limit entries.now
        (place + 1) links.old.nexts.items links.old.firsts.items }
    ensures { IsLinkedFrom limit entries.now place links.new.nexts.items links.new.firsts.items }
{
    let entry = &entries[place];
    let Some(edt) = edt_of(entry) else {
        return;
    };
    if edt.0 > limit {
        return;
    }
    let number = edt.0 as usize;
    links.nexts[place] = links.firsts[number];
    if is_run_by(entry, edt) {
        links.firsts[number] = place;
    }
}

fn filled(alloc: Global, place: usize, count: usize) -> Result<Vec<usize>, NoMemory>
    ensures { IfOk result (λ v. v.items ≡ replicate count place) }
{
    match Vec::from_elem(alloc, place, count) {
        Ok(places) => Ok(places),
        Err(_) => Err(NoMemory),
    }
}

/// Links the entries of a journal whose EDTs have numbers up to the limit. Entries of others have
/// no next one.
pub fn link(alloc: Global, entries: &[Entry], limit: u64) -> Result<Links, NoMemory>
    requires limit_fits { limit ≤ 65536 }
    ensures { IfOk result (λ links. IsLinked limit entries.now links) }
{
    let mut links = Links {
        nexts: filled(alloc, entries.len(), entries.len())?,
        firsts: filled(alloc, entries.len(), limit as usize + 1)?,
    };
    for place in (0..entries.len()).rev() {
        note(&mut links, entries, limit, place);
    }
    Ok(links)
}

impl Links {
    /// Where the next entry of the EDT of the entry at this place stands, or the journal's length.
    pub fn next(&self, place: usize) -> usize
        requires { place < length self.now.nexts.items }
        ensures { result ≡ slice_index_or self.now.nexts.items place 0 }
    {
        self.nexts[place]
    }
}
