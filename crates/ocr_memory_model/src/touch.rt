// The last places at which EDTs touched words.
ghost use Rattle.std.specs.Prelude.{◌≡◌, ◌≤◌, ◌+◌, ◌∷◌, length, map, ℕ, Option, None, IfOk, OnOk};
ghost use Rattle.std.specs.BTreeMap.{IsOrdered, btree_map_len};
ghost use Rattle.ocr_machine_history.specs.History.{History, history_of};
ghost use Rattle.ocr_memory_model.specs.Touches as spec;
ghost use Rattle.ocr_memory_model.specs.Touches.{AreMarked, AreTouches, site_cmp, touch_of};

use ocr_base::NoMemory;
use ocr_body_meaning::{Answer, Call};
use ocr_guid::Code;
use ocr_machine_history::Entry;
use std::alloc::Global;
use std::collections::BTreeMap;

/// A block, a word of it, and an EDT.
type Site = (u64, u64, u64);

/// The place of the last access, and of the last store, where there is one.
#[derive(Clone, Copy)]
pub(crate) struct Places {
    pub(crate) last: usize,
    pub(crate) store: Option<usize>,
}

/// The places of each EDT at each word.
type Marks = BTreeMap<Site, Places>;

/// An EDT's last access to a word of a block, and its last store to it.
#[derive(Clone, Copy)]
pub(crate) struct Touch {
    pub(crate) block: u64,
    pub(crate) word: u64,
    pub(crate) edt: u64,
    pub(crate) places: Places,
}

// Whether a call is an access, and a store.
fn access_by(edt: u64, call: &Call) -> Option<(Site, bool)>
    ensures { result ≡ spec.access_by edt call.now }
{
    match call {
        Call::Load { block, word } => Some(((*block, *word, edt), false)),
        Call::Store { block, word, .. } => Some(((*block, *word, edt), true)),
        _ => None,
    }
}

fn access_in(entry: &Entry) -> Option<(Site, bool)>
    ensures { result ≡ spec.access_in entry.now }
{
    match entry {
        Entry::Call {
            edt,
            call,
            answer: Answer {
                code: Code::Done,
                ..
            },
            ..
        } => access_by(edt.0, call),
        _ => None,
    }
}

// The last store so far.
fn store_at(marks: &Marks, site: Site) -> Option<usize>
    ensures { result ≡ spec.store_in (spec.places_at marks.now site) }
{
    match marks.get(&site) {
        Some(places) => places.store,
        None => None,
    }
}

// Notes the next entry, which has this place.
fn note(marks: &mut Marks, entry: &Entry, place: usize) -> Result<(), NoMemory>
    ensures marked { OnOk result ((past : History) → place ≡ length past
        → AreMarked past marks.old → AreMarked (entry.now ∷ past) marks.new) }
    ensures few { OnOk result (btree_map_len marks.new ≤ btree_map_len marks.old + 1) }
{
    let Some((site, is_store)) = access_in(entry) else {
        return Ok(());
    };
    let store = if is_store {
        Some(place)
    } else {
        store_at(marks, site)
    };
    marks.insert(site, Places { last: place, store })?;
    Ok(())
}

// The marks after all entries.
fn marks(alloc: Global, entries: &[Entry]) -> Result<Marks, NoMemory>
    ensures marked { IfOk result (λ marks. AreMarked (history_of entries.now) marks) }
    ensures few { IfOk result (λ marks. btree_map_len marks ≤ length entries.now) }
{
    let mut marks = BTreeMap::new(alloc);
    for place in 0..entries.len() {
        note(&mut marks, &entries[place], place)?;
    }
    Ok(marks)
}

// The touches that are marked, in the order of the sites.
fn listed(alloc: Global, marks: &Marks) -> Result<Vec<Touch>, NoMemory>
    ensures touches { IfOk result (λ touches. touches.items ≡ map touch_of marks.now.entries) }
    ensures ordered { IsOrdered site_cmp marks.now }
{
    let mut touches = Vec::new(alloc);
    for ((block, word, edt), places) in marks {
        touches.push(Touch {
            block: *block,
            word: *word,
            edt: *edt,
            places: *places,
        })?;
    }
    Ok(touches)
}

/// The touches of all entries, in the order of block, word and EDT.
pub(crate) fn touch_list(alloc: Global, entries: &[Entry]) -> Result<Vec<Touch>, NoMemory>
    ensures touches { IfOk result (λ touches. AreTouches (history_of entries.now) touches.items) }
    ensures few { IfOk result (λ touches. length touches.items ≤ length entries.now) }
{
    let marks = marks(alloc, entries)?;
    let touches = listed(alloc, &marks)?;
    Ok(touches)
}
