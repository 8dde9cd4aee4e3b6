// The links of events, each with its place and its slot, and the satisfactions that went to one.
ghost use Rattle.std.specs.Prelude.{◌≡◌, ◌==◌, ◌&&◌, ◌++◌, [], ◌∷◌, ℕ, length, OnOk, IfOk, if◌then◌else◌};
ghost use Rattle.std.specs.List.{zip};
ghost use Rattle.ocr_machine_history.specs.History.{History};
ghost use Rattle.ocr_machine_parts.specs.Calls.{is_object};
ghost use Rattle.ocr_memory_model.specs.Links.{links_in, AreLinks};
ghost use Rattle.ocr_memory_model_order.specs.Makers.{dep_links_at, links_by, matched, slot_of};

use crate::sources::slot_of;
use ocr_base::{NoMemory, Seq};
use ocr_body_meaning::{Answer, Call};
use ocr_guid::Code;
use ocr_machine_history::{Entry, Message};
use std::alloc::Global;
use std::collections::BTreeMap;

/// The links of each event.
pub(crate) type Links = BTreeMap<u64, Seq<(u64, u64)>>;

/// The links of an event.
pub(crate) fn links_of(links: &Links, event: u64) -> &[(u64, u64)]
    ensures { result.now ≡ links_in links.now event }
{
    match links.get(&event) {
        Some(list) => list.as_slice(),
        None => &[],
    }
}

fn take(alloc: Global, links: &mut Links, event: u64) -> Seq<(u64, u64)>
    ensures list { result ≡ links_in links.old event }
    ensures rest { (n : ℕ) → links_in links.new n
        ≡ (if event == n then [] else links_in links.old n) }
{
    match links.remove(&event) {
        Some(list) => list,
        None => Seq::new(alloc),
    }
}

fn put(links: &mut Links, event: u64, list: Seq<(u64, u64)>) -> Result<(), NoMemory>
    ensures { OnOk result ((n : ℕ) → links_in links.new n
        ≡ (if event == n then list else links_in links.old n)) }
{
    links.insert(event, list)?;
    Ok(())
}

fn add(alloc: Global, links: &mut Links, event: u64, place: u64, slot: u64) -> Result<(), NoMemory>
    ensures { OnOk result ((x : ℕ) → links_in links.new x ≡ links_in links.old x
        ++ (if event == x then (place, slot) ∷ [] else [])) }
{
    let mut list = take(alloc, links, event);
    list.push((place, slot))?;
    put(links, event, list)?;
    Ok(())
}

fn is_object(dep: u64) -> bool
    ensures { result ≡ is_object dep }
{
    dep != u64::MAX && dep != 0
}

fn add_deps(alloc: Global, links: &mut Links, place: u64, deps: &[u64]) -> Result<(), NoMemory>
    ensures { OnOk result ((x : ℕ) → links_in links.new x ≡ links_in links.old x
        ++ dep_links_at place 0 x deps.now) }
{
    for k in 0..deps.len() {
        if is_object(deps[k]) {
            add(alloc, links, deps[k], place, k as u64)?;
        }
    }
    Ok(())
}

fn note_call(alloc: Global, links: &mut Links, call: &Call, place: u64) -> Result<(), NoMemory>
    ensures { OnOk result ((x : ℕ) → links_in links.new x
        ≡ links_in links.old x ++ links_by place call.now x) }
{
    match call {
        Call::AddDependence { source, slot, .. } => {
            if *source != 0 {
                add(alloc, links, *source, place, *slot)?;
            }
            Ok(())
        }
        Call::EdtCreate { deps, .. } => add_deps(alloc, links, place, deps.as_slice()),
        _ => Ok(()),
    }
}

/// Notes the links that an entry makes.
pub(crate) fn note_links(
    alloc: Global,
    links: &mut Links,
    entry: &Entry,
    place: u64,
) -> Result<(), NoMemory>
    ensures { OnOk result ((past : History) → length past ≡ place → AreLinks past links.old
        → AreLinks (entry.now ∷ past) links.new) }
{
    match entry {
        Entry::Call {
            call,
            answer: Answer {
                code: Code::Done,
                ..
            },
            ..
        } => note_call(alloc, links, call, place),
        _ => Ok(()),
    }
}

fn is_match(link: (u64, u64), message: &Message) -> bool
    ensures { result ≡ (link.0 == message.now.place) && (link.1 == slot_of message.now.what) }
{
    link.0 == message.place && link.1 == slot_of(&message.what)
}

fn push_if(places: &mut Vec<u64>, is_kept: bool, place: u64) -> Result<(), NoMemory>
    ensures { OnOk result (places.new.items
        ≡ places.old.items ++ (if is_kept then place ∷ [] else [])) }
{
    if is_kept {
        places.push(place)?;
    }
    Ok(())
}

/// Of the satisfactions of a channel those that went to the message's link.
pub(crate) fn matches(
    alloc: Global,
    satisfactions: &[u64],
    links: &[(u64, u64)],
    message: &Message,
) -> Result<Vec<u64>, NoMemory>
    ensures { IfOk result (λ places. places.items
        ≡ matched message.now (zip satisfactions.now links.now)) }
{
    let mut places = Vec::new(alloc);
    for i in 0..satisfactions.len().min(links.len()) {
        push_if(&mut places, is_match(links[i], message), satisfactions[i])?;
    }
    Ok(places)
}
