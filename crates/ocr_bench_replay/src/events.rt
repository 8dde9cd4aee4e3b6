// Journals with events, latches and channels.
use crate::journal::{Journal, MAIN, New, satisfied, set};
use ocr_base::NoMemory;
use ocr_guid::Guid;
use ocr_machine_history::ARGUMENTS;
use std::alloc::Global;

const ONCE: u64 = 1;

const STICKY: u64 = 3;

const LATCH: u64 = 4;

const CHANNEL: u64 = 5;

/// How many payloads a channel keeps at most.
const MOST_PAYLOADS: u32 = 1024;

/// One event fires so many EDTs.
pub(crate) const FAN: &str = "fn one { }
fn mainEdt {
  let n = load(depv[0], 1); let i = 0;
  let e = ocrEventCreate(OCR_EVENT_ONCE_T, 0); let t = ocrEdtTemplateCreate(one, 0, 1);
  while i < n { ocrEdtCreate(t, EDT_PARAM_DEF, [], EDT_PARAM_DEF, [e], 0); i = i + 1; }
  ocrEventSatisfy(e, NULL_GUID);
}";

pub(crate) fn fan(alloc: Global, size: u32) -> Result<Journal, NoMemory> {
    let mut journal = Journal::opened(alloc, size)?;
    let event = journal.event(ONCE, 0)?;
    let targets = targets(alloc, &mut journal, event, size)?;
    let place = journal.satisfy(MAIN, event, 0, Guid::NULL)?;
    journal.close()?;
    reach(&mut journal, place, &targets)?;
    for (_, edt) in &targets {
        journal.start(*edt)?;
        journal.end(*edt, Guid::NULL)?;
    }
    Ok(journal)
}

// So many EDTs that wait for an event, each with its place among them.
fn targets(
    alloc: Global,
    journal: &mut Journal,
    event: Guid,
    size: u32,
) -> Result<Vec<(u32, Guid)>, NoMemory> {
    let new = New {
        home: Guid::NULL,
        template: journal.template(1, 0, 1)?,
        params: &[],
        deps: &[event.0],
        finish: false,
        output: false,
    };
    let mut targets = Vec::new(alloc);
    for index in 0..size {
        targets.push((index, journal.create(MAIN, &new)?.edt))?;
    }
    Ok(targets)
}

// The messages of one entry reach the targets, the last one first.
fn reach(journal: &mut Journal, place: u64, targets: &[(u32, Guid)]) -> Result<(), NoMemory> {
    for (index, edt) in targets.iter().rev() {
        journal.deliver(place, *index, set(*edt, Guid::NULL))?;
    }
    Ok(())
}

// An event or a channel is linked to a latch so often.
fn link(journal: &mut Journal, source: Guid, latch: Guid, size: u32) -> Result<(), NoMemory> {
    for _ in 0..size {
        journal.depend(source, latch, 1, 0)?;
    }
    Ok(())
}

// An event or a channel is satisfied so often.
fn satisfy(
    journal: &mut Journal,
    event: Guid,
    slot: u64,
    payload: Guid,
    size: u32,
) -> Result<(), NoMemory> {
    for _ in 0..size {
        journal.satisfy(MAIN, event, slot, payload)?;
    }
    Ok(())
}

// The first messages of these entries bring block 1 to a latch, the last one first.
fn count(journal: &mut Journal, latch: Guid, places: &[u64]) -> Result<(), NoMemory> {
    for place in places.iter().rev() {
        journal.deliver(*place, 0, satisfied(latch, 1, Guid(ARGUMENTS)))?;
    }
    Ok(())
}

/// So many messages reach one latch, all from one event.
pub(crate) const DELIVERIES: &str = "fn mainEdt {
  let n = load(depv[0], 1); let i = 0;
  let e = ocrEventCreate(OCR_EVENT_STICKY_T, 0); let l = ocrEventCreate(OCR_EVENT_LATCH_T, 0);
  while i + 3 < n {
    ocrAddDependence(e, l, 1, 0); ocrAddDependence(e, l, 1, 0);
    ocrAddDependence(e, l, 1, 0); ocrAddDependence(e, l, 1, 0); i = i + 4;
  }
  while i < n { ocrAddDependence(e, l, 1, 0); i = i + 1; }
  ocrEventSatisfy(e, NULL_GUID);
}";

pub(crate) fn deliveries(alloc: Global, size: u32) -> Result<Journal, NoMemory> {
    let mut journal = Journal::opened(alloc, size)?;
    let event = journal.event(STICKY, 0)?;
    let latch = journal.event(LATCH, 0)?;
    link(&mut journal, event, latch, size)?;
    let place = journal.satisfy(MAIN, event, 0, Guid::NULL)?;
    journal.close()?;
    for index in (0..size).rev() {
        journal.deliver(place, index, satisfied(latch, 1, Guid::NULL))?;
    }
    Ok(journal)
}

/// A latch is satisfied so often.
pub(crate) const LATCHES: &str = "fn mainEdt {
  let n = load(depv[0], 1); let i = 0; let l = ocrEventCreate(OCR_EVENT_LATCH_T, 0);
  while i + 3 < n {
    ocrEventSatisfySlot(l, 0, 1); ocrEventSatisfySlot(l, 0, 1);
    ocrEventSatisfySlot(l, 0, 1); ocrEventSatisfySlot(l, 0, 1); i = i + 4;
  }
  while i < n { ocrEventSatisfySlot(l, 0, 1); i = i + 1; }
}";

pub(crate) fn latches(alloc: Global, size: u32) -> Result<Journal, NoMemory> {
    let mut journal = Journal::opened(alloc, size)?;
    let latch = journal.event(LATCH, 0)?;
    satisfy(&mut journal, latch, 1, Guid::NULL, size)?;
    journal.close()?;
    Ok(journal)
}

/// A full channel gives its oldest payload to a link and gets another one, so often.
pub(crate) const PAYLOADS: &str = "fn mainEdt {
  let n = load(depv[0], 1); let i = 0; let d = depv[0];
  let c = ocrEventCreateParams(OCR_EVENT_CHANNEL_T, EVT_PROP_TAKES_ARG, 1024, 1, 1);
  let l = ocrEventCreate(OCR_EVENT_LATCH_T, EVT_PROP_TAKES_ARG);
  while i < 1024 { ocrEventSatisfy(c, d); i = i + 1; }
  i = 0;
  while i < n { ocrAddDependence(c, l, 1, 0); ocrEventSatisfy(c, d); i = i + 1; }
}";

pub(crate) fn payloads(alloc: Global, size: u32) -> Result<Journal, NoMemory> {
    let mut journal = Journal::opened(alloc, size)?;
    let channel = journal.channel(CHANNEL, u64::from(MOST_PAYLOADS))?;
    let latch = journal.event(LATCH, 1)?;
    satisfy(&mut journal, channel, 0, Guid(ARGUMENTS), MOST_PAYLOADS)?;
    let places = exchanged(alloc, &mut journal, channel, latch, size)?;
    journal.close()?;
    count(&mut journal, latch, &places)?;
    Ok(journal)
}

// The places of so many links of a channel, each with a satisfaction after it.
fn exchanged(
    alloc: Global,
    journal: &mut Journal,
    channel: Guid,
    latch: Guid,
    size: u32,
) -> Result<Vec<u64>, NoMemory> {
    let mut places = Vec::new(alloc);
    for _ in 0..size {
        places.push(journal.depend(channel, latch, 1, 0)?)?;
        journal.satisfy(MAIN, channel, 0, Guid(ARGUMENTS))?;
    }
    Ok(places)
}

/// So many links of a channel wait, and each gets a payload then.
pub(crate) const LINKS: &str = "fn mainEdt {
  let n = load(depv[0], 1); let i = 0; let d = depv[0];
  let c = ocrEventCreateParams(OCR_EVENT_CHANNEL_T, EVT_PROP_TAKES_ARG, 1024, 1, 1);
  let l = ocrEventCreate(OCR_EVENT_LATCH_T, EVT_PROP_TAKES_ARG);
  while i < n { ocrAddDependence(c, l, 1, 0); i = i + 1; }
  i = 0;
  while i < n { ocrEventSatisfy(c, d); i = i + 1; }
}";

pub(crate) fn links(alloc: Global, size: u32) -> Result<Journal, NoMemory> {
    let mut journal = Journal::opened(alloc, size)?;
    let channel = journal.channel(CHANNEL, u64::from(MOST_PAYLOADS))?;
    let latch = journal.event(LATCH, 1)?;
    link(&mut journal, channel, latch, size)?;
    let places = matched(alloc, &mut journal, channel, size)?;
    journal.close()?;
    count(&mut journal, latch, &places)?;
    Ok(journal)
}

// The places of so many satisfactions of a channel.
fn matched(
    alloc: Global,
    journal: &mut Journal,
    channel: Guid,
    size: u32,
) -> Result<Vec<u64>, NoMemory> {
    let mut places = Vec::new(alloc);
    for _ in 0..size {
        places.push(journal.satisfy(MAIN, channel, 0, Guid(ARGUMENTS))?)?;
    }
    Ok(places)
}

/// So many events are linked one to the other, and the first is satisfied.
pub(crate) const CHAIN: &str = "fn mainEdt {
  let n = load(depv[0], 1); let i = 0; let e = ocrEventCreate(OCR_EVENT_STICKY_T, 0);
  let last = e; let next = 0;
  while i < n {
    next = ocrEventCreate(OCR_EVENT_STICKY_T, 0); ocrAddDependence(last, next, 0, 0);
    last = next; i = i + 1;
  }
  ocrEventSatisfy(e, NULL_GUID);
}";

pub(crate) fn chain(alloc: Global, size: u32) -> Result<Journal, NoMemory> {
    let mut journal = Journal::opened(alloc, size)?;
    let event = journal.event(STICKY, 0)?;
    let events = linked(alloc, &mut journal, event, size)?;
    let mut place = journal.satisfy(MAIN, event, 0, Guid::NULL)?;
    journal.close()?;
    for event in &events {
        place = journal.deliver(place, 0, satisfied(*event, 0, Guid::NULL))?;
    }
    Ok(journal)
}

// So many events, the first linked to this one and each to the one before it.
fn linked(
    alloc: Global,
    journal: &mut Journal,
    event: Guid,
    size: u32,
) -> Result<Vec<Guid>, NoMemory> {
    let mut events = Vec::new(alloc);
    let mut last = event;
    for _ in 0..size {
        let next = journal.event(STICKY, 0)?;
        journal.depend(last, next, 0, 0)?;
        events.push(next)?;
        last = next;
    }
    Ok(events)
}
