// Journals in which many EDTs want one block, and one in which an EDT holds many.
use crate::journal::{Journal, MAIN, Made, New, set};
use ocr_base::NoMemory;
use ocr_guid::Guid;
use ocr_machine_history::ARGUMENTS;
use std::alloc::Global;

const RO: u64 = 1;

const EW: u64 = 4;

/// So many EDTs wait for a block, and get it one after the other.
pub(crate) const QUEUE: &str = "fn one { }
fn mainEdt {
  let n = load(depv[0], 1); let i = 0; let w = 0;
  let d = ocrDbCreate(8, 0); let t = ocrEdtTemplateCreate(one, 0, 1);
  while i < n {
    w = ocrEdtCreate(t, EDT_PARAM_DEF, [], EDT_PARAM_DEF, [], 0);
    ocrAddDependence(d, w, 0, DB_MODE_EW); i = i + 1;
  }
  ocrDbRelease(d);
}";

pub(crate) fn queue(alloc: Global, size: u32) -> Result<Journal, NoMemory> {
    let mut journal = Journal::opened(alloc, size)?;
    let block = journal.block(0)?;
    let edts = waiting(alloc, &mut journal, block, size)?;
    journal.release(MAIN, block)?;
    journal.close()?;
    for edt in &edts {
        journal.acquire(*edt, block)?;
        journal.start(*edt)?;
        journal.free(*edt, block)?;
        journal.end(*edt, Guid::NULL)?;
    }
    Ok(journal)
}

/// So many EDTs wait for a block, which is destroyed then.
pub(crate) const DOOMED: &str = "fn one { }
fn mainEdt {
  let n = load(depv[0], 1); let i = 0; let w = 0;
  let d = ocrDbCreate(8, 0); let t = ocrEdtTemplateCreate(one, 0, 1);
  while i < n {
    w = ocrEdtCreate(t, EDT_PARAM_DEF, [], EDT_PARAM_DEF, [], 0);
    ocrAddDependence(d, w, 0, DB_MODE_EW); i = i + 1;
  }
  ocrDbDestroy(d);
}";

pub(crate) fn doomed(alloc: Global, size: u32) -> Result<Journal, NoMemory> {
    let mut journal = Journal::opened(alloc, size)?;
    let block = journal.block(0)?;
    let edts = waiting(alloc, &mut journal, block, size)?;
    journal.destroy(MAIN, block)?;
    journal.close()?;
    for edt in &edts {
        journal.stale(*edt, block)?;
        journal.start(*edt)?;
        journal.end(*edt, Guid::NULL)?;
    }
    Ok(journal)
}

// So many EDTs wait for a block that EDT 2 holds.
fn waiting(
    alloc: Global,
    journal: &mut Journal,
    block: Guid,
    size: u32,
) -> Result<Vec<Guid>, NoMemory> {
    let edts = wanting(alloc, journal, block, EW, size)?;
    for edt in &edts {
        journal.wait(*edt, block)?;
    }
    Ok(edts)
}

// So many EDTs whose one slot has a block, in this mode.
fn wanting(
    alloc: Global,
    journal: &mut Journal,
    block: Guid,
    mode: u64,
    size: u32,
) -> Result<Vec<Guid>, NoMemory> {
    let new = New {
        home: Guid::NULL,
        template: journal.template(1, 0, 1)?,
        params: &[],
        deps: &[],
        finish: false,
        output: false,
    };
    let mut edts = Vec::new(alloc);
    for _ in 0..size {
        let Made { edt, .. } = journal.create(MAIN, &new)?;
        let place = journal.depend(block, edt, 0, mode)?;
        journal.deliver(place, 0, set(edt, block))?;
        edts.push(edt)?;
    }
    Ok(edts)
}

/// So many EDTs hold a block together, and read it.
pub(crate) const READERS: &str = "fn one { print load(depv[0], 0); }
fn mainEdt {
  let n = load(depv[0], 1); let i = 0; let w = 0;
  let d = ocrDbCreate(8, DB_PROP_NO_ACQUIRE); let t = ocrEdtTemplateCreate(one, 0, 1);
  while i < n {
    w = ocrEdtCreate(t, EDT_PARAM_DEF, [], EDT_PARAM_DEF, [], 0);
    ocrAddDependence(d, w, 0, DB_MODE_RO); i = i + 1;
  }
}";

pub(crate) fn readers(alloc: Global, size: u32) -> Result<Journal, NoMemory> {
    let mut journal = Journal::opened(alloc, size)?;
    let block = journal.block(1)?;
    let edts = wanting(alloc, &mut journal, block, RO, size)?;
    journal.close()?;
    for edt in &edts {
        journal.acquire(*edt, block)?;
    }
    read(&mut journal, block, &edts)?;
    Ok(journal)
}

// Each EDT reads the block, and ends.
fn read(journal: &mut Journal, block: Guid, edts: &[Guid]) -> Result<(), NoMemory> {
    for edt in edts {
        journal.start(*edt)?;
        journal.load(*edt, block, 0, 0)?;
        journal.print(*edt, 0)?;
        journal.free(*edt, block)?;
        journal.end(*edt, Guid::NULL)?;
    }
    Ok(())
}

/// One EDT makes so many blocks, and holds them all to its end.
pub(crate) const HOLDS: &str = "fn mainEdt {
  let n = load(depv[0], 1); let i = 0;
  while i < n { ocrDbCreate(8, 0); i = i + 1; }
}";

pub(crate) fn holds(alloc: Global, size: u32) -> Result<Journal, NoMemory> {
    let mut journal = Journal::opened(alloc, size)?;
    let blocks = made(alloc, &mut journal, size)?;
    journal.free(MAIN, Guid(ARGUMENTS))?;
    for block in &blocks {
        journal.free(MAIN, *block)?;
    }
    journal.end(MAIN, Guid::NULL)?;
    Ok(journal)
}

fn made(alloc: Global, journal: &mut Journal, size: u32) -> Result<Vec<Guid>, NoMemory> {
    let mut blocks = Vec::new(alloc);
    for _ in 0..size {
        blocks.push(journal.block(0)?)?;
    }
    Ok(blocks)
}
