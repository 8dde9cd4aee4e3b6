// Journals of prints.
use crate::journal::{Journal, MAIN, New};
use ocr_base::NoMemory;
use ocr_guid::Guid;
use std::alloc::Global;

/// `mainEdt` prints so often.
pub(crate) const PRINTS: &str = "fn mainEdt {
  let n = load(depv[0], 1); let i = 0;
  while i + 7 < n {
    print 7; print 7; print 7; print 7; print 7; print 7; print 7; print 7; i = i + 8;
  }
  while i < n { print 7; i = i + 1; }
}";

pub(crate) fn prints(alloc: Global, size: u32) -> Result<Journal, NoMemory> {
    let mut journal = Journal::opened(alloc, size)?;
    for _ in 0..size {
        journal.print(MAIN, 7)?;
    }
    journal.close()?;
    Ok(journal)
}

/// Each EDT makes the next one, so many of them, and then they all print in turns and end.
pub(crate) const TURNS: &str = "fn one {
  let t = paramv[0]; let left = paramv[1];
  if left { ocrEdtCreate(t, EDT_PARAM_DEF, [t, left - 1], EDT_PARAM_DEF, [], 0); }
  print 7; print 7; print 7; print 7; print 7;
}
fn mainEdt {
  let n = load(depv[0], 1); let t = ocrEdtTemplateCreate(one, 2, 0);
  ocrEdtCreate(t, EDT_PARAM_DEF, [t, n], EDT_PARAM_DEF, [], 0);
}";

pub(crate) fn turns(alloc: Global, size: u32) -> Result<Journal, NoMemory> {
    let mut journal = Journal::opened(alloc, size)?;
    let template = journal.template(1, 2, 0)?;
    let edts = started(alloc, &mut journal, template, size)?;
    for _ in 0..5 {
        print_all(&mut journal, &edts)?;
    }
    end_all(&mut journal, &edts)?;
    Ok(journal)
}

// EDT 2 makes the first EDT and ends, and each one starts and makes the next.
fn started(
    alloc: Global,
    journal: &mut Journal,
    template: Guid,
    size: u32,
) -> Result<Vec<Guid>, NoMemory> {
    let mut edt = made(journal, MAIN, template, size)?;
    journal.close()?;
    let mut edts = Vec::new(alloc);
    for left in (0..size).rev() {
        journal.start(edt)?;
        edts.push(edt)?;
        edt = made(journal, edt, template, left)?;
    }
    journal.start(edt)?;
    edts.push(edt)?;
    Ok(edts)
}

fn made(journal: &mut Journal, by: Guid, template: Guid, left: u32) -> Result<Guid, NoMemory> {
    let new = New {
        home: Guid::NULL,
        template,
        params: &[template.0, u64::from(left)],
        deps: &[],
        finish: false,
        output: false,
    };
    Ok(journal.create(by, &new)?.edt)
}

fn print_all(journal: &mut Journal, edts: &[Guid]) -> Result<(), NoMemory> {
    for edt in edts {
        journal.print(*edt, 7)?;
    }
    Ok(())
}

fn end_all(journal: &mut Journal, edts: &[Guid]) -> Result<(), NoMemory> {
    for edt in edts {
        journal.end(*edt, Guid::NULL)?;
    }
    Ok(())
}
