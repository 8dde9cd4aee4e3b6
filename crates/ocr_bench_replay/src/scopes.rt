// Journals with finish scopes and output events.
use crate::journal::{Journal, MAIN, New, satisfied, set};
use ocr_base::NoMemory;
use ocr_guid::Guid;
use ocr_machine_history::What;
use std::alloc::Global;

const LATCH: u64 = 4;

/// So many finish EDTs side by side: each holds a block, makes a child in its scope and satisfies a
/// latch; the child returns the block to its output event, and the scope's own output event
/// satisfies the latch once the scope is done.
pub(crate) const GROUPS: &str = "fn child { return paramv[0]; }
fn group {
  store(depv[0], 0, 7);
  let o = 0; ocrEdtCreate(paramv[0], EDT_PARAM_DEF, [depv[0]], EDT_PARAM_DEF, [], 0, &o);
  ocrEventSatisfySlot(paramv[1], NULL_GUID, 1); print o;
}
fn mainEdt {
  let n = load(depv[0], 1); let i = 0; let d = 0; let o = 0;
  let c = ocrEdtTemplateCreate(child, 1, 0); let g = ocrEdtTemplateCreate(group, 2, 1);
  let l = ocrEventCreate(OCR_EVENT_LATCH_T, 0);
  while i < n {
    d = ocrDbCreate(8, DB_PROP_NO_ACQUIRE);
    ocrEdtCreate(g, EDT_PARAM_DEF, [c, l], EDT_PARAM_DEF, [d], EDT_PROP_FINISH, &o);
    ocrAddDependence(o, l, 1, 0); i = i + 1;
  }
}";

// What all groups name.
#[derive(Drop)]
struct Common {
    child: Guid,
    group: Guid,
    latch: Guid,
}

// A finish EDT with its block and its child, and the place of the entry that sent the message that
// comes next.
#[derive(Drop)]
struct Group {
    block: Guid,
    edt: Guid,
    scope: Guid,
    output: Guid,
    child: Guid,
    returns: Guid,
    place: u64,
}

pub(crate) fn groups(alloc: Global, size: u32) -> Result<Journal, NoMemory> {
    let mut journal = Journal::opened(alloc, size)?;
    let child = journal.template(1, 1, 0)?;
    let group = journal.template(2, 2, 1)?;
    let latch = journal.event(LATCH, 0)?;
    let common = Common {
        child,
        group,
        latch,
    };
    let mut groups = grouped(alloc, &mut journal, &common, size)?;
    journal.close()?;
    for turn in 0..16 {
        take_turns(&mut journal, &common, &mut groups, turn)?;
    }
    Ok(journal)
}

fn grouped(
    alloc: Global,
    journal: &mut Journal,
    common: &Common,
    size: u32,
) -> Result<Vec<Group>, NoMemory> {
    let mut groups = Vec::new(alloc);
    for _ in 0..size {
        groups.push(make_group(journal, common)?)?;
    }
    Ok(groups)
}

fn make_group(journal: &mut Journal, common: &Common) -> Result<Group, NoMemory> {
    let block = journal.block(1)?;
    let new = New {
        home: Guid::NULL,
        template: common.group,
        params: &[common.child.0, common.latch.0],
        deps: &[block.0],
        finish: true,
        output: true,
    };
    let made = journal.create(MAIN, &new)?;
    journal.depend(made.output, common.latch, 1, 0)?;
    Ok(Group {
        block,
        edt: made.edt,
        scope: made.scope,
        output: made.output,
        child: Guid::NULL,
        returns: Guid::NULL,
        place: made.place,
    })
}

fn take_turns(
    journal: &mut Journal,
    common: &Common,
    groups: &mut [Group],
    turn: u32,
) -> Result<(), NoMemory> {
    for group in groups.iter_mut() {
        take_turn(journal, common, group, turn)?;
    }
    Ok(())
}

// The next entry of a group.
fn take_turn(
    journal: &mut Journal,
    common: &Common,
    group: &mut Group,
    turn: u32,
) -> Result<(), NoMemory> {
    let place = group.place;
    let leaves = What::Leave { scope: group.scope };
    let done = satisfied(group.output, 0, Guid::NULL);
    let counts = satisfied(common.latch, 1, Guid::NULL);
    let entered = match turn {
        0 => journal.deliver(place, 0, set(group.edt, group.block))?,
        1 => journal.acquire(group.edt, group.block)?,
        2 => journal.start(group.edt)?,
        3 => journal.store(group.edt, group.block, 0, 7)?,
        4 => make_child(journal, common, group)?,
        5 => journal.satisfy(group.edt, common.latch, 1, Guid::NULL)?,
        6 => journal.print(group.edt, group.returns.0)?,
        7 => journal.free(group.edt, group.block)?,
        8 => journal.end(group.edt, Guid::NULL)?,
        9 => journal.deliver(place, 0, leaves)?,
        10 => journal.start(group.child)?,
        11 => journal.end(group.child, group.block)?,
        12 => deliver_block(journal, group)?,
        13 => journal.deliver(place, 1, leaves)?,
        14 => journal.deliver(place, 0, done)?,
        _ => journal.deliver(place, 0, counts)?,
    };
    group.place = entered;
    Ok(())
}

fn make_child(journal: &mut Journal, common: &Common, group: &mut Group) -> Result<u64, NoMemory> {
    let new = New {
        home: group.scope,
        template: common.child,
        params: &[group.block.0],
        deps: &[],
        finish: false,
        output: true,
    };
    let made = journal.create(group.edt, &new)?;
    group.child = made.edt;
    group.returns = made.output;
    Ok(made.place)
}

// The child's output event gets the block; the next message is of the same entry.
fn deliver_block(journal: &mut Journal, group: &Group) -> Result<u64, NoMemory> {
    journal.deliver(group.place, 0, satisfied(group.returns, 0, group.block))?;
    Ok(group.place)
}

/// So many finish EDTs, each made by the one before it: the scopes are done from the innermost on.
pub(crate) const NESTED: &str = "fn nest {
  let t = paramv[0]; let left = paramv[1];
  if left { ocrEdtCreate(t, EDT_PARAM_DEF, [t, left - 1], EDT_PARAM_DEF, [], EDT_PROP_FINISH); }
}
fn mainEdt {
  let n = load(depv[0], 1); let t = ocrEdtTemplateCreate(nest, 2, 0);
  ocrEdtCreate(t, EDT_PARAM_DEF, [t, n], EDT_PARAM_DEF, [], EDT_PROP_FINISH);
}";

// An EDT with its scope.
type Nest = (Guid, Guid);

pub(crate) fn nested(alloc: Global, size: u32) -> Result<Journal, NoMemory> {
    let mut journal = Journal::opened(alloc, size)?;
    let template = journal.template(1, 2, 0)?;
    let first = nest(&mut journal, MAIN, Guid::NULL, template, size)?;
    journal.close()?;
    let (nests, last) = nests(alloc, &mut journal, template, first, size)?;
    leave_all(&mut journal, &nests)?;
    let mut place = leave_by(&mut journal, last)?;
    for (_, scope) in nests.iter().rev() {
        place = journal.deliver(place, 0, What::Leave { scope: *scope })?;
    }
    Ok(journal)
}

fn nest(
    journal: &mut Journal,
    by: Guid,
    home: Guid,
    template: Guid,
    left: u32,
) -> Result<Nest, NoMemory> {
    let new = New {
        home,
        template,
        params: &[template.0, u64::from(left)],
        deps: &[],
        finish: true,
        output: false,
    };
    let made = journal.create(by, &new)?;
    Ok((made.edt, made.scope))
}

// Each EDT starts and makes the next one, so many of them, and the last one starts.
fn nests(
    alloc: Global,
    journal: &mut Journal,
    template: Guid,
    first: Nest,
    size: u32,
) -> Result<(Vec<Nest>, Nest), NoMemory> {
    let mut nests = Vec::new(alloc);
    let (mut edt, mut scope) = first;
    for left in (0..size).rev() {
        journal.start(edt)?;
        nests.push((edt, scope))?;
        let (next, inner) = nest(journal, edt, scope, template, left)?;
        edt = next;
        scope = inner;
    }
    journal.start(edt)?;
    Ok((nests, (edt, scope)))
}

// The EDT ends, and leaves its scope.
fn leave_by(journal: &mut Journal, nest: Nest) -> Result<u64, NoMemory> {
    let (edt, scope) = nest;
    let place = journal.end(edt, Guid::NULL)?;
    journal.deliver(place, 0, What::Leave { scope })
}

fn leave_all(journal: &mut Journal, nests: &[Nest]) -> Result<(), NoMemory> {
    for (edt, scope) in nests {
        leave_by(journal, (*edt, *scope))?;
    }
    Ok(())
}

/// So many EDTs in one scope.
pub(crate) const MEMBERS: &str = "fn member { }
fn crowd {
  let i = 0;
  while i < paramv[1] {
    ocrEdtCreate(paramv[0], EDT_PARAM_DEF, [], EDT_PARAM_DEF, [], 0); i = i + 1;
  }
}
fn mainEdt {
  let n = load(depv[0], 1);
  let m = ocrEdtTemplateCreate(member, 0, 0); let c = ocrEdtTemplateCreate(crowd, 2, 0);
  ocrEdtCreate(c, EDT_PARAM_DEF, [m, n], EDT_PARAM_DEF, [], EDT_PROP_FINISH);
}";

pub(crate) fn members(alloc: Global, size: u32) -> Result<Journal, NoMemory> {
    let mut journal = Journal::opened(alloc, size)?;
    let member = journal.template(1, 0, 0)?;
    let (crowd, scope) = crowd(&mut journal, member, size)?;
    journal.close()?;
    journal.start(crowd)?;
    let edts = members_of(alloc, &mut journal, member, (crowd, scope), size)?;
    leave_by(&mut journal, (crowd, scope))?;
    let places = ended(alloc, &mut journal, &edts)?;
    for place in places.iter().rev() {
        journal.deliver(*place, 0, What::Leave { scope })?;
    }
    Ok(journal)
}

fn crowd(journal: &mut Journal, member: Guid, size: u32) -> Result<Nest, NoMemory> {
    let new = New {
        home: Guid::NULL,
        template: journal.template(2, 2, 0)?,
        params: &[member.0, u64::from(size)],
        deps: &[],
        finish: true,
        output: false,
    };
    let made = journal.create(MAIN, &new)?;
    Ok((made.edt, made.scope))
}

fn members_of(
    alloc: Global,
    journal: &mut Journal,
    member: Guid,
    crowd: Nest,
    size: u32,
) -> Result<Vec<Guid>, NoMemory> {
    let (by, home) = crowd;
    let new = New {
        home,
        template: member,
        params: &[],
        deps: &[],
        finish: false,
        output: false,
    };
    let mut edts = Vec::new(alloc);
    for _ in 0..size {
        edts.push(journal.create(by, &new)?.edt)?;
    }
    Ok(edts)
}

// The places at which the EDTs end.
fn ended(alloc: Global, journal: &mut Journal, edts: &[Guid]) -> Result<Vec<u64>, NoMemory> {
    let mut places = Vec::new(alloc);
    for edt in edts {
        journal.start(*edt)?;
        places.push(journal.end(*edt, Guid::NULL)?)?;
    }
    Ok(places)
}
