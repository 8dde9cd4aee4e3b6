// Journals with slots and blocks, worked out on paper.
use crate::lines::Line::{
    Acquire, Block, Depends, Edt, End, Free, Light, Load, Print, Release, Set, Start, Store,
    Template, Wait,
};
use crate::lines::{Line, Words};
use crate::tables::Change::{Doubled, Dropped, Ends, Is, Swapped};
use crate::tables::{Row, Table, wrong_in, wrong_of};
use ocr_guid::Code::{Done, Eperm};
use ocr_machine_history::Fault;
use std::alloc::Global;
use std::test::Fail;

const NULL: u64 = 0;

const RO: u64 = 1;

const CONST: u64 = 2;

const EW: u64 = 4;

const UNINIT: u64 = u64::MAX;

const NONE: Words = &[];

// EDT 4 is left: its slot 1 stays open.
const NEVER: Table = Table {
    text: b"fn never { print 1; }
fn mainEdt {
  ocrEdtCreate(ocrEdtTemplateCreate(never, 0, 2), EDT_PARAM_DEF, [], EDT_PARAM_DEF, [NULL_GUID, UNINITIALIZED_GUID], 0);
}",
    lines: &[
        Acquire(2, 1),
        Start(2),
        Template(2, 1, 0, 2, 3),
        Edt(2, 3, &[], &[0, UNINIT], Done, 4),
        Set(3, 0, 4, 0, 0),
        Free(2, 1, NONE),
        End(2),
    ],
    rows: &[
        // A message may stay undelivered, or come later; it comes once, and not before it is sent.
        (4, Dropped, None),
        (4, Swapped, None),
        (4, Doubled, Some(5)),
        (3, Swapped, Some(3)),
        (4, Is(Set(3, 0, 4, 1, 0)), Some(4)),
        (4, Is(Set(3, 1, 4, 1, UNINIT)), Some(4)),
        (4, Is(Set(2, 0, 4, 0, 0)), Some(4)),
        (4, Is(Set(3, 0, 2, 0, 0)), Some(4)),
        (4, Is(Set(3, 0, 4, 0, 1)), Some(4)),
        (3, Is(Edt(2, 3, &[], &[0, 0], Done, 4)), Some(3)),
        (4, Is(Start(4)), Some(4)),
        (7, Is(Start(4)), Some(7)),
        // The end is quiet; before the delivery it is not.
        (7, Ends(Light), Some(7)),
        (4, Ends(Light), None),
    ],
};

// EDT 5 is left, and EDT 6 is not: where it could still acquire, the journal is not quiet.
const LEFT: Table = Table {
    text: b"fn never { print 1; }
fn mainEdt {
  let t = ocrEdtTemplateCreate(never, 0, 1); let d = ocrDbCreate(8, DB_PROP_NO_ACQUIRE);
  ocrEdtCreate(t, EDT_PARAM_DEF, [], EDT_PARAM_DEF, [], 0);
  ocrEdtCreate(t, EDT_PARAM_DEF, [], EDT_PARAM_DEF, [d], 0);
}",
    lines: &[
        Acquire(2, 1),
        Start(2),
        Template(2, 1, 0, 1, 3),
        Block(2, 8, 1, 4),
        Edt(2, 3, &[], &[], Done, 5),
        Edt(2, 3, &[], &[4], Done, 6),
        Free(2, 1, NONE),
        End(2),
        Set(5, 0, 6, 0, 4),
        Acquire(6, 4),
        Start(6),
        Print(6, 1),
        Free(6, 4, NONE),
        End(6),
    ],
    rows: &[
        (14, Ends(Light), Some(14)),
        (14, Is(Start(5)), Some(14)),
        (8, Ends(Light), None),
        (9, Ends(Light), None),
        (10, Ends(Light), None),
        (13, Ends(Light), None),
        (8, Dropped, Some(8)),
        (9, Dropped, Some(9)),
        (9, Is(Wait(6, 4)), Some(9)),
        (9, Is(Acquire(5, 4)), Some(9)),
        (12, Dropped, Some(12)),
    ],
};

// Both want both blocks in EW, in both orders of slots; both acquire block 3 first.
const BOTH: Table = Table {
    text: b"fn both { print 1; }
fn mainEdt {
  let a = ocrDbCreate(8, DB_PROP_NO_ACQUIRE); let b = ocrDbCreate(8, DB_PROP_NO_ACQUIRE);
  let t = ocrEdtTemplateCreate(both, 0, 2);
  let x = ocrEdtCreate(t, EDT_PARAM_DEF, [], EDT_PARAM_DEF, [], 0);
  let y = ocrEdtCreate(t, EDT_PARAM_DEF, [], EDT_PARAM_DEF, [], 0);
  ocrAddDependence(a, x, 0, DB_MODE_EW); ocrAddDependence(b, x, 1, DB_MODE_EW);
  ocrAddDependence(b, y, 0, DB_MODE_EW); ocrAddDependence(a, y, 1, DB_MODE_EW);
}",
    lines: &[
        Acquire(2, 1),
        Start(2),
        Block(2, 8, 1, 3),
        Block(2, 8, 1, 4),
        Template(2, 1, 0, 2, 5),
        Edt(2, 5, &[], &[], Done, 6),
        Edt(2, 5, &[], &[], Done, 7),
        Depends(2, 3, 6, 0, EW),
        Depends(2, 4, 6, 1, EW),
        Depends(2, 4, 7, 0, EW),
        Depends(2, 3, 7, 1, EW), // 10
        Set(7, 0, 6, 0, 3),
        Set(8, 0, 6, 1, 4),
        Set(9, 0, 7, 0, 4),
        Set(10, 0, 7, 1, 3),
        Acquire(6, 3),
        Wait(7, 3),
        Acquire(6, 4),
        Start(6),
        Print(6, 1),
        Free(6, 3, NONE), // 20
        Acquire(7, 3),
        Free(6, 4, NONE),
        End(6),
        Acquire(7, 4),
        Start(7),
        Print(7, 1),
        Free(7, 3, NONE),
        Free(7, 4, NONE),
        End(7),
        Free(2, 1, NONE), // 30
        End(2),
    ],
    rows: &[
        (7, Is(Depends(2, 3, 6, 0, RO)), Some(7)),
        (13, Is(Set(9, 0, 7, 0, 3)), Some(13)),
        // EDT 7 has an open slot when it is to wait.
        (14, Dropped, Some(15)),
        (15, Is(Acquire(6, 4)), Some(15)),
        (16, Is(Acquire(7, 4)), Some(16)),
        (16, Is(Acquire(7, 3)), Some(16)),
        (16, Doubled, Some(17)),
        // It need not have waited.
        (16, Dropped, None),
        (17, Dropped, Some(17)),
        (17, Swapped, Some(17)),
        (20, Is(Free(6, 4, NONE)), Some(20)),
        (20, Is(Free(6, 3, &[(0, 0)])), Some(20)),
        (20, Dropped, Some(20)),
        (21, Swapped, None),
        (21, Dropped, Some(23)),
        (21, Is(Start(7)), Some(21)),
        (22, Dropped, Some(22)),
        (24, Swapped, Some(24)),
        (31, Dropped, None),
        (32, Ends(Light), Some(32)),
    ],
};

// A block goes from its creator in RW to a writer in EW, and from it to two readers in CONST.
const HANDED: Table = Table {
    text: b"fn write { store(depv[0], 1, 6); store(depv[0], 0, load(depv[0], 0) + 1); store(depv[0], 1, 9); }
fn read { print load(depv[0], 0) + load(depv[0], 1); }
fn mainEdt {
  let d = ocrDbCreate(16, 0); store(d, 0, 7);
  let w = ocrEdtCreate(ocrEdtTemplateCreate(write, 0, 1), EDT_PARAM_DEF, [], EDT_PARAM_DEF, [], 0);
  let t = ocrEdtTemplateCreate(read, 0, 1);
  let a = ocrEdtCreate(t, EDT_PARAM_DEF, [], EDT_PARAM_DEF, [], 0);
  let b = ocrEdtCreate(t, EDT_PARAM_DEF, [], EDT_PARAM_DEF, [], 0);
  ocrAddDependence(d, w, 0, DB_MODE_EW); ocrAddDependence(d, a, 0, DB_MODE_CONST); ocrAddDependence(d, b, 0, DB_MODE_CONST);
  ocrDbRelease(d);
}",
    lines: &[
        Acquire(2, 1),
        Start(2),
        Block(2, 16, 0, 3),
        Store(2, 3, 0, 7),
        Template(2, 1, 0, 1, 4),
        Edt(2, 4, &[], &[], Done, 5),
        Template(2, 2, 0, 1, 6),
        Edt(2, 6, &[], &[], Done, 7),
        Edt(2, 6, &[], &[], Done, 8),
        Depends(2, 3, 5, 0, EW),
        Depends(2, 3, 7, 0, CONST), // 10
        Depends(2, 3, 8, 0, CONST),
        Set(9, 0, 5, 0, 3),
        Set(10, 0, 7, 0, 3),
        Set(11, 0, 8, 0, 3),
        Wait(5, 3),
        Wait(7, 3),
        Release(2, 3, Done, NONE),
        Acquire(5, 3),
        Wait(8, 3),
        Start(5), // 20
        Free(5, 3, &[(0, 8), (1, 9)]),
        End(5),
        Acquire(8, 3),
        Acquire(7, 3),
        Start(7),
        Print(7, 17),
        Start(8),
        Print(8, 17),
        Free(7, 3, NONE),
        End(7), // 30
        Free(8, 3, NONE),
        End(8),
        Free(2, 1, NONE),
        End(2),
    ],
    rows: &[
        (15, Is(Acquire(5, 3)), Some(15)),
        (16, Is(Acquire(7, 3)), Some(16)),
        // The first in the queue is a reader then: the writer is not granted.
        (15, Swapped, Some(18)),
        (17, Dropped, Some(17)),
        (17, Is(Release(2, 3, Eperm, NONE)), Some(17)),
        (17, Is(Release(2, 3, Done, &[(0, 7)])), Some(17)),
        (18, Swapped, None),
        (18, Dropped, Some(19)),
        (19, Is(Acquire(8, 3)), Some(19)),
        // What is stored in EW is no entry, and comes back whole with the hold.
        (21, Is(Store(5, 3, 1, 6)), Some(21)),
        (21, Is(Free(5, 3, NONE)), Some(21)),
        (21, Is(Free(5, 3, &[(0, 8)])), Some(21)),
        (21, Is(Free(5, 3, &[(1, 9), (0, 8)])), Some(21)),
        (21, Is(Free(5, 3, &[(0, 8), (0, 8), (1, 9)])), Some(21)),
        (21, Is(Free(5, 3, &[(0, 8), (1, 6)])), Some(21)),
        (21, Swapped, Some(21)),
        (23, Is(Wait(8, 3)), Some(23)),
        (23, Swapped, None),
        (24, Dropped, Some(24)),
        (26, Is(Print(7, 7)), Some(26)),
        (26, Is(Load(7, 3, 0, 8)), Some(26)),
        (29, Is(Free(7, 3, &[(0, 8)])), Some(29)),
    ],
};

// Two read together, and a writer waits for both.
const READERS: Table = Table {
    text: b"fn read { print load(depv[0], 0); }
fn write { store(depv[0], 0, 4); ocrDbRelease(depv[0]); }
fn mainEdt {
  let d = ocrDbCreate(8, DB_PROP_NO_ACQUIRE);
  let r = ocrEdtTemplateCreate(read, 0, 1);
  let a = ocrEdtCreate(r, EDT_PARAM_DEF, [], EDT_PARAM_DEF, [], 0);
  let b = ocrEdtCreate(r, EDT_PARAM_DEF, [], EDT_PARAM_DEF, [], 0);
  let w = ocrEdtCreate(ocrEdtTemplateCreate(write, 0, 1), EDT_PARAM_DEF, [], EDT_PARAM_DEF, [], 0);
  ocrAddDependence(d, a, 0, DB_MODE_RO); ocrAddDependence(d, b, 0, DB_MODE_RO); ocrAddDependence(d, w, 0, DB_MODE_EW);
}",
    lines: &[
        Acquire(2, 1),
        Start(2),
        Block(2, 8, 1, 3),
        Template(2, 1, 0, 1, 4),
        Edt(2, 4, &[], &[], Done, 5),
        Edt(2, 4, &[], &[], Done, 6),
        Template(2, 2, 0, 1, 7),
        Edt(2, 7, &[], &[], Done, 8),
        Depends(2, 3, 5, 0, RO),
        Depends(2, 3, 6, 0, RO),
        Depends(2, 3, 8, 0, EW), // 10
        Set(8, 0, 5, 0, 3),
        Set(9, 0, 6, 0, 3),
        Set(10, 0, 8, 0, 3),
        Acquire(5, 3),
        Acquire(6, 3),
        Wait(8, 3),
        Start(5),
        Load(5, 3, 0, 0),
        Print(5, 0),
        Free(5, 3, NONE), // 20
        End(5),
        Start(6),
        Load(6, 3, 0, 0),
        Print(6, 0),
        Free(6, 3, NONE),
        End(6),
        Acquire(8, 3),
        Start(8),
        Release(8, 3, Done, &[(0, 4)]),
        End(8), // 30
        Free(2, 1, NONE),
        End(2),
    ],
    rows: &[
        // Past the queue no reader is granted.
        (15, Swapped, Some(16)),
        (15, Is(Wait(6, 3)), Some(15)),
        (18, Dropped, Some(18)),
        (18, Is(Load(5, 3, 0, 4)), Some(18)),
        (22, Is(Acquire(8, 3)), Some(22)),
        (25, Dropped, Some(25)),
        (25, Swapped, Some(25)),
        (27, Dropped, Some(27)),
        (27, Is(Wait(8, 3)), Some(27)),
        (29, Is(Release(8, 3, Done, NONE)), Some(29)),
        (29, Is(Store(8, 3, 0, 4)), Some(29)),
        (29, Doubled, Some(30)),
        (29, Dropped, Some(29)),
    ],
};

// One block in three slots, in RO, EW and NULL: it is acquired once, in EW.
const THREE: Table = Table {
    text: b"fn three { store(depv[1], 0, 5); print load(depv[0], 0); print depv[2]; }
fn mainEdt {
  let d = ocrDbCreate(8, DB_PROP_NO_ACQUIRE);
  let w = ocrEdtCreate(ocrEdtTemplateCreate(three, 0, 3), EDT_PARAM_DEF, [], EDT_PARAM_DEF, [], 0);
  ocrAddDependence(d, w, 0, DB_MODE_RO); ocrAddDependence(d, w, 1, DB_MODE_EW); ocrAddDependence(d, w, 2, DB_MODE_NULL);
}",
    lines: &[
        Acquire(2, 1),
        Start(2),
        Block(2, 8, 1, 3),
        Template(2, 1, 0, 3, 4),
        Edt(2, 4, &[], &[], Done, 5),
        Depends(2, 3, 5, 0, RO),
        Depends(2, 3, 5, 1, EW),
        Depends(2, 3, 5, 2, NULL),
        Set(7, 0, 5, 2, 3),
        Set(5, 0, 5, 0, 3),
        Set(6, 0, 5, 1, 3), // 10
        Acquire(5, 3),
        Start(5),
        Print(5, 5),
        Print(5, 3),
        Free(5, 3, &[(0, 5)]),
        End(5),
        Free(2, 1, NONE),
        End(2),
    ],
    rows: &[
        (8, Dropped, Some(10)),
        (10, Dropped, Some(10)),
        (11, Doubled, Some(12)),
        (11, Dropped, Some(11)),
        (13, Is(Store(5, 3, 0, 5)), Some(13)),
        (13, Is(Load(5, 3, 0, 5)), Some(13)),
        (13, Is(Print(5, 0)), Some(13)),
        (14, Is(Print(5, 0)), Some(14)),
        (15, Is(Free(5, 3, NONE)), Some(15)),
    ],
};

// A fault of EDT 2, which holds the block no more, and one of EDT 5, which holds it in RO; each
// store is past the end besides.
const FAULTS: Table = Table {
    text: b"fn read { store(depv[0], 9, 1); }
fn mainEdt {
  let d = ocrDbCreate(8, 0);
  let w = ocrEdtCreate(ocrEdtTemplateCreate(read, 0, 1), EDT_PARAM_DEF, [], EDT_PARAM_DEF, [], 0);
  ocrAddDependence(d, w, 0, DB_MODE_RO); ocrDbRelease(d); store(d, 9, 1);
}",
    lines: &[
        Acquire(2, 1),
        Start(2),
        Block(2, 8, 0, 3),
        Template(2, 1, 0, 1, 4),
        Edt(2, 4, &[], &[], Done, 5),
        Depends(2, 3, 5, 0, RO),
        Release(2, 3, Done, NONE),
        Set(5, 0, 5, 0, 3),
        Acquire(5, 3),
        Start(5),
    ],
    rows: &[
        (10, Ends(Line::Fault(2, Fault::NotHeld)), None),
        (10, Ends(Line::Fault(2, Fault::NotWritable)), Some(10)),
        (10, Ends(Line::Fault(2, Fault::BadIndex)), Some(10)),
        (10, Ends(Line::Fault(5, Fault::NotWritable)), None),
        (10, Ends(Line::Fault(5, Fault::NotHeld)), Some(10)),
        (10, Ends(Line::Fault(5, Fault::BadIndex)), Some(10)),
        (9, Ends(Line::Fault(5, Fault::NotWritable)), Some(9)),
        (10, Is(Store(5, 3, 9, 1)), Some(10)),
        (10, Is(Store(2, 3, 0, 1)), Some(10)),
        (10, Is(Release(2, 3, Eperm, NONE)), Some(10)),
    ],
};

#[test]
fn slots_are_replayed(rt: HostRuntime) -> Result<(), Fail> {
    for table in [NEVER, LEFT, BOTH] {
        assert_eq!(rt; wrong_in(rt.alloc(), &table)?, None);
    }
    Ok(())
}

#[test]
fn holds_are_replayed(rt: HostRuntime) -> Result<(), Fail> {
    for table in [HANDED, READERS, THREE, FAULTS] {
        assert_eq!(rt; wrong_in(rt.alloc(), &table)?, None);
    }
    Ok(())
}

const RISING: &[u8] = b"fn all { print depc; }
fn mainEdt {
  let w = ocrEdtCreate(ocrEdtTemplateCreate(all, 0, 32), EDT_PARAM_DEF, [], EDT_PARAM_DEF, [], 0); let i = 0;
  while i < 32 { ocrAddDependence(ocrDbCreate(8, DB_PROP_NO_ACQUIRE), w, i, DB_MODE_RO); i = i + 1; }
}";

const FALLING: &[u8] = b"fn all { print depc; }
fn mainEdt {
  let w = ocrEdtCreate(ocrEdtTemplateCreate(all, 0, 32), EDT_PARAM_DEF, [], EDT_PARAM_DEF, [], 0); let i = 0;
  while i < 32 { ocrAddDependence(ocrDbCreate(8, DB_PROP_NO_ACQUIRE), w, 31 - i, DB_MODE_RO); i = i + 1; }
}";

// The journal of both: the entries of block 5 + i are 4 + 2 i and 5 + 2 i, its message is delivered
// by 70 + i, and EDT 4 acquires it by 102 + i and gives it back by 136 + i.
fn plan_of(alloc: Global, is_rising: bool) -> Result<Vec<Line>, Fail> {
    let mut lines = vec![in alloc;
        Acquire(2, 1),
        Start(2),
        Template(2, 1, 0, 32, 3),
        Edt(2, 3, &[], &[], Done, 4),
    ]?;
    for i in 0..32u32 {
        let block = 5 + u64::from(i);
        lines.push(Block(2, 8, 1, block))?;
        lines.push(Depends(2, block, 4, u64::from(slot_of(is_rising, i)), RO))?;
    }
    lines.push(Free(2, 1, NONE))?;
    lines.push(End(2))?;
    for i in 0..32u32 {
        let place = 5 + 2 * u64::from(i);
        lines.push(Set(place, 0, 4, slot_of(is_rising, i), 5 + u64::from(i)))?;
    }
    for i in 0..32u64 {
        lines.push(Acquire(4, 5 + i))?;
    }
    lines.push(Start(4))?;
    lines.push(Print(4, 32))?;
    for i in 0..32u64 {
        lines.push(Free(4, 5 + i, NONE))?;
    }
    lines.push(End(4))?;
    Ok(lines)
}

fn slot_of(is_rising: bool, i: u32) -> u32 {
    if is_rising {
        i
    } else {
        31u32.saturating_sub(i)
    }
}

const PLAN_ROWS: [Row; 10] = [
    (70, Swapped, None),
    (101, Dropped, Some(101)),
    (101, Swapped, Some(101)),
    (102, Dropped, Some(102)),
    (102, Swapped, Some(102)),
    (117, Is(Acquire(4, 21)), Some(117)),
    (133, Dropped, Some(133)),
    (133, Swapped, Some(133)),
    (136, Swapped, Some(136)),
    (167, Dropped, Some(167)),
];

#[test]
fn plan_rises_in_both_orders_of_slots(rt: HostRuntime) -> Result<(), Fail> {
    let alloc = rt.alloc();
    for (text, is_rising) in [(RISING, true), (FALLING, false)] {
        let lines = plan_of(alloc, is_rising)?;
        assert_eq!(rt; lines.len(), 169);
        assert_eq!(rt; wrong_of(alloc, text, &[], &lines, &PLAN_ROWS)?, None);
    }
    Ok(())
}
