// Journals in which bodies satisfy events, latches and channels, worked out on paper.
use crate::lines::Line::{
    Acquire, Block, Channel, Depends, Destroy, Edt, End, Event, Free, Light, Load, NoBlock,
    NoDependence, NoTemplate, Print, Release, Satisfies, Set, Start, Store, Template, Unevent,
};
use crate::lines::{Line, Words};
use crate::tables::Change::{Doubled, Dropped, Ends, Is, Swapped};
use crate::tables::{Row, Table, wrong_in, wrong_of};
use ocr_guid::Code;
use ocr_guid::Code::{Done, Ebusy, Einval, Enoent, Eperm};
use std::alloc::Global;
use std::test::Fail;

const NULL: u64 = 0;

const RO: u64 = 1;

const CONST: u64 = 2;

const ONCE: u64 = 1;

const IDEM: u64 = 2;

const STICKY: u64 = 3;

const LATCH: u64 = 4;

const STALE: Code = Code::Stale;

const NONE: Words = &[];

// A ONCE event is destroyed by firing: the dependence on it is STALE, and sends nothing.
const FIRED: Table = Table {
    text: b"fn nine { print 9; }
fn mainEdt {
  let e = ocrEventCreate(OCR_EVENT_ONCE_T, 0);
  let w = ocrEdtCreate(ocrEdtTemplateCreate(nine, 0, 1), EDT_PARAM_DEF, [], EDT_PARAM_DEF, [], 0);
  print ocrEventSatisfy(e, NULL_GUID);
  print ocrAddDependence(e, w, 0, DB_MODE_NULL);
  ocrAddDependence(NULL_GUID, w, 0, DB_MODE_NULL);
}",
    lines: &[
        Acquire(2, 1),
        Start(2),
        Event(2, ONCE, 0, 3),
        Template(2, 1, 0, 1, 4),
        Edt(2, 4, &[], &[], Done, 5),
        Satisfies(2, 3, 0, 0, Done),
        Print(2, 0),
        NoDependence(2, 3, 5, 0, NULL, STALE),
        Print(2, 200),
        Depends(2, 0, 5, 0, NULL),
        Set(9, 0, 5, 0, 0), // 10
        Start(5),
        Print(5, 9),
        End(5),
        Free(2, 1, NONE),
        End(2),
    ],
    rows: &[
        (2, Dropped, Some(2)),
        (5, Is(Satisfies(2, 3, 0, 0, STALE)), Some(5)),
        (5, Is(Satisfies(2, 3, 0, 0, Eperm)), Some(5)),
        (5, Is(Satisfies(2, 3, 0, 1, Done)), Some(5)),
        (5, Doubled, Some(6)),
        (6, Is(Print(2, 200)), Some(6)),
        (7, Is(Depends(2, 3, 5, 0, NULL)), Some(7)),
        (7, Is(NoDependence(2, 3, 5, 0, NULL, Eperm)), Some(7)),
        (7, Dropped, Some(7)),
        (8, Is(Print(2, 0)), Some(8)),
        (9, Swapped, Some(9)),
        (10, Is(Set(5, 0, 5, 0, 0)), Some(10)),
        (10, Is(Set(7, 0, 5, 0, 0)), Some(10)),
        (10, Dropped, Some(10)),
        (10, Doubled, Some(11)),
        (10, Ends(Light), None),
        (16, Ends(Light), Some(16)),
    ],
};

// Each latch fires where its two counts are even, and is destroyed by it; the second one has a
// target.
const LATCHES: Table = Table {
    text: b"fn seven { print 7; }
fn mainEdt {
  let a = ocrEventCreate(OCR_EVENT_LATCH_T, 0);
  print ocrEventSatisfySlot(a, 0, 1); print ocrEventSatisfySlot(a, 0, 1);
  print ocrEventSatisfySlot(a, 0, 0); print ocrEventSatisfySlot(a, 0, 0);
  print ocrEventSatisfySlot(a, 0, 1);
  let b = ocrEventCreate(OCR_EVENT_LATCH_T, 0);
  let w = ocrEdtCreate(ocrEdtTemplateCreate(seven, 0, 2), EDT_PARAM_DEF, [], EDT_PARAM_DEF, [], 0);
  ocrAddDependence(b, w, 0, DB_MODE_NULL);
  print ocrEventSatisfySlot(b, 0, 0); print ocrEventSatisfySlot(b, 0, 1);
  print ocrEventSatisfySlot(b, 0, 1);
  ocrAddDependence(NULL_GUID, w, 1, DB_MODE_NULL);
}",
    lines: &[
        Acquire(2, 1),
        Start(2),
        Event(2, LATCH, 0, 3),
        Satisfies(2, 3, 0, 1, Done),
        Print(2, 0),
        Satisfies(2, 3, 0, 1, Done),
        Print(2, 0),
        Satisfies(2, 3, 0, 0, Done),
        Print(2, 0),
        Satisfies(2, 3, 0, 0, Done),
        Print(2, 0), // 10
        Satisfies(2, 3, 0, 1, STALE),
        Print(2, 200),
        Event(2, LATCH, 0, 4),
        Template(2, 1, 0, 2, 5),
        Edt(2, 5, &[], &[], Done, 6),
        Depends(2, 4, 6, 0, NULL),
        Satisfies(2, 4, 0, 0, Done),
        Print(2, 0),
        Satisfies(2, 4, 0, 1, Done),
        Print(2, 0), // 20
        Satisfies(2, 4, 0, 1, STALE),
        Print(2, 200),
        Depends(2, 0, 6, 1, NULL),
        Set(19, 0, 6, 0, 0),
        Set(23, 0, 6, 1, 0),
        Start(6),
        Print(6, 7),
        End(6),
        Free(2, 1, NONE),
        End(2), // 30
    ],
    rows: &[
        (3, Is(Satisfies(2, 3, 0, 1, Einval)), Some(3)),
        (7, Is(Satisfies(2, 3, 0, 0, STALE)), Some(7)),
        (7, Dropped, Some(7)),
        (9, Is(Satisfies(2, 3, 0, 0, STALE)), Some(9)),
        (9, Is(Satisfies(2, 3, 0, 1, Done)), Some(9)),
        (11, Is(Satisfies(2, 3, 0, 1, Done)), Some(11)),
        (11, Dropped, Some(11)),
        (19, Is(Satisfies(2, 4, 0, 0, Done)), Some(19)),
        (21, Is(Satisfies(2, 4, 0, 1, Done)), Some(21)),
        // The first satisfaction sent nothing, and the second one message.
        (24, Is(Set(17, 0, 6, 0, 0)), Some(24)),
        (24, Is(Set(19, 1, 6, 0, 0)), Some(24)),
        (24, Is(Set(19, 0, 6, 1, 0)), Some(24)),
        (24, Is(Set(21, 0, 6, 0, 0)), Some(24)),
        (24, Swapped, None),
        (24, Dropped, Some(25)),
        (24, Doubled, Some(25)),
        (24, Ends(Light), None),
        (31, Ends(Light), Some(31)),
    ],
};

// A channel keeps two payloads and refuses a third; the first slot that is linked gets the first.
const KEPT: Table = Table {
    text: b"fn two { print load(depv[0], 0); print load(depv[1], 0); }
fn mainEdt {
  let c = ocrEventCreateParams(OCR_EVENT_CHANNEL_T, EVT_PROP_TAKES_ARG, 2, 1, 1);
  let a = ocrDbCreate(8, 0); store(a, 0, 11); ocrDbRelease(a);
  let b = ocrDbCreate(8, 0); store(b, 0, 12); ocrDbRelease(b);
  print ocrEventSatisfy(c, a); print ocrEventSatisfy(c, b); print ocrEventSatisfy(c, a);
  let w = ocrEdtCreate(ocrEdtTemplateCreate(two, 0, 2), EDT_PARAM_DEF, [], EDT_PARAM_DEF, [], 0);
  ocrAddDependence(c, w, 0, DB_MODE_RO); ocrAddDependence(c, w, 1, DB_MODE_RO);
}",
    lines: &[
        Acquire(2, 1),
        Start(2),
        Channel(2, 1, 2, 3),
        Block(2, 8, 0, 4),
        Store(2, 4, 0, 11),
        Release(2, 4, Done, NONE),
        Block(2, 8, 0, 5),
        Store(2, 5, 0, 12),
        Release(2, 5, Done, NONE),
        Satisfies(2, 3, 4, 0, Done),
        Print(2, 0), // 10
        Satisfies(2, 3, 5, 0, Done),
        Print(2, 0),
        Satisfies(2, 3, 4, 0, Ebusy),
        Print(2, 16),
        Template(2, 1, 0, 2, 6),
        Edt(2, 6, &[], &[], Done, 7),
        Depends(2, 3, 7, 0, RO),
        Depends(2, 3, 7, 1, RO),
        Set(18, 0, 7, 1, 5),
        Set(17, 0, 7, 0, 4), // 20
        Acquire(7, 4),
        Acquire(7, 5),
        Start(7),
        Load(7, 4, 0, 11),
        Print(7, 11),
        Load(7, 5, 0, 12),
        Print(7, 12),
        Free(7, 4, NONE),
        Free(7, 5, NONE),
        End(7), // 30
        Free(2, 1, NONE),
        End(2),
    ],
    rows: &[
        (2, Is(Channel(2, 1, 3, 3)), Some(2)),
        (11, Is(Satisfies(2, 3, 5, 0, Ebusy)), Some(11)),
        (13, Is(Satisfies(2, 3, 4, 0, Done)), Some(13)),
        (13, Dropped, Some(13)),
        (17, Is(Depends(2, 3, 7, 0, CONST)), Some(17)),
        (19, Is(Set(9, 0, 7, 0, 4)), Some(19)),
        (19, Is(Set(18, 0, 7, 1, 4)), Some(19)),
        (19, Swapped, None),
        (19, Dropped, Some(20)),
        (20, Is(Set(17, 0, 7, 0, 5)), Some(20)),
        (21, Dropped, Some(21)),
        (24, Is(Load(7, 4, 0, 12)), Some(24)),
        (33, Ends(Light), Some(33)),
    ],
};

// The codes of calls that are refused, and of one that is not.
const CODES: Table = Table {
    text: b"fn mainEdt {
  print ocrDbCreate(12, 0); print code; print ocrDbCreate(524296, 0); print code;
  print ocrEventSatisfy(99, 0); print ocrEventSatisfy(1, 0);
  print ocrDbRelease(1); print ocrDbRelease(1);
  print ocrEdtTemplateCreate(mainEdt, 0, 33); print code;
}",
    lines: &[
        Acquire(2, 1),
        Start(2),
        NoBlock(2, 12, 0, Einval),
        Print(2, 0),
        Print(2, 22),
        NoBlock(2, 524296, 0, Einval),
        Print(2, 0),
        Print(2, 22),
        Satisfies(2, 99, 0, 0, Enoent),
        Print(2, 2),
        Satisfies(2, 1, 0, 0, Einval), // 10
        Print(2, 22),
        Release(2, 1, Done, NONE),
        Print(2, 0),
        Release(2, 1, Eperm, NONE),
        Print(2, 1),
        NoTemplate(2, 1, 0, 33, Einval),
        Print(2, 0),
        Print(2, 22),
        End(2),
    ],
    rows: &[
        (2, Is(Block(2, 12, 0, 3)), Some(2)),
        (2, Is(NoBlock(2, 12, 0, Enoent)), Some(2)),
        (4, Is(Print(2, 0)), Some(4)),
        (8, Is(Satisfies(2, 99, 0, 0, Done)), Some(8)),
        (8, Is(Satisfies(2, 99, 0, 0, Einval)), Some(8)),
        (9, Is(Print(2, 22)), Some(9)),
        (10, Is(Satisfies(2, 1, 0, 0, Done)), Some(10)),
        (10, Is(Satisfies(2, 1, 0, 0, Enoent)), Some(10)),
        (14, Is(Release(2, 1, Done, NONE)), Some(14)),
        (16, Is(Template(2, 1, 0, 33, 3)), Some(16)),
        (16, Is(NoTemplate(2, 1, 0, 33, Enoent)), Some(16)),
        (19, Is(Free(2, 1, NONE)), Some(19)),
    ],
};

// The destroyed event's target gets nothing, whatever comes: EDT 5 is left.
const FORGOTTEN: Table = Table {
    text: b"fn never { print 1; }
fn mainEdt {
  let e = ocrEventCreate(OCR_EVENT_STICKY_T, 0);
  ocrEdtCreate(ocrEdtTemplateCreate(never, 0, 1), EDT_PARAM_DEF, [], EDT_PARAM_DEF, [e], 0);
  ocrEventDestroy(e); ocrEventSatisfy(e, NULL_GUID); ocrEventDestroy(e);
}",
    lines: &[
        Acquire(2, 1),
        Start(2),
        Event(2, STICKY, 0, 3),
        Template(2, 1, 0, 1, 4),
        Edt(2, 4, &[], &[3], Done, 5),
        Unevent(2, 3, Done),
        Satisfies(2, 3, 0, 0, STALE),
        Unevent(2, 3, STALE),
        Free(2, 1, NONE),
        End(2),
    ],
    rows: &[
        (4, Is(Edt(2, 4, &[], &[0], Done, 5)), Some(4)),
        (5, Is(Unevent(2, 3, STALE)), Some(5)),
        (5, Dropped, Some(5)),
        (6, Is(Satisfies(2, 3, 0, 0, Done)), Some(6)),
        (7, Is(Unevent(2, 3, Done)), Some(7)),
        (10, Is(Set(4, 0, 5, 0, 0)), Some(10)),
        (10, Is(Set(6, 0, 5, 0, 0)), Some(10)),
        (10, Is(Start(5)), Some(10)),
        (10, Ends(Light), Some(10)),
    ],
};

// The holder of a block lets EDT 6 destroy it by an event, and reads on.
const HOLDER: Table = Table {
    text: b"fn hold { ocrEventSatisfy(paramv[0], NULL_GUID); print load(depv[0], 0); }
fn kill { ocrDbDestroy(paramv[0]); }
fn mainEdt {
  let d = ocrDbCreate(8, 0); store(d, 0, 7); ocrDbRelease(d);
  let e = ocrEventCreate(OCR_EVENT_STICKY_T, 0);
  ocrEdtCreate(ocrEdtTemplateCreate(kill, 1, 1), EDT_PARAM_DEF, [d], EDT_PARAM_DEF, [e], 0);
  ocrEdtCreate(ocrEdtTemplateCreate(hold, 1, 1), EDT_PARAM_DEF, [e], EDT_PARAM_DEF, [d], 0);
}",
    lines: &[
        Acquire(2, 1),
        Start(2),
        Block(2, 8, 0, 3),
        Store(2, 3, 0, 7),
        Release(2, 3, Done, NONE),
        Event(2, STICKY, 0, 4),
        Template(2, 2, 1, 1, 5),
        Edt(2, 5, &[3], &[4], Done, 6),
        Template(2, 1, 1, 1, 7),
        Edt(2, 7, &[4], &[3], Done, 8),
        Set(9, 0, 8, 0, 3), // 10
        Acquire(8, 3),
        Start(8),
        Satisfies(8, 4, 0, 0, Done),
        Set(13, 0, 6, 0, 0),
        Start(6),
        Destroy(6, 3, Done, NONE),
        End(6),
        Load(8, 3, 0, 7),
        Print(8, 7),
        Free(8, 3, NONE), // 20
        End(8),
        Free(2, 1, NONE),
        End(2),
    ],
    rows: &[
        (7, Is(Edt(2, 5, &[3], &[0], Done, 6)), Some(7)),
        // The creation sends nothing for an event that has not fired.
        (10, Is(Set(7, 0, 6, 0, 0)), Some(10)),
        (10, Is(Set(7, 0, 6, 0, 4)), Some(10)),
        (13, Is(Satisfies(8, 4, 0, 0, Eperm)), Some(13)),
        (13, Dropped, Some(13)),
        (13, Swapped, Some(13)),
        (14, Is(Set(13, 0, 6, 0, 3)), Some(14)),
        (14, Dropped, Some(14)),
        (16, Is(Destroy(6, 3, STALE, NONE)), Some(16)),
        (17, Swapped, None),
        (18, Is(Load(8, 3, 0, 0)), Some(18)),
        (20, Dropped, Some(20)),
        (24, Ends(Light), Some(24)),
    ],
};

#[test]
fn satisfactions_are_replayed(rt: HostRuntime) -> Result<(), Fail> {
    for table in [FIRED, LATCHES, KEPT] {
        assert_eq!(rt; wrong_in(rt.alloc(), &table)?, None);
    }
    Ok(())
}

#[test]
fn refusals_and_destroyed_events_are_replayed(rt: HostRuntime) -> Result<(), Fail> {
    for table in [CODES, FORGOTTEN, HOLDER] {
        assert_eq!(rt; wrong_in(rt.alloc(), &table)?, None);
    }
    Ok(())
}

// Two EDTs wait for an event of the kind that the argument says; its first satisfaction brings them
// block 1, and the second one nothing.
const TWO: &[u8] = b"fn one { print depv[0]; }
fn mainEdt {
  let e = ocrEventCreate(load(depv[0], 1), EVT_PROP_TAKES_ARG);
  let t = ocrEdtTemplateCreate(one, 0, 1);
  let a = ocrEdtCreate(t, EDT_PARAM_DEF, [], EDT_PARAM_DEF, [], 0);
  let b = ocrEdtCreate(t, EDT_PARAM_DEF, [], EDT_PARAM_DEF, [], 0);
  ocrAddDependence(e, a, 0, DB_MODE_NULL); ocrAddDependence(e, b, 0, DB_MODE_NULL);
  print ocrEventSatisfy(e, depv[0]); print ocrEventSatisfy(e, NULL_GUID);
}";

// Its journal for a kind whose second satisfaction has this code.
fn fired_by(alloc: Global, kind: u64, code: Code) -> Result<Vec<Line>, Fail> {
    Ok(vec![in alloc;
        Acquire(2, 1),
        Start(2),
        Load(2, 1, 1, kind),
        Event(2, kind, 1, 3),
        Template(2, 1, 0, 1, 4),
        Edt(2, 4, &[], &[], Done, 5),
        Edt(2, 4, &[], &[], Done, 6),
        Depends(2, 3, 5, 0, NULL),
        Depends(2, 3, 6, 0, NULL),
        Satisfies(2, 3, 1, 0, Done),
        Print(2, 0), // 10
        Satisfies(2, 3, 0, 0, code),
        Print(2, code.number()),
        Set(9, 1, 6, 0, 1),
        Set(9, 0, 5, 0, 1),
        Start(6),
        Print(6, 1),
        End(6),
        Start(5),
        Print(5, 1),
        End(5), // 20
        Free(2, 1, NONE),
        End(2),
    ]?)
}

const TWO_ROWS: [Row; 15] = [
    (7, Swapped, Some(7)),
    (8, Dropped, Some(8)),
    (9, Is(Satisfies(2, 3, 1, 0, Einval)), Some(9)),
    (11, Is(Satisfies(2, 3, 0, 0, Einval)), Some(11)),
    (11, Is(Satisfies(2, 3, 0, 0, Ebusy)), Some(11)),
    (13, Is(Set(9, 0, 6, 0, 1)), Some(13)),
    (13, Is(Set(9, 1, 5, 0, 1)), Some(13)),
    (13, Is(Set(9, 2, 6, 0, 1)), Some(13)),
    (13, Is(Set(9, 1, 6, 0, 0)), Some(13)),
    (13, Is(Set(11, 1, 6, 0, 0)), Some(13)),
    (13, Swapped, None),
    (13, Dropped, Some(14)),
    (13, Doubled, Some(14)),
    (14, Dropped, Some(17)),
    (23, Ends(Light), Some(23)),
];

// The second satisfaction has this code in place of its own.
fn second_code(code: Code, other: Code) -> Row {
    let illegal = if other == code { None } else { Some(11) };
    (11, Is(Satisfies(2, 3, 0, 0, other)), illegal)
}

#[test]
fn kinds_of_events_are_replayed(rt: HostRuntime) -> Result<(), Fail> {
    let alloc = rt.alloc();
    for (kind, code) in [(ONCE, STALE), (IDEM, Done), (STICKY, Eperm)] {
        let lines = fired_by(alloc, kind, code)?;
        assert_eq!(rt; wrong_of(alloc, TWO, &[kind], &lines, &TWO_ROWS)?, None);
        for other in [STALE, Done, Eperm] {
            let row = [second_code(code, other)];
            assert_eq!(rt; wrong_of(alloc, TWO, &[kind], &lines, &row)?, None);
        }
    }
    Ok(())
}
