// Journals in which events reach events, and stand in dependence lists, worked out on paper.
use crate::lines::Line::{
    Acquire, Block, Channel, Depends, Edt, End, Event, Free, Light, NoDependence, Print, Satisfies,
    Satisfy, Set, Start, Template, Unevent, Wait,
};
use crate::lines::{Line, Words};
use crate::tables::Change::{Doubled, Dropped, Ends, Is, Swapped};
use crate::tables::{Row, Table, wrong_in, wrong_of};
use ocr_guid::Code;
use ocr_guid::Code::{Done, Ebusy, Einval, Eperm};
use std::alloc::Global;
use std::test::Fail;

const NULL: u64 = 0;

const ONCE: u64 = 1;

const IDEM: u64 = 2;

const STICKY: u64 = 3;

const LATCH: u64 = 4;

const STALE: Code = Code::Stale;

const NONE: Words = &[];

// A STICKY event that has fired refuses the message of a ONCE event, after all bodies have ended.
const REFUSED: Table = Table {
    text: b"fn mainEdt {
  let s = ocrEventCreate(OCR_EVENT_STICKY_T, 0); let e = ocrEventCreate(OCR_EVENT_ONCE_T, 0);
  ocrEventSatisfy(s, 0); ocrAddDependence(e, s, 0, 0); ocrEventSatisfy(e, 0);
}",
    lines: &[
        Acquire(2, 1),
        Start(2),
        Event(2, STICKY, 0, 3),
        Event(2, ONCE, 0, 4),
        Satisfies(2, 3, 0, 0, Done),
        Depends(2, 4, 3, 0, NULL),
        Satisfies(2, 4, 0, 0, Done),
        Free(2, 1, NONE),
        End(2),
        Satisfy(6, 0, 3, 0, 0, Eperm),
    ],
    rows: &[
        (4, Dropped, Some(4)),
        (5, Is(NoDependence(2, 4, 3, 0, NULL, Eperm)), Some(5)),
        (6, Dropped, Some(6)),
        (8, Swapped, None),
        (9, Dropped, None),
        (9, Doubled, Some(10)),
        (9, Is(Satisfy(6, 0, 3, 0, 0, Done)), Some(9)),
        (9, Is(Satisfy(6, 0, 3, 0, 0, STALE)), Some(9)),
        (9, Is(Satisfy(6, 0, 3, 1, 0, Eperm)), Some(9)),
        (9, Is(Satisfy(6, 0, 4, 0, 0, STALE)), Some(9)),
        (9, Is(Satisfy(6, 1, 3, 0, 0, Eperm)), Some(9)),
        (9, Is(Satisfy(4, 0, 3, 0, 0, Eperm)), Some(9)),
        (9, Is(Set(6, 0, 3, 0, 0)), Some(9)),
        // Before the delivery the journal is not quiet.
        (9, Ends(Light), None),
        (10, Ends(Light), Some(10)),
    ],
};

// Event 3 reaches events 4, 5 and 6 with block 1: the first one fires, and refuses the NULL_GUID
// that comes after it; the second one is destroyed by then; the third one takes no block.
const REACHED: Table = Table {
    text: b"fn last { print depv[0]; }
fn mainEdt {
  let a = ocrEventCreate(OCR_EVENT_ONCE_T, 1); let b = ocrEventCreate(OCR_EVENT_STICKY_T, 1);
  let c = ocrEventCreate(OCR_EVENT_IDEM_T, 1); let d = ocrEventCreate(OCR_EVENT_IDEM_T, 0);
  let w = ocrEdtCreate(ocrEdtTemplateCreate(last, 0, 1), EDT_PARAM_DEF, [], EDT_PARAM_DEF, [], 0);
  ocrAddDependence(a, b, 0, 0); ocrAddDependence(a, c, 0, 0); ocrAddDependence(a, d, 0, 0);
  ocrAddDependence(b, w, 0, DB_MODE_NULL); ocrAddDependence(NULL_GUID, b, 0, 0);
  ocrEventSatisfy(a, depv[0]);
  ocrEventDestroy(c);
}",
    lines: &[
        Acquire(2, 1),
        Start(2),
        Event(2, ONCE, 1, 3),
        Event(2, STICKY, 1, 4),
        Event(2, IDEM, 1, 5),
        Event(2, IDEM, 0, 6),
        Template(2, 1, 0, 1, 7),
        Edt(2, 7, &[], &[], Done, 8),
        Depends(2, 3, 4, 0, NULL),
        Depends(2, 3, 5, 0, NULL),
        Depends(2, 3, 6, 0, NULL), // 10
        Depends(2, 4, 8, 0, NULL),
        Depends(2, 0, 4, 0, NULL),
        Satisfies(2, 3, 1, 0, Done),
        Satisfy(13, 0, 4, 0, 1, Done),
        Satisfy(12, 0, 4, 0, 0, Eperm),
        Unevent(2, 5, Done),
        Satisfy(13, 1, 5, 0, 1, STALE),
        Satisfy(13, 2, 6, 0, 1, Einval),
        Set(14, 0, 8, 0, 1),
        Start(8), // 20
        Print(8, 1),
        End(8),
        Free(2, 1, NONE),
        End(2),
    ],
    rows: &[
        (12, Is(NoDependence(2, 0, 4, 0, NULL, Einval)), Some(12)),
        (14, Is(Satisfy(13, 0, 4, 0, 1, Eperm)), Some(14)),
        (14, Is(Satisfy(13, 1, 4, 0, 1, Done)), Some(14)),
        (14, Is(Satisfy(13, 0, 4, 1, 1, Done)), Some(14)),
        (14, Is(Satisfy(13, 0, 4, 0, 0, Done)), Some(14)),
        (14, Is(Set(13, 0, 8, 0, 1)), Some(14)),
        (14, Doubled, Some(15)),
        // Whichever comes first fires the event.
        (14, Swapped, Some(14)),
        (14, Dropped, Some(14)),
        (15, Is(Satisfy(12, 0, 4, 0, 0, Done)), Some(15)),
        (16, Swapped, Some(16)),
        (17, Is(Satisfy(13, 1, 5, 0, 1, Done)), Some(17)),
        (17, Is(Satisfy(13, 1, 5, 0, 1, Eperm)), Some(17)),
        (17, Swapped, None),
        (18, Is(Satisfy(13, 2, 6, 0, 1, Done)), Some(18)),
        (18, Dropped, None),
        (19, Is(Set(13, 0, 8, 0, 1)), Some(19)),
        (19, Is(Set(14, 0, 8, 0, 0)), Some(19)),
        (19, Is(Set(15, 0, 8, 0, 0)), Some(19)),
        (19, Dropped, Some(19)),
        (25, Ends(Light), Some(25)),
    ],
};

// A message counts a latch up, and another one counts it down: the second of the two fires it, and
// it drops the block that it got.
const COUNTED: Table = Table {
    text: b"fn last { print depv[0]; }
fn mainEdt {
  let e = ocrEventCreate(OCR_EVENT_STICKY_T, 1); let l = ocrEventCreate(OCR_EVENT_LATCH_T, 1);
  let w = ocrEdtCreate(ocrEdtTemplateCreate(last, 0, 1), EDT_PARAM_DEF, [], EDT_PARAM_DEF, [], 0);
  ocrAddDependence(l, w, 0, DB_MODE_NULL);
  ocrAddDependence(e, l, 1, 0); ocrAddDependence(NULL_GUID, l, 0, 0);
  ocrEventSatisfy(e, depv[0]);
}",
    lines: &[
        Acquire(2, 1),
        Start(2),
        Event(2, STICKY, 1, 3),
        Event(2, LATCH, 1, 4),
        Template(2, 1, 0, 1, 5),
        Edt(2, 5, &[], &[], Done, 6),
        Depends(2, 4, 6, 0, NULL),
        Depends(2, 3, 4, 1, NULL),
        Depends(2, 0, 4, 0, NULL),
        Satisfies(2, 3, 1, 0, Done),
        Satisfy(8, 0, 4, 0, 0, Done), // 10
        Satisfy(9, 0, 4, 1, 1, Done),
        Set(11, 0, 6, 0, 0),
        Start(6),
        Print(6, 0),
        End(6),
        Free(2, 1, NONE),
        End(2),
    ],
    rows: &[
        (7, Is(NoDependence(2, 3, 4, 1, NULL, Einval)), Some(7)),
        // Messages have the place of their entry in their names.
        (9, Swapped, Some(11)),
        (10, Swapped, None),
        (10, Is(Satisfy(8, 0, 4, 1, 0, Done)), Some(10)),
        (10, Dropped, Some(11)),
        (11, Is(Satisfy(9, 0, 4, 0, 1, Done)), Some(11)),
        (11, Is(Satisfy(9, 0, 4, 1, 0, Done)), Some(11)),
        (11, Is(Satisfy(9, 0, 4, 1, 1, STALE)), Some(11)),
        (11, Doubled, Some(12)),
        (11, Dropped, Some(11)),
        (12, Is(Set(11, 0, 6, 0, 1)), Some(12)),
        (12, Is(Set(10, 0, 6, 0, 0)), Some(12)),
        (18, Ends(Light), Some(18)),
    ],
};

// A channel keeps one: whichever message comes second is refused.
const BUSY: Table = Table {
    text: b"fn mainEdt {
  let c = ocrEventCreateParams(OCR_EVENT_CHANNEL_T, 0, 1, 1, 1);
  ocrAddDependence(NULL_GUID, c, 0, 0); ocrAddDependence(NULL_GUID, c, 0, 0);
}",
    lines: &[
        Acquire(2, 1),
        Start(2),
        Channel(2, 0, 1, 3),
        Depends(2, 0, 3, 0, NULL),
        Depends(2, 0, 3, 0, NULL),
        Satisfy(4, 0, 3, 0, 0, Done),
        Satisfy(3, 0, 3, 0, 0, Ebusy),
        Free(2, 1, NONE),
        End(2),
    ],
    rows: &[
        (5, Swapped, Some(5)),
        (5, Is(Satisfy(3, 0, 3, 0, 0, Done)), Some(6)),
        (5, Is(Satisfy(4, 0, 3, 1, 0, Done)), Some(5)),
        (6, Is(Satisfy(3, 0, 3, 0, 0, Done)), Some(6)),
        (6, Is(Satisfy(3, 0, 3, 0, 0, Eperm)), Some(6)),
        (6, Dropped, None),
        (9, Ends(Light), Some(9)),
    ],
};

// A channel that keeps block 4 stands twice in a dependence list: slot 0 gets the block at once,
// slot 1 its NULL_GUID, and slot 2 what comes next.
const NAMED_TWICE: Table = Table {
    text: b"fn three { print depv[0]; print depv[2]; }
fn mainEdt {
  let c = ocrEventCreateParams(OCR_EVENT_CHANNEL_T, EVT_PROP_TAKES_ARG, 2, 1, 1);
  let d = ocrDbCreate(8, DB_PROP_NO_ACQUIRE); let t = ocrEdtTemplateCreate(three, 0, 3);
  ocrEventSatisfy(c, d);
  ocrEdtCreate(t, EDT_PARAM_DEF, [], EDT_PARAM_DEF, [c, NULL_GUID, c], 0);
  ocrEventSatisfy(c, NULL_GUID);
}",
    lines: &[
        Acquire(2, 1),
        Start(2),
        Channel(2, 1, 2, 3),
        Block(2, 8, 1, 4),
        Template(2, 1, 0, 3, 5),
        Satisfies(2, 3, 4, 0, Done),
        Edt(2, 5, &[], &[3, 0, 3], Done, 6),
        Satisfies(2, 3, 0, 0, Done),
        Set(7, 0, 6, 2, 0),
        Set(6, 1, 6, 1, 0),
        Set(6, 0, 6, 0, 4), // 10
        Acquire(6, 4),
        Start(6),
        Print(6, 4),
        Print(6, 0),
        Free(6, 4, NONE),
        End(6),
        Free(2, 1, NONE),
        End(2),
    ],
    rows: &[
        (6, Is(Edt(2, 5, &[], &[3, 0, 0], Done, 6)), Some(6)),
        (6, Is(Edt(2, 5, &[], &[3, 0, 3], Einval, 0)), Some(6)),
        (7, Swapped, Some(7)),
        (8, Is(Set(6, 2, 6, 2, 0)), Some(8)),
        (8, Is(Set(7, 0, 6, 2, 4)), Some(8)),
        (8, Is(Set(7, 0, 6, 0, 0)), Some(8)),
        (8, Swapped, None),
        (8, Dropped, Some(10)),
        (9, Is(Set(6, 1, 6, 0, 0)), Some(9)),
        (10, Is(Set(6, 0, 6, 2, 4)), Some(10)),
        (10, Is(Set(5, 0, 6, 0, 4)), Some(10)),
        (10, Is(Set(6, 0, 6, 0, 0)), Some(10)),
        (11, Is(Wait(6, 4)), Some(11)),
        (14, Is(Print(6, 4)), Some(14)),
        (19, Ends(Light), Some(19)),
    ],
};

// Fired events in dependence lists: the STICKY one sends its block at once, and the ONCE one is
// destroyed.
const FIRED: Table = Table {
    text: b"fn one { print depv[0]; }
fn mainEdt {
  let s = ocrEventCreate(OCR_EVENT_STICKY_T, 1); let o = ocrEventCreate(OCR_EVENT_ONCE_T, 0);
  let t = ocrEdtTemplateCreate(one, 0, 1);
  ocrEventSatisfy(s, depv[0]); ocrEventSatisfy(o, NULL_GUID);
  ocrEdtCreate(t, EDT_PARAM_DEF, [], EDT_PARAM_DEF, [s], 0);
  print ocrEdtCreate(t, EDT_PARAM_DEF, [], EDT_PARAM_DEF, [o], 0); print code;
}",
    lines: &[
        Acquire(2, 1),
        Start(2),
        Event(2, STICKY, 1, 3),
        Event(2, ONCE, 0, 4),
        Template(2, 1, 0, 1, 5),
        Satisfies(2, 3, 1, 0, Done),
        Satisfies(2, 4, 0, 0, Done),
        Edt(2, 5, &[], &[3], Done, 6),
        Edt(2, 5, &[], &[4], STALE, 0),
        Print(2, 0),
        Print(2, 200), // 10
        Set(7, 0, 6, 0, 1),
        Acquire(6, 1),
        Start(6),
        Print(6, 1),
        Free(6, 1, NONE),
        End(6),
        Free(2, 1, NONE),
        End(2),
    ],
    rows: &[
        (5, Dropped, Some(5)),
        (7, Is(Edt(2, 5, &[], &[3], STALE, 0)), Some(7)),
        (7, Swapped, Some(7)),
        (8, Is(Edt(2, 5, &[], &[4], Done, 7)), Some(8)),
        (8, Is(Edt(2, 5, &[], &[4], Einval, 0)), Some(8)),
        (10, Is(Print(2, 22)), Some(10)),
        (11, Is(Set(5, 0, 6, 0, 1)), Some(11)),
        (11, Is(Set(7, 0, 6, 0, 0)), Some(11)),
        (11, Is(Set(7, 0, 6, 0, 3)), Some(11)),
        (11, Dropped, Some(11)),
        (12, Is(Wait(6, 1)), Some(12)),
        (12, Dropped, Some(12)),
        (14, Is(Print(6, 0)), Some(14)),
        (19, Ends(Light), Some(19)),
    ],
};

#[test]
fn messages_to_events_are_replayed(rt: HostRuntime) -> Result<(), Fail> {
    for table in [REFUSED, REACHED, COUNTED, BUSY] {
        assert_eq!(rt; wrong_in(rt.alloc(), &table)?, None);
    }
    Ok(())
}

#[test]
fn events_in_dependence_lists_are_replayed(rt: HostRuntime) -> Result<(), Fail> {
    for table in [NAMED_TWICE, FIRED] {
        assert_eq!(rt; wrong_in(rt.alloc(), &table)?, None);
    }
    Ok(())
}

// EDT 5 has 32 slots: all but the last are set to NULL_GUID, and EDT 7 sets that one by an event.
const WIDE: &[u8] = b"fn zero { print depc; ocrEventSatisfy(paramv[0], NULL_GUID); }
fn wide { print depc; }
fn mainEdt {
  let e = ocrEventCreate(OCR_EVENT_STICKY_T, 0);
  let w = ocrEdtCreate(ocrEdtTemplateCreate(wide, 0, 32), EDT_PARAM_DEF, [], EDT_PARAM_DEF, [], 0);
  let i = 0;
  while i < 31 { ocrAddDependence(NULL_GUID, w, i, DB_MODE_NULL); i = i + 1; }
  ocrAddDependence(e, w, 31, DB_MODE_NULL);
  ocrEdtCreate(ocrEdtTemplateCreate(zero, 1, 0), EDT_PARAM_DEF, [e], EDT_PARAM_DEF, [], 0);
}";

// Its journal: the dependence of slot i is 5 + i, and its message is delivered by 45 + i.
fn wide_lines(alloc: Global) -> Result<Vec<Line>, Fail> {
    let mut lines = vec![in alloc;
        Acquire(2, 1),
        Start(2),
        Event(2, STICKY, 0, 3),
        Template(2, 2, 0, 32, 4),
        Edt(2, 4, &[], &[], Done, 5),
    ]?;
    for i in 0..31u64 {
        lines.push(Depends(2, 0, 5, i, NULL))?;
    }
    lines.push(Depends(2, 3, 5, 31, NULL))?;
    lines.push(Template(2, 1, 1, 0, 6))?;
    lines.push(Edt(2, 6, &[3], &[], Done, 7))?;
    lines.push(Free(2, 1, NONE))?;
    lines.push(End(2))?;
    lines.push(Start(7))?;
    lines.push(Print(7, 0))?;
    lines.push(Satisfies(7, 3, 0, 0, Done))?;
    lines.push(End(7))?;
    for i in 0..31u32 {
        lines.push(Set(5 + u64::from(i), 0, 5, i, 0))?;
    }
    lines.push(Set(43, 0, 5, 31, 0))?;
    lines.push(Start(5))?;
    lines.push(Print(5, 32))?;
    lines.push(End(5))?;
    Ok(lines)
}

const WIDE_ROWS: [Row; 15] = [
    (36, Is(Depends(2, 3, 5, 30, NULL)), Some(36)),
    (36, Dropped, Some(36)),
    (41, Swapped, Some(41)),
    (42, Is(Print(7, 1)), Some(42)),
    (43, Is(Satisfies(7, 3, 0, 0, Eperm)), Some(43)),
    (43, Dropped, Some(43)),
    (60, Dropped, Some(76)),
    (60, Is(Set(20, 0, 5, 16, 0)), Some(60)),
    (75, Swapped, None),
    (76, Is(Set(43, 0, 5, 30, 0)), Some(76)),
    (76, Dropped, Some(76)),
    (76, Swapped, Some(76)),
    (76, Doubled, Some(77)),
    (76, Ends(Light), None),
    (80, Ends(Light), Some(80)),
];

#[test]
fn event_sets_the_last_of_32_slots(rt: HostRuntime) -> Result<(), Fail> {
    let lines = wide_lines(rt.alloc())?;
    assert_eq!(rt; lines.len(), 80);
    assert_eq!(rt; wrong_of(rt.alloc(), WIDE, &[], &lines, &WIDE_ROWS)?, None);
    Ok(())
}
