// A journal of Fibonacci's number 2, worked out on paper: EDT 8 makes two smaller ones, and events
// bring their blocks to EDT 11, and its own to EDT 5.
use crate::lines::Line::{
    Acquire, Block, Depends, Edt, End, Event, Free, Light, Load, Print, Release, Satisfies, Set,
    Shutdown, Start, Store, Template,
};
use crate::lines::{Line, Words};
use crate::tables::Change::{Doubled, Dropped, Ends, Is, Swapped};
use crate::tables::{Row, wrong_of};
use ocr_guid::Code::{Done, Einval};
use std::test::Fail;

const CONST: u64 = 2;

const STICKY: u64 = 3;

const NONE: Words = &[];

const FIBONACCI: &[u8] = b"fn give {
  let d = ocrDbCreate(8, 0); store(d, 0, load(depv[0], 0) + load(depv[1], 0));
  ocrDbRelease(d); ocrEventSatisfy(paramv[0], d);
}
fn fib {
  if paramv[0] < 2 {
    let d = ocrDbCreate(8, 0);
    store(d, 0, paramv[0]);
    ocrDbRelease(d);
    ocrEventSatisfy(paramv[1], d);
    return NULL_GUID;
  }
  let a = ocrEventCreate(OCR_EVENT_STICKY_T, EVT_PROP_TAKES_ARG);
  let b = ocrEventCreate(OCR_EVENT_STICKY_T, EVT_PROP_TAKES_ARG);
  let s = ocrEdtCreate(paramv[3], EDT_PARAM_DEF, [paramv[1]], EDT_PARAM_DEF, [], 0);
  ocrAddDependence(a, s, 0, DB_MODE_CONST);
  ocrAddDependence(b, s, 1, DB_MODE_CONST);
  ocrEdtCreate(paramv[2], EDT_PARAM_DEF, [paramv[0] - 1, a, paramv[2], paramv[3]],
    EDT_PARAM_DEF, [], 0);
  ocrEdtCreate(paramv[2], EDT_PARAM_DEF, [paramv[0] - 2, b, paramv[2], paramv[3]],
    EDT_PARAM_DEF, [], 0);
}
fn last { print load(depv[0], 0); ocrShutdown(); }
fn mainEdt {
  let e = ocrEventCreate(OCR_EVENT_STICKY_T, EVT_PROP_TAKES_ARG);
  let w = ocrEdtCreate(ocrEdtTemplateCreate(last, 0, 1), EDT_PARAM_DEF, [], EDT_PARAM_DEF, [], 0);
  ocrAddDependence(e, w, 0, DB_MODE_CONST);
  let f = ocrEdtTemplateCreate(fib, 4, 0);
  ocrEdtCreate(f, EDT_PARAM_DEF, [load(depv[0], 1), e, f, ocrEdtTemplateCreate(give, 1, 2)],
    EDT_PARAM_DEF, [], 0);
}";

const LINES: [Line; 50] = [
    Acquire(2, 1),
    Start(2),
    Event(2, STICKY, 1, 3),
    Template(2, 3, 0, 1, 4),
    Edt(2, 4, &[], &[], Done, 5),
    Depends(2, 3, 5, 0, CONST),
    Template(2, 2, 4, 0, 6),
    Load(2, 1, 1, 2),
    Template(2, 1, 1, 2, 7),
    Edt(2, 6, &[2, 3, 6, 7], &[], Done, 8),
    Free(2, 1, NONE), // 10
    End(2),
    Start(8),
    Event(8, STICKY, 1, 9),
    Event(8, STICKY, 1, 10),
    Edt(8, 7, &[3], &[], Done, 11),
    Depends(8, 9, 11, 0, CONST),
    Depends(8, 10, 11, 1, CONST),
    Edt(8, 6, &[1, 9, 6, 7], &[], Done, 12),
    Edt(8, 6, &[0, 10, 6, 7], &[], Done, 13),
    End(8), // 20
    Start(12),
    Block(12, 8, 0, 14),
    Store(12, 14, 0, 1),
    Release(12, 14, Done, NONE),
    Satisfies(12, 9, 14, 0, Done),
    End(12),
    Start(13),
    Block(13, 8, 0, 15),
    Store(13, 15, 0, 0),
    Release(13, 15, Done, NONE), // 30
    Satisfies(13, 10, 15, 0, Done),
    End(13),
    Set(25, 0, 11, 0, 14),
    Set(31, 0, 11, 1, 15),
    Acquire(11, 14),
    Acquire(11, 15),
    Start(11),
    Block(11, 8, 0, 16),
    Store(11, 16, 0, 1),
    Release(11, 16, Done, NONE), // 40
    Satisfies(11, 3, 16, 0, Done),
    Free(11, 14, NONE),
    Free(11, 15, NONE),
    End(11),
    Set(41, 0, 5, 0, 16),
    Acquire(5, 16),
    Start(5),
    Print(5, 1),
    Shutdown(5),
];

const ROWS: [Row; 23] = [
    (7, Is(Load(2, 1, 1, 1)), Some(7)),
    (9, Is(Edt(2, 6, &[1, 3, 6, 7], &[], Done, 8)), Some(9)),
    (20, Swapped, None),
    (25, Is(Satisfies(12, 9, 14, 0, Einval)), Some(25)),
    (25, Dropped, Some(25)),
    (26, Swapped, None),
    (31, Is(Satisfies(13, 9, 15, 0, Done)), Some(31)),
    (31, Is(Satisfies(13, 10, 14, 0, Done)), Some(31)),
    (33, Is(Set(25, 0, 11, 0, 15)), Some(33)),
    (33, Is(Set(31, 0, 11, 0, 14)), Some(33)),
    (33, Swapped, None),
    (34, Dropped, Some(34)),
    (36, Dropped, Some(36)),
    // The loads of EDT 11 are in CONST: no entries.
    (39, Is(Load(11, 14, 0, 1)), Some(39)),
    (39, Is(Store(11, 16, 0, 2)), Some(39)),
    (41, Dropped, Some(41)),
    (45, Dropped, Some(45)),
    (46, Is(Acquire(5, 15)), Some(46)),
    (48, Dropped, Some(48)),
    (48, Ends(Light), None),
    (49, Is(End(5)), Some(49)),
    (49, Doubled, Some(50)),
    (49, Ends(Light), Some(49)),
];

#[test]
fn fibonacci_is_replayed(rt: HostRuntime) -> Result<(), Fail> {
    assert_eq!(rt; wrong_of(rt.alloc(), FIBONACCI, &[2], &LINES, &ROWS)?, None);
    Ok(())
}
