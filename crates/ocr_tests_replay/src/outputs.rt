// Journals in which EDTs have output events, worked out on paper.
use ocr_guid::Code;
use ocr_guid::Code::{Done, Einval};
use ocr_tests_journals::Change::{Doubled, Dropped, Ends, Is, Swapped};
use ocr_tests_journals::Line::{
    Acquire, Block, Depends, Edt, End, Free, Leave, Light, Load, NoDependence, Print, Returns,
    Satisfies, Satisfy, Set, Shutdown, Start, Store, Task, Template, Unevent, Wait,
};
use ocr_tests_journals::{BOTH, FINISH, OUTPUT, PLAIN, Table, Words, wrong_in};
use std::test::Fail;

const NULL: u64 = 0;

const RO: u64 = 1;

const CONST: u64 = 2;

const EW: u64 = 4;

const STALE: Code = Code::Stale;

const NONE: Words = &[];

/// Two EDTs add to a word that each of them holds alone; their output events let EDT 6 show it.
pub const ADDERS: Table = Table {
    text: b"fn add { store(depv[0], 0, load(depv[0], 0) + 1); }
fn show { print load(depv[2], 0); }
fn mainEdt {
  let d = ocrDbCreate(8, DB_PROP_NO_ACQUIRE);
  let t = ocrEdtTemplateCreate(add, 0, 1);
  let s = ocrEdtCreate(ocrEdtTemplateCreate(show, 0, 3), EDT_PARAM_DEF, [], EDT_PARAM_DEF, [], 0);
  ocrAddDependence(d, s, 2, DB_MODE_RO);
  let i = 0;
  while i < 2 {
    let o = 0;
    let a = ocrEdtCreate(t, EDT_PARAM_DEF, [], EDT_PARAM_DEF, [], 0, &o);
    ocrAddDependence(o, s, i, DB_MODE_NULL);
    ocrAddDependence(d, a, 0, DB_MODE_EW);
    i = i + 1;
  }
}",
    lines: &[
        Acquire(2, 1),
        Start(2),
        Block(2, 8, 1, 3),
        Template(2, 1, 0, 1, 4),
        Template(2, 2, 0, 3, 5),
        Edt(2, 5, &[], &[], Done, 6),
        Depends(2, 3, 6, 2, RO),
        Task(2, 0, 4, &[], &[], OUTPUT, (Done, 7, 0, 8)),
        Depends(2, 8, 6, 0, NULL),
        Depends(2, 3, 7, 0, EW),
        Task(2, 0, 4, &[], &[], OUTPUT, (Done, 9, 0, 10)), // 10
        Depends(2, 10, 6, 1, NULL),
        Depends(2, 3, 9, 0, EW),
        Set(12, 0, 9, 0, 3),
        Set(9, 0, 7, 0, 3),
        Set(6, 0, 6, 2, 3),
        Acquire(9, 3),
        Start(9),
        Wait(7, 3),
        Free(9, 3, &[(0, 1)]),
        End(9), // 20
        Acquire(7, 3),
        Satisfy(20, 0, 10, 0, 0, Done),
        Start(7),
        Free(7, 3, &[(0, 2)]),
        End(7),
        Satisfy(25, 0, 8, 0, 0, Done),
        Set(26, 0, 6, 0, 0),
        Set(22, 0, 6, 1, 0),
        Acquire(6, 3),
        Start(6), // 30
        Load(6, 3, 0, 2),
        Print(6, 2),
        Free(6, 3, NONE),
        End(6),
        Free(2, 1, NONE),
        End(2),
    ],
    rows: &[
        (7, Is(Edt(2, 4, &[], &[], Done, 7)), Some(7)),
        (
            7,
            Is(Task(2, 0, 4, &[], &[], OUTPUT, (Done, 7, 0, 0))),
            Some(7),
        ),
        (
            7,
            Is(Task(2, 0, 4, &[], &[], PLAIN, (Done, 7, 0, 8))),
            Some(7),
        ),
        (
            7,
            Is(Task(2, 0, 4, &[], &[], BOTH, (Done, 7, 8, 9))),
            Some(7),
        ),
        // The output event is drawn after its EDT, but other numbers may come between.
        (
            7,
            Is(Task(2, 0, 4, &[], &[], OUTPUT, (Done, 8, 0, 7))),
            Some(7),
        ),
        (
            7,
            Is(Task(2, 0, 4, &[], &[], OUTPUT, (Done, 7, 0, 7))),
            Some(7),
        ),
        (
            7,
            Is(Task(2, 0, 4, &[], &[], OUTPUT, (Done, 7, 0, 6))),
            Some(7),
        ),
        (
            7,
            Is(Task(2, 0, 4, &[], &[], OUTPUT, (Done, 7, 0, 4097))),
            Some(7),
        ),
        (
            7,
            Is(Task(2, 0, 4, &[], &[], OUTPUT, (Done, 7, 8, 9))),
            Some(7),
        ),
        (
            7,
            Is(Task(2, 0, 4, &[], &[], OUTPUT, (Done, 7, 0, 9))),
            Some(8),
        ),
        (
            7,
            Is(Task(2, 3, 4, &[], &[], OUTPUT, (Done, 7, 0, 8))),
            Some(7),
        ),
        (8, Dropped, Some(8)),
        (8, Is(Depends(2, 7, 6, 0, NULL)), Some(8)),
        (
            10,
            Is(Task(2, 0, 4, &[], &[], OUTPUT, (Done, 9, 0, 8))),
            Some(10),
        ),
        // Nothing satisfies an output event before its EDT has ended.
        (13, Is(Satisfy(7, 0, 8, 0, 0, Done)), Some(13)),
        (19, Is(Satisfy(10, 0, 10, 0, 0, Done)), Some(19)),
        (20, Is(Returns(9, 3)), Some(20)),
        (20, Dropped, Some(21)),
        (20, Swapped, Some(22)),
        (21, Swapped, Some(28)),
        (22, Is(Satisfy(20, 0, 10, 0, 3, Done)), Some(22)),
        (22, Is(Satisfy(20, 0, 8, 0, 0, Done)), Some(22)),
        (22, Is(Satisfy(20, 0, 10, 1, 0, Done)), Some(22)),
        (22, Is(Satisfy(20, 1, 10, 0, 0, Done)), Some(22)),
        (22, Is(Satisfy(20, 0, 10, 0, 0, STALE)), Some(22)),
        (22, Is(Leave(20, 0, 10)), Some(22)),
        (22, Doubled, Some(23)),
        (22, Dropped, Some(25)),
        (22, Swapped, Some(28)),
        (24, Is(Free(7, 3, &[(0, 1)])), Some(24)),
        (25, Ends(Light), None),
        (27, Swapped, None),
        (27, Dropped, Some(28)),
        (28, Dropped, Some(28)),
        (31, Is(Load(6, 3, 0, 1)), Some(31)),
        (37, Is(Satisfy(34, 0, 6, 0, 0, Done)), Some(37)),
        (37, Ends(Light), Some(37)),
    ],
};

/// A body returns the block that it made, and the output event brings it to EDT 7.
pub const GIVEN: Table = Table {
    text: b"fn make { let d = ocrDbCreate(8, DB_PROP_NONE); store(d, 0, 7); return d; }
fn show { print depv[0]; print load(depv[0], 0); }
fn mainEdt {
  let o = 0; let t = ocrEdtTemplateCreate(make, 0, 1);
  let m = ocrEdtCreate(t, EDT_PARAM_DEF, [], EDT_PARAM_DEF, [], 0, &o);
  let s = ocrEdtCreate(ocrEdtTemplateCreate(show, 0, 1), EDT_PARAM_DEF, [], EDT_PARAM_DEF, [], 0);
  ocrAddDependence(o, s, 0, DB_MODE_CONST); ocrAddDependence(NULL_GUID, m, 0, DB_MODE_NULL);
}",
    lines: &[
        Acquire(2, 1),
        Start(2),
        Template(2, 1, 0, 1, 3),
        Task(2, 0, 3, &[], &[], OUTPUT, (Done, 4, 0, 5)),
        Template(2, 2, 0, 1, 6),
        Edt(2, 6, &[], &[], Done, 7),
        Depends(2, 5, 7, 0, CONST),
        Depends(2, 0, 4, 0, NULL),
        Set(7, 0, 4, 0, 0),
        Start(4),
        Block(4, 8, 0, 8), // 10
        Store(4, 8, 0, 7),
        Free(4, 8, NONE),
        Returns(4, 8),
        Satisfy(13, 0, 5, 0, 8, Done),
        Set(14, 0, 7, 0, 8),
        Acquire(7, 8),
        Start(7),
        Print(7, 8),
        Print(7, 7),
        Free(7, 8, NONE), // 20
        End(7),
        Free(2, 1, NONE),
        End(2),
    ],
    rows: &[
        (12, Dropped, Some(12)),
        (12, Swapped, Some(12)),
        (13, Is(End(4)), Some(13)),
        (13, Is(Returns(4, 1)), Some(13)),
        (13, Swapped, Some(13)),
        (14, Is(Satisfy(13, 0, 5, 0, 0, Done)), Some(14)),
        (14, Is(Satisfy(13, 0, 5, 0, 1, Done)), Some(14)),
        (14, Is(Satisfy(13, 0, 5, 0, 8, Einval)), Some(14)),
        (14, Dropped, Some(14)),
        (15, Is(Set(14, 0, 7, 0, 0)), Some(15)),
        (15, Is(Set(13, 0, 7, 0, 8)), Some(15)),
        (16, Is(Start(7)), Some(16)),
        (18, Is(Print(7, 0)), Some(18)),
        (24, Ends(Light), Some(24)),
    ],
};

// What is returned and names no block counts as NULL_GUID: a template, and no object at all.
const NAMELESS: Table = Table {
    text: b"fn give { return paramv[0]; }
fn show { print depv[0]; print depv[1]; }
fn mainEdt {
  let o = 0; let p = 0; let t = ocrEdtTemplateCreate(give, 1, 1);
  let a = ocrEdtCreate(t, EDT_PARAM_DEF, [t], EDT_PARAM_DEF, [], 0, &o);
  let b = ocrEdtCreate(t, EDT_PARAM_DEF, [99], EDT_PARAM_DEF, [], 0, &p);
  ocrEdtCreate(ocrEdtTemplateCreate(show, 0, 2), EDT_PARAM_DEF, [], EDT_PARAM_DEF, [o, p], 0);
  ocrAddDependence(NULL_GUID, a, 0, DB_MODE_NULL); ocrAddDependence(NULL_GUID, b, 0, DB_MODE_NULL);
}",
    lines: &[
        Acquire(2, 1),
        Start(2),
        Template(2, 1, 1, 1, 3),
        Task(2, 0, 3, &[3], &[], OUTPUT, (Done, 4, 0, 5)),
        Task(2, 0, 3, &[99], &[], OUTPUT, (Done, 6, 0, 7)),
        Template(2, 2, 0, 2, 8),
        Edt(2, 8, &[], &[5, 7], Done, 9),
        Depends(2, 0, 4, 0, NULL),
        Depends(2, 0, 6, 0, NULL),
        Set(7, 0, 4, 0, 0),
        Start(4), // 10
        Returns(4, 3),
        Set(8, 0, 6, 0, 0),
        Start(6),
        Returns(6, 99),
        Satisfy(14, 0, 7, 0, 0, Done),
        Satisfy(11, 0, 5, 0, 0, Done),
        Set(15, 0, 9, 1, 0),
        Set(16, 0, 9, 0, 0),
        Start(9),
        Print(9, 0), // 20
        Print(9, 0),
        End(9),
        Free(2, 1, NONE),
        End(2),
    ],
    rows: &[
        (11, Is(End(4)), Some(11)),
        (14, Is(Returns(6, 98)), Some(14)),
        (14, Is(End(6)), Some(14)),
        (15, Is(Satisfy(14, 0, 7, 0, 99, Done)), Some(15)),
        (15, Swapped, Some(17)),
        (16, Is(Satisfy(11, 0, 5, 0, 3, Done)), Some(16)),
        (17, Is(Set(15, 0, 9, 0, 0)), Some(17)),
        (17, Swapped, None),
        (18, Dropped, Some(18)),
        (25, Ends(Light), Some(25)),
    ],
};

/// The output event is destroyed before its EDT ends: what that returns comes to nobody.
pub const DESTROYED: Table = Table {
    text: b"fn work { print 1; return 1; }
fn never { print 2; }
fn mainEdt {
  let o = 0; let t = ocrEdtTemplateCreate(work, 0, 1);
  let w = ocrEdtCreate(t, EDT_PARAM_DEF, [], EDT_PARAM_DEF, [], 0, &o);
  ocrEdtCreate(ocrEdtTemplateCreate(never, 0, 1), EDT_PARAM_DEF, [], EDT_PARAM_DEF, [o], 0);
  print ocrEventDestroy(o); ocrAddDependence(NULL_GUID, w, 0, DB_MODE_NULL);
}",
    lines: &[
        Acquire(2, 1),
        Start(2),
        Template(2, 1, 0, 1, 3),
        Task(2, 0, 3, &[], &[], OUTPUT, (Done, 4, 0, 5)),
        Template(2, 2, 0, 1, 6),
        Edt(2, 6, &[], &[5], Done, 7),
        Unevent(2, 5, Done),
        Print(2, 0),
        Depends(2, 0, 4, 0, NULL),
        Set(8, 0, 4, 0, 0),
        Start(4), // 10
        Print(4, 1),
        Returns(4, 1),
        Satisfy(12, 0, 5, 0, 1, STALE),
        Free(2, 1, NONE),
        End(2),
    ],
    rows: &[
        (12, Is(End(4)), Some(12)),
        (13, Is(Satisfy(12, 0, 5, 0, 1, Done)), Some(13)),
        (13, Is(Satisfy(12, 0, 5, 0, 0, STALE)), Some(13)),
        (13, Is(Satisfy(12, 0, 5, 0, 1, Einval)), Some(13)),
        (13, Dropped, None),
        (13, Swapped, None),
        (13, Doubled, Some(14)),
        (14, Is(Set(13, 0, 7, 0, 1)), Some(14)),
        (16, Is(Start(7)), Some(16)),
        (16, Ends(Light), Some(16)),
    ],
};

/// A body satisfies the output event of an EDT that has not ended: it is a ONCE event that takes an
/// argument, and is destroyed by firing.
pub const TAKEN: Table = Table {
    text: b"fn work { }
fn show { print depv[0]; }
fn mainEdt {
  let o = 0; let t = ocrEdtTemplateCreate(work, 0, 1);
  let w = ocrEdtCreate(t, EDT_PARAM_DEF, [], EDT_PARAM_DEF, [], 0, &o);
  let s = ocrEdtCreate(ocrEdtTemplateCreate(show, 0, 1), EDT_PARAM_DEF, [], EDT_PARAM_DEF, [], 0);
  ocrAddDependence(o, s, 0, DB_MODE_NULL);
  ocrEventSatisfySlot(o, 1, 1); ocrEventSatisfy(o, 1); ocrEventSatisfy(o, 1);
  ocrAddDependence(o, w, 0, DB_MODE_NULL); ocrAddDependence(NULL_GUID, w, 0, DB_MODE_NULL);
}",
    lines: &[
        Acquire(2, 1),
        Start(2),
        Template(2, 1, 0, 1, 3),
        Task(2, 0, 3, &[], &[], OUTPUT, (Done, 4, 0, 5)),
        Template(2, 2, 0, 1, 6),
        Edt(2, 6, &[], &[], Done, 7),
        Depends(2, 5, 7, 0, NULL),
        Satisfies(2, 5, 1, 1, Einval),
        Satisfies(2, 5, 1, 0, Done),
        Satisfies(2, 5, 1, 0, STALE),
        NoDependence(2, 5, 4, 0, NULL, STALE), // 10
        Depends(2, 0, 4, 0, NULL),
        Set(8, 0, 7, 0, 1),
        Start(7),
        Print(7, 1),
        Set(11, 0, 4, 0, 0),
        Start(4),
        End(4),
        Satisfy(17, 0, 5, 0, 0, STALE),
        End(7),
        Free(2, 1, NONE), // 20
        End(2),
    ],
    rows: &[
        (7, Is(Satisfies(2, 5, 1, 1, Done)), Some(7)),
        (8, Is(Satisfies(2, 5, 1, 0, Einval)), Some(8)),
        (9, Is(Satisfies(2, 5, 1, 0, Done)), Some(9)),
        (10, Is(Depends(2, 5, 4, 0, NULL)), Some(10)),
        (12, Is(Set(8, 0, 7, 0, 0)), Some(12)),
        (18, Is(Satisfy(17, 0, 5, 0, 0, Done)), Some(18)),
        (18, Swapped, None),
        (18, Dropped, None),
        (20, Is(Set(18, 0, 7, 0, 0)), Some(20)),
        (22, Ends(Light), Some(22)),
    ],
};

// Creations with an output event or a scope that are refused make nothing, and set the variable to
// 0, whatever it was.
const UNMADE: Table = Table {
    text: b"fn one { }
fn mainEdt {
  let o = 7; let t = ocrEdtTemplateCreate(one, 1, 1);
  print ocrEdtCreate(t, EDT_PARAM_DEF, [], EDT_PARAM_DEF, [], EDT_PROP_FINISH, &o); print o;
  o = 8; print ocrEdtCreate(t, EDT_PARAM_DEF, [1], EDT_PARAM_DEF, [], 2, &o); print o;
  print ocrEdtCreate(t, EDT_PARAM_DEF, [1], EDT_PARAM_DEF, [], EDT_PROP_FINISH); ocrShutdown();
}",
    lines: &[
        Acquire(2, 1),
        Start(2),
        Template(2, 1, 1, 1, 3),
        Task(2, 0, 3, &[], &[], BOTH, (Einval, 0, 0, 0)),
        Print(2, 0),
        Print(2, 0),
        Task(2, 0, 3, &[1], &[], (2, true), (Einval, 0, 0, 0)),
        Print(2, 0),
        Print(2, 0),
        Task(2, 0, 3, &[1], &[], FINISH, (Done, 4, 5, 0)),
        Print(2, 4), // 10
        Shutdown(2),
    ],
    rows: &[
        (
            3,
            Is(Task(2, 0, 3, &[], &[], BOTH, (Done, 4, 5, 6))),
            Some(3),
        ),
        (
            3,
            Is(Task(2, 0, 3, &[], &[], BOTH, (Einval, 4, 0, 0))),
            Some(3),
        ),
        (
            3,
            Is(Task(2, 0, 3, &[], &[], BOTH, (Einval, 0, 4, 0))),
            Some(3),
        ),
        (
            3,
            Is(Task(2, 0, 3, &[], &[], BOTH, (Einval, 0, 0, 4))),
            Some(3),
        ),
        (
            3,
            Is(Task(2, 0, 3, &[], &[], FINISH, (Einval, 0, 0, 0))),
            Some(3),
        ),
        (
            3,
            Is(Task(2, 1, 3, &[], &[], BOTH, (Einval, 0, 0, 0))),
            Some(3),
        ),
        (5, Is(Print(2, 7)), Some(5)),
        (
            6,
            Is(Task(2, 0, 3, &[1], &[], (2, true), (Done, 4, 0, 5))),
            Some(6),
        ),
        (8, Is(Print(2, 8)), Some(8)),
        (
            9,
            Is(Task(2, 0, 3, &[1], &[], FINISH, (Einval, 0, 0, 0))),
            Some(9),
        ),
        (
            9,
            Is(Task(2, 0, 3, &[1], &[], FINISH, (Done, 4, 0, 0))),
            Some(9),
        ),
        (
            9,
            Is(Task(2, 0, 3, &[1], &[], FINISH, (Done, 4, 0, 5))),
            Some(9),
        ),
        (
            9,
            Is(Task(2, 0, 3, &[1], &[], FINISH, (Done, 5, 4, 0))),
            Some(9),
        ),
        (
            9,
            Is(Task(2, 0, 3, &[1], &[], FINISH, (Done, 4, 6, 0))),
            None,
        ),
        (
            9,
            Is(Task(2, 0, 3, &[1], &[], FINISH, (Done, 5, 6, 0))),
            Some(10),
        ),
    ],
};

#[test]
fn output_events_are_replayed(rt: HostRuntime) -> Result<(), Fail> {
    for table in [ADDERS, GIVEN, NAMELESS] {
        assert_eq!(rt; wrong_in(rt.alloc(), &table)?, None);
    }
    Ok(())
}

#[test]
fn output_events_that_come_to_nothing_are_replayed(rt: HostRuntime) -> Result<(), Fail> {
    for table in [DESTROYED, TAKEN, UNMADE] {
        assert_eq!(rt; wrong_in(rt.alloc(), &table)?, None);
    }
    Ok(())
}
