// Journals with finish scopes, worked out on paper.
use ocr_guid::Code;
use ocr_guid::Code::{Done, Enoent};
use ocr_tests_journals::Change::{Doubled, Dropped, Ends, Is, Swapped};
use ocr_tests_journals::Line::{
    Acquire, Depends, Edt, End, Free, Leave, Light, Print, Returns, Satisfy, Set, Shutdown, Start,
    Task, Template,
};
use ocr_tests_journals::{BOTH, FINISH, OUTPUT, PLAIN, Table, Words, wrong_in};
use std::test::Fail;

const NULL: u64 = 0;

const STALE: Code = Code::Stale;

const NONE: Words = &[];

/// Finish EDT 4 with scope 5 and event 6, its child 10 and its grandchild 12.
pub const FAMILY: Table = Table {
    text: b"fn leaf { print 3; }
fn child {
  print 2; ocrEdtCreate(ocrEdtTemplateCreate(leaf, 0, 0), EDT_PARAM_DEF, [], EDT_PARAM_DEF, [], 0);
}
fn top {
  print 1; ocrEdtCreate(ocrEdtTemplateCreate(child, 0, 0), EDT_PARAM_DEF, [], EDT_PARAM_DEF, [], 0);
}
fn done { print 4; }
fn mainEdt {
  let o = 0; let t = ocrEdtTemplateCreate(top, 0, 1);
  let f = ocrEdtCreate(t, EDT_PARAM_DEF, [], EDT_PARAM_DEF, [], EDT_PROP_FINISH, &o);
  let d = ocrEdtCreate(ocrEdtTemplateCreate(done, 0, 1), EDT_PARAM_DEF, [], EDT_PARAM_DEF, [], 0);
  ocrAddDependence(o, d, 0, DB_MODE_NULL); ocrAddDependence(NULL_GUID, f, 0, DB_MODE_NULL);
}",
    lines: &[
        Acquire(2, 1),
        Start(2),
        Template(2, 3, 0, 1, 3),
        Task(2, 0, 3, &[], &[], BOTH, (Done, 4, 5, 6)),
        Template(2, 4, 0, 1, 7),
        Edt(2, 7, &[], &[], Done, 8),
        Depends(2, 6, 8, 0, NULL),
        Depends(2, 0, 4, 0, NULL),
        Set(7, 0, 4, 0, 0),
        Start(4),
        Print(4, 1), // 10
        Template(4, 2, 0, 0, 9),
        Task(4, 5, 9, &[], &[], PLAIN, (Done, 10, 0, 0)),
        End(4),
        Leave(13, 0, 5),
        Start(10),
        Print(10, 2),
        Template(10, 1, 0, 0, 11),
        Task(10, 5, 11, &[], &[], PLAIN, (Done, 12, 0, 0)),
        End(10),
        Start(12), // 20
        Print(12, 3),
        End(12),
        Leave(22, 0, 5),
        Leave(19, 0, 5),
        Satisfy(24, 0, 6, 0, 0, Done),
        Set(25, 0, 8, 0, 0),
        Start(8),
        Print(8, 4),
        End(8),
        Free(2, 1, NONE), // 30
        End(2),
    ],
    rows: &[
        (
            3,
            Is(Task(2, 0, 3, &[], &[], BOTH, (Done, 4, 5, 0))),
            Some(3),
        ),
        (
            3,
            Is(Task(2, 0, 3, &[], &[], BOTH, (Done, 4, 0, 5))),
            Some(3),
        ),
        (
            3,
            Is(Task(2, 0, 3, &[], &[], BOTH, (Done, 4, 0, 0))),
            Some(3),
        ),
        (
            3,
            Is(Task(2, 0, 3, &[], &[], OUTPUT, (Done, 4, 0, 5))),
            Some(3),
        ),
        (
            3,
            Is(Task(2, 0, 3, &[], &[], FINISH, (Done, 4, 5, 0))),
            Some(3),
        ),
        // The EDT is drawn first, then its scope, then its output event.
        (
            3,
            Is(Task(2, 0, 3, &[], &[], BOTH, (Done, 4, 6, 5))),
            Some(3),
        ),
        (
            3,
            Is(Task(2, 0, 3, &[], &[], BOTH, (Done, 5, 4, 6))),
            Some(3),
        ),
        (
            3,
            Is(Task(2, 0, 3, &[], &[], BOTH, (Done, 4, 5, 5))),
            Some(3),
        ),
        (
            3,
            Is(Task(2, 0, 3, &[], &[], BOTH, (Done, 4, 5, 3))),
            Some(3),
        ),
        (
            3,
            Is(Task(2, 0, 3, &[], &[], BOTH, (Done, 4, 4096, 4097))),
            Some(3),
        ),
        (
            3,
            Is(Task(2, 0, 3, &[], &[], BOTH, (Done, 4, 7, 8))),
            Some(4),
        ),
        // `mainEdt` has no home.
        (
            3,
            Is(Task(2, 5, 3, &[], &[], BOTH, (Done, 4, 5, 6))),
            Some(3),
        ),
        (6, Is(Depends(2, 5, 8, 0, NULL)), Some(6)),
        // An EDT that is made joins the home of its maker.
        (
            12,
            Is(Task(4, 0, 9, &[], &[], PLAIN, (Done, 10, 0, 0))),
            Some(12),
        ),
        (
            12,
            Is(Task(4, 6, 9, &[], &[], PLAIN, (Done, 10, 0, 0))),
            Some(12),
        ),
        (
            12,
            Is(Task(4, 4, 9, &[], &[], PLAIN, (Done, 10, 0, 0))),
            Some(12),
        ),
        (
            12,
            Is(Task(4, 5, 9, &[], &[], PLAIN, (Done, 10, 11, 0))),
            Some(12),
        ),
        (12, Dropped, Some(12)),
        (13, Is(Returns(4, 6)), Some(13)),
        (13, Swapped, Some(13)),
        (14, Is(Leave(13, 1, 5)), Some(14)),
        (14, Is(Leave(13, 0, 6)), Some(14)),
        (14, Is(Leave(12, 0, 5)), Some(14)),
        // A finish EDT has ended before its scope is done: its event waits.
        (14, Is(Satisfy(13, 0, 6, 0, 0, Done)), Some(14)),
        (14, Doubled, Some(15)),
        (14, Swapped, None),
        (14, Dropped, Some(22)),
        (
            18,
            Is(Task(10, 0, 11, &[], &[], PLAIN, (Done, 12, 0, 0))),
            Some(18),
        ),
        (19, Swapped, Some(24)),
        (22, Swapped, Some(22)),
        (23, Is(Leave(22, 0, 12)), Some(23)),
        (23, Swapped, None),
        (23, Dropped, Some(24)),
        (23, Ends(Light), None),
        (24, Is(Leave(14, 0, 5)), Some(24)),
        (24, Is(Leave(22, 0, 5)), Some(24)),
        (24, Is(Satisfy(23, 0, 6, 0, 0, Done)), Some(24)),
        (24, Dropped, Some(24)),
        (25, Is(Satisfy(24, 0, 6, 0, 4, Done)), Some(25)),
        (25, Is(Satisfy(24, 1, 6, 0, 0, Done)), Some(25)),
        (25, Is(Satisfy(24, 0, 6, 0, 0, STALE)), Some(25)),
        (25, Is(Leave(24, 0, 5)), Some(25)),
        (25, Doubled, Some(26)),
        (26, Is(Set(24, 0, 8, 0, 0)), Some(26)),
        (26, Dropped, Some(26)),
        (32, Is(Leave(29, 0, 5)), Some(32)),
        (32, Ends(Light), Some(32)),
    ],
};

/// Scope 11 in scope 5, both with an output event: that of the inner one sets off EDT 14, a member
/// of the outer one.
pub const NESTED: Table = Table {
    text: b"fn leaf { print 3; }
fn inner {
  print 2; ocrEdtCreate(ocrEdtTemplateCreate(leaf, 0, 0), EDT_PARAM_DEF, [], EDT_PARAM_DEF, [], 0);
}
fn between { print 4; }
fn outer {
  print 1;
  let o = 0; let t = ocrEdtTemplateCreate(inner, 0, 1);
  let i = ocrEdtCreate(t, EDT_PARAM_DEF, [], EDT_PARAM_DEF, [], EDT_PROP_FINISH, &o);
  ocrEdtCreate(ocrEdtTemplateCreate(between, 0, 1), EDT_PARAM_DEF, [], EDT_PARAM_DEF, [o], 0);
  ocrAddDependence(NULL_GUID, i, 0, DB_MODE_NULL);
}
fn last { print 5; }
fn mainEdt {
  let o = 0; let t = ocrEdtTemplateCreate(outer, 0, 1);
  let f = ocrEdtCreate(t, EDT_PARAM_DEF, [], EDT_PARAM_DEF, [], EDT_PROP_FINISH, &o);
  ocrEdtCreate(ocrEdtTemplateCreate(last, 0, 1), EDT_PARAM_DEF, [], EDT_PARAM_DEF, [o], 0);
  ocrAddDependence(NULL_GUID, f, 0, DB_MODE_NULL);
}",
    lines: &[
        Acquire(2, 1),
        Start(2),
        Template(2, 4, 0, 1, 3),
        Task(2, 0, 3, &[], &[], BOTH, (Done, 4, 5, 6)),
        Template(2, 5, 0, 1, 7),
        Edt(2, 7, &[], &[6], Done, 8),
        Depends(2, 0, 4, 0, NULL),
        Set(6, 0, 4, 0, 0),
        Start(4),
        Print(4, 1),
        Template(4, 2, 0, 1, 9), // 10
        Task(4, 5, 9, &[], &[], BOTH, (Done, 10, 11, 12)),
        Template(4, 3, 0, 1, 13),
        Task(4, 5, 13, &[], &[12], PLAIN, (Done, 14, 0, 0)),
        Depends(4, 0, 10, 0, NULL),
        End(4),
        Set(14, 0, 10, 0, 0),
        Start(10),
        Print(10, 2),
        Template(10, 1, 0, 0, 15),
        Task(10, 11, 15, &[], &[], PLAIN, (Done, 16, 0, 0)), // 20
        End(10),
        Start(16),
        Print(16, 3),
        End(16),
        Leave(21, 0, 11),
        Leave(24, 0, 11),
        Leave(15, 0, 5),
        Leave(26, 1, 5),
        Satisfy(26, 0, 12, 0, 0, Done),
        Set(29, 0, 14, 0, 0), // 30
        Start(14),
        Print(14, 4),
        End(14),
        Leave(33, 0, 5),
        Satisfy(34, 0, 6, 0, 0, Done),
        Set(35, 0, 8, 0, 0),
        Start(8),
        Print(8, 5),
        End(8),
        Free(2, 1, NONE), // 40
        End(2),
    ],
    rows: &[
        (
            11,
            Is(Task(4, 0, 9, &[], &[], BOTH, (Done, 10, 11, 12))),
            Some(11),
        ),
        (
            11,
            Is(Task(4, 11, 9, &[], &[], BOTH, (Done, 10, 11, 12))),
            Some(11),
        ),
        (
            11,
            Is(Task(4, 5, 9, &[], &[], BOTH, (Done, 10, 5, 12))),
            Some(11),
        ),
        (
            11,
            Is(Task(4, 5, 9, &[], &[], BOTH, (Done, 10, 11, 6))),
            Some(11),
        ),
        (
            13,
            Is(Task(4, 11, 13, &[], &[12], PLAIN, (Done, 14, 0, 0))),
            Some(13),
        ),
        (
            13,
            Is(Task(4, 5, 13, &[], &[11], PLAIN, (Done, 14, 0, 0))),
            Some(13),
        ),
        // The EDTs that a finish EDT makes are members of its scope alone.
        (
            20,
            Is(Task(10, 5, 15, &[], &[], PLAIN, (Done, 16, 0, 0))),
            Some(20),
        ),
        (25, Is(Leave(21, 0, 5)), Some(25)),
        (25, Swapped, None),
        (25, Dropped, Some(27)),
        (26, Is(Leave(24, 0, 5)), Some(26)),
        (26, Swapped, Some(28)),
        // The scope that is done first satisfies its event, then leaves the outer one.
        (27, Is(Leave(26, 0, 5)), Some(27)),
        (27, Is(Leave(25, 0, 5)), Some(27)),
        (27, Swapped, None),
        (28, Is(Leave(26, 1, 11)), Some(28)),
        (28, Swapped, Some(30)),
        (28, Dropped, Some(29)),
        (28, Doubled, Some(29)),
        (29, Is(Satisfy(26, 1, 12, 0, 0, Done)), Some(29)),
        (29, Is(Satisfy(26, 0, 6, 0, 0, Done)), Some(29)),
        (29, Swapped, Some(29)),
        // The outer scope has a member left.
        (29, Is(Satisfy(28, 0, 6, 0, 0, Done)), Some(29)),
        (34, Is(Leave(33, 0, 11)), Some(34)),
        (34, Dropped, Some(34)),
        (34, Ends(Light), None),
        (35, Is(Satisfy(28, 0, 6, 0, 0, Done)), Some(35)),
        (42, Ends(Light), Some(42)),
    ],
};

/// Scope 11 has no output event, and is in scope 5, which has one: it leaves without a word. Here
/// the inner one is done before EDT 4 has ended.
pub const INNER: Table = Table {
    text: b"fn leaf { print 3; }
fn inner {
  print 2; ocrEdtCreate(ocrEdtTemplateCreate(leaf, 0, 0), EDT_PARAM_DEF, [], EDT_PARAM_DEF, [], 0);
}
fn outer {
  print 1; let t = ocrEdtTemplateCreate(inner, 0, 0);
  ocrEdtCreate(t, EDT_PARAM_DEF, [], EDT_PARAM_DEF, [], EDT_PROP_FINISH);
}
fn last { print 4; }
fn mainEdt {
  let o = 0; let t = ocrEdtTemplateCreate(outer, 0, 1);
  let f = ocrEdtCreate(t, EDT_PARAM_DEF, [], EDT_PARAM_DEF, [], EDT_PROP_FINISH, &o);
  ocrEdtCreate(ocrEdtTemplateCreate(last, 0, 1), EDT_PARAM_DEF, [], EDT_PARAM_DEF, [o], 0);
  ocrAddDependence(NULL_GUID, f, 0, DB_MODE_NULL);
}",
    lines: &[
        Acquire(2, 1),
        Start(2),
        Template(2, 3, 0, 1, 3),
        Task(2, 0, 3, &[], &[], BOTH, (Done, 4, 5, 6)),
        Template(2, 4, 0, 1, 7),
        Edt(2, 7, &[], &[6], Done, 8),
        Depends(2, 0, 4, 0, NULL),
        Set(6, 0, 4, 0, 0),
        Start(4),
        Print(4, 1),
        Template(4, 2, 0, 0, 9), // 10
        Task(4, 5, 9, &[], &[], FINISH, (Done, 10, 11, 0)),
        Start(10),
        Print(10, 2),
        Template(10, 1, 0, 0, 12),
        Task(10, 11, 12, &[], &[], PLAIN, (Done, 13, 0, 0)),
        Start(13),
        Print(13, 3),
        End(13),
        End(10),
        Leave(19, 0, 11), // 20
        Leave(18, 0, 11),
        Leave(21, 0, 5),
        End(4),
        Leave(23, 0, 5),
        Satisfy(24, 0, 6, 0, 0, Done),
        Set(25, 0, 8, 0, 0),
        Start(8),
        Print(8, 4),
        End(8),
        Free(2, 1, NONE), // 30
        End(2),
    ],
    rows: &[
        (
            11,
            Is(Task(4, 5, 9, &[], &[], FINISH, (Done, 10, 0, 11))),
            Some(11),
        ),
        (
            11,
            Is(Task(4, 5, 9, &[], &[], FINISH, (Done, 10, 11, 12))),
            Some(11),
        ),
        (
            11,
            Is(Task(4, 5, 9, &[], &[], FINISH, (Done, 10, 0, 0))),
            Some(11),
        ),
        (
            15,
            Is(Task(10, 5, 12, &[], &[], PLAIN, (Done, 13, 0, 0))),
            Some(15),
        ),
        (19, Is(Returns(10, 1)), Some(19)),
        (20, Swapped, None),
        (21, Is(Leave(18, 0, 5)), Some(21)),
        (22, Is(Leave(21, 1, 5)), Some(22)),
        (22, Is(Leave(20, 0, 5)), Some(22)),
        (22, Is(Satisfy(21, 0, 6, 0, 0, Done)), Some(22)),
        (22, Swapped, Some(24)),
        (22, Doubled, Some(23)),
        (23, Swapped, Some(23)),
        (24, Is(Leave(22, 0, 5)), Some(24)),
        (25, Is(Satisfy(22, 0, 6, 0, 0, Done)), Some(25)),
        (25, Dropped, Some(25)),
        (32, Ends(Light), Some(32)),
    ],
};

/// Neither scope has an output event: where they are done, nothing is satisfied.
pub const SILENT: Table = Table {
    text: b"fn inner { }
fn outer {
  let t = ocrEdtTemplateCreate(inner, 0, 0);
  ocrEdtCreate(t, EDT_PARAM_DEF, [], EDT_PARAM_DEF, [], EDT_PROP_FINISH);
}
fn mainEdt {
  let t = ocrEdtTemplateCreate(outer, 0, 0);
  ocrEdtCreate(t, EDT_PARAM_DEF, [], EDT_PARAM_DEF, [], EDT_PROP_FINISH);
}",
    lines: &[
        Acquire(2, 1),
        Start(2),
        Template(2, 2, 0, 0, 3),
        Task(2, 0, 3, &[], &[], FINISH, (Done, 4, 5, 0)),
        Start(4),
        Template(4, 1, 0, 0, 6),
        Task(4, 5, 6, &[], &[], FINISH, (Done, 7, 8, 0)),
        End(4),
        Leave(7, 0, 5),
        Start(7),
        End(7), // 10
        Leave(10, 0, 8),
        Leave(11, 0, 5),
        Free(2, 1, NONE),
        End(2),
    ],
    rows: &[
        (
            6,
            Is(Task(4, 8, 6, &[], &[], FINISH, (Done, 7, 8, 0))),
            Some(6),
        ),
        (8, Is(Leave(7, 0, 8)), Some(8)),
        (8, Swapped, None),
        (9, Swapped, Some(9)),
        (10, Swapped, Some(10)),
        (11, Is(Leave(10, 0, 5)), Some(11)),
        (11, Is(Leave(10, 1, 8)), Some(11)),
        (11, Dropped, Some(11)),
        (12, Is(Leave(11, 1, 5)), Some(12)),
        (12, Doubled, Some(13)),
        (12, Dropped, None),
        (12, Ends(Light), None),
        (13, Is(Leave(12, 0, 5)), Some(13)),
        (13, Is(Satisfy(12, 0, 5, 0, 0, Done)), Some(13)),
        (15, Ends(Light), Some(15)),
    ],
};

/// A member with an output event of its own: its End satisfies this and leaves the scope. What the
/// finish EDT returns is not handed on.
pub const MEMBER: Table = Table {
    text: b"fn leaf { return 1; }
fn top {
  let o = 0; let t = ocrEdtTemplateCreate(leaf, 0, 1);
  ocrAddDependence(NULL_GUID,
    ocrEdtCreate(t, EDT_PARAM_DEF, [], EDT_PARAM_DEF, [], EDT_PROP_NONE, &o), 0, DB_MODE_NULL);
  return 1;
}
fn last { print depv[0]; }
fn mainEdt {
  let o = 0; let t = ocrEdtTemplateCreate(top, 0, 1);
  let f = ocrEdtCreate(t, EDT_PARAM_DEF, [], EDT_PARAM_DEF, [], EDT_PROP_FINISH, &o);
  ocrEdtCreate(ocrEdtTemplateCreate(last, 0, 1), EDT_PARAM_DEF, [], EDT_PARAM_DEF, [o], 0);
  ocrAddDependence(NULL_GUID, f, 0, DB_MODE_NULL);
}",
    lines: &[
        Acquire(2, 1),
        Start(2),
        Template(2, 2, 0, 1, 3),
        Task(2, 0, 3, &[], &[], BOTH, (Done, 4, 5, 6)),
        Template(2, 3, 0, 1, 7),
        Edt(2, 7, &[], &[6], Done, 8),
        Depends(2, 0, 4, 0, NULL),
        Set(6, 0, 4, 0, 0),
        Start(4),
        Template(4, 1, 0, 1, 9),
        Task(4, 5, 9, &[], &[], OUTPUT, (Done, 10, 0, 11)), // 10
        Depends(4, 0, 10, 0, NULL),
        Returns(4, 1),
        Leave(12, 0, 5),
        Set(11, 0, 10, 0, 0),
        Start(10),
        Returns(10, 1),
        Leave(16, 1, 5),
        Satisfy(17, 0, 6, 0, 0, Done),
        Satisfy(16, 0, 11, 0, 1, Done),
        Set(18, 0, 8, 0, 0), // 20
        Start(8),
        Print(8, 0),
        End(8),
        Free(2, 1, NONE),
        End(2),
    ],
    rows: &[
        (
            10,
            Is(Task(4, 5, 9, &[], &[], OUTPUT, (Done, 10, 0, 6))),
            Some(10),
        ),
        (12, Is(End(4)), Some(12)),
        (13, Is(Leave(12, 1, 5)), Some(13)),
        (13, Is(Satisfy(12, 0, 6, 0, 1, Done)), Some(13)),
        (17, Is(Leave(16, 0, 5)), Some(17)),
        (17, Is(Satisfy(16, 1, 11, 0, 1, Done)), Some(17)),
        (17, Is(Satisfy(16, 0, 11, 0, 0, Done)), Some(17)),
        (17, Dropped, Some(17)),
        (18, Is(Satisfy(17, 0, 6, 0, 1, Done)), Some(18)),
        (18, Swapped, Some(20)),
        (19, Is(Satisfy(16, 0, 11, 0, 1, STALE)), Some(19)),
        (19, Dropped, None),
        (20, Is(Set(19, 0, 8, 0, 1)), Some(20)),
        (22, Is(Print(8, 1)), Some(22)),
        (26, Ends(Light), Some(26)),
    ],
};

// A creation that is refused joins no scope: the scope is done when its EDT has left.
const UNJOINED: Table = Table {
    text: b"fn top {
  let o = 7;
  print ocrEdtCreate(99, EDT_PARAM_DEF, [], EDT_PARAM_DEF, [], EDT_PROP_FINISH, &o); print o;
}
fn last { ocrShutdown(); }
fn mainEdt {
  let o = 0; let t = ocrEdtTemplateCreate(top, 0, 1);
  let f = ocrEdtCreate(t, EDT_PARAM_DEF, [], EDT_PARAM_DEF, [], EDT_PROP_FINISH, &o);
  ocrEdtCreate(ocrEdtTemplateCreate(last, 0, 1), EDT_PARAM_DEF, [], EDT_PARAM_DEF, [o], 0);
  ocrAddDependence(NULL_GUID, f, 0, DB_MODE_NULL);
}",
    lines: &[
        Acquire(2, 1),
        Start(2),
        Template(2, 1, 0, 1, 3),
        Task(2, 0, 3, &[], &[], BOTH, (Done, 4, 5, 6)),
        Template(2, 2, 0, 1, 7),
        Edt(2, 7, &[], &[6], Done, 8),
        Depends(2, 0, 4, 0, NULL),
        Set(6, 0, 4, 0, 0),
        Start(4),
        Task(4, 5, 99, &[], &[], BOTH, (Enoent, 0, 0, 0)),
        Print(4, 0), // 10
        Print(4, 0),
        End(4),
        Leave(12, 0, 5),
        Satisfy(13, 0, 6, 0, 0, Done),
        Set(14, 0, 8, 0, 0),
        Start(8),
        Shutdown(8),
    ],
    rows: &[
        (
            9,
            Is(Task(4, 0, 99, &[], &[], BOTH, (Enoent, 0, 0, 0))),
            Some(9),
        ),
        (
            9,
            Is(Task(4, 5, 99, &[], &[], BOTH, (Enoent, 0, 9, 0))),
            Some(9),
        ),
        (
            9,
            Is(Task(4, 5, 99, &[], &[], BOTH, (Enoent, 0, 0, 9))),
            Some(9),
        ),
        (
            9,
            Is(Task(4, 5, 99, &[], &[], BOTH, (Done, 9, 10, 11))),
            Some(9),
        ),
        (11, Is(Print(4, 7)), Some(11)),
        (12, Swapped, Some(12)),
        (13, Is(Leave(9, 0, 5)), Some(13)),
        (13, Ends(Light), None),
        (14, Is(Leave(13, 0, 5)), Some(14)),
        (15, Swapped, Some(15)),
        (17, Is(Leave(16, 0, 5)), Some(17)),
    ],
};

#[test]
fn finish_scopes_are_replayed(rt: HostRuntime) -> Result<(), Fail> {
    for table in [FAMILY, MEMBER, UNJOINED] {
        assert_eq!(rt; wrong_in(rt.alloc(), &table)?, None);
    }
    Ok(())
}

#[test]
fn scopes_in_scopes_are_replayed(rt: HostRuntime) -> Result<(), Fail> {
    for table in [NESTED, INNER, SILENT] {
        assert_eq!(rt; wrong_in(rt.alloc(), &table)?, None);
    }
    Ok(())
}
