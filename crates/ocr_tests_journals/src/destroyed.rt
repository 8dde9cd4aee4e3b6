// Journals in which blocks and templates are destroyed, worked out on paper.
use crate::lines::Line::{
    Acquire, Block, Depends, Destroy, Edt, End, Free, Light, Load, Print, Release, Set, Stale,
    Start, Store, Template, Untemplate, Wait,
};
use crate::lines::Words;
use crate::tables::Change::{Doubled, Dropped, Ends, Is, Swapped};
use crate::tables::{Table, wrong_in};
use ocr_guid::Code;
use ocr_guid::Code::{Done, Eperm};
use std::test::Fail;

const NULL: u64 = 0;

const RO: u64 = 1;

const CONST: u64 = 2;

const EW: u64 = 4;

const STALE: Code = Code::Stale;

const NONE: Words = &[];

// The creator destroys its block while EDT 5 waits for it.
const LATE: Table = Table {
    text: b"fn late { print depv[0]; }
fn mainEdt {
  let d = ocrDbCreate(8, 0); store(d, 0, 7);
  let w = ocrEdtCreate(ocrEdtTemplateCreate(late, 0, 1), EDT_PARAM_DEF, [], EDT_PARAM_DEF, [], 0);
  ocrAddDependence(d, w, 0, DB_MODE_EW);
  print load(d, 0); ocrDbDestroy(d);
}",
    lines: &[
        Acquire(2, 1),
        Start(2),
        Block(2, 8, 0, 3),
        Store(2, 3, 0, 7),
        Template(2, 1, 0, 1, 4),
        Edt(2, 4, &[], &[], Done, 5),
        Depends(2, 3, 5, 0, EW),
        Set(6, 0, 5, 0, 3),
        Wait(5, 3),
        Load(2, 3, 0, 7),
        Print(2, 7), // 10
        Destroy(2, 3, Done, NONE),
        Stale(5, 3),
        Start(5),
        Print(5, 0),
        End(5),
        Free(2, 1, NONE),
        End(2),
    ],
    rows: &[
        (3, Dropped, Some(3)),
        (8, Is(Acquire(5, 3)), Some(8)),
        (8, Is(Stale(5, 3)), Some(8)),
        // It asks only when the block is gone.
        (8, Dropped, None),
        (9, Is(Load(2, 3, 0, 0)), Some(9)),
        (11, Dropped, Some(11)),
        (11, Swapped, Some(11)),
        (11, Is(Destroy(2, 3, STALE, NONE)), Some(11)),
        (11, Is(Destroy(2, 3, Done, &[(0, 7)])), Some(11)),
        (12, Dropped, Some(12)),
        (12, Doubled, Some(13)),
        (12, Is(Acquire(5, 3)), Some(12)),
        (12, Is(Wait(5, 3)), Some(12)),
        (14, Is(Print(5, 3)), Some(14)),
        (16, Is(Free(2, 3, NONE)), Some(16)),
        (18, Ends(Light), Some(18)),
    ],
};

// EDT 7 destroys the block that EDT 5 holds, and EDT 5 reads on.
const HOLDER: Table = Table {
    text: b"fn hold { print load(depv[0], 0); }
fn kill { ocrDbDestroy(paramv[0]); }
fn mainEdt {
  let d = ocrDbCreate(8, 0); store(d, 0, 7); ocrDbRelease(d);
  ocrEdtCreate(ocrEdtTemplateCreate(kill, 1, 1), EDT_PARAM_DEF, [d], EDT_PARAM_DEF, [NULL_GUID], 0);
  ocrEdtCreate(ocrEdtTemplateCreate(hold, 0, 1), EDT_PARAM_DEF, [], EDT_PARAM_DEF, [d], 0);
}",
    lines: &[
        Acquire(2, 1),
        Start(2),
        Block(2, 8, 0, 3),
        Store(2, 3, 0, 7),
        Release(2, 3, Done, NONE),
        Template(2, 2, 1, 1, 4),
        Edt(2, 4, &[3], &[0], Done, 5),
        Template(2, 1, 0, 1, 6),
        Edt(2, 6, &[], &[3], Done, 7),
        Set(6, 0, 5, 0, 0),
        Set(8, 0, 7, 0, 3), // 10
        Acquire(7, 3),
        Start(7),
        Start(5),
        Destroy(5, 3, Done, NONE),
        End(5),
        Load(7, 3, 0, 7),
        Print(7, 7),
        Free(7, 3, NONE),
        End(7),
        Free(2, 1, NONE), // 20
        End(2),
    ],
    rows: &[
        // EDT 5 starts with an open slot.
        (9, Dropped, Some(12)),
        (11, Dropped, Some(11)),
        (12, Swapped, None),
        (14, Is(Destroy(5, 3, STALE, NONE)), Some(14)),
        (14, Is(Destroy(5, 3, Eperm, NONE)), Some(14)),
        (14, Doubled, Some(15)),
        (16, Is(Load(7, 3, 0, 0)), Some(16)),
        (16, Dropped, Some(16)),
        (18, Dropped, Some(18)),
        (18, Swapped, Some(18)),
        (20, Is(Free(2, 3, NONE)), Some(20)),
    ],
};

// EDT 5 holds the block, EDT 7 waits for it, EDT 2 destroys it twice; EDT 8 asks while it is held,
// and EDT 9 when it is gone.
const HELD: Table = Table {
    text: b"fn hold { print load(depv[0], 0); print ocrDbRelease(depv[0]); }
fn late { print depv[0]; }
fn mainEdt {
  let d = ocrDbCreate(8, DB_PROP_NO_ACQUIRE);
  let a = ocrEdtCreate(ocrEdtTemplateCreate(hold, 0, 1), EDT_PARAM_DEF, [], EDT_PARAM_DEF, [], 0);
  let t = ocrEdtTemplateCreate(late, 0, 1);
  let b = ocrEdtCreate(t, EDT_PARAM_DEF, [], EDT_PARAM_DEF, [], 0);
  let c = ocrEdtCreate(t, EDT_PARAM_DEF, [], EDT_PARAM_DEF, [], 0);
  let e = ocrEdtCreate(t, EDT_PARAM_DEF, [], EDT_PARAM_DEF, [], 0);
  ocrAddDependence(d, a, 0, DB_MODE_RO); ocrAddDependence(d, b, 0, DB_MODE_EW);
  ocrAddDependence(d, c, 0, DB_MODE_RO); ocrAddDependence(d, e, 0, DB_MODE_CONST);
  print ocrDbDestroy(d); print ocrDbDestroy(d);
}",
    lines: &[
        Acquire(2, 1),
        Start(2),
        Block(2, 8, 1, 3),
        Template(2, 1, 0, 1, 4),
        Edt(2, 4, &[], &[], Done, 5),
        Template(2, 2, 0, 1, 6),
        Edt(2, 6, &[], &[], Done, 7),
        Edt(2, 6, &[], &[], Done, 8),
        Edt(2, 6, &[], &[], Done, 9),
        Depends(2, 3, 5, 0, RO),
        Depends(2, 3, 7, 0, EW), // 10
        Depends(2, 3, 8, 0, RO),
        Depends(2, 3, 9, 0, CONST),
        Set(9, 0, 5, 0, 3),
        Set(10, 0, 7, 0, 3),
        Set(11, 0, 8, 0, 3),
        Set(12, 0, 9, 0, 3),
        Acquire(5, 3),
        Wait(7, 3),
        Destroy(2, 3, Done, NONE),
        Print(2, 0), // 20
        Wait(8, 3),
        Destroy(2, 3, STALE, NONE),
        Print(2, 200),
        Start(5),
        Load(5, 3, 0, 0),
        Print(5, 0),
        Release(5, 3, Done, NONE),
        Print(5, 0),
        End(5),
        Stale(8, 3), // 30
        Stale(7, 3),
        Stale(9, 3),
        Start(7),
        Print(7, 0),
        End(7),
        Start(8),
        Print(8, 0),
        End(8),
        Start(9),
        Print(9, 0), // 40
        End(9),
        Free(2, 1, NONE),
        End(2),
    ],
    rows: &[
        (18, Dropped, None),
        (19, Dropped, Some(19)),
        (19, Is(Destroy(2, 3, STALE, NONE)), Some(19)),
        (19, Is(Destroy(2, 3, Eperm, NONE)), Some(19)),
        (21, Is(Acquire(8, 3)), Some(21)),
        (21, Is(Stale(8, 3)), Some(21)),
        (21, Dropped, None),
        (22, Is(Destroy(2, 3, Done, NONE)), Some(22)),
        (23, Is(Print(2, 0)), Some(23)),
        (24, Swapped, Some(24)),
        (25, Is(Load(5, 3, 0, 7)), Some(25)),
        (27, Is(Release(5, 3, STALE, NONE)), Some(27)),
        (27, Is(Free(5, 3, NONE)), Some(27)),
        (27, Dropped, Some(27)),
        (30, Swapped, None),
        (30, Is(Acquire(8, 3)), Some(30)),
        (31, Dropped, Some(32)),
        (31, Doubled, Some(32)),
        (32, Is(Wait(9, 3)), Some(32)),
        (34, Is(Print(7, 3)), Some(34)),
        (44, Ends(Light), Some(44)),
    ],
};

// EDT 6 destroys the block that it reads, while two wait for it.
const READER: Table = Table {
    text: b"fn kill { print load(depv[0], 0); print ocrDbDestroy(depv[0]); print ocrDbRelease(depv[0]); }
fn late { print depv[0]; }
fn mainEdt {
  let d = ocrDbCreate(8, DB_PROP_NO_ACQUIRE);
  let t = ocrEdtTemplateCreate(late, 0, 1);
  let a = ocrEdtCreate(ocrEdtTemplateCreate(kill, 0, 1), EDT_PARAM_DEF, [], EDT_PARAM_DEF, [], 0);
  ocrEdtCreate(t, EDT_PARAM_DEF, [], EDT_PARAM_DEF, [d], 0); ocrEdtCreate(t, EDT_PARAM_DEF, [], EDT_PARAM_DEF, [d], 0);
  ocrAddDependence(d, a, 0, DB_MODE_CONST);
}",
    lines: &[
        Acquire(2, 1),
        Start(2),
        Block(2, 8, 1, 3),
        Template(2, 2, 0, 1, 4),
        Template(2, 1, 0, 1, 5),
        Edt(2, 5, &[], &[], Done, 6),
        Edt(2, 4, &[], &[3], Done, 7),
        Edt(2, 4, &[], &[3], Done, 8),
        Depends(2, 3, 6, 0, CONST),
        Set(6, 0, 7, 0, 3),
        Set(7, 0, 8, 0, 3), // 10
        Set(8, 0, 6, 0, 3),
        Acquire(6, 3),
        Wait(8, 3),
        Wait(7, 3),
        Start(6),
        Print(6, 0),
        Destroy(6, 3, Done, NONE),
        Print(6, 0),
        Release(6, 3, STALE, NONE),
        Print(6, 200), // 20
        End(6),
        Stale(7, 3),
        Stale(8, 3),
        Start(8),
        Print(8, 0),
        End(8),
        Start(7),
        Print(7, 0),
        End(7),
        Free(2, 1, NONE), // 30
        End(2),
    ],
    rows: &[
        (13, Swapped, None),
        (13, Dropped, None),
        (14, Is(Acquire(7, 3)), Some(14)),
        (16, Is(Load(6, 3, 0, 0)), Some(16)),
        (17, Is(Destroy(6, 3, Done, &[(0, 0)])), Some(17)),
        (17, Dropped, Some(17)),
        (19, Is(Release(6, 3, Done, NONE)), Some(19)),
        (19, Is(Release(6, 3, Eperm, NONE)), Some(19)),
        (20, Is(Print(6, 0)), Some(20)),
        (21, Is(Free(6, 3, NONE)), Some(21)),
        (22, Is(Acquire(7, 3)), Some(22)),
        (22, Swapped, None),
        (23, Dropped, Some(23)),
        (32, Ends(Light), Some(32)),
    ],
};

// A block that is gone gives NULL_GUID in its slot in RO, and its GUID in its slot in NULL.
const SLOTS: Table = Table {
    text: b"fn late { print depv[0]; print depv[1]; }
fn mainEdt {
  let d = ocrDbCreate(8, 0);
  let w = ocrEdtCreate(ocrEdtTemplateCreate(late, 0, 2), EDT_PARAM_DEF, [], EDT_PARAM_DEF, [], 0);
  ocrAddDependence(d, w, 0, DB_MODE_RO); ocrAddDependence(d, w, 1, DB_MODE_NULL); ocrDbDestroy(d);
}",
    lines: &[
        Acquire(2, 1),
        Start(2),
        Block(2, 8, 0, 3),
        Template(2, 1, 0, 2, 4),
        Edt(2, 4, &[], &[], Done, 5),
        Depends(2, 3, 5, 0, RO),
        Depends(2, 3, 5, 1, NULL),
        Destroy(2, 3, Done, NONE),
        Set(5, 0, 5, 0, 3),
        Set(6, 0, 5, 1, 3),
        Stale(5, 3), // 10
        Start(5),
        Print(5, 0),
        Print(5, 3),
        End(5),
        Free(2, 1, NONE),
        End(2),
    ],
    rows: &[
        (10, Dropped, Some(10)),
        (10, Is(Acquire(5, 3)), Some(10)),
        (10, Is(Wait(5, 3)), Some(10)),
        (12, Is(Print(5, 3)), Some(12)),
        (13, Is(Print(5, 0)), Some(13)),
        (14, Is(Free(5, 3, NONE)), Some(14)),
    ],
};

// A destroyed template makes no EDT; what it made before starts.
const TEMPLATE: Table = Table {
    text: b"fn one { print 1; }
fn mainEdt {
  let t = ocrEdtTemplateCreate(one, 0, 0);
  ocrEdtCreate(t, EDT_PARAM_DEF, [], EDT_PARAM_DEF, [], 0);
  print ocrEdtTemplateDestroy(t);
  print ocrEdtCreate(t, EDT_PARAM_DEF, [], EDT_PARAM_DEF, [], 0); print code;
  print ocrEdtTemplateDestroy(t);
}",
    lines: &[
        Acquire(2, 1),
        Start(2),
        Template(2, 1, 0, 0, 3),
        Edt(2, 3, &[], &[], Done, 4),
        Untemplate(2, 3, Done),
        Print(2, 0),
        Edt(2, 3, &[], &[], STALE, 0),
        Print(2, 0),
        Print(2, 200),
        Untemplate(2, 3, STALE),
        Print(2, 200), // 10
        Start(4),
        Print(4, 1),
        End(4),
        Free(2, 1, NONE),
        End(2),
    ],
    rows: &[
        (3, Swapped, Some(3)),
        (4, Dropped, Some(4)),
        (4, Is(Untemplate(2, 3, STALE)), Some(4)),
        (4, Is(Start(4)), Some(5)),
        (6, Is(Edt(2, 3, &[], &[], Done, 5)), Some(6)),
        (6, Is(Edt(2, 3, &[], &[], Code::Enoent, 0)), Some(6)),
        (8, Is(Print(2, 0)), Some(8)),
        (9, Is(Untemplate(2, 3, Done)), Some(9)),
        (9, Doubled, Some(10)),
    ],
};

#[test]
fn destructions_are_replayed(rt: HostRuntime) -> Result<(), Fail> {
    for table in [LATE, HOLDER, HELD] {
        assert_eq!(rt; wrong_in(rt.alloc(), &table)?, None);
    }
    Ok(())
}

#[test]
fn what_is_destroyed_is_gone(rt: HostRuntime) -> Result<(), Fail> {
    for table in [READER, SLOTS, TEMPLATE] {
        assert_eq!(rt; wrong_in(rt.alloc(), &table)?, None);
    }
    Ok(())
}
