// Output events and finish scopes, by one, two and four workers.
use crate::workers::first_wrong;
use ocr_tests_run::{ADDERS, Row};
use std::test::Fail;

// What the EDT of `make` returns is given to that of `show`, in the slot's mode.
const GIVEN: &[u8] = b"fn make { let d = ocrDbCreate(8, 0); store(d, 0, 7); return d; }
fn show { print depv[0]; print load(depv[0], 0); }
fn mainEdt {
  let o = 0;
  let m = ocrEdtCreate(ocrEdtTemplateCreate(make, 0, 1),
    EDT_PARAM_DEF, [], EDT_PARAM_DEF, [], 0, &o);
  let s = ocrEdtCreate(ocrEdtTemplateCreate(show, 0, 1), EDT_PARAM_DEF, [], EDT_PARAM_DEF, [], 0);
  ocrAddDependence(o, s, 0, DB_MODE_CONST); ocrAddDependence(NULL_GUID, m, 0, DB_MODE_NULL);
}";

// What is returned and names no block counts as NULL_GUID: a template, an EDT, an event, a number
// that is none, one past the limit, and UNINITIALIZED_GUID. Block 1 is one.
const NAMELESS: &[u8] = b"fn give { return paramv[0]; }
fn show { let i = 0; while i < depc { print depv[i]; i = i + 1; } }
fn mainEdt {
  let t = ocrEdtTemplateCreate(give, 1, 1);
  let s = ocrEdtCreate(ocrEdtTemplateCreate(show, 0, 7), EDT_PARAM_DEF, [], EDT_PARAM_DEF, [], 0);
  let i = 0; let e = ocrEventCreate(OCR_EVENT_STICKY_T, EVT_PROP_TAKES_ARG);
  while i < 7 {
    let g = t;
    if i == 1 { g = 2; }
    if i == 2 { g = e; }
    if i == 3 { g = 4000; }
    if i == 4 { g = 5000; }
    if i == 5 { g = UNINITIALIZED_GUID; }
    if i == 6 { g = 1; }
    let o = 0;
    let a = ocrEdtCreate(t, EDT_PARAM_DEF, [g], EDT_PARAM_DEF, [], 0, &o);
    ocrAddDependence(o, s, i, DB_MODE_NULL);
    ocrAddDependence(NULL_GUID, a, 0, DB_MODE_NULL);
    i = i + 1;
  }
}";

// A block that was destroyed is returned: EDT 9 finds it gone, and EDT 10 does not ask for it.
const GONE: &[u8] = b"fn make { let d = ocrDbCreate(8, 0); ocrDbDestroy(d); return d; }
fn show { print depv[0]; ocrEventSatisfy(paramv[0], NULL_GUID); }
fn mainEdt {
  let o = 0; let t = ocrEdtTemplateCreate(show, 1, 2);
  let m = ocrEdtCreate(ocrEdtTemplateCreate(make, 0, 1),
    EDT_PARAM_DEF, [], EDT_PARAM_DEF, [], 0, &o);
  let e = ocrEventCreate(OCR_EVENT_STICKY_T, 0); let f = ocrEventCreate(OCR_EVENT_STICKY_T, 0);
  let r = ocrEdtCreate(t, EDT_PARAM_DEF, [e], EDT_PARAM_DEF, [], 0);
  ocrAddDependence(o, r, 0, DB_MODE_RO); ocrAddDependence(NULL_GUID, r, 1, DB_MODE_NULL);
  let n = ocrEdtCreate(t, EDT_PARAM_DEF, [f], EDT_PARAM_DEF, [], 0);
  ocrAddDependence(o, n, 0, DB_MODE_NULL); ocrAddDependence(e, n, 1, DB_MODE_NULL);
  ocrAddDependence(NULL_GUID, m, 0, DB_MODE_NULL);
}";

// The output event is destroyed before its EDT ends, which is delivered to nobody.
const DESTROYED: &[u8] = b"fn work { print 1; }
fn never { print 2; }
fn mainEdt {
  let o = 0;
  let w = ocrEdtCreate(ocrEdtTemplateCreate(work, 0, 1),
    EDT_PARAM_DEF, [], EDT_PARAM_DEF, [], 0, &o);
  ocrEdtCreate(ocrEdtTemplateCreate(never, 0, 1), EDT_PARAM_DEF, [], EDT_PARAM_DEF, [o], 0);
  print ocrEventDestroy(o); ocrAddDependence(NULL_GUID, w, 0, DB_MODE_NULL);
}";

// A body satisfies the output event of an EDT that has not begun: what that returns comes too late.
const TAKEN: &[u8] = b"fn work { print 3; return 1; }
fn first { print depv[0]; ocrAddDependence(NULL_GUID, paramv[0], 0, DB_MODE_NULL); }
fn mainEdt {
  let o = 0;
  let w = ocrEdtCreate(ocrEdtTemplateCreate(work, 0, 1),
    EDT_PARAM_DEF, [], EDT_PARAM_DEF, [], 0, &o);
  let f = ocrEdtCreate(ocrEdtTemplateCreate(first, 1, 2), EDT_PARAM_DEF, [w], EDT_PARAM_DEF, [], 0);
  ocrAddDependence(o, f, 0, DB_MODE_NULL);
  print ocrEventSatisfySlot(o, 1, 1); print ocrEventSatisfy(o, 1); print ocrEventSatisfy(o, 1);
  print ocrAddDependence(o, w, 0, DB_MODE_NULL);
  ocrAddDependence(NULL_GUID, f, 1, DB_MODE_NULL);
}";

// An output event brings a block to an event that takes none, and to one that hands it on.
const REFUSED: &[u8] = b"fn give { return 1; }
fn never { print 1; }
fn show { print depv[0]; }
fn mainEdt {
  let o = 0;
  let a = ocrEdtCreate(ocrEdtTemplateCreate(give, 0, 1),
    EDT_PARAM_DEF, [], EDT_PARAM_DEF, [], 0, &o);
  let e = ocrEventCreate(OCR_EVENT_STICKY_T, EVT_PROP_NONE);
  let f = ocrEventCreate(OCR_EVENT_IDEM_T, EVT_PROP_TAKES_ARG);
  ocrEdtCreate(ocrEdtTemplateCreate(never, 0, 1), EDT_PARAM_DEF, [], EDT_PARAM_DEF, [e], 0);
  let s = ocrEdtCreate(ocrEdtTemplateCreate(show, 0, 1), EDT_PARAM_DEF, [], EDT_PARAM_DEF, [], 0);
  ocrAddDependence(o, e, 0, 0); ocrAddDependence(o, f, 0, 0);
  ocrAddDependence(f, s, 0, DB_MODE_NULL);
  ocrAddDependence(NULL_GUID, a, 0, DB_MODE_NULL);
}";

// A creation that is refused sets its variable to 0, whatever that was.
const UNMADE: &[u8] = b"fn one { }
fn mainEdt {
  let t = ocrEdtTemplateCreate(one, 0, 1); let o = 7;
  print ocrEdtCreate(t, 1, [5], EDT_PARAM_DEF, [], EDT_PROP_FINISH, &o); print code; print o;
  o = 7; print ocrEdtCreate(t, 0, [], 1, [], 2, &o); print code; print o;
  o = 7; print ocrEdtCreate(9, 0, [], 1, [], 0, &o); print code; print o;
  print ocrEdtCreate(t, 0, [], 1, [], EDT_PROP_FINISH, &o); print code; print o;
  print ocrEdtCreate(t, 0, [], 1, [], EDT_PROP_NONE, &o); print code; print o;
  print ocrEdtCreate(t, 0, [], 1, [], EDT_PROP_FINISH); print ocrDbCreate(8, 0);
  print ocrEventSatisfy(5, 0); print ocrEventDestroy(5); print ocrAddDependence(5, 4, 0, 0);
  print ocrEdtTemplateDestroy(5); print ocrDbRelease(5); print ocrAddDependence(0, 5, 0, 0);
  ocrShutdown();
}";

// Each way to make an EDT, none of which can start, and a creation that is refused.
const ANSWERS: &[u8] = b"fn one { }
fn mainEdt {
  let t = ocrEdtTemplateCreate(one, 1, 2); let o = UNINITIALIZED_GUID;
  ocrEdtCreate(t, EDT_PARAM_DEF, [7], 2, [o, o], EDT_PROP_FINISH, &o);
  ocrEdtCreate(t, 1, [8], 2, [], EDT_PROP_FINISH);
  ocrEdtCreate(t, 1, [9], 2, [o, UNINITIALIZED_GUID], EDT_PROP_NONE, &o);
  ocrEdtCreate(t, 1, [9], 2, [], 2, &o); ocrShutdown();
}";

const ANSWERS_OUT: &[u8] = b"journal 8
0 acquire 2 1
1 start 2
2 call 2 ocrEdtTemplateCreate one 1 2 -> 0 3
3 call 2 ocrEdtCreate 3 4294967294 [7] 2 [18446744073709551615 18446744073709551615] 1 -> 0 4 5 6
4 call 2 ocrEdtCreate 3 1 [8] 2 [] 1 -> 0 7 8 0
5 call 2 ocrEdtCreate 3 1 [9] 2 [6 18446744073709551615] 0 -> 0 9 0 10
6 call 2 ocrEdtCreate 3 1 [9] 2 [] 2 -> 22 0 0 0
7 stop shutdown 2
";

/// What one body prints, and what an output event brings.
pub static OUTPUT_ROWS: [Row; 9] = [
    Row {
        words: &["--summary", "--left", "--stale", "--refused"],
        text: ADDERS,
        status: 0,
        out: b"8\nedts 10 started 10 left 0 stale 0\nleft 0\nstale 0\nrefused 0\n",
        err: b"",
    },
    Row {
        words: &["--blocks"],
        text: GIVEN,
        status: 0,
        out: b"8\n7\nblocks 2\nblock 1 words 1 live\nblock 8 words 1 live\n",
        err: b"",
    },
    Row {
        words: &["--summary", "--refused"],
        text: NAMELESS,
        status: 0,
        out: b"0\n0\n0\n0\n0\n0\n1\nedts 9 started 9 left 0 stale 0\nrefused 0\n",
        err: b"",
    },
    Row {
        words: &["--stale", "--blocks"],
        text: GONE,
        status: 0,
        out: b"0\n11\nstale 1\nacquire 9 11\nblocks 2\nblock 1 words 1 live\nblock 11 words 1 gone\n",
        err: b"",
    },
    Row {
        words: &["--summary", "--left", "--stale", "--refused"],
        text: DESTROYED,
        status: 4,
        out: b"0\n1\nedts 3 started 2 left 1 stale 1\nleft 1\nedt 7 open 0\nstale 1\ndelivery 5\n\
            refused 0\n",
        err: b"stuck: 1\n",
    },
    Row {
        words: &["--stale", "--refused"],
        text: TAKEN,
        status: 0,
        out: b"22\n0\n200\n200\n1\n3\nstale 3\ncall 2 5\ncall 2 5\ndelivery 5\nrefused 0\n",
        err: b"",
    },
    Row {
        words: &["--left", "--refused"],
        text: REFUSED,
        status: 4,
        out: b"1\nleft 1\nedt 9 open 0\nrefused 1\ndelivery 6 22\n",
        err: b"stuck: 1\n",
    },
    Row {
        words: &["--summary"],
        text: UNMADE,
        status: 0,
        out: b"0\n22\n0\n0\n22\n0\n0\n2\n0\n4\n0\n6\n7\n0\n8\n9\n11\n22\n22\n22\n22\n22\n22\n\
            edts 4 started 1 left 3 stale 0\n",
        err: b"",
    },
    Row {
        words: &["--journal"],
        text: ANSWERS,
        status: 0,
        out: ANSWERS_OUT,
        err: b"",
    },
];

#[test]
fn output_events_are_the_same_by_any_number_of_workers(rt: HostRuntime) -> Result<(), Fail> {
    assert_eq!(rt; first_wrong(&rt, rt.alloc(), &OUTPUT_ROWS)?, None);
    Ok(())
}

/// A finish EDT with a child and a grandchild; its output event sets off the last one.
pub const FAMILY: &[u8] = b"fn leaf { print 3; }
fn child {
  print 2; ocrEdtCreate(ocrEdtTemplateCreate(leaf, 0, 0), EDT_PARAM_DEF, [], EDT_PARAM_DEF, [], 0);
}
fn top {
  print 1; ocrEdtCreate(ocrEdtTemplateCreate(child, 0, 0), EDT_PARAM_DEF, [], EDT_PARAM_DEF, [], 0);
}
fn done { print 4; }
fn mainEdt {
  let o = 0; let t = ocrEdtTemplateCreate(top, 0, 1);
  let f = ocrEdtCreate(t, EDT_PARAM_DEF, [], EDT_PARAM_DEF, [], EDT_PROP_FINISH, &o);
  let d = ocrEdtCreate(ocrEdtTemplateCreate(done, 0, 1), EDT_PARAM_DEF, [], EDT_PARAM_DEF, [], 0);
  ocrAddDependence(o, d, 0, DB_MODE_NULL); ocrAddDependence(NULL_GUID, f, 0, DB_MODE_NULL);
}";

// The grandchild ends the run.
const CUT_OFF: &[u8] = b"fn leaf { print 3; ocrShutdown(); }
fn child {
  print 2; ocrEdtCreate(ocrEdtTemplateCreate(leaf, 0, 0), EDT_PARAM_DEF, [], EDT_PARAM_DEF, [], 0);
}
fn top {
  print 1; ocrEdtCreate(ocrEdtTemplateCreate(child, 0, 0), EDT_PARAM_DEF, [], EDT_PARAM_DEF, [], 0);
}
fn done { print 4; }
fn mainEdt {
  let o = 0; let t = ocrEdtTemplateCreate(top, 0, 1);
  let f = ocrEdtCreate(t, EDT_PARAM_DEF, [], EDT_PARAM_DEF, [], EDT_PROP_FINISH, &o);
  let d = ocrEdtCreate(ocrEdtTemplateCreate(done, 0, 1), EDT_PARAM_DEF, [], EDT_PARAM_DEF, [], 0);
  ocrAddDependence(o, d, 0, DB_MODE_NULL); ocrAddDependence(NULL_GUID, f, 0, DB_MODE_NULL);
}";

// A scope in a scope, both with an output event: the inner one sets off an EDT of the outer one.
const NESTED: &[u8] = b"fn leaf { print 3; }
fn inner {
  print 2; ocrEdtCreate(ocrEdtTemplateCreate(leaf, 0, 0), EDT_PARAM_DEF, [], EDT_PARAM_DEF, [], 0);
}
fn between { print 4; }
fn outer {
  print 1;
  let o = 0; let t = ocrEdtTemplateCreate(inner, 0, 1);
  let i = ocrEdtCreate(t, EDT_PARAM_DEF, [], EDT_PARAM_DEF, [], EDT_PROP_FINISH, &o);
  ocrEdtCreate(ocrEdtTemplateCreate(between, 0, 1), EDT_PARAM_DEF, [], EDT_PARAM_DEF, [o], 0);
  ocrAddDependence(NULL_GUID, i, 0, DB_MODE_NULL);
}
fn last { print 5; }
fn mainEdt {
  let o = 0; let t = ocrEdtTemplateCreate(outer, 0, 1);
  let f = ocrEdtCreate(t, EDT_PARAM_DEF, [], EDT_PARAM_DEF, [], EDT_PROP_FINISH, &o);
  ocrEdtCreate(ocrEdtTemplateCreate(last, 0, 1), EDT_PARAM_DEF, [], EDT_PARAM_DEF, [o], 0);
  ocrAddDependence(NULL_GUID, f, 0, DB_MODE_NULL);
}";

// The same where only the outermost of three has an output event: the others leave without a word.
const SILENT: &[u8] = b"fn leaf { print 4; }
fn inner {
  print 3; ocrEdtCreate(ocrEdtTemplateCreate(leaf, 0, 0), EDT_PARAM_DEF, [], EDT_PARAM_DEF, [], 0);
}
fn middle {
  print 2; let t = ocrEdtTemplateCreate(inner, 0, 0);
  ocrEdtCreate(t, EDT_PARAM_DEF, [], EDT_PARAM_DEF, [], EDT_PROP_FINISH);
}
fn outer {
  print 1; let t = ocrEdtTemplateCreate(middle, 0, 0);
  ocrEdtCreate(t, EDT_PARAM_DEF, [], EDT_PARAM_DEF, [], EDT_PROP_FINISH);
}
fn last { print 5; }
fn mainEdt {
  let o = 0; let t = ocrEdtTemplateCreate(outer, 0, 1);
  let f = ocrEdtCreate(t, EDT_PARAM_DEF, [], EDT_PARAM_DEF, [], EDT_PROP_FINISH, &o);
  ocrEdtCreate(ocrEdtTemplateCreate(last, 0, 1), EDT_PARAM_DEF, [], EDT_PARAM_DEF, [o], 0);
  ocrAddDependence(NULL_GUID, f, 0, DB_MODE_NULL);
}";

// A finish EDT in each scope, ten deep: the number of each is printed once the one inside is done.
const DEEP: &[u8] = b"fn say { print paramv[0]; }
fn down {
  if paramv[0] == 0 { return NULL_GUID; }
  let o = 0; let less = paramv[0] - 1;
  let n = ocrEdtCreate(paramv[1], EDT_PARAM_DEF, [less, paramv[1], paramv[2]],
    EDT_PARAM_DEF, [], EDT_PROP_FINISH, &o);
  ocrEdtCreate(paramv[2], EDT_PARAM_DEF, [paramv[0]], EDT_PARAM_DEF, [o], EDT_PROP_NONE);
  ocrAddDependence(NULL_GUID, n, 0, DB_MODE_NULL);
}
fn mainEdt {
  let t = ocrEdtTemplateCreate(down, 3, 1); let s = ocrEdtTemplateCreate(say, 1, 1);
  ocrEdtCreate(t, EDT_PARAM_DEF, [10, t, s], EDT_PARAM_DEF, [NULL_GUID], EDT_PROP_NONE);
}";

// A tree of 63 EDTs in one scope, or each in a scope of its own, as the argument says: they count
// in a block, and the last EDT shows it.
const TREE: &[u8] = b"fn node {
  store(depv[0], 0, load(depv[0], 0) + 1);
  let i = 0; let less = paramv[0] - 1;
  while i < 2 - !paramv[0] * 2 {
    let n = ocrEdtCreate(paramv[1], EDT_PARAM_DEF, [less, paramv[1], paramv[2]],
      EDT_PARAM_DEF, [], paramv[2]);
    ocrAddDependence(depv[0], n, 0, DB_MODE_EW);
    i = i + 1;
  }
}
fn show { print load(depv[0], 0); }
fn mainEdt {
  let o = 0; let d = ocrDbCreate(8, DB_PROP_NO_ACQUIRE); let flags = load(depv[0], 1);
  let t = ocrEdtTemplateCreate(node, 3, 1);
  let r = ocrEdtCreate(t, EDT_PARAM_DEF, [5, t, flags], EDT_PARAM_DEF, [], EDT_PROP_FINISH, &o);
  let s = ocrEdtCreate(ocrEdtTemplateCreate(show, 0, 2), EDT_PARAM_DEF, [], EDT_PARAM_DEF, [], 0);
  ocrAddDependence(d, s, 0, DB_MODE_RO); ocrAddDependence(o, s, 1, DB_MODE_NULL);
  ocrAddDependence(d, r, 0, DB_MODE_EW);
}";

// Three phases, each of which begins when all EDTs of the one before have ended.
const PHASES: &[u8] = b"fn part { print paramv[0]; }
fn phase {
  let i = 0;
  while i < 2 { ocrEdtCreate(paramv[1], 1, [paramv[0]], 0, [], EDT_PROP_NONE); i = i + 1; }
}
fn mainEdt {
  let p = ocrEdtTemplateCreate(part, 1, 0); let t = ocrEdtTemplateCreate(phase, 2, 1);
  let go = ocrEventCreate(OCR_EVENT_STICKY_T, EVT_PROP_NONE); let before = go; let i = 1;
  while i <= 3 {
    let o = 0;
    ocrEdtCreate(t, EDT_PARAM_DEF, [i, p], EDT_PARAM_DEF, [before], EDT_PROP_FINISH, &o);
    before = o; i = i + 1;
  }
  ocrEventSatisfy(go, NULL_GUID);
}";

// In a scope an EDT with an output event of its own hands on what it returns; the scope's event
// brings NULL_GUID, whatever its EDT returns.
const MEMBER: &[u8] = b"fn leaf { print 2; return 1; }
fn middle { print depv[0] + 2; }
fn top {
  print 1; let o = 0; let t = ocrEdtTemplateCreate(leaf, 0, 1);
  let l = ocrEdtCreate(t, EDT_PARAM_DEF, [], EDT_PARAM_DEF, [], EDT_PROP_NONE, &o);
  let m = ocrEdtCreate(ocrEdtTemplateCreate(middle, 0, 1), EDT_PARAM_DEF, [], EDT_PARAM_DEF, [], 0);
  ocrAddDependence(o, m, 0, DB_MODE_NULL); ocrAddDependence(NULL_GUID, l, 0, DB_MODE_NULL);
  return 1;
}
fn last { print depv[0]; }
fn mainEdt {
  let o = 0; let t = ocrEdtTemplateCreate(top, 0, 1);
  let f = ocrEdtCreate(t, EDT_PARAM_DEF, [], EDT_PARAM_DEF, [], EDT_PROP_FINISH, &o);
  let w = ocrEdtCreate(ocrEdtTemplateCreate(last, 0, 1), EDT_PARAM_DEF, [], EDT_PARAM_DEF, [], 0);
  ocrAddDependence(o, w, 0, DB_MODE_NULL); ocrAddDependence(NULL_GUID, f, 0, DB_MODE_NULL);
}";

// Creations that are refused join no scope.
const UNJOINED: &[u8] = b"fn top {
  let o = 7;
  print ocrEdtCreate(paramv[0], 1, [], 0, [], EDT_PROP_FINISH, &o); print o;
  print ocrEdtCreate(99, 0, [], 0, [], EDT_PROP_NONE); print code;
}
fn last { print depv[0] + 5; }
fn mainEdt {
  let o = 0; let t = ocrEdtTemplateCreate(top, 1, 1);
  let f = ocrEdtCreate(t, EDT_PARAM_DEF, [t], EDT_PARAM_DEF, [], EDT_PROP_FINISH, &o);
  let w = ocrEdtCreate(ocrEdtTemplateCreate(last, 0, 1), EDT_PARAM_DEF, [], EDT_PARAM_DEF, [], 0);
  ocrAddDependence(o, w, 0, DB_MODE_NULL); ocrAddDependence(NULL_GUID, f, 0, DB_MODE_NULL);
}";

// A member never starts, so its scope is never done.
const STUCK: &[u8] = b"fn never { print 2; }
fn top {
  print 1;
  ocrEdtCreate(ocrEdtTemplateCreate(never, 0, 1), EDT_PARAM_DEF, [], EDT_PARAM_DEF, [], 0);
}
fn last { print 3; }
fn mainEdt {
  let o = 0; let t = ocrEdtTemplateCreate(top, 0, 1);
  let f = ocrEdtCreate(t, EDT_PARAM_DEF, [], EDT_PARAM_DEF, [], EDT_PROP_FINISH, &o);
  ocrEdtCreate(ocrEdtTemplateCreate(last, 0, 1), EDT_PARAM_DEF, [], EDT_PARAM_DEF, [o], 0);
  ocrAddDependence(NULL_GUID, f, 0, DB_MODE_NULL);
}";

// The output event is destroyed while its scope still has a member.
const FORGOTTEN: &[u8] = b"fn leaf { print 2; }
fn top {
  print 1; print ocrEventDestroy(paramv[0]);
  ocrEdtCreate(ocrEdtTemplateCreate(leaf, 0, 0), EDT_PARAM_DEF, [], EDT_PARAM_DEF, [], 0);
}
fn last { print 3; }
fn mainEdt {
  let o = 0; let t = ocrEdtTemplateCreate(top, 1, 1);
  let f = ocrEdtCreate(t, EDT_PARAM_DEF, [6], EDT_PARAM_DEF, [], EDT_PROP_FINISH, &o);
  ocrEdtCreate(ocrEdtTemplateCreate(last, 0, 1), EDT_PARAM_DEF, [], EDT_PARAM_DEF, [o], 0);
  ocrAddDependence(NULL_GUID, f, 0, DB_MODE_NULL);
}";

// What a finish EDT with its scope and its output event takes of the numbers.
const NUMBERS: &[u8] = b"fn one { }
fn mainEdt {
  let o = 0; let t = ocrEdtTemplateCreate(one, 0, 1);
  print ocrEdtCreate(t, 0, [], 1, [], EDT_PROP_FINISH, &o); print o; ocrShutdown();
}";

/// What comes of scopes.
pub static SCOPE_ROWS: [Row; 15] = [
    Row {
        words: &["--summary"],
        text: FAMILY,
        status: 0,
        out: b"1\n2\n3\n4\nedts 5 started 5 left 0 stale 0\n",
        err: b"",
    },
    Row {
        words: &["--summary", "--left"],
        text: CUT_OFF,
        status: 0,
        out: b"1\n2\n3\nedts 5 started 4 left 1 stale 0\nleft 1\nedt 8 open 0\n",
        err: b"",
    },
    Row {
        words: &["--summary", "--left", "--stale", "--refused"],
        text: NESTED,
        status: 0,
        out: b"1\n2\n3\n4\n5\nedts 6 started 6 left 0 stale 0\nleft 0\nstale 0\nrefused 0\n",
        err: b"",
    },
    Row {
        words: &["--summary", "--refused"],
        text: SILENT,
        status: 0,
        out: b"1\n2\n3\n4\n5\nedts 6 started 6 left 0 stale 0\nrefused 0\n",
        err: b"",
    },
    Row {
        words: &["--summary"],
        text: DEEP,
        status: 0,
        out: b"1\n2\n3\n4\n5\n6\n7\n8\n9\n10\nedts 22 started 22 left 0 stale 0\n",
        err: b"",
    },
    Row {
        words: &["--summary", "0"],
        text: TREE,
        status: 0,
        out: b"63\nedts 65 started 65 left 0 stale 0\n",
        err: b"",
    },
    Row {
        words: &["--summary", "1"],
        text: TREE,
        status: 0,
        out: b"63\nedts 65 started 65 left 0 stale 0\n",
        err: b"",
    },
    Row {
        words: &["--summary"],
        text: PHASES,
        status: 0,
        out: b"1\n1\n2\n2\n3\n3\nedts 10 started 10 left 0 stale 0\n",
        err: b"",
    },
    Row {
        words: &["--summary"],
        text: MEMBER,
        status: 0,
        out: b"1\n2\n3\n0\nedts 5 started 5 left 0 stale 0\n",
        err: b"",
    },
    Row {
        words: &["--summary"],
        text: UNJOINED,
        status: 0,
        out: b"0\n0\n0\n2\n5\nedts 3 started 3 left 0 stale 0\n",
        err: b"",
    },
    Row {
        words: &["--summary", "--left", "--stale", "--refused"],
        text: STUCK,
        status: 4,
        out: b"1\nedts 4 started 2 left 2 stale 0\nleft 2\nedt 8 open 0\nedt 10 open 0\nstale 0\n\
            refused 0\n",
        err: b"stuck: 2\n",
    },
    Row {
        words: &["--summary", "--left", "--stale", "--refused"],
        text: FORGOTTEN,
        status: 4,
        out: b"1\n0\n2\nedts 4 started 3 left 1 stale 1\nleft 1\nedt 8 open 0\nstale 1\n\
            delivery 6\nrefused 0\n",
        err: b"stuck: 1\n",
    },
    Row {
        words: &["--objects", "6"],
        text: NUMBERS,
        status: 0,
        out: b"4\n6\n",
        err: b"",
    },
    Row {
        words: &["--objects", "5"],
        text: NUMBERS,
        status: 10,
        out: b"",
        err: b"limit: objects\n",
    },
    Row {
        words: &["--objects", "4", "--summary", "--left"],
        text: NUMBERS,
        status: 10,
        out: b"edts 1 started 1 left 0 stale 0\nleft 0\n",
        err: b"limit: objects\n",
    },
];

#[test]
fn finish_scopes_are_the_same_by_any_number_of_workers(rt: HostRuntime) -> Result<(), Fail> {
    assert_eq!(rt; first_wrong(&rt, rt.alloc(), &SCOPE_ROWS)?, None);
    Ok(())
}
