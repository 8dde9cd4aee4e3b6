// Events, latches and channels, by one, two and four workers.
use crate::workers::first_wrong;
use ocr_tests_run::{FIBONACCI, Row};
use std::test::Fail;

// An event sets the last of 32 slots; the EDT that satisfies it has none.
const WIDE: &[u8] = b"fn zero { print depc; ocrEventSatisfy(paramv[0], NULL_GUID); }
fn wide { print depc; }
fn mainEdt {
  let e = ocrEventCreate(OCR_EVENT_STICKY_T, 0);
  let w = ocrEdtCreate(ocrEdtTemplateCreate(wide, 0, 32), EDT_PARAM_DEF, [], EDT_PARAM_DEF, [], 0);
  let i = 0;
  while i < 31 { ocrAddDependence(NULL_GUID, w, i, DB_MODE_NULL); i = i + 1; }
  ocrAddDependence(e, w, 31, DB_MODE_NULL);
  ocrEdtCreate(ocrEdtTemplateCreate(zero, 1, 0), EDT_PARAM_DEF, [e], EDT_PARAM_DEF, [], 0);
}";

// A second satisfaction: a STICKY event refuses it, and an IDEM event passes it over.
const TWICE: &[u8] = b"fn mainEdt {
  let s = ocrEventCreate(OCR_EVENT_STICKY_T, 0); let i = ocrEventCreate(OCR_EVENT_IDEM_T, 0);
  print ocrEventSatisfy(s, NULL_GUID); print ocrEventSatisfy(s, NULL_GUID);
  print ocrEventSatisfy(i, NULL_GUID); print ocrEventSatisfy(i, NULL_GUID);
}";

// A ONCE event is destroyed by firing.
const ONCE: &[u8] = b"fn nine { print 9; }
fn mainEdt {
  let e = ocrEventCreate(OCR_EVENT_ONCE_T, 0);
  let w = ocrEdtCreate(ocrEdtTemplateCreate(nine, 0, 1), EDT_PARAM_DEF, [], EDT_PARAM_DEF, [], 0);
  print ocrEventSatisfy(e, NULL_GUID);
  print ocrAddDependence(e, w, 0, DB_MODE_NULL);
  ocrAddDependence(NULL_GUID, w, 0, DB_MODE_NULL);
}";

// Two latches, the second with a target: each fires where its two counts are even.
const LATCHES: &[u8] = b"fn seven { print 7; }
fn mainEdt {
  let a = ocrEventCreate(OCR_EVENT_LATCH_T, 0);
  print ocrEventSatisfySlot(a, 0, 1); print ocrEventSatisfySlot(a, 0, 1);
  print ocrEventSatisfySlot(a, 0, 0); print ocrEventSatisfySlot(a, 0, 0);
  print ocrEventSatisfySlot(a, 0, 1);
  let b = ocrEventCreate(OCR_EVENT_LATCH_T, 0);
  let w = ocrEdtCreate(ocrEdtTemplateCreate(seven, 0, 2), EDT_PARAM_DEF, [], EDT_PARAM_DEF, [], 0);
  ocrAddDependence(b, w, 0, DB_MODE_NULL);
  print ocrEventSatisfySlot(b, 0, 0); print ocrEventSatisfySlot(b, 0, 1);
  print ocrEventSatisfySlot(b, 0, 1);
  ocrAddDependence(NULL_GUID, w, 1, DB_MODE_NULL);
}";

// A channel keeps two payloads and refuses a third; two slots get the two in their order.
const CHANNEL: &[u8] = b"fn two { print load(depv[0], 0); print load(depv[1], 0); }
fn mainEdt {
  let c = ocrEventCreateParams(OCR_EVENT_CHANNEL_T, EVT_PROP_TAKES_ARG, 2, 1, 1);
  let a = ocrDbCreate(8, 0); store(a, 0, 11); ocrDbRelease(a);
  let b = ocrDbCreate(8, 0); store(b, 0, 12); ocrDbRelease(b);
  print ocrEventSatisfy(c, a); print ocrEventSatisfy(c, b); print ocrEventSatisfy(c, a);
  let w = ocrEdtCreate(ocrEdtTemplateCreate(two, 0, 2), EDT_PARAM_DEF, [], EDT_PARAM_DEF, [], 0);
  ocrAddDependence(c, w, 0, DB_MODE_RO); ocrAddDependence(c, w, 1, DB_MODE_RO);
}";

// The holder of a block lets another EDT destroy it, and reads on.
const HOLDER: &[u8] = b"fn hold { ocrEventSatisfy(paramv[0], NULL_GUID); print load(depv[0], 0); }
fn kill { ocrDbDestroy(paramv[0]); }
fn mainEdt {
  let d = ocrDbCreate(8, 0); store(d, 0, 7); ocrDbRelease(d);
  let e = ocrEventCreate(OCR_EVENT_STICKY_T, 0);
  ocrEdtCreate(ocrEdtTemplateCreate(kill, 1, 1), EDT_PARAM_DEF, [d], EDT_PARAM_DEF, [e], 0);
  ocrEdtCreate(ocrEdtTemplateCreate(hold, 1, 1), EDT_PARAM_DEF, [e], EDT_PARAM_DEF, [d], 0);
}";

// A STICKY event is satisfied again, through a ONCE event.
const REFUSED: &[u8] = b"fn mainEdt {
  let s = ocrEventCreate(OCR_EVENT_STICKY_T, 0); let e = ocrEventCreate(OCR_EVENT_ONCE_T, 0);
  ocrEventSatisfy(s, 0); ocrAddDependence(e, s, 0, 0); ocrEventSatisfy(e, 0);
}";

// What one body alone, or one EDT after another, prints.
static ROWS: [Row; 8] = [
    Row {
        words: &[],
        text: WIDE,
        status: 0,
        out: b"0\n32\n",
        err: b"",
    },
    Row {
        words: &["10"],
        text: FIBONACCI,
        status: 0,
        out: b"55\n",
        err: b"",
    },
    Row {
        words: &[],
        text: TWICE,
        status: 0,
        out: b"0\n1\n0\n0\n",
        err: b"",
    },
    Row {
        words: &["--stale"],
        text: ONCE,
        status: 0,
        out: b"0\n200\n9\nstale 1\ncall 2 3\n",
        err: b"",
    },
    Row {
        words: &[],
        text: LATCHES,
        status: 0,
        out: b"0\n0\n0\n0\n200\n0\n0\n200\n7\n",
        err: b"",
    },
    Row {
        words: &[],
        text: CHANNEL,
        status: 0,
        out: b"0\n0\n16\n11\n12\n",
        err: b"",
    },
    Row {
        words: &["--blocks"],
        text: HOLDER,
        status: 0,
        out: b"7\nblocks 2\nblock 1 words 1 live\nblock 3 words 1 gone\n",
        err: b"",
    },
    Row {
        words: &["--refused"],
        text: REFUSED,
        status: 0,
        out: b"refused 1\ndelivery 3 1\n",
        err: b"",
    },
];

#[test]
fn events_are_the_same_by_any_number_of_workers(rt: HostRuntime) -> Result<(), Fail> {
    assert_eq!(rt; first_wrong(&rt, rt.alloc(), &ROWS)?, None);
    Ok(())
}

// Each refusal of a satisfaction, a link and a destruction: slots, kinds, blocks, numbers; then of
// a destroyed event, whose slots nobody looks at.
const CODES: &[u8] = b"fn mainEdt {
  let s = ocrEventCreate(OCR_EVENT_STICKY_T, 0); let l = ocrEventCreate(OCR_EVENT_LATCH_T, 0);
  print ocrEventSatisfySlot(s, 0, 1); print ocrEventSatisfySlot(l, 0, 2);
  print ocrEventSatisfy(s, 1); print ocrEventSatisfy(s, 2); print ocrEventSatisfy(s, 99);
  print ocrAddDependence(s, s, 0, 0); print ocrAddDependence(99, s, 0, 0);
  print ocrAddDependence(s, l, 2, 0); print ocrAddDependence(1, l, 1, 0);
  print ocrAddDependence(s, 1, 0, 0); print ocrAddDependence(s, l, 1, 5);
  print ocrEventDestroy(s); print ocrEventDestroy(s);
  print ocrEventSatisfySlot(s, 0, 1); print ocrAddDependence(s, l, 2, 0);
  print ocrAddDependence(l, s, 2, 0); print ocrAddDependence(s, 1, 0, 0);
}";

// A satisfaction brings its block through 50 events.
const CHAIN: &[u8] = b"fn last { print load(depv[0], 0); }
fn mainEdt {
  let first = ocrEventCreate(OCR_EVENT_STICKY_T, EVT_PROP_TAKES_ARG); let e = first; let i = 1;
  while i < 50 {
    let next = ocrEventCreate(OCR_EVENT_STICKY_T, EVT_PROP_TAKES_ARG);
    ocrAddDependence(e, next, 0, DB_MODE_NULL);
    e = next; i = i + 1;
  }
  ocrEdtCreate(ocrEdtTemplateCreate(last, 0, 1), EDT_PARAM_DEF, [], EDT_PARAM_DEF, [e], 0);
  let d = ocrDbCreate(8, 0); store(d, 0, 50); ocrDbRelease(d);
  ocrEventSatisfy(first, d);
}";

/// Eight EDTs send a block each through one channel, some before its links and some after; an EDT
/// adds up what came out.
pub const FED: &[u8] = b"fn send {
  let d = ocrDbCreate(8, 0); store(d, 0, paramv[1]); ocrDbRelease(d);
  ocrEventSatisfy(paramv[0], d);
}
fn add {
  let sum = 0; let i = 0;
  while i < depc { sum = sum + load(depv[i], 0); i = i + 1; }
  print sum;
}
fn mainEdt {
  let c = ocrEventCreateParams(OCR_EVENT_CHANNEL_T, EVT_PROP_TAKES_ARG, 8, 1, 1);
  let t = ocrEdtTemplateCreate(send, 2, 0); let i = 1;
  let w = ocrEdtCreate(ocrEdtTemplateCreate(add, 0, 8), EDT_PARAM_DEF, [], EDT_PARAM_DEF, [], 0);
  while i <= 8 {
    ocrEdtCreate(t, EDT_PARAM_DEF, [c, i], EDT_PARAM_DEF, [], 0);
    ocrAddDependence(c, w, i - 1, DB_MODE_RO);
    i = i + 1;
  }
}";

// Two EDTs count a latch down until it has fired, 20 times together; then each is told so once.
const COUNTED: &[u8] = b"fn down {
  while ocrEventSatisfySlot(paramv[0], NULL_GUID, OCR_EVENT_LATCH_DECR_SLOT) == 0 { }
}
fn after { print depv[0]; }
fn mainEdt {
  let l = ocrEventCreate(OCR_EVENT_LATCH_T, 0); let i = 0;
  ocrEdtCreate(ocrEdtTemplateCreate(after, 0, 1), EDT_PARAM_DEF, [], EDT_PARAM_DEF, [l], 0);
  while i < 20 {
    ocrEventSatisfySlot(l, NULL_GUID, OCR_EVENT_LATCH_INCR_SLOT); i = i + 1;
  }
  let t = ocrEdtTemplateCreate(down, 1, 0);
  ocrEdtCreate(t, EDT_PARAM_DEF, [l], EDT_PARAM_DEF, [], 0);
  ocrEdtCreate(t, EDT_PARAM_DEF, [l], EDT_PARAM_DEF, [], 0);
}";

// A destroyed event reaches nobody.
const FORGOTTEN: &[u8] = b"fn never { print 1; }
fn mainEdt {
  let e = ocrEventCreate(OCR_EVENT_STICKY_T, 0);
  ocrEdtCreate(ocrEdtTemplateCreate(never, 0, 1), EDT_PARAM_DEF, [], EDT_PARAM_DEF, [e], 0);
  print ocrEventDestroy(e); print ocrEventSatisfy(e, NULL_GUID);
}";

static SHARED_ROWS: [Row; 5] = [
    Row {
        words: &[],
        text: CODES,
        status: 0,
        out: b"22\n22\n22\n22\n2\n22\n2\n22\n22\n22\n0\n0\n200\n200\n200\n200\n22\n",
        err: b"",
    },
    Row {
        words: &["--summary", "--refused"],
        text: CHAIN,
        status: 0,
        out: b"50\nedts 2 started 2 left 0 stale 0\nrefused 0\n",
        err: b"",
    },
    Row {
        words: &["--summary"],
        text: FED,
        status: 0,
        out: b"36\nedts 10 started 10 left 0 stale 0\n",
        err: b"",
    },
    Row {
        words: &["--summary"],
        text: COUNTED,
        status: 0,
        out: b"0\nedts 4 started 4 left 0 stale 2\n",
        err: b"",
    },
    Row {
        words: &["--left", "--stale"],
        text: FORGOTTEN,
        status: 4,
        out: b"0\n200\nleft 1\nedt 5 open 0\nstale 1\ncall 2 3\n",
        err: b"stuck: 1\n",
    },
];

#[test]
fn events_that_many_share_are_the_same(rt: HostRuntime) -> Result<(), Fail> {
    assert_eq!(rt; first_wrong(&rt, rt.alloc(), &SHARED_ROWS)?, None);
    Ok(())
}
