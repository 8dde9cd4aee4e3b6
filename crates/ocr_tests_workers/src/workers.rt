// Runs by one, two and four workers.
use ocr_tests_run::{CREWS, Outcome, Row, WHOLE, outcome_of};
use std::alloc::Global;
use std::str;
use std::sync::Wait;
use std::test::Fail;
use std::thread::Threads;

// The run of a text, with these words after `run --workers N`.
fn run_by<R: Threads + Wait + Sync>(
    rt: &R,
    alloc: Global,
    workers: &str,
    rest: &[&str],
    text: &[u8],
) -> Result<Outcome, Fail> {
    let mut words = Vec::new(alloc);
    words.push("run")?;
    words.push("--workers")?;
    words.push(workers)?;
    for word in rest {
        words.push(*word)?;
    }
    outcome_of(rt, alloc, &words, text.to_vec(alloc)?, 4000, WHOLE)
}

// Whether this comes of a row by so many workers, whose words stand after theirs.
fn is_told<R: Threads + Wait + Sync>(
    rt: &R,
    alloc: Global,
    workers: &str,
    row: &Row,
) -> Result<bool, Fail> {
    let done = run_by(rt, alloc, workers, row.words, row.text)?;
    Ok(
        done.ended.status == row.status
            && done.out.bytes() == row.out
            && done.err.bytes() == row.err
            && done.ended.journal.is_some(),
    )
}

/// The first of the rows of which something else comes by so many workers.
pub fn first_wrong_by<R: Threads + Wait + Sync>(
    rt: &R,
    alloc: Global,
    workers: &str,
    rows: &[Row],
) -> Result<Option<usize>, Fail> {
    for i in 0..rows.len() {
        if !is_told(rt, alloc, workers, &rows[i])? {
            return Ok(Some(i));
        }
    }
    Ok(None)
}

/// The first of the rows of which something else comes, and by how many workers.
pub fn first_wrong<R: Threads + Wait + Sync>(
    rt: &R,
    alloc: Global,
    rows: &[Row],
) -> Result<Option<(usize, &'static str)>, Fail> {
    for i in 0..rows.len() {
        for workers in CREWS {
            if !is_told(rt, alloc, workers, &rows[i])? {
                return Ok(Some((i, workers)));
            }
        }
    }
    Ok(None)
}

// The lines of a text, sorted.
fn sorted_lines<'a>(alloc: Global, text: &'a [u8]) -> Result<Vec<&'a str>, Fail> {
    let mut lines = Vec::new(alloc);
    for line in str::from_utf8(text)?.lines() {
        lines.push(line)?;
    }
    lines.sort()?;
    Ok(lines)
}

// Slot 0 is set by the creation, and slot 1 stays open.
const OPEN_SLOT: &[u8] = b"fn never { print 1; }
fn mainEdt {
  let t = ocrEdtTemplateCreate(never, 0, 2);
  ocrEdtCreate(t, EDT_PARAM_DEF, [], EDT_PARAM_DEF, [NULL_GUID, UNINITIALIZED_GUID], 0);
}";

// Two EDTs want the same two blocks in EW, in either order of their slots.
const BOTH: &[u8] = b"fn both { print 1; }
fn mainEdt {
  let a = ocrDbCreate(8, DB_PROP_NO_ACQUIRE); let b = ocrDbCreate(8, DB_PROP_NO_ACQUIRE);
  let t = ocrEdtTemplateCreate(both, 0, 2);
  let x = ocrEdtCreate(t, EDT_PARAM_DEF, [], EDT_PARAM_DEF, [], 0);
  let y = ocrEdtCreate(t, EDT_PARAM_DEF, [], EDT_PARAM_DEF, [], 0);
  ocrAddDependence(a, x, 0, DB_MODE_EW); ocrAddDependence(b, x, 1, DB_MODE_EW);
  ocrAddDependence(b, y, 0, DB_MODE_EW); ocrAddDependence(a, y, 1, DB_MODE_EW);
}";

// The block is destroyed while EDT 5 waits for it, or before it asks.
const LATE: &[u8] = b"fn late { print depv[0]; }
fn mainEdt {
  let d = ocrDbCreate(8, 0); store(d, 0, 7);
  let w = ocrEdtCreate(ocrEdtTemplateCreate(late, 0, 1), EDT_PARAM_DEF, [], EDT_PARAM_DEF, [], 0);
  ocrAddDependence(d, w, 0, DB_MODE_EW);
  print load(d, 0); ocrDbDestroy(d);
}";

// Each EDT adds its parameter to the one word, and hands the block on: 10 + 9 + .. + 1.
const CHAIN: &[u8] = b"fn next {
  store(depv[0], 0, load(depv[0], 0) + paramv[0]);
  if paramv[0] == 1 { print load(depv[0], 0); return NULL_GUID; }
  ocrDbRelease(depv[0]);
  ocrEdtCreate(paramv[1], EDT_PARAM_DEF, [paramv[0] - 1, paramv[1]], EDT_PARAM_DEF, [depv[0]], 0);
}
fn mainEdt {
  let d = ocrDbCreate(8, 0); ocrDbRelease(d);
  let t = ocrEdtTemplateCreate(next, 2, 1);
  ocrEdtCreate(t, EDT_PARAM_DEF, [10, t], EDT_PARAM_DEF, [d], 0);
}";

// Eight EDTs count in a block that each of them holds alone; the last one prints.
const COUNTERS: &[u8] = b"fn add {
  let n = load(depv[0], 0) + 1;
  store(depv[0], 0, n);
  if n == 8 { print n; }
}
fn mainEdt {
  let d = ocrDbCreate(8, DB_PROP_NO_ACQUIRE);
  let t = ocrEdtTemplateCreate(add, 0, 1);
  let i = 0;
  while i < 8 {
    let a = ocrEdtCreate(t, EDT_PARAM_DEF, [], EDT_PARAM_DEF, [], 0);
    ocrAddDependence(d, a, 0, DB_MODE_EW);
    i = i + 1;
  }
}";

// Word 0 is the sum of the leaves so far, and word 1 how many EDTs are still to come; the last one
// prints. 177 EDTs come of 10.
const FIBONACCI: &[u8] = b"fn fib {
  let d = depv[0];
  if paramv[0] < 2 {
    store(d, 0, load(d, 0) + paramv[0]);
    store(d, 1, load(d, 1) - 1);
  } else {
    store(d, 1, load(d, 1) + 1);
    let i = 1;
    while i <= 2 {
      let n = paramv[0] - i;
      let f = ocrEdtCreate(paramv[1], EDT_PARAM_DEF, [n, paramv[1]], EDT_PARAM_DEF, [], 0);
      ocrAddDependence(d, f, 0, DB_MODE_EW);
      i = i + 1;
    }
  }
  if load(d, 1) == 0 { print load(d, 0); }
}
fn mainEdt {
  let d = ocrDbCreate(16, 0); store(d, 1, 1);
  let t = ocrEdtTemplateCreate(fib, 2, 1);
  let f = ocrEdtCreate(t, EDT_PARAM_DEF, [load(depv[0], 1), t], EDT_PARAM_DEF, [], 0);
  ocrAddDependence(d, f, 0, DB_MODE_EW);
}";

// Codes: a length that is no multiple of 8, one that is too great, an event that is not there, a
// block for an event, a block that is released twice, too many slots.
const CODES: &[u8] = b"fn mainEdt {
  print ocrDbCreate(12, 0); print code; print ocrDbCreate(524296, 0); print code;
  print ocrEventSatisfy(99, 0); print ocrEventSatisfy(1, 0);
  print ocrDbRelease(1); print ocrDbRelease(1);
  print ocrEdtTemplateCreate(mainEdt, 0, 33); print code;
}";

const DESTROYED: &[u8] = b"fn one { print 1; }
fn mainEdt {
  let t = ocrEdtTemplateCreate(one, 0, 0);
  print ocrEdtTemplateDestroy(t); print ocrEdtTemplateDestroy(t);
  print ocrEdtCreate(t, EDT_PARAM_DEF, [], EDT_PARAM_DEF, [], 0); print code;
}";

const READ_ONLY: &[u8] = b"fn write { print load(depv[0], 0); store(depv[0], 0, 1); }
fn mainEdt {
  let d = ocrDbCreate(8, DB_PROP_NO_ACQUIRE);
  let w = ocrEdtCreate(ocrEdtTemplateCreate(write, 0, 1), EDT_PARAM_DEF, [], EDT_PARAM_DEF, [], 0);
  ocrAddDependence(d, w, 0, DB_MODE_RO);
}";

// The same comes of these with any number of workers.
static ROWS: [Row; 18] = [
    Row {
        words: &["--journal"],
        text: b"fn mainEdt { print 42; ocrShutdown(); }",
        status: 0,
        out: b"42\njournal 4\n0 acquire 2 1\n1 start 2\n2 call 2 print 42\n3 stop shutdown 2\n",
        err: b"",
    },
    Row {
        words: &["--journal"],
        text: b"fn mainEdt { }",
        status: 0,
        out: b"journal 4\n0 acquire 2 1\n1 start 2\n2 free 2 1\n3 end 2 0\n",
        err: b"",
    },
    Row {
        words: &["--left"],
        text: OPEN_SLOT,
        status: 4,
        out: b"left 1\nedt 4 open 1\n",
        err: b"stuck: 1\n",
    },
    Row {
        words: &[],
        text: BOTH,
        status: 0,
        out: b"1\n1\n",
        err: b"",
    },
    Row {
        words: &["--stale"],
        text: LATE,
        status: 0,
        out: b"7\n0\nstale 1\nacquire 5 3\n",
        err: b"",
    },
    Row {
        words: &[],
        text: b"fn mainEdt {
  let d = ocrDbCreate(64, DB_PROP_NONE); print load(d, 7); print load(d, 8);
}",
        status: 6,
        out: b"0\n",
        err: b"fault in edt 2: bad index\n",
    },
    Row {
        words: &["--objects", "4"],
        text: b"fn mainEdt { while 1 { print ocrDbCreate(8, DB_PROP_NONE); } }",
        status: 10,
        out: b"3\n4\n",
        err: b"limit: objects\n",
    },
    Row {
        words: &["--", "5"],
        text: b"fn mainEdt { print load(depv[0], 0); print load(depv[0], 1); }",
        status: 0,
        out: b"1\n5\n",
        err: b"",
    },
    Row {
        words: &["--blocks"],
        text: CHAIN,
        status: 0,
        out: b"55\nblocks 2\nblock 1 words 1 live\nblock 3 words 1 live\n",
        err: b"",
    },
    Row {
        words: &["--summary"],
        text: COUNTERS,
        status: 0,
        out: b"8\nedts 9 started 9 left 0 stale 0\n",
        err: b"",
    },
    Row {
        words: &["--summary", "10"],
        text: FIBONACCI,
        status: 0,
        out: b"55\nedts 178 started 178 left 0 stale 0\n",
        err: b"",
    },
    Row {
        words: &[],
        text: CODES,
        status: 0,
        out: b"0\n22\n0\n22\n2\n22\n0\n1\n0\n22\n",
        err: b"",
    },
    Row {
        words: &["--stale"],
        text: DESTROYED,
        status: 0,
        out: b"0\n200\n0\n200\nstale 2\ncall 2 3\ncall 2 3\n",
        err: b"",
    },
    Row {
        words: &[],
        text: READ_ONLY,
        status: 6,
        out: b"0\n",
        err: b"fault in edt 5: not writable\n",
    },
    Row {
        words: &[],
        text: b"fn mainEdt {
  let d = ocrDbCreate(8, DB_PROP_NO_ACQUIRE); print d; print load(d, 0);
}",
        status: 6,
        out: b"3\n",
        err: b"fault in edt 2: not held\n",
    },
    Row {
        words: &[],
        text: b"fn four { print 1 / paramc; }
fn mainEdt {
  ocrEdtCreate(ocrEdtTemplateCreate(four, 0, 0), EDT_PARAM_DEF, [], EDT_PARAM_DEF, [], 0);
}",
        status: 6,
        out: b"",
        err: b"fault in edt 4: zero divisor\n",
    },
    Row {
        words: &[],
        text: b"fn four { ocrAbort(9); print 1; }
fn mainEdt {
  ocrEdtCreate(ocrEdtTemplateCreate(four, 0, 0), EDT_PARAM_DEF, [], EDT_PARAM_DEF, [], 0);
}",
        status: 5,
        out: b"",
        err: b"aborted: 9\n",
    },
    Row {
        words: &[],
        text: b"fn stop { ocrShutdown(); }
fn mainEdt {
  print 1; ocrEdtCreate(ocrEdtTemplateCreate(stop, 0, 0), EDT_PARAM_DEF, [], EDT_PARAM_DEF, [], 0);
}",
        status: 0,
        out: b"1\n",
        err: b"",
    },
];

#[test]
fn any_number_of_workers_gives_the_same(rt: HostRuntime) -> Result<(), Fail> {
    assert_eq!(rt; first_wrong(&rt, rt.alloc(), &ROWS)?, None);
    Ok(())
}

// An EDT without slots and one with 32.
const WIDE: &[u8] = b"fn zero { print depc; }
fn wide { print depc; }
fn mainEdt {
  let w = ocrEdtCreate(ocrEdtTemplateCreate(wide, 0, 32), EDT_PARAM_DEF, [], EDT_PARAM_DEF, [], 0);
  let i = 0;
  while i < 32 { ocrAddDependence(NULL_GUID, w, i, DB_MODE_NULL); i = i + 1; }
  ocrEdtCreate(ocrEdtTemplateCreate(zero, 0, 0), EDT_PARAM_DEF, [], EDT_PARAM_DEF, [], 0);
}";

const COUNT_DOWNS: &[u8] = b"fn down {
  print paramv[0];
  if paramv[0] { ocrEdtCreate(paramv[1], 2, [paramv[0] - 1, paramv[1]], 0, [], 0); }
}
fn mainEdt {
  let t = ocrEdtTemplateCreate(down, 2, 0);
  ocrEdtCreate(t, 2, [1, t], 0, [], 0); ocrEdtCreate(t, 2, [3, t], 0, [], 0); print 9;
}";

// Four EDTs read one block at a time, two of them in CONST and two in RO.
const READERS: &[u8] = b"fn read { print load(depv[0], paramv[0]); }
fn mainEdt {
  let d = ocrDbCreate(32, 0); let t = ocrEdtTemplateCreate(read, 1, 1); let i = 0;
  while i < 4 {
    store(d, i, 10 + i);
    let r = ocrEdtCreate(t, EDT_PARAM_DEF, [i], EDT_PARAM_DEF, [], 0);
    ocrAddDependence(d, r, 0, DB_MODE_RO + i % 2);
    i = i + 1;
  }
}";

// Texts whose lines come in another order from run to run, with the lines of one.
const ANY_ORDER: [(&[u8], &[u8]); 3] = [
    (WIDE, b"0\n32\n"),
    (COUNT_DOWNS, b"9\n1\n3\n0\n2\n1\n0\n"),
    (READERS, b"10\n11\n12\n13\n"),
];

#[test]
fn any_number_of_workers_gives_the_same_lines(rt: HostRuntime) -> Result<(), Fail> {
    let alloc = rt.alloc();
    for (text, out) in ANY_ORDER {
        for workers in CREWS {
            let done = run_by(&rt, rt.alloc(), workers, &[], text)?;
            assert_eq!(rt; done.ended.status, 0);
            assert_eq!(rt;
                sorted_lines(alloc, done.out.bytes())?,
                sorted_lines(alloc, out)?
            );
        }
    }
    Ok(())
}

// The run may end before the three EDTs have run.
const SHUT_DOWN: &[u8] = b"fn one { print 1; }
fn mainEdt {
  let t = ocrEdtTemplateCreate(one, 0, 0); let i = 0;
  while i < 3 { ocrEdtCreate(t, EDT_PARAM_DEF, [], EDT_PARAM_DEF, [], 0); i = i + 1; }
  ocrShutdown();
}";

#[test]
fn nothing_comes_after_a_shutdown(rt: HostRuntime) -> Result<(), Fail> {
    for workers in CREWS {
        let done = run_by(&rt, rt.alloc(), workers, &["--journal"], SHUT_DOWN)?;
        assert_eq!(rt; done.ended.status, 0);
        let mut rest = done.out.bytes();
        for _ in 0..3 {
            rest = rest.strip_prefix(b"1\n".as_slice()).unwrap_or(rest);
        }
        assert!(rt; rest.starts_with(b"journal "));
        assert!(rt; rest.ends_with(b" stop shutdown 2\n"));
    }
    Ok(())
}

#[test]
fn limit_of_events_is_told_with_its_worker(rt: HostRuntime) -> Result<(), Fail> {
    let endless = b"fn mainEdt { while 1 { print 1; } }";
    let done = run_by(&rt, rt.alloc(), "2", &["--events", "10"], endless)?;
    assert_eq!(rt; done.ended.status, 10);
    // The acquire, the start, and as many prints as there is room for.
    assert_eq!(rt; done.out.bytes(), b"1\n1\n1\n1\n1\n1\n1\n1\n".as_slice());
    let err = done.err.bytes();
    assert!(rt;
        err == b"limit: events of worker 1\n".as_slice()
            || err == b"limit: events of worker 2\n".as_slice()
    );
    Ok(())
}
