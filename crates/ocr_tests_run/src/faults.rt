// Each call of each stream fails in turn: what was written before stays, and nothing else changes.
use crate::programs::{FIBONACCI, FIRST};
use crate::rows::{Row, is_told};
use crate::streams::{CALM, Stream, Streams, WHOLE};
use std::alloc::Global;
use std::sync::Wait;
use std::test::Fail;
use std::thread::Threads;

// A block is destroyed while an EDT waits for it, or will ask for it.
const DESTROYED: &[u8] = b"fn late { print depv[0]; }
fn mainEdt {
  let d = ocrDbCreate(8, 0); store(d, 0, 7);
  let w = ocrEdtCreate(ocrEdtTemplateCreate(late, 0, 1), EDT_PARAM_DEF, [], EDT_PARAM_DEF, [], 0);
  ocrAddDependence(d, w, 0, DB_MODE_EW);
  print load(d, 0); ocrDbDestroy(d);
}";

// A finish EDT with a child and a grandchild.
const FINISH: &[u8] = b"fn leaf { print 3; }
fn child { print 2; ocrEdtCreate(ocrEdtTemplateCreate(leaf, 0, 0), EDT_PARAM_DEF, [], 0, [], 0); }
fn top { print 1; ocrEdtCreate(ocrEdtTemplateCreate(child, 0, 0), EDT_PARAM_DEF, [], 0, [], 0); }
fn done { print 4; }
fn mainEdt {
  let o = 0;
  let f = ocrEdtCreate(ocrEdtTemplateCreate(top, 0, 1), 0, [], 1, [], EDT_PROP_FINISH, &o);
  let d = ocrEdtCreate(ocrEdtTemplateCreate(done, 0, 1), 0, [], 1, [], 0);
  ocrAddDependence(o, d, 0, DB_MODE_NULL); ocrAddDependence(NULL_GUID, f, 0, DB_MODE_NULL);
}";

// What comes of programs whose streams fail nowhere.
static ROWS: [Row; 7] = [
    Row {
        words: &["run"],
        text: FIRST,
        status: 0,
        out: b"42\n",
        err: b"",
    },
    Row {
        words: &["run", "--journal"],
        text: FIRST,
        status: 0,
        out: b"42\njournal 4\n0 acquire 2 1\n1 start 2\n2 call 2 print 42\n3 stop shutdown 2\n",
        err: b"",
    },
    Row {
        words: &["run", "--journal"],
        text: b"fn mainEdt { }",
        status: 0,
        out: b"journal 4\n0 acquire 2 1\n1 start 2\n2 free 2 1\n3 end 2 0\n",
        err: b"",
    },
    Row {
        words: &["run", "10"],
        text: FIBONACCI,
        status: 0,
        out: b"55\n",
        err: b"",
    },
    Row {
        words: &["run", "--stale"],
        text: DESTROYED,
        status: 0,
        out: b"7\n0\nstale 1\nacquire 5 3\n",
        err: b"",
    },
    Row {
        words: &["run", "--summary"],
        text: FINISH,
        status: 0,
        out: b"1\n2\n3\n4\nedts 5 started 5 left 0 stale 0\n",
        err: b"",
    },
    Row {
        words: &["check"],
        text: b"fn mainEdt{print (1+2)*3;if 0{}else{}}",
        status: 0,
        out: b"fn mainEdt {\n  print (1 + 2) * 3;\n  if 0 {\n  }\n}\n",
        err: b"",
    },
];

// A program that is not read.
static LOADS: [Row; 1] = [Row {
    words: &["load", "2"],
    text: b"",
    status: 0,
    out: b"624\nedts 18 started 18 left 0 stale 0\n",
    err: b"",
}];

// A stream of so many bytes a call, one call of which fails.
fn failing(most: usize, call: usize) -> Stream {
    Stream {
        most,
        fails: Some(call as u64),
    }
}

// The first bytes of a text.
fn front(text: &[u8], count: usize) -> &[u8] {
    &text[..count.min(text.len())]
}

// The first read of a row whose failure is told otherwise. The last one is that of the end.
fn first_wrong_read<R: Threads + Wait + Sync>(
    rt: &R,
    alloc: Global,
    row: Row,
    most: usize,
) -> Result<Option<usize>, Fail> {
    let wanted = Row {
        status: 7,
        out: b"",
        err: b"read fault\n",
        ..row
    };
    for call in 0..=row.text.len() / most.max(1) {
        let input = failing(most, call);
        if !is_told(rt, alloc, wanted, Streams { input, ..WHOLE })? {
            return Ok(Some(call));
        }
    }
    Ok(None)
}

// The first write of a row whose failure is told otherwise.
fn first_wrong_write<R: Threads + Wait + Sync>(
    rt: &R,
    alloc: Global,
    row: Row,
    most: usize,
) -> Result<Option<usize>, Fail> {
    for call in 0..row.out.len().div_ceil(most.max(1)) {
        let wanted = Row {
            status: 8,
            out: front(row.out, call.saturating_mul(most)),
            err: b"write fault\n",
            ..row
        };
        let out = failing(most, call);
        if !is_told(rt, alloc, wanted, Streams { out, ..WHOLE })? {
            return Ok(Some(call));
        }
    }
    Ok(None)
}

// The first write of a row's line whose failure changes anything but the line.
fn first_wrong_line<R: Threads + Wait + Sync>(
    rt: &R,
    alloc: Global,
    row: Row,
    streams: Streams,
) -> Result<Option<usize>, Fail> {
    for call in 0..row.err.len() {
        let wanted = Row {
            err: front(row.err, call),
            ..row
        };
        let err = failing(1, call);
        if !is_told(rt, alloc, wanted, Streams { err, ..streams })? {
            return Ok(Some(call));
        }
    }
    Ok(None)
}

#[test]
fn reads_that_fail_leave_nothing(rt: HostRuntime) -> Result<(), Fail> {
    for row in &ROWS {
        assert_eq!(rt; first_wrong_read(&rt, rt.alloc(), *row, 39)?, None);
    }
    Ok(())
}

#[test]
fn a_read_of_each_byte_may_fail(rt: HostRuntime) -> Result<(), Fail> {
    assert_eq!(rt; first_wrong_read(&rt, rt.alloc(), ROWS[0], 1)?, None);
    assert_eq!(rt; first_wrong_read(&rt, rt.alloc(), ROWS[6], 1)?, None);
    Ok(())
}

#[test]
fn a_call_after_the_end_is_none(rt: HostRuntime) -> Result<(), Fail> {
    let row = ROWS[0];
    let streams = Streams {
        input: failing(1, row.text.len() + 1),
        out: failing(1, row.out.len()),
        err: failing(1, 0),
    };
    assert!(rt; is_told(&rt, rt.alloc(), row, streams)?);
    Ok(())
}

#[test]
fn writes_of_a_byte_that_fail_leave_a_front(rt: HostRuntime) -> Result<(), Fail> {
    for row in ROWS.iter().chain(&LOADS) {
        assert_eq!(rt; first_wrong_write(&rt, rt.alloc(), *row, 1)?, None);
    }
    Ok(())
}

#[test]
fn writes_that_fail_leave_a_front(rt: HostRuntime) -> Result<(), Fail> {
    for row in ROWS.iter().chain(&LOADS) {
        assert_eq!(rt; first_wrong_write(&rt, rt.alloc(), *row, 4)?, None);
    }
    Ok(())
}

#[test]
fn sinks_may_take_a_byte_at_a_time(rt: HostRuntime) -> Result<(), Fail> {
    let byte = Stream { most: 1, ..CALM };
    for row in ROWS.iter().chain(&LOADS).chain(&LINES) {
        let streams = Streams {
            input: byte,
            out: byte,
            err: byte,
        };
        assert!(rt; is_told(&rt, rt.alloc(), *row, streams)?);
    }
    Ok(())
}

// A row of each status that has a line, but for those of failed streams and want of memory.
static LINES: [Row; 8] = [
    Row {
        words: &["run", "--workers", "65"],
        text: FIRST,
        status: 2,
        out: b"",
        err: b"words refused\n",
    },
    Row {
        words: &["run"],
        text: b"fn mainEdt { $ }",
        status: 3,
        out: b"",
        err: b"lex fault at 13\n",
    },
    Row {
        words: &["check"],
        text: b"fn mainEdt { print ; }",
        status: 3,
        out: b"",
        err: b"syntax fault at 19\n",
    },
    Row {
        words: &["run"],
        text: b"",
        status: 3,
        out: b"",
        err: b"check fault: rule 2 in function 0\n",
    },
    Row {
        words: &["run", "--left"],
        text: b"fn never { print 1; } fn mainEdt {
  ocrEdtCreate(ocrEdtTemplateCreate(never, 0, 2), EDT_PARAM_DEF, [], EDT_PARAM_DEF,
    [NULL_GUID, UNINITIALIZED_GUID], 0);
}",
        status: 4,
        out: b"left 1\nedt 4 open 1\n",
        err: b"stuck: 1\n",
    },
    Row {
        words: &["run"],
        text: b"fn mainEdt { print 3; ocrAbort(9); print 1; }",
        status: 5,
        out: b"3\n",
        err: b"aborted: 9\n",
    },
    Row {
        words: &["run"],
        text: b"fn mainEdt { print 1 / 0; }",
        status: 6,
        out: b"",
        err: b"fault in edt 2: zero divisor\n",
    },
    Row {
        words: &["run", "--workers", "1", "--events", "2"],
        text: FIRST,
        status: 10,
        out: b"",
        err: b"limit: events of worker 1\n",
    },
];

#[test]
fn a_line_that_fails_changes_nothing_else(rt: HostRuntime) -> Result<(), Fail> {
    for row in &LINES {
        assert_eq!(rt; first_wrong_line(&rt, rt.alloc(), *row, WHOLE)?, None);
    }
    Ok(())
}

#[test]
fn both_sinks_may_fail(rt: HostRuntime) -> Result<(), Fail> {
    for row in [ROWS[1], LOADS[0]] {
        for call in [0, 1, 2, row.out.len() - 1] {
            let wanted = Row {
                status: 8,
                out: front(row.out, call),
                err: b"write fault\n",
                ..row
            };
            let out = failing(1, call);
            let streams = Streams { out, ..WHOLE };
            assert_eq!(rt; first_wrong_line(&rt, rt.alloc(), wanted, streams)?, None);
        }
    }
    Ok(())
}

#[test]
fn input_and_line_may_fail(rt: HostRuntime) -> Result<(), Fail> {
    let wanted = Row {
        status: 7,
        out: b"",
        err: b"read fault\n",
        ..ROWS[0]
    };
    let input = failing(1, 20);
    let streams = Streams { input, ..WHOLE };
    assert_eq!(rt; first_wrong_line(&rt, rt.alloc(), wanted, streams)?, None);
    Ok(())
}

// Words that are refused are told before anything is read.
#[test]
fn refused_words_read_nothing(rt: HostRuntime) -> Result<(), Fail> {
    let input = failing(1, 0);
    assert!(rt; is_told(&rt, rt.alloc(), LINES[0], Streams { input, ..WHOLE })?);
    Ok(())
}
