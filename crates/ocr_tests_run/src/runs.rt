// Programs, from the bytes in to the bytes out.
ghost use Rattle.std.specs.Prelude.{◌<◌};

use crate::examples::{EXAMPLES, LAST_EXAMPLES, MORE_EXAMPLES};
use crate::outcomes::{CREWS, outcome_of, run, run_by};
use crate::programs::FIRST;
use crate::rows::Row;
use crate::streams::WHOLE;
use std::alloc::Global;
use std::sync::Wait;
use std::test::Fail;
use std::thread::Threads;

// It holds twelve blocks, and all but the first to its end.
const TWELVE_BLOCKS: &[u8] = b"fn mainEdt {
  let i = 0; let d = 0;
  while i < 12 { d = ocrDbCreate(8, 0); store(d, 0, i); i = i + 1; }
  print load(d, 0);
  d = d - 11;
  print load(d, 0);
  ocrDbRelease(d);
  print load(d + 1, 0);
}";

#[test]
fn first_program_prints_42(rt: HostRuntime) -> Result<(), Fail> {
    let done = run(&rt, rt.alloc(), FIRST, WHOLE)?;
    assert_eq!(rt; done.ended.status, 0);
    assert_eq!(rt; done.out.bytes(), b"42\n".as_slice());
    assert_eq!(rt; done.err.bytes(), b"".as_slice());
    let journal = done.ended.journal.ok_or("a journal")?;
    assert_eq!(rt; journal.journal().entries().len(), 4);
    Ok(())
}

#[test]
fn runs_have_their_statuses_and_lines(rt: HostRuntime) -> Result<(), Fail> {
    let rows: [(&[u8], u8, &[u8], &[u8]); 11] = [
        (b"fn mainEdt { }", 0, b"", b""),
        (
            b"fn\tmainEdt\r\n{print 007;print 18446744073709551615 ;ocrShutdown ( ) ;print 3;}#",
            0,
            b"7\n18446744073709551615\n",
            b"",
        ),
        (
            b"fn mainEdt { let i = 0; while i < 124999 { i = i + 1; } print 7; }",
            0,
            b"7\n",
            b"",
        ),
        (
            b"fn mainEdt { let i = 0; while i < 124999 { i = i + 1; } print 7; print 7; }",
            6,
            b"7\n",
            b"fault in edt 2: fuel\n",
        ),
        (
            b"fn mainEdt { print 1 / 0; }",
            6,
            b"",
            b"fault in edt 2: zero divisor\n",
        ),
        (
            b"fn mainEdt { print 1; print 1 % 0; }",
            6,
            b"1\n",
            b"fault in edt 2: zero divisor\n",
        ),
        (
            b"fn mainEdt { print paramv[0]; }",
            6,
            b"",
            b"fault in edt 2: bad index\n",
        ),
        (
            b"fn mainEdt { print depv[0]; print depv[1]; }",
            6,
            b"1\n",
            b"fault in edt 2: bad index\n",
        ),
        (
            b"fn mainEdt { ocrAbort(9); print 1; }",
            5,
            b"",
            b"aborted: 9\n",
        ),
        (
            b"fn other { print 1; } fn mainEdt { if paramc { print 2; } else { print 3; } return 5; print 4; }",
            0,
            b"3\n",
            b"",
        ),
        (TWELVE_BLOCKS, 0, b"11\n0\n1\n", b""),
    ];
    for (text, status, out, err) in rows {
        for workers in CREWS {
            let done = run_by(&rt, rt.alloc(), workers, text)?;
            assert_eq!(rt; done.ended.status, status);
            assert_eq!(rt; done.out.bytes(), out);
            assert_eq!(rt; done.err.bytes(), err);
            assert!(rt; done.ended.journal.is_some());
        }
    }
    Ok(())
}

#[test]
fn examples_write_what_stands_beside_them(rt: HostRuntime) -> Result<(), Fail> {
    for (text, out, status) in EXAMPLES
        .into_iter()
        .chain(MORE_EXAMPLES)
        .chain(LAST_EXAMPLES)
    {
        let done = run(&rt, rt.alloc(), text, WHOLE)?;
        assert_eq!(rt; done.ended.status, status);
        assert_eq!(rt; done.out.bytes(), out);
    }
    Ok(())
}

// Each expression beside its value.
const SUMS: &[u8] = b"fn mainEdt {
  print 18446744073709551615 + 1; print 0 - 1; print 18446744073709551615 * 18446744073709551615;
  print 18446744073709551615 / 2; print 18446744073709551615 % 10; print 0 % 1;
  print 1 << 63; print 1 << 64; print 3 << 63; print 18446744073709551615 >> 63; print 7 >> 64;
  print -1; print -0; print ~0; print !0; print !7; print -9223372036854775808;
}";

const SUMS_OUT: &[u8] = b"0
18446744073709551615
1
9223372036854775807
5
0
9223372036854775808
1
9223372036854775808
1
7
18446744073709551615
0
18446744073709551615
1
0
9223372036854775808
";

const TESTS: &[u8] = b"fn mainEdt {
  print 0 < 18446744073709551615; print 18446744073709551615 < 0; print 5 <= 5; print 5 > 5; print 5 >= 6;
  print 4 == 4; print 4 != 4; print 12 & 10; print 12 | 10; print 12 ^ 10;
  print 1 + 2 * 3; print (1 + 2) * 3; print 10 - 3 - 2; print 1 << 2 + 1; print 1 | 2 ^ 3 & 1; print 1 < 2 == 1;
  print UNINITIALIZED_GUID; print EDT_PARAM_DEF; print paramc; print depc; print code; print NULL_GUID;
}";

const TESTS_OUT: &[u8] = b"1
0
1
0
0
1
0
8
14
6
7
9
5
8
3
1
18446744073709551615
4294967294
0
1
0
0
";

#[test]
fn operators_have_their_values_at_the_edges(rt: HostRuntime) -> Result<(), Fail> {
    for (text, out) in [(SUMS, SUMS_OUT), (TESTS, TESTS_OUT)] {
        let done = run(&rt, rt.alloc(), text, WHOLE)?;
        assert_eq!(rt; done.ended.status, 0);
        assert_eq!(rt; done.out.bytes(), out);
    }
    Ok(())
}

#[test]
fn one_worker_runs_edts_in_the_order_in_which_they_were_made(rt: HostRuntime) -> Result<(), Fail> {
    let rows: [(&[u8], &[u8]); 3] = [
        (
            b"fn one { print paramv[0]; }
fn mainEdt {
  ocrEdtCreate(ocrEdtTemplateCreate(one, 1, 0), EDT_PARAM_DEF, [7], EDT_PARAM_DEF, [], 0);
}",
            b"7\n",
        ),
        (
            b"fn down { print paramv[0]; if paramv[0] { ocrEdtCreate(paramv[1], 2, [paramv[0] - 1, paramv[1]], 0, [], 0); } }
fn mainEdt {
  let t = ocrEdtTemplateCreate(down, 2, 0);
  ocrEdtCreate(t, 2, [1, t], 0, [], 0); ocrEdtCreate(t, 2, [3, t], 0, [], 0); print 9;
}",
            b"9\n1\n3\n0\n2\n1\n0\n",
        ),
        (
            b"fn last { print paramc; print depc; print code; ocrShutdown(); }
fn mainEdt {
  let t = ocrEdtTemplateCreate(last, EDT_PARAM_UNK, 0);
  print ocrEdtCreate(t, 16, [1, 2, 3, 4, 5, 6, 7, 8, 9, 10, 11, 12, 13, 14, 15, 16], 0, [], 0);
  ocrEdtCreate(t, 0, [], 0, [], 0);
}",
            b"4\n16\n0\n0\n",
        ),
    ];
    for (text, out) in rows {
        let words = ["run", "--workers", "1"];
        let done = outcome_of(
            &rt,
            rt.alloc(),
            &words,
            text.to_vec(rt.alloc())?,
            1000,
            WHOLE,
        )?;
        assert_eq!(rt; done.ended.status, 0);
        assert_eq!(rt; done.out.bytes(), out);
    }
    Ok(())
}

// Each creation with what it answers and the code behind it. The first free number is 6.
const CREATIONS: &[u8] = b"fn one { }
fn mainEdt {
  let t = ocrEdtTemplateCreate(one, 1, 0);
  let u = ocrEdtTemplateCreate(one, EDT_PARAM_UNK, EDT_PARAM_UNK);
  let s = ocrEdtTemplateCreate(one, 0, 1);
  print ocrEdtTemplateCreate(one, 17, 0); print code;
  print ocrEdtTemplateCreate(one, 16, 33); print code;
  print ocrEdtTemplateCreate(one, EDT_PARAM_DEF, 0); print code;
  print ocrEdtCreate(NULL_GUID, 1, [7], 0, [], 2); print code;
  print ocrEdtCreate(UNINITIALIZED_GUID, 1, [7], 0, [], 0); print code;
  print ocrEdtCreate(6, 1, [7], 0, [], 0); print code;
  print ocrEdtCreate(4098, 1, [7], 0, [], 0); print code;
  print ocrEdtCreate(1, 1, [7], 0, [], 0); print code;
  print ocrEdtCreate(2, 1, [7], 0, [], 0); print code;
  print ocrEdtCreate(t, 2, [7, 8], 0, [], 0); print code;
  print ocrEdtCreate(t, 1, [], 0, [], 0); print code;
  print ocrEdtCreate(t, EDT_PARAM_DEF, [7], EDT_PARAM_DEF, [], 2); print code;
  print ocrEdtCreate(u, EDT_PARAM_DEF, [], 0, [], 0); print code;
  print ocrEdtCreate(u, 0, [], 1, [], 0); print code;
  print ocrEdtCreate(s, 0, [], EDT_PARAM_DEF, [], 0); print code;
  print ocrEdtCreate(u, 2, [8, 9], 0, [], 0); print code;
  print ocrEdtCreate(t, EDT_PARAM_DEF, [7], EDT_PARAM_DEF, [], 0); print code;
}";

const CREATIONS_OUT: &[u8] = b"0
22
0
22
0
22
0
2
0
2
0
2
0
2
0
22
0
22
0
22
0
22
0
22
0
22
6
0
7
0
8
0
9
0
";

#[test]
fn creations_are_refused_in_their_order(rt: HostRuntime) -> Result<(), Fail> {
    let done = run(&rt, rt.alloc(), CREATIONS, WHOLE)?;
    // The two EDTs with a slot never start.
    assert_eq!(rt; done.ended.status, 4);
    assert_eq!(rt; done.err.bytes(), b"stuck: 2\n".as_slice());
    assert_eq!(rt; done.out.bytes(), CREATIONS_OUT);
    Ok(())
}

#[test]
fn limits_stop_a_run_of_one_worker(rt: HostRuntime) -> Result<(), Fail> {
    let alloc = rt.alloc();
    let objects =
        b"fn a { ocrEdtCreate(ocrEdtTemplateCreate(a, 0, 0), EDT_PARAM_DEF, [], EDT_PARAM_DEF, [], 0); }
fn mainEdt { ocrEdtCreate(ocrEdtTemplateCreate(a, 0, 0), EDT_PARAM_DEF, [], EDT_PARAM_DEF, [], 0); }";
    let words = ["run", "--workers", "1"];
    let done = outcome_of(&rt, rt.alloc(), &words, objects.to_vec(alloc)?, 1000, WHOLE)?;
    assert_eq!(rt; done.ended.status, 10);
    assert_eq!(rt; done.err.bytes(), b"limit: objects\n".as_slice());
    // The first EDT's 6 entries, 4 of each of the 2,046 others that end, the start of the last, and
    // the Stop.
    let journal = done.ended.journal.ok_or("a journal")?;
    assert_eq!(rt; journal.journal().entries().len(), 6 + 4 * 2046 + 2);

    let events =
        b"fn a { let i = 0; while i < 90000 { print 1; i = i + 1; } ocrEdtCreate(paramv[0], 1, [paramv[0]], 0, [], 0); }
fn mainEdt { let t = ocrEdtTemplateCreate(a, 1, 0); ocrEdtCreate(t, 1, [t], 0, [], 0); }";
    let done = outcome_of(
        &rt,
        rt.alloc(),
        &words,
        events.to_vec(alloc)?,
        500_000,
        WHOLE,
    )?;
    assert_eq!(rt; done.ended.status, 10);
    assert_eq!(rt; done.err.bytes(), b"limit: events of worker 1\n".as_slice());
    // Of 200,000 entries 13 are no prints.
    assert_eq!(rt; done.out.bytes().len(), 2 * 199_987);
    Ok(())
}

const TEMPLATES: &[u8] = b"fn mainEdt { while 1 { print ocrEdtTemplateCreate(mainEdt, 0, 0); } }";

// An EDT with two slots, and one without.
const STUCK: &[u8] = b"fn one { } fn mainEdt {
  ocrEdtCreate(ocrEdtTemplateCreate(one, 0, 2), 0, [], 2, [], 0);
  ocrEdtCreate(ocrEdtTemplateCreate(one, 0, 0), 0, [], 0, [], 0);
}";

static ROWS: [Row; 13] = [
    Row {
        words: &["run", "--objects", "4"],
        text: TEMPLATES,
        status: 10,
        out: b"3\n4\n",
        err: b"limit: objects\n",
    },
    Row {
        words: &["run", "--objects=2"],
        text: TEMPLATES,
        status: 10,
        out: b"",
        err: b"limit: objects\n",
    },
    Row {
        words: &["run", "--workers", "1", "--events", "2"],
        text: FIRST,
        status: 10,
        out: b"",
        err: b"limit: events of worker 1\n",
    },
    // A Stop weighs nothing.
    Row {
        words: &["run", "--events=3"],
        text: FIRST,
        status: 0,
        out: b"42\n",
        err: b"",
    },
    Row {
        words: &["run", "--", "5", "007"],
        text: FIRST,
        status: 0,
        out: b"42\n",
        err: b"",
    },
    Row {
        words: &["run", "--journal"],
        text: FIRST,
        status: 0,
        out: b"42\njournal 4\n0 acquire 2 1\n1 start 2\n2 call 2 print 42\n3 stop shutdown 2\n",
        err: b"",
    },
    Row {
        words: &["run", "--journal"],
        text: b"fn mainEdt { }",
        status: 0,
        out: b"journal 4\n0 acquire 2 1\n1 start 2\n2 free 2 1\n3 end 2 0\n",
        err: b"",
    },
    Row {
        words: &["run", "--workers", "1", "--events", "2", "--journal"],
        text: FIRST,
        status: 10,
        out: b"journal 3\n0 acquire 2 1\n1 start 2\n2 stop events 1 1\n",
        err: b"limit: events of worker 1\n",
    },
    Row {
        words: &["run", "--left", "--summary"],
        text: STUCK,
        status: 4,
        out: b"edts 3 started 2 left 1 stale 0\nleft 1\nedt 4 open 0 1\n",
        err: b"stuck: 1\n",
    },
    Row {
        words: &["run", "--blocks", "5", "6"],
        text: FIRST,
        status: 0,
        out: b"42\nblocks 1\nblock 1 words 3 live\n",
        err: b"",
    },
    // The reports come in one order, whatever that of the words.
    Row {
        words: &[
            "run",
            "--journal",
            "--blocks",
            "--refused",
            "--stale",
            "--left",
            "--summary",
        ],
        text: b"fn mainEdt { }",
        status: 0,
        out: b"edts 1 started 1 left 0 stale 0\nleft 0\nstale 0\nrefused 0\nblocks 1\n\
            block 1 words 1 live\njournal 4\n0 acquire 2 1\n1 start 2\n2 free 2 1\n3 end 2 0\n",
        err: b"",
    },
    Row {
        words: &["check"],
        text: b"fn mainEdt{print (1+2)*3;if 0{}else{}}",
        status: 0,
        out: b"fn mainEdt {\n  print (1 + 2) * 3;\n  if 0 {\n  }\n}\n",
        err: b"",
    },
    Row {
        words: &["check"],
        text: b"fn mainEdt { print x; }",
        status: 3,
        out: b"",
        err: b"check fault: rule 4 in function 1\n",
    },
];

#[test]
fn words_say_what_comes_of_a_text(rt: HostRuntime) -> Result<(), Fail> {
    let alloc = rt.alloc();
    for row in &ROWS {
        let done = outcome_of(&rt, alloc, row.words, row.text.to_vec(alloc)?, 1000, WHOLE)?;
        assert_eq!(rt; done.ended.status, row.status);
        assert_eq!(rt; done.out.bytes(), row.out);
        assert_eq!(rt; done.err.bytes(), row.err);
        assert_eq!(rt; done.ended.journal.is_some(), row.words[0] == "run");
    }
    Ok(())
}

// A line of words with `count` numbers.
fn status_with<R: Threads + Wait + Sync>(rt: &R, alloc: Global, count: usize) -> Result<u8, Fail> {
    let mut texts = vec![in alloc; "run"]?;
    for _ in 0..count {
        texts.push("7")?;
    }
    let done = outcome_of(rt, alloc, &texts, FIRST.to_vec(alloc)?, 1000, WHOLE)?;
    Ok(done.ended.status)
}

#[test]
fn run_takes_32_numbers(rt: HostRuntime) -> Result<(), Fail> {
    assert_eq!(rt; status_with(&rt, rt.alloc(), 32)?, 0);
    assert_eq!(rt; status_with(&rt, rt.alloc(), 33)?, 2);
    Ok(())
}

#[test]
fn canonical_text_of_an_example_is_its_own(rt: HostRuntime) -> Result<(), Fail> {
    let alloc = rt.alloc();
    for (text, _, _) in EXAMPLES
        .into_iter()
        .chain(MORE_EXAMPLES)
        .chain(LAST_EXAMPLES)
    {
        let first = outcome_of(&rt, alloc, &["check"], text.to_vec(alloc)?, 4000, WHOLE)?;
        assert_eq!(rt; first.ended.status, 0);
        let copy = first.out.bytes().to_vec(alloc)?;
        let second = outcome_of(&rt, alloc, &["check"], copy, 4000, WHOLE)?;
        assert_eq!(rt; second.ended.status, 0);
        assert_eq!(rt; second.out.bytes(), first.out.bytes());
    }
    Ok(())
}

#[test]
fn other_words_are_refused(rt: HostRuntime) -> Result<(), Fail> {
    let alloc = rt.alloc();
    let rows: [&[&str]; 10] = [
        &[],
        &["Run"],
        &["run", "run"],
        &["run", "--workers", "65"],
        &["run", "--workers", "0"],
        &["run", "--workers", "2", "--workers", "3"],
        &["run", "-5"],
        &["load", "501"],
        &["run", "--workers", "64", "--events", "250001"],
        &["check", "5"],
    ];
    for texts in rows {
        let done = outcome_of(&rt, alloc, texts, FIRST.to_vec(alloc)?, 1000, WHOLE)?;
        assert_eq!(rt; done.ended.status, 2);
        assert_eq!(rt; done.out.bytes(), b"".as_slice());
        assert_eq!(rt; done.err.bytes(), b"words refused\n".as_slice());
    }
    Ok(())
}

#[test]
fn largest_body_runs_to_its_end(rt: HostRuntime) -> Result<(), Fail> {
    let alloc = rt.alloc();
    let mut text = b"fn mainEdt{".to_vec(alloc)?;
    for _ in 0..131_070 {
        text.extend_from_slice(b"print 1;")?;
    }
    text.push(b'}')?;
    let done = outcome_of(&rt, alloc, &["run"], text, 300_000, WHOLE)?;
    assert_eq!(rt; done.ended.status, 0);
    assert_eq!(rt; done.out.bytes().len(), 262_140);
    let journal = done.ended.journal.ok_or("a journal")?;
    assert_eq!(rt; journal.journal().entries().len(), 131_074);
    Ok(())
}
