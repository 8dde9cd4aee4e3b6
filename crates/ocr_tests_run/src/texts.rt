// Texts that are no programs, and limits at their edges.
use crate::outcomes::{CREWS, run_by};
use crate::rows::{Row, is_told};
use crate::streams::WHOLE;
use std::alloc::Global;
use std::test::Fail;

const EMPTY: &[u8] = b"fn mainEdt { }";

const BLOCK: &[u8] = b"fn mainEdt { ocrDbCreate(8, 0); }";

// A text that is refused with this line.
fn refused<'a>(text: &'a [u8], err: &'a [u8]) -> Row<'a> {
    Row {
        words: &["run"],
        text,
        status: 3,
        out: b"",
        err,
    }
}

// Texts with the lines by which they are refused.
static TEXTS: [(&[u8], &[u8]); 16] = [
    (b"", b"check fault: rule 2 in function 0\n"),
    (b"#", b"check fault: rule 2 in function 0\n"),
    (b"fn mainEdt { $ }", b"lex fault at 13\n"),
    (
        b"fn mainEdt { print 18446744073709551616; }",
        b"lex fault at 19\n",
    ),
    (b"\0", b"lex fault at 0\n"),
    (b"\xff\xfe", b"lex fault at 0\n"),
    (b"}", b"syntax fault at 0\n"),
    (b"fn if { }", b"syntax fault at 3\n"),
    (b"fn mainEdt { print ; }", b"syntax fault at 19\n"),
    (b"fn mainEdt { print 1", b"syntax fault at 20\n"),
    (b"fn mainEdt { print 1 }", b"syntax fault at 21\n"),
    (
        b"fn mainEdt { } fn mainEdt { }",
        b"check fault: rule 1 in function 2\n",
    ),
    (
        b"fn mainEdt { let x = 1; let x = 2; }",
        b"check fault: rule 3 in function 1\n",
    ),
    (
        b"fn mainEdt { if 1 { let x = 1; } print x; }",
        b"check fault: rule 4 in function 1\n",
    ),
    (
        b"fn mainEdt { ocrEdtTemplateCreate(no, 0, 0); }",
        b"check fault: rule 5 in function 1\n",
    ),
    (
        b"fn mainEdt { print x; }",
        b"check fault: rule 4 in function 1\n",
    ),
];

static LIMITS: [Row; 4] = [
    Row {
        words: &["run", "--objects", "2"],
        text: BLOCK,
        status: 10,
        out: b"",
        err: b"limit: objects\n",
    },
    Row {
        words: &["run", "--objects", "3"],
        text: BLOCK,
        status: 0,
        out: b"",
        err: b"",
    },
    Row {
        words: &["run", "--workers", "1", "--events", "3"],
        text: EMPTY,
        status: 10,
        out: b"",
        err: b"limit: events of worker 1\n",
    },
    Row {
        words: &["run", "--workers", "1", "--events", "4"],
        text: EMPTY,
        status: 0,
        out: b"",
        err: b"",
    },
];

#[test]
fn texts_that_are_no_programs_are_told(rt: HostRuntime) -> Result<(), Fail> {
    for (text, err) in TEXTS {
        for workers in CREWS {
            let done = run_by(&rt, rt.alloc(), workers, text)?;
            assert_eq!(rt; done.ended.status, 3);
            assert_eq!(rt; done.out.bytes(), b"".as_slice());
            assert_eq!(rt; done.err.bytes(), err);
            assert!(rt; done.ended.journal.is_none());
        }
    }
    Ok(())
}

#[test]
fn one_byte_too_many_is_told(rt: HostRuntime) -> Result<(), Fail> {
    let blanks = vec![in rt.alloc(); b' '; 1_048_577]?;
    assert!(rt; is_told(&rt, rt.alloc(), refused(&blanks, b"text too big\n"), WHOLE)?);
    Ok(())
}

#[test]
fn limits_are_met_and_not_passed(rt: HostRuntime) -> Result<(), Fail> {
    for row in &LIMITS {
        assert!(rt; is_told(&rt, rt.alloc(), *row, WHOLE)?);
    }
    Ok(())
}

// A text between two others, so many times.
fn between(
    alloc: Global,
    before: &[u8],
    piece: &[u8],
    count: usize,
    after: &[u8],
) -> Result<Vec<u8>, Fail> {
    let mut text = before.to_vec(alloc)?;
    for _ in 0..count {
        text.extend_from_slice(piece)?;
    }
    text.extend_from_slice(after)?;
    Ok(text)
}

#[test]
fn blocks_nest_64_deep(rt: HostRuntime) -> Result<(), Fail> {
    let alloc = rt.alloc();
    let text = between(alloc, b"fn mainEdt {", b"if 1 {", 64, b"")?;
    assert!(rt; is_told(&rt, alloc, refused(&text, b"syntax fault at 395\n"), WHOLE)?);
    let text = between(alloc, b"fn mainEdt {", b"if 1 {", 63, b"")?;
    assert!(rt; is_told(&rt, alloc, refused(&text, b"syntax fault at 390\n"), WHOLE)?);
    Ok(())
}

#[test]
fn expressions_have_256_tokens(rt: HostRuntime) -> Result<(), Fail> {
    let alloc = rt.alloc();
    let text = between(alloc, b"fn mainEdt { print ", b"1+", 128, b"1; }")?;
    assert!(rt; is_told(&rt, alloc, refused(&text, b"syntax fault at 275\n"), WHOLE)?);
    let text = between(alloc, b"fn mainEdt { print !", b"1+", 127, b"1; }")?;
    let wanted = Row {
        words: &["run"],
        text: &text,
        status: 0,
        out: b"127\n",
        err: b"",
    };
    assert!(rt; is_told(&rt, alloc, wanted, WHOLE)?);
    Ok(())
}
