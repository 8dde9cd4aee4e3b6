// Where texts stop.
use crate::texts::{Stop, stop_of};
use std::alloc::{AllocError, Global};

// A text of a front, a piece that comes a number of times, and an end.
fn repeated(
    alloc: Global,
    front: &[u8],
    piece: &[u8],
    times: u32,
    end: &[u8],
) -> Result<Vec<u8>, AllocError> {
    let mut text = front.to_vec(alloc)?;
    for _ in 0..times {
        text.extend_from_slice(piece)?;
    }
    text.extend_from_slice(end)?;
    Ok(text)
}

fn stop_of_repeated(
    alloc: Global,
    front: &[u8],
    piece: &[u8],
    times: u32,
    end: &[u8],
) -> Result<Option<Stop>, AllocError> {
    let text = repeated(alloc, front, piece, times, end)?;
    Ok(stop_of(alloc, text.as_slice()))
}

// A function that lets this many names.
fn lets(alloc: Global, count: u8, end: &[u8]) -> Result<Vec<u8>, AllocError> {
    let mut text = b"fn mainEdt { ".to_vec(alloc)?;
    for i in 0..count {
        text.extend_from_slice(b"let ")?;
        text.extend_from_slice([b'a' + i / 26, b'a' + i % 26].as_slice())?;
        text.extend_from_slice(b" = 1; ")?;
    }
    text.extend_from_slice(end)?;
    Ok(text)
}

#[test]
fn texts_stop_at_their_first_fault(rt: HostRuntime) {
    let rows = [
        ("fn mainEdt { $ }", Stop::Token(13)),
        (
            "fn mainEdt { print 18446744073709551616; }",
            Stop::Token(19),
        ),
        ("\0", Stop::Token(0)),
        ("fn mainEdt { print ; }", Stop::Syntax(19)),
        ("fn mainEdt { print 1", Stop::Syntax(20)),
        ("fn if { }", Stop::Syntax(3)),
        ("fn mainEdt { print 1 }", Stop::Syntax(21)),
        // A token that is none comes before any fault of the grammar.
        ("fn if { $ }", Stop::Token(8)),
    ];
    for (text, stop) in rows {
        assert_eq!(rt;
            stop_of(rt.alloc(), text.as_bytes()),
            Some(stop),
            "in {text}"
        );
    }
}

#[test]
fn levels_and_tokens_are_counted(rt: HostRuntime) -> Result<(), AllocError> {
    let alloc = rt.alloc();
    let deep = stop_of_repeated(alloc, b"fn mainEdt {", b"if 1 {", 64, b"")?;
    assert_eq!(rt; deep, Some(Stop::Syntax(395)));
    let long = stop_of_repeated(alloc, b"fn mainEdt { print ", b"1+", 128, b"1; }")?;
    assert_eq!(rt; long, Some(Stop::Syntax(275)));
    let round = stop_of_repeated(alloc, b"fn mainEdt { print ", b"(", 200, b"1 }")?;
    assert_eq!(rt; round, Some(Stop::Syntax(221)));
    Ok(())
}

#[test]
fn programs_stop_at_the_first_rule_that_they_break(rt: HostRuntime) {
    let rows = [
        ("fn mainEdt { } fn mainEdt { }", Stop::Rule(1, 2)),
        (
            "fn f { } fn mainEdt { print x; } fn f { }",
            Stop::Rule(1, 3),
        ),
        ("", Stop::Rule(2, 0)),
        ("# none\n", Stop::Rule(2, 0)),
        ("fn mainEdt { let x = 1; let x = 2; }", Stop::Rule(3, 1)),
        (
            "fn mainEdt { if 1 { let x = 1; } let x = 2; }",
            Stop::Rule(3, 1),
        ),
        (
            "fn mainEdt { if 1 { let x = 1; } print x; }",
            Stop::Rule(4, 1),
        ),
        ("fn f { } fn mainEdt { let x = x; }", Stop::Rule(4, 2)),
        ("fn mainEdt { x = 1; }", Stop::Rule(4, 1)),
        (
            "fn mainEdt { if 1 { } else { print x; } }",
            Stop::Rule(4, 1),
        ),
        (
            "fn mainEdt { ocrEdtTemplateCreate(f, 0, 0); }",
            Stop::Rule(5, 1),
        ),
        (
            "fn mainEdt { ocrEdtCreate(1, 0, [], 0, [], 0, &o); }",
            Stop::Rule(4, 1),
        ),
        (
            "fn mainEdt { if 1 { let o = 0; } ocrEdtCreate(1, 0, [], 0, [], 0, &o); }",
            Stop::Rule(4, 1),
        ),
        (
            "fn f { let o = 0; ocrEdtCreate(1, 0, [], 0, [], 0, &o); } fn mainEdt { print x; }",
            Stop::Rule(4, 2),
        ),
    ];
    for (text, stop) in rows {
        assert_eq!(rt;
            stop_of(rt.alloc(), text.as_bytes()),
            Some(stop),
            "in {text}"
        );
    }
}

#[test]
fn programs_with_all_calls_are_taken(rt: HostRuntime) {
    let rows = [
        "fn other { } fn mainEdt { let y = 1; while y { let x = 0; y = x; } ocrShutdown(); }",
        "fn mainEdt { let d = ocrDbCreate(8, 0); ocrDbRelease(d); ocrDbDestroy(d); }",
        "fn mainEdt { let t = ocrEdtTemplateCreate(mainEdt, 0, 1); ocrEdtTemplateDestroy(t); }",
        "fn mainEdt { ocrAddDependence(1, ocrEdtCreate(3, 1, [7], 1, [2], 0), 0, DB_MODE_RW); }",
        "fn mainEdt { store(depv[0], 0, load(depv[0], 0)); ocrAbort(1); }",
        "fn mainEdt {ocrEventDestroy(ocrEventCreate(1, 0)); ocrEventCreateParams(5, 1, 2, 1, 1); }",
        "fn mainEdt { ocrEventSatisfy(3, 0); ocrEventSatisfySlot(3, 0, 1); }",
        "fn mainEdt { let o = 0; if 1 { ocrEdtCreate(1, 0, [], 0, [], EDT_PROP_FINISH, &o); } }",
    ];
    for text in rows {
        assert_eq!(rt; stop_of(rt.alloc(), text.as_bytes()), None, "in {text}");
    }
}

// Where a creation of an EDT with this many parameters and dependences stops.
fn stop_of_creation(alloc: Global, params: u32, deps: u32) -> Result<Option<Stop>, AllocError> {
    let front = repeated(
        alloc,
        b"fn mainEdt { ocrEdtCreate(1, 0, [",
        b"1,",
        params,
        b"1], 0, [",
    )?;
    stop_of_repeated(alloc, front.as_slice(), b"1,", deps, b"1], 0); }")
}

#[test]
fn lists_have_at_most_16_and_32_members(rt: HostRuntime) -> Result<(), AllocError> {
    assert_eq!(rt; stop_of_creation(rt.alloc(), 15, 31)?, None);
    assert_eq!(rt;
        stop_of_creation(rt.alloc(), 16, 0)?,
        Some(Stop::Rule(6, 1))
    );
    assert_eq!(rt;
        stop_of_creation(rt.alloc(), 0, 32)?,
        Some(Stop::Rule(6, 1))
    );
    Ok(())
}

fn stop_of_lets(alloc: Global, count: u8, end: &[u8]) -> Result<Option<Stop>, AllocError> {
    let text = lets(alloc, count, end)?;
    Ok(stop_of(alloc, text.as_slice()))
}

#[test]
fn a_function_lets_64_names(rt: HostRuntime) -> Result<(), AllocError> {
    assert_eq!(rt; stop_of_lets(rt.alloc(), 64, b"}")?, None);
    assert_eq!(rt; stop_of_lets(rt.alloc(), 65, b"}")?, Some(Stop::Rule(7, 1)));
    let again = stop_of_lets(rt.alloc(), 64, b"let aa = 1; }")?;
    assert_eq!(rt; again, Some(Stop::Rule(3, 1)));
    Ok(())
}
