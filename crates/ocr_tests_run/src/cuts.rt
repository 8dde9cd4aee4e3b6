// A program that is cut at each place before its end.
use crate::programs::FIBONACCI;
use crate::rows::{Row, is_told};
use crate::streams::WHOLE;
use std::alloc::Global;
use std::sync::Wait;
use std::test::Fail;
use std::thread::Threads;

// How many blocks are open at the end of a text without comments.
fn open_blocks(text: &[u8]) -> usize {
    let mut open: usize = 0;
    for byte in text {
        match *byte {
            b'{' => open = open.saturating_add(1),
            b'}' => open = open.saturating_sub(1),
            _ => {}
        }
    }
    open
}

// Whether a text ends with the first letter of `fn`, where a function may begin.
fn is_half_a_word(text: &[u8]) -> bool {
    match text.strip_suffix(b"f") {
        Some(before) => before.is_empty() || before.ends_with(b"\n"),
        None => false,
    }
}

// The line on `err` for a text that ends too early: outside of functions it is a program that has
// no `mainEdt`, or the first letter of `fn` is wrong; inside of one the end is.
fn line_of(alloc: Global, text: &[u8]) -> Result<String, Fail> {
    if open_blocks(text) == 0 {
        let words = text.trim_ascii();
        if words.is_empty() || words.ends_with(b"}") {
            return Ok(format!(in alloc; "check fault: rule 2 in function 0\n")?);
        }
        if is_half_a_word(words) {
            return Ok(format!(in alloc; "syntax fault at {}\n", text.len().saturating_sub(1))?);
        }
    }
    Ok(format!(in alloc; "syntax fault at {}\n", text.len())?)
}

// Whether a front of the program is refused at its place.
fn is_refused<R: Threads + Wait + Sync>(rt: &R, alloc: Global, text: &[u8]) -> Result<bool, Fail> {
    let line = line_of(alloc, text)?;
    let wanted = Row {
        words: &["run", "10"],
        text,
        status: 3,
        out: b"",
        err: line.as_bytes(),
    };
    is_told(rt, alloc, wanted, WHOLE)
}

// The first of `count` fronts, from one of so many bytes on, that is told otherwise.
fn first_wrong<R: Threads + Wait + Sync>(
    rt: &R,
    alloc: Global,
    from: usize,
    count: usize,
) -> Result<Option<usize>, Fail> {
    for place in from..from.saturating_add(count).min(FIBONACCI.len()) {
        if !is_refused(rt, alloc, &FIBONACCI[..place])? {
            return Ok(Some(place));
        }
    }
    Ok(None)
}

#[test]
fn fronts_below_400_bytes_are_refused_at_their_places(rt: HostRuntime) -> Result<(), Fail> {
    assert_eq!(rt; first_wrong(&rt, rt.alloc(), 0, 400)?, None);
    Ok(())
}

#[test]
fn fronts_from_400_bytes_are_refused_at_their_places(rt: HostRuntime) -> Result<(), Fail> {
    assert_eq!(rt; first_wrong(&rt, rt.alloc(), 400, 350)?, None);
    Ok(())
}

#[test]
fn fronts_from_750_bytes_are_refused_at_their_places(rt: HostRuntime) -> Result<(), Fail> {
    assert_eq!(rt; first_wrong(&rt, rt.alloc(), 750, 300)?, None);
    Ok(())
}

#[test]
fn longest_fronts_are_refused_at_their_places(rt: HostRuntime) -> Result<(), Fail> {
    assert_eq!(rt; first_wrong(&rt, rt.alloc(), 1050, FIBONACCI.len())?, None);
    Ok(())
}
