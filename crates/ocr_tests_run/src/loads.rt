// Runs of the program that `load` has for a number.
use crate::outcomes::{Outcome, outcome_of};
use crate::programs::FIRST;
use crate::streams::{Stream, Streams, WHOLE};
use ocr_run::load_text;
use std::alloc::Global;
use std::sync::Wait;
use std::test::Fail;
use std::thread::Threads;

// A source that fails at its first call, and so is not read where no fault is told.
const NO_READS: Streams = Streams {
    input: Stream {
        most: 1,
        fails: Some(0),
    },
    ..WHOLE
};

fn load<R: Threads + Wait + Sync>(rt: &R, alloc: Global, words: &[&str]) -> Result<Outcome, Fail> {
    outcome_of(rt, alloc, words, FIRST.to_vec(alloc)?, 200_000, NO_READS)
}

#[test]
fn load_writes_its_sum_and_the_summary(rt: HostRuntime) -> Result<(), Fail> {
    let rows: [(&[&str], &[u8]); 6] = [
        (&["load", "1"], b"152\nedts 10 started 10 left 0 stale 0\n"),
        (&["load", "2"], b"624\nedts 18 started 18 left 0 stale 0\n"),
        (
            &["load", "--summary", "2"],
            b"624\nedts 18 started 18 left 0 stale 0\n",
        ),
        (
            &["load", "--workers=3", "--", "2"],
            b"624\nedts 18 started 18 left 0 stale 0\n",
        ),
        (
            &["load", "002", "--refused", "--left", "--races"],
            b"624\nedts 18 started 18 left 0 stale 0\nleft 0\nrefused 0\nraces 0\n",
        ),
        (
            &["load", "500"],
            b"10248191152060860672\nedts 4002 started 4002 left 0 stale 0\n",
        ),
    ];
    for (words, out) in rows {
        let done = load(&rt, rt.alloc(), words)?;
        assert_eq!(rt; done.ended.status, 0);
        assert_eq!(rt; done.out.bytes(), out);
        assert_eq!(rt; done.err.bytes(), b"".as_slice());
        assert!(rt; done.ended.journal.is_some());
    }
    Ok(())
}

#[test]
fn load_writes_the_same_by_any_number_of_workers(rt: HostRuntime) -> Result<(), Fail> {
    for workers in ["1", "2", "8", "64"] {
        let done = load(&rt, rt.alloc(), &["load", "500", "--workers", workers])?;
        assert_eq!(rt; done.ended.status, 0);
        assert_eq!(rt;
            done.out.bytes(),
            b"10248191152060860672\nedts 4002 started 4002 left 0 stale 0\n".as_slice()
        );
    }
    Ok(())
}

#[test]
fn load_takes_one_number_from_1_to_500(rt: HostRuntime) -> Result<(), Fail> {
    let rows: [&[&str]; 9] = [
        &["load"],
        &["load", "0"],
        &["load", "501"],
        &["load", "18446744073709551616"],
        &["load", "two"],
        &["load", "2", "2"],
        &["load", "2", "--objects", "100"],
        &["load", "2", "--events", "100"],
        &["load", "2", "--workers", "65"],
    ];
    for words in rows {
        let done = load(&rt, rt.alloc(), words)?;
        assert_eq!(rt; done.ended.status, 2);
        assert_eq!(rt; done.out.bytes(), b"".as_slice());
        assert_eq!(rt; done.err.bytes(), b"words refused\n".as_slice());
    }
    Ok(())
}

#[test]
fn load_is_the_run_of_its_text(rt: HostRuntime) -> Result<(), Fail> {
    let alloc = rt.alloc();
    let own = load(
        &rt,
        alloc,
        &["load", "3", "--workers", "1", "--blocks", "--journal"],
    )?;
    let words = [
        "run",
        "--workers",
        "1",
        "--objects",
        "65536",
        "--summary",
        "--blocks",
        "--journal",
    ];
    let same = outcome_of(&rt, alloc, &words, load_text(alloc, 3)?, 200_000, WHOLE)?;
    assert_eq!(rt; own.ended.status, same.ended.status);
    assert_eq!(rt; own.out.bytes(), same.out.bytes());
    Ok(())
}
