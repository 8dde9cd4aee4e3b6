// What a run shows after some of its entries: a block that its creator writes in RW and destroys
// while another EDT holds it in EW.
use Line::{Acquire, Block, Destroy, End, Free, Print, Release, Start, Store, Template};
use ocr_guid::Code::{Done, Eperm};
use ocr_guid::Guid;
use ocr_snapshot::{contents_at, lines_at, lines_of};
use ocr_tests_journals::{Line, Words, entries_of};
use std::alloc::Global;
use std::test::Fail;

const NONE: Words = &[];

const LINES: [Line; 13] = [
    Acquire(2, 1),
    Start(2),
    Print(2, 7),
    Block(2, 24, 0, 3),
    Store(2, 3, 1, 5),
    Template(2, 1, 0, 1, 4), // 5
    Release(2, 3, Done, NONE),
    Acquire(5, 3),
    Start(5),
    Print(5, 10),
    Destroy(2, 3, Done, NONE), // 10
    Free(5, 3, &[(0, 8), (1, 9)]),
    End(5),
];

fn words_at(alloc: Global, at: u64, block: u64) -> Result<Option<Vec<u64>>, Fail> {
    let entries = entries_of(alloc, LINES.as_slice())?;
    Ok(contents_at(alloc, &[6, 4], &entries, at, Guid(block))?)
}

#[test]
fn a_destroyed_block_keeps_its_words(rt: HostRuntime) -> Result<(), Fail> {
    let rows: [(u64, Option<[u64; 3]>); 7] = [
        (3, None),
        (4, Some([0, 0, 0])),
        (5, Some([0, 5, 0])),
        (10, Some([0, 5, 0])),
        (11, Some([0, 5, 0])),
        (12, Some([8, 9, 0])),
        (u64::MAX, Some([8, 9, 0])),
    ];
    for (at, wanted) in rows {
        match (words_at(rt.alloc(), at, 3)?, wanted) {
            (Some(words), Some(wanted)) => {
                assert_eq!(rt; words.as_slice(), wanted.as_slice(), "at {at}");
            }
            (found, wanted) => assert!(rt; found.is_none() && wanted.is_none(), "at {at}"),
        }
    }
    Ok(())
}

#[test]
fn the_argument_block_has_the_arguments(rt: HostRuntime) -> Result<(), Fail> {
    let words = words_at(rt.alloc(), 0, 1)?.ok_or("no block")?;
    assert_eq!(rt; words.as_slice(), [2, 6, 4].as_slice());
    Ok(())
}

#[test]
fn other_numbers_are_no_blocks(rt: HostRuntime) -> Result<(), Fail> {
    for number in [0, 2, 4, 5, u64::MAX] {
        assert!(rt;
            words_at(rt.alloc(), 13, number)?.is_none(),
            "number {number}"
        );
    }
    Ok(())
}

#[test]
fn a_refused_call_changes_no_word(rt: HostRuntime) -> Result<(), Fail> {
    let alloc = rt.alloc();
    let writes: Words = &[(0, 8)];
    let lines = [Block(2, 8, 0, 3), Release(5, 3, Eperm, writes)];
    let entries = entries_of(alloc, lines.as_slice())?;
    let words = contents_at(alloc, &[], &entries, 2, Guid(3))?.ok_or("no block")?;
    assert_eq!(rt; words.as_slice(), [0].as_slice());
    Ok(())
}

#[test]
fn lines_are_those_of_the_prints_so_far(rt: HostRuntime) -> Result<(), Fail> {
    let alloc = rt.alloc();
    let entries = entries_of(alloc, LINES.as_slice())?;
    let rows: [(u64, &[u8]); 5] = [
        (0, b""),
        (2, b""),
        (3, b"7\n"),
        (9, b"7\n"),
        (10, b"7\n10\n"),
    ];
    for (at, wanted) in rows {
        assert_eq!(rt;
            lines_at(alloc, &entries, at)?.as_slice(),
            wanted,
            "at {at}"
        );
    }
    assert_eq!(rt;
        lines_of(alloc, &entries)?.as_slice(),
        b"7\n10\n".as_slice()
    );
    Ok(())
}
