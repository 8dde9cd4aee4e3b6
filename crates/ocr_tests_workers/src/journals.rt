// Journals that are replayed: whole, cut off, in another order, and changed.
use crate::edits::{Edit, edited, ordered};
use crate::runs::{Recording, are_runs, recording_of, verdict, wanted};
use std::alloc::Global;
use std::test::Fail;

// A place, what is done to the entry there, and the first illegal place then, if any.
type Row = (usize, Edit, Option<usize>);

// The first of the rows that replay answers otherwise.
fn first_wrong(
    alloc: Global,
    recording: &Recording,
    rows: &[Row],
) -> Result<Option<(usize, Edit)>, Fail> {
    for row in rows {
        let (place, edit, illegal) = *row;
        let entries = edited(alloc, &recording.entries, place, edit)?;
        if verdict(alloc, recording, &entries) != wanted(illegal) {
            return Ok(Some((place, edit)));
        }
    }
    Ok(None)
}

const FIRST: &[u8] = b"fn mainEdt { print 7; }";

const FIRST_ROWS: [Row; 21] = [
    (0, Edit::Dropped, Some(0)),
    (1, Edit::Dropped, Some(1)),
    (2, Edit::Dropped, Some(2)),
    (3, Edit::Dropped, Some(3)),
    (0, Edit::Doubled, Some(1)),
    (1, Edit::Doubled, Some(2)),
    (2, Edit::Doubled, Some(3)),
    (3, Edit::Doubled, Some(4)),
    (4, Edit::Doubled, Some(5)),
    (0, Edit::Swapped, Some(0)),
    (1, Edit::Swapped, Some(1)),
    (2, Edit::Swapped, Some(2)),
    (3, Edit::Swapped, Some(3)),
    (2, Edit::Prints(8), Some(2)),
    (2, Edit::Answers(1), Some(2)),
    (0, Edit::By(3), Some(0)),
    (1, Edit::By(3), Some(1)),
    (2, Edit::By(1), Some(2)),
    (3, Edit::By(3), Some(3)),
    (4, Edit::By(3), Some(4)),
    (4, Edit::Returns(1), Some(4)),
];

#[test]
fn first_program_is_replayed(rt: HostRuntime) -> Result<(), Fail> {
    let alloc = rt.alloc();
    // Acquire, Start, print, Free, End.
    let recording = recording_of(&rt, alloc, FIRST)?;
    assert_eq!(rt; recording.entries.len(), 5);
    assert!(rt; are_runs(alloc, &recording));
    assert_eq!(rt; first_wrong(alloc, &recording, &FIRST_ROWS)?, None);
    Ok(())
}

/// EDTs with parameters: one adds them up, one returns the first.
pub const CREATIONS: &[u8] = b"fn add { print paramv[0] + paramv[1]; }
fn back { print paramc; return paramv[0]; }
fn mainEdt {
  let t = ocrEdtTemplateCreate(add, 2, 0); let u = ocrEdtTemplateCreate(back, EDT_PARAM_UNK, 0);
  ocrEdtCreate(t, EDT_PARAM_DEF, [3, 4], 0, [], 0); print ocrEdtCreate(u, 1, [7], 0, [], 0);
}";

const CREATIONS_ROWS: [Row; 28] = [
    (2, Edit::Dropped, Some(2)),
    (4, Edit::Dropped, Some(4)),
    (6, Edit::Dropped, Some(6)),
    // An EDT need not end before others start.
    (8, Edit::Dropped, None),
    (9, Edit::Dropped, Some(9)),
    (10, Edit::Dropped, Some(10)),
    (2, Edit::Doubled, Some(3)),
    (4, Edit::Doubled, Some(5)),
    (9, Edit::Doubled, Some(10)),
    (14, Edit::Doubled, Some(15)),
    (2, Edit::Swapped, Some(2)),
    (3, Edit::Swapped, Some(3)),
    (8, Edit::Swapped, None),
    (12, Edit::Swapped, Some(12)),
    (10, Edit::Prints(8), Some(10)),
    // Entry 3 answers 4 again.
    (2, Edit::Answers(4), Some(3)),
    // The body goes on with template 9.
    (2, Edit::Answers(9), Some(4)),
    (2, Edit::Answers(1), Some(2)),
    (2, Edit::Answers(0), Some(2)),
    (2, Edit::Answers(4097), Some(2)),
    // There is no EDT 5 to start.
    (4, Edit::Answers(7), Some(9)),
    (5, Edit::Answers(7), Some(6)),
    // EDT 6 starts, and 5 prints.
    (9, Edit::By(6), Some(10)),
    (9, Edit::By(3), Some(9)),
    (9, Edit::By(2), Some(9)),
    (4, Edit::By(5), Some(4)),
    (8, Edit::By(5), Some(8)),
    (14, Edit::Returns(0), Some(14)),
];

#[test]
fn creations_are_replayed(rt: HostRuntime) -> Result<(), Fail> {
    let alloc = rt.alloc();
    // 0 Acquire, 1 Start 2, 2 makes 3, 3 makes 4, 4 makes 5, 5 makes 6, 6 prints 6, 7 Free, 8 End 2,
    // 9 Start 5, 10 prints 7, 11 End 5, 12 Start 6, 13 prints 1, 14 End 6, which returns 7.
    let recording = recording_of(&rt, alloc, CREATIONS)?;
    assert_eq!(rt; recording.entries.len(), 15);
    assert!(rt; are_runs(alloc, &recording));
    assert_eq!(rt; first_wrong(alloc, &recording, &CREATIONS_ROWS)?, None);
    Ok(())
}

/// A tree of EDTs: mainEdt makes two, and each of these makes a leaf.
pub const TREE: &[u8] = b"fn leaf { print paramv[0]; }
fn node { print paramv[0]; ocrEdtCreate(paramv[1], 1, [paramv[0] + 1], 0, [], 0); }
fn mainEdt {
  let t = ocrEdtTemplateCreate(leaf, 1, 0); let u = ocrEdtTemplateCreate(node, 2, 0);
  ocrEdtCreate(u, 2, [10, t], 0, [], 0); ocrEdtCreate(u, 2, [20, t], 0, [], 0);
}";

// The worker's entries of TREE: 0 Acquire, 1 Start 2, 2 makes 3, 3 makes 4, 4 makes 5, 5 makes 6, 6 Free, 7 End 2,
// 8 Start 5, 9 prints 10, 10 makes 7, 11 End 5, 12 Start 6, 13 prints 20, 14 makes 8, 15 End 6,
// 16 Start 7, 17 prints 11, 18 End 7, 19 Start 8, 20 prints 21, 21 End 8. Here 5 and 6 start while 2 runs, and 8 before 7.
const ORDER: [usize; 22] = [
    0, 1, 2, 3, 4, 8, 5, 12, 13, 9, 14, 19, 10, 6, 20, 16, 15, 17, 21, 7, 18, 11,
];

// The places are those of the list in this order.
const TREE_ROWS: [Row; 29] = [
    (4, Edit::Dropped, Some(4)),
    // EDT 5 does not run when it prints 10.
    (5, Edit::Dropped, Some(8)),
    (8, Edit::Dropped, Some(9)),
    (9, Edit::Dropped, Some(11)),
    (10, Edit::Dropped, Some(10)),
    (11, Edit::Dropped, Some(13)),
    (12, Edit::Dropped, Some(14)),
    // EDT 2 ends while it holds its block.
    (13, Edit::Dropped, Some(18)),
    (14, Edit::Dropped, Some(17)),
    (16, Edit::Dropped, None),
    (5, Edit::Doubled, Some(6)),
    (9, Edit::Doubled, Some(10)),
    (10, Edit::Doubled, Some(11)),
    (16, Edit::Doubled, Some(17)),
    (4, Edit::Swapped, Some(4)),
    (5, Edit::Swapped, None),
    (7, Edit::Swapped, Some(7)),
    (8, Edit::Swapped, None),
    (10, Edit::Swapped, Some(10)),
    (17, Edit::Prints(12), Some(17)),
    (6, Edit::Answers(5), Some(6)),
    // 8 is not made when it starts.
    (10, Edit::Answers(7), Some(11)),
    (12, Edit::Answers(8), Some(12)),
    (5, Edit::By(6), Some(5)),
    (7, Edit::By(5), Some(7)),
    (8, Edit::By(5), Some(8)),
    (9, Edit::By(6), Some(9)),
    (10, Edit::By(5), Some(10)),
    (19, Edit::By(6), Some(19)),
];

#[test]
fn edts_that_run_by_turns_are_replayed(rt: HostRuntime) -> Result<(), Fail> {
    let alloc = rt.alloc();
    let alone = recording_of(&rt, alloc, TREE)?;
    assert_eq!(rt; alone.entries.len(), 22);
    assert!(rt; are_runs(alloc, &alone));
    let Recording { program, entries } = alone;
    let recording = Recording {
        program,
        entries: ordered(alloc, &entries, &ORDER)?,
    };
    assert!(rt; are_runs(alloc, &recording));
    assert_eq!(rt; first_wrong(alloc, &recording, &TREE_ROWS)?, None);
    Ok(())
}
