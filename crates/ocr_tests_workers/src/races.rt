// Races, told from the journals of runs. In each of these programs an argument says whether what
// orders two accesses stands between them.
use crate::workers::first_wrong_by;
use ocr_tests_run::{CREWS, Row};
use std::alloc::Global;
use std::sync::Wait;
use std::test::Fail;
use std::thread::Threads;

// A store, and then what lets the reader start; or the other way round. The reader waits for an
// event of the kind that the second argument names.
const EVENT: &[u8] = b"fn write {
  if paramv[1] { store(depv[0], 0, 7); ocrEventSatisfy(paramv[0], NULL_GUID); }
  else { ocrEventSatisfy(paramv[0], NULL_GUID); store(depv[0], 0, 7); }
}
fn read { let x = load(depv[0], 0); }
fn mainEdt {
  let d = ocrDbCreate(8, DB_PROP_NO_ACQUIRE); let e = ocrEventCreate(load(depv[0], 2), 0);
  let r = ocrEdtCreate(ocrEdtTemplateCreate(read, 0, 2), EDT_PARAM_DEF, [], EDT_PARAM_DEF, [], 0);
  let w = ocrEdtCreate(ocrEdtTemplateCreate(write, 2, 1), EDT_PARAM_DEF, [e, load(depv[0], 1)],
    EDT_PARAM_DEF, [], 0);
  ocrAddDependence(d, r, 0, DB_MODE_RO); ocrAddDependence(e, r, 1, DB_MODE_NULL);
  ocrAddDependence(d, w, 0, DB_MODE_RW);
}";

// The event fires by way of another one.
const CHAIN: &[u8] = b"fn write {
  if paramv[1] { store(depv[0], 0, 7); ocrEventSatisfy(paramv[0], NULL_GUID); }
  else { ocrEventSatisfy(paramv[0], NULL_GUID); store(depv[0], 0, 7); }
}
fn read { let x = load(depv[0], 0); }
fn mainEdt {
  let d = ocrDbCreate(8, DB_PROP_NO_ACQUIRE); let e = ocrEventCreate(OCR_EVENT_ONCE_T, 0);
  let f = ocrEventCreate(OCR_EVENT_STICKY_T, 0);
  let r = ocrEdtCreate(ocrEdtTemplateCreate(read, 0, 2), EDT_PARAM_DEF, [], EDT_PARAM_DEF, [], 0);
  let w = ocrEdtCreate(ocrEdtTemplateCreate(write, 2, 1), EDT_PARAM_DEF, [e, load(depv[0], 1)],
    EDT_PARAM_DEF, [], 0);
  ocrAddDependence(e, f, 0, DB_MODE_NULL);
  ocrAddDependence(d, r, 0, DB_MODE_RO); ocrAddDependence(f, r, 1, DB_MODE_NULL);
  ocrAddDependence(d, w, 0, DB_MODE_RW);
}";

// A dependence on NULL_GUID sets the reader's slot.
const DIRECT: &[u8] = b"fn write {
  if paramv[1] { store(depv[0], 0, 7); ocrAddDependence(NULL_GUID, paramv[0], 1, DB_MODE_NULL); }
  else { ocrAddDependence(NULL_GUID, paramv[0], 1, DB_MODE_NULL); store(depv[0], 0, 7); }
}
fn read { let x = load(depv[0], 0); }
fn mainEdt {
  let d = ocrDbCreate(8, DB_PROP_NO_ACQUIRE);
  let r = ocrEdtCreate(ocrEdtTemplateCreate(read, 0, 2), EDT_PARAM_DEF, [], EDT_PARAM_DEF, [], 0);
  let w = ocrEdtCreate(ocrEdtTemplateCreate(write, 2, 1), EDT_PARAM_DEF, [r, load(depv[0], 1)],
    EDT_PARAM_DEF, [], 0);
  ocrAddDependence(d, r, 0, DB_MODE_RO); ocrAddDependence(d, w, 0, DB_MODE_RW);
}";

// The writer makes the reader, with its dependence.
const MADE: &[u8] = b"fn write {
  if paramv[1] { store(depv[0], 0, 7); }
  ocrEdtCreate(paramv[0], EDT_PARAM_DEF, [], EDT_PARAM_DEF, [depv[0]], 0);
  if paramv[1] == 0 { store(depv[0], 0, 7); }
}
fn read { let x = load(depv[0], 0); }
fn mainEdt {
  let d = ocrDbCreate(8, DB_PROP_NO_ACQUIRE); let t = ocrEdtTemplateCreate(read, 0, 1);
  let w = ocrEdtCreate(ocrEdtTemplateCreate(write, 2, 1), EDT_PARAM_DEF, [t, load(depv[0], 1)],
    EDT_PARAM_DEF, [], 0);
  ocrAddDependence(d, w, 0, DB_MODE_RW);
}";

// Two EDTs store a word each and count a latch down, in either order, and the reader waits for it.
const LATCH: &[u8] = b"fn write {
  if paramv[1] { store(depv[0], paramv[2], 7); }
  ocrEventSatisfySlot(paramv[0], NULL_GUID, OCR_EVENT_LATCH_DECR_SLOT);
  if paramv[1] == 0 { store(depv[0], paramv[2], 7); }
}
fn read { let x = load(depv[0], 0) + load(depv[0], 1); }
fn mainEdt {
  let d = ocrDbCreate(16, DB_PROP_NO_ACQUIRE); let l = ocrEventCreate(OCR_EVENT_LATCH_T, 0);
  let r = ocrEdtCreate(ocrEdtTemplateCreate(read, 0, 2), EDT_PARAM_DEF, [], EDT_PARAM_DEF, [], 0);
  let t = ocrEdtTemplateCreate(write, 3, 1); let i = 0;
  ocrEventSatisfySlot(l, NULL_GUID, OCR_EVENT_LATCH_INCR_SLOT);
  ocrEventSatisfySlot(l, NULL_GUID, OCR_EVENT_LATCH_INCR_SLOT);
  ocrAddDependence(d, r, 0, DB_MODE_RO); ocrAddDependence(l, r, 1, DB_MODE_NULL);
  while i < 2 {
    let w = ocrEdtCreate(t, EDT_PARAM_DEF, [l, load(depv[0], 1 + i), i], EDT_PARAM_DEF, [], 0);
    ocrAddDependence(d, w, 0, DB_MODE_RW);
    i = i + 1;
  }
}";

// The writer is in a finish scope or beside it, and the reader waits for the scope.
const SCOPE: &[u8] = b"fn write { store(depv[0], paramv[0], 7); }
fn scope {
  ocrEdtCreate(paramv[0], EDT_PARAM_DEF, [0], EDT_PARAM_DEF, [paramv[1]], 0);
  ocrEdtCreate(paramv[0], EDT_PARAM_DEF, [1], EDT_PARAM_DEF, [paramv[1]], 0);
}
fn read { let x = load(depv[0], 0) + load(depv[0], 1); }
fn mainEdt {
  let d = ocrDbCreate(16, DB_PROP_NO_ACQUIRE); let t = ocrEdtTemplateCreate(write, 1, 1); let o = 0;
  let r = ocrEdtCreate(ocrEdtTemplateCreate(read, 0, 2), EDT_PARAM_DEF, [], EDT_PARAM_DEF, [], 0);
  let s = ocrEdtCreate(ocrEdtTemplateCreate(scope, 2, 1), EDT_PARAM_DEF, [t, d],
    EDT_PARAM_DEF, [], load(depv[0], 1), &o);
  ocrAddDependence(d, r, 0, DB_MODE_RO); ocrAddDependence(o, r, 1, DB_MODE_NULL);
  ocrAddDependence(NULL_GUID, s, 0, DB_MODE_NULL);
}";

// The reader waits for the writer's output event, or for nobody.
const OUTPUT: &[u8] = b"fn write { store(depv[0], 0, 7); }
fn read { let x = load(depv[0], 0); }
fn mainEdt {
  let d = ocrDbCreate(8, DB_PROP_NO_ACQUIRE); let o = 0;
  let r = ocrEdtCreate(ocrEdtTemplateCreate(read, 0, 2), EDT_PARAM_DEF, [], EDT_PARAM_DEF, [], 0);
  let w = ocrEdtCreate(ocrEdtTemplateCreate(write, 0, 1), EDT_PARAM_DEF, [], EDT_PARAM_DEF, [], 0,
    &o);
  if load(depv[0], 1) { ocrAddDependence(o, r, 1, DB_MODE_NULL); }
  else { ocrAddDependence(NULL_GUID, r, 1, DB_MODE_NULL); }
  ocrAddDependence(d, r, 0, DB_MODE_RO); ocrAddDependence(d, w, 0, DB_MODE_RW);
}";

// An IDEM event passes a second satisfaction over: where `mainEdt` was first, the writer's orders
// nothing.
const SECOND: &[u8] = b"fn write { store(depv[0], 0, 7); ocrEventSatisfy(paramv[0], NULL_GUID); }
fn read { let x = load(depv[0], 0); }
fn mainEdt {
  let d = ocrDbCreate(8, DB_PROP_NO_ACQUIRE); let e = ocrEventCreate(OCR_EVENT_IDEM_T, 0);
  let r = ocrEdtCreate(ocrEdtTemplateCreate(read, 0, 2), EDT_PARAM_DEF, [], EDT_PARAM_DEF, [], 0);
  let w = ocrEdtCreate(ocrEdtTemplateCreate(write, 1, 1), EDT_PARAM_DEF, [e], EDT_PARAM_DEF, [], 0);
  ocrAddDependence(d, r, 0, DB_MODE_RO); ocrAddDependence(e, r, 1, DB_MODE_NULL);
  if load(depv[0], 1) == 0 { ocrEventSatisfy(e, NULL_GUID); }
  ocrAddDependence(d, w, 0, DB_MODE_RW);
}";

// Two loads are no race, nor are a store and a load of different words, nor what one EDT does.
const NONE: &[u8] = b"fn read { let x = load(depv[0], 0); }
fn write { store(depv[0], 1, 7); store(depv[0], 1, load(depv[0], 1) + 1); }
fn mainEdt {
  let d = ocrDbCreate(16, DB_PROP_NO_ACQUIRE); let i = 0; let t = ocrEdtTemplateCreate(read, 0, 1);
  while i < 2 {
    ocrAddDependence(d, ocrEdtCreate(t, EDT_PARAM_DEF, [], EDT_PARAM_DEF, [], 0), 0, DB_MODE_RO);
    i = i + 1;
  }
  let w = ocrEdtCreate(ocrEdtTemplateCreate(write, 0, 1), EDT_PARAM_DEF, [], EDT_PARAM_DEF, [], 0);
  ocrAddDependence(d, w, 0, DB_MODE_RW);
}";

/// Words after `run --workers N`, and what is written where the run ends well.
type Told = (&'static [&'static str], &'static [u8]);

/// A text, and what is told of its runs.
type Group = (&'static [u8], &'static [Told]);

// Whether this is told of runs of the text by so many workers.
fn are_told<R: Threads + Wait + Sync>(
    rt: &R,
    alloc: Global,
    workers: &str,
    text: &'static [u8],
    told: &[Told],
) -> Result<bool, Fail> {
    for (words, out) in told {
        let row = Row {
            words,
            text,
            status: 0,
            out,
            err: b"",
        };
        if first_wrong_by(rt, alloc, workers, &[row])?.is_some() {
            return Ok(false);
        }
    }
    Ok(true)
}

// The first of the texts of which something else is told.
fn first_untold<R: Threads + Wait + Sync>(
    rt: &R,
    alloc: Global,
    workers: &str,
    groups: &[Group],
) -> Result<Option<usize>, Fail> {
    for i in 0..groups.len() {
        let (text, told) = groups[i];
        if !are_told(rt, alloc, workers, text, told)? {
            return Ok(Some(i));
        }
    }
    Ok(None)
}

const ROWS: [Group; 9] = [
    (NONE, &[(&["--races"], b"races 0\n")]),
    (
        EVENT,
        &[
            (&["--races", "1", "1"], b"races 0\n"),
            (
                &["--races", "0", "1"],
                b"races 1\nblock 3 word 0 edts 6 8\n",
            ),
            (&["--races", "1", "2"], b"races 0\n"),
            (
                &["--races", "0", "2"],
                b"races 1\nblock 3 word 0 edts 6 8\n",
            ),
            (&["--races", "1", "3"], b"races 0\n"),
            (
                &["--races", "0", "3"],
                b"races 1\nblock 3 word 0 edts 6 8\n",
            ),
        ],
    ),
    (
        CHAIN,
        &[
            (&["--races", "1"], b"races 0\n"),
            (&["--races", "0"], b"races 1\nblock 3 word 0 edts 7 9\n"),
        ],
    ),
    (
        DIRECT,
        &[
            (&["--races", "1"], b"races 0\n"),
            (&["--races", "0"], b"races 1\nblock 3 word 0 edts 5 7\n"),
            (
                &["--races", "--blocks", "1"],
                b"races 0\nblocks 2\nblock 1 words 2 live\nblock 3 words 1 live\n",
            ),
            (
                &["--refused", "--races", "0"],
                b"refused 0\nraces 1\nblock 3 word 0 edts 5 7\n",
            ),
        ],
    ),
    (
        MADE,
        &[
            (&["--races", "1"], b"races 0\n"),
            (&["--races", "0"], b"races 1\nblock 3 word 0 edts 6 7\n"),
        ],
    ),
    (
        LATCH,
        &[
            (&["--races", "1", "1"], b"races 0\n"),
            (
                &["--races", "0", "1"],
                b"races 1\nblock 3 word 0 edts 6 8\n",
            ),
            (
                &["--races", "1", "0"],
                b"races 1\nblock 3 word 1 edts 6 9\n",
            ),
            (
                &["--races", "0", "0"],
                b"races 2\nblock 3 word 0 edts 6 8\nblock 3 word 1 edts 6 9\n",
            ),
        ],
    ),
    (SCOPE, &[(&["--races", "1"], b"races 0\n")]),
    (
        OUTPUT,
        &[
            (&["--races", "1"], b"races 0\n"),
            (&["--races", "0"], b"races 1\nblock 3 word 0 edts 5 7\n"),
        ],
    ),
    (
        SECOND,
        &[
            (&["--races", "1"], b"races 0\n"),
            (&["--races", "0"], b"races 1\nblock 3 word 0 edts 6 8\n"),
        ],
    ),
];

#[test]
fn races_are_told_exactly(rt: HostRuntime) -> Result<(), Fail> {
    for workers in CREWS {
        assert_eq!(rt; first_untold(&rt, rt.alloc(), workers, &ROWS)?, None);
    }
    Ok(())
}

// Increments of a latch order as its decrements do: the writer counts up, and who comes later
// counts down to nothing.
const INCREMENTS: &[u8] = b"fn write {
  if paramv[1] { store(depv[0], 0, 7); }
  ocrEventSatisfySlot(paramv[0], NULL_GUID, OCR_EVENT_LATCH_INCR_SLOT);
  if paramv[1] == 0 { store(depv[0], 0, 7); }
}
fn down {
  ocrEventSatisfySlot(paramv[0], NULL_GUID, OCR_EVENT_LATCH_DECR_SLOT);
  ocrEventSatisfySlot(paramv[0], NULL_GUID, OCR_EVENT_LATCH_DECR_SLOT);
}
fn read { let x = load(depv[0], 0); }
fn mainEdt {
  let d = ocrDbCreate(8, DB_PROP_NO_ACQUIRE); let l = ocrEventCreate(OCR_EVENT_LATCH_T, 0);
  let r = ocrEdtCreate(ocrEdtTemplateCreate(read, 0, 2), EDT_PARAM_DEF, [], EDT_PARAM_DEF, [], 0);
  let w = ocrEdtCreate(ocrEdtTemplateCreate(write, 2, 1), EDT_PARAM_DEF, [l, load(depv[0], 1)],
    EDT_PARAM_DEF, [], 0);
  let y = ocrEdtCreate(ocrEdtTemplateCreate(down, 1, 1), EDT_PARAM_DEF, [l], EDT_PARAM_DEF, [], 0);
  ocrEventSatisfySlot(l, NULL_GUID, OCR_EVENT_LATCH_INCR_SLOT);
  ocrAddDependence(d, r, 0, DB_MODE_RO); ocrAddDependence(l, r, 1, DB_MODE_NULL);
  ocrAddDependence(d, w, 0, DB_MODE_RW); ocrAddDependence(NULL_GUID, y, 0, DB_MODE_NULL);
}";

// Two EDTs store a word each and pass on through a channel; each reader gets one of them. The
// readers read the words of their own senders, or each that of the other.
const CHANNEL: &[u8] = b"fn send {
  store(depv[0], paramv[1], 7); ocrEventSatisfy(paramv[0], NULL_GUID);
}
fn read { let x = load(depv[0], paramv[0]); }
fn mainEdt {
  let d = ocrDbCreate(16, DB_PROP_NO_ACQUIRE);
  let c = ocrEventCreateParams(OCR_EVENT_CHANNEL_T, 0, 2, 1, 1); let i = 0;
  let s = ocrEdtTemplateCreate(send, 2, 1); let t = ocrEdtTemplateCreate(read, 1, 2);
  while i < 2 {
    let r = ocrEdtCreate(t, EDT_PARAM_DEF, [(i + 1 - load(depv[0], 1)) % 2], EDT_PARAM_DEF, [], 0);
    ocrAddDependence(d, r, 0, DB_MODE_RO); ocrAddDependence(c, r, 1, DB_MODE_NULL);
    i = i + 1;
  }
  i = 0;
  while i < 2 {
    let w = ocrEdtCreate(s, EDT_PARAM_DEF, [c, i], EDT_PARAM_DEF, [], 0);
    ocrAddDependence(d, w, 0, DB_MODE_RW);
    i = i + 1;
  }
}";

// A link by itself orders nothing: the writer links an event that a later EDT satisfies.
const LINK: &[u8] = b"fn write {
  store(depv[0], 0, 7); ocrAddDependence(paramv[0], paramv[1], 1, DB_MODE_NULL);
}
fn fire { ocrEventSatisfy(paramv[0], NULL_GUID); }
fn read { let x = load(depv[0], 0); }
fn mainEdt {
  let d = ocrDbCreate(8, DB_PROP_NO_ACQUIRE); let e = ocrEventCreate(OCR_EVENT_STICKY_T, 0);
  let r = ocrEdtCreate(ocrEdtTemplateCreate(read, 0, 2), EDT_PARAM_DEF, [], EDT_PARAM_DEF, [], 0);
  let w = ocrEdtCreate(ocrEdtTemplateCreate(write, 2, 1), EDT_PARAM_DEF, [e, r],
    EDT_PARAM_DEF, [], 0);
  let f = ocrEdtCreate(ocrEdtTemplateCreate(fire, 1, 1), EDT_PARAM_DEF, [e], EDT_PARAM_DEF, [], 0);
  if load(depv[0], 1) { ocrEventSatisfy(e, NULL_GUID); }
  ocrAddDependence(d, r, 0, DB_MODE_RO); ocrAddDependence(d, w, 0, DB_MODE_RW);
  ocrAddDependence(NULL_GUID, f, 0, DB_MODE_NULL);
}";

// The writer makes the reader, and somebody else, who knows its number, gives it the block.
const CREATION: &[u8] = b"fn write {
  if paramv[1] { store(depv[0], 0, 7); }
  ocrEdtCreate(paramv[0], EDT_PARAM_DEF, [], EDT_PARAM_DEF, [], 0);
  if paramv[1] == 0 { store(depv[0], 0, 7); }
}
fn give { ocrAddDependence(3, 9, 0, DB_MODE_RO); }
fn read { let x = load(depv[0], 0); }
fn mainEdt {
  let d = ocrDbCreate(8, DB_PROP_NO_ACQUIRE); let t = ocrEdtTemplateCreate(read, 0, 1);
  let w = ocrEdtCreate(ocrEdtTemplateCreate(write, 2, 1), EDT_PARAM_DEF, [t, load(depv[0], 1)],
    EDT_PARAM_DEF, [], 0);
  let g = ocrEdtCreate(ocrEdtTemplateCreate(give, 0, 1), EDT_PARAM_DEF, [], EDT_PARAM_DEF, [], 0);
  ocrAddDependence(d, w, 0, DB_MODE_RW); ocrAddDependence(NULL_GUID, g, 0, DB_MODE_NULL);
}";

// A store, two EDTs that hold the block in these modes one after the other, and a load.
const MODES: &[u8] = b"fn write { store(depv[0], 0, 7); }
fn hold { if depv[0] { ocrDbRelease(depv[0]); } }
fn keep { }
fn read { let x = load(depv[0], 0); }
fn mainEdt {
  let d = ocrDbCreate(8, DB_PROP_NO_ACQUIRE);
  let w = ocrEdtCreate(ocrEdtTemplateCreate(write, 0, 1), EDT_PARAM_DEF, [], EDT_PARAM_DEF, [], 0);
  let h = ocrEdtCreate(ocrEdtTemplateCreate(hold, 0, 1), EDT_PARAM_DEF, [], EDT_PARAM_DEF, [], 0);
  let k = ocrEdtCreate(ocrEdtTemplateCreate(keep, 0, 1), EDT_PARAM_DEF, [], EDT_PARAM_DEF, [], 0);
  let r = ocrEdtCreate(ocrEdtTemplateCreate(read, 0, 1), EDT_PARAM_DEF, [], EDT_PARAM_DEF, [], 0);
  ocrAddDependence(d, w, 0, DB_MODE_RW); ocrAddDependence(d, h, 0, load(depv[0], 1));
  ocrAddDependence(d, k, 0, load(depv[0], 2)); ocrAddDependence(d, r, 0, DB_MODE_RO);
}";

// A load, an EDT that holds the block in this mode, and a store.
const READ_FIRST: &[u8] = b"fn read { let x = load(depv[0], 0); }
fn hold { }
fn write { store(depv[0], 0, 7); }
fn mainEdt {
  let d = ocrDbCreate(8, DB_PROP_NO_ACQUIRE);
  let r = ocrEdtCreate(ocrEdtTemplateCreate(read, 0, 1), EDT_PARAM_DEF, [], EDT_PARAM_DEF, [], 0);
  let h = ocrEdtCreate(ocrEdtTemplateCreate(hold, 0, 1), EDT_PARAM_DEF, [], EDT_PARAM_DEF, [], 0);
  let w = ocrEdtCreate(ocrEdtTemplateCreate(write, 0, 1), EDT_PARAM_DEF, [], EDT_PARAM_DEF, [], 0);
  ocrAddDependence(d, r, 0, DB_MODE_RO); ocrAddDependence(d, h, 0, load(depv[0], 1));
  ocrAddDependence(d, w, 0, DB_MODE_RW);
}";

// One worker takes the EDTs in the order in which they became ready.
const ROWS_OF_ONE: [Group; 7] = [
    (
        INCREMENTS,
        &[
            (&["--races", "1"], b"races 0\n"),
            (&["--races", "0"], b"races 1\nblock 3 word 0 edts 6 8\n"),
        ],
    ),
    (
        CHANNEL,
        &[
            (&["--races", "1"], b"races 0\n"),
            (
                &["--races", "0"],
                b"races 2\nblock 3 word 0 edts 8 9\nblock 3 word 1 edts 7 10\n",
            ),
        ],
    ),
    (
        LINK,
        &[
            (&["--races", "1"], b"races 0\n"),
            (&["--races", "0"], b"races 1\nblock 3 word 0 edts 6 8\n"),
        ],
    ),
    (
        CREATION,
        &[
            (&["--races", "1"], b"races 0\n"),
            (&["--races", "0"], b"races 1\nblock 3 word 0 edts 6 9\n"),
        ],
    ),
    (
        SCOPE,
        &[(
            &["--races", "0"],
            b"races 2\nblock 3 word 0 edts 6 10\nblock 3 word 1 edts 6 11\n",
        )],
    ),
    (
        MODES,
        &[
            (
                &["--races", "0", "0"],
                b"races 1\nblock 3 word 0 edts 5 11\n",
            ),
            (
                &["--races", "3", "3"],
                b"races 1\nblock 3 word 0 edts 5 11\n",
            ),
            (
                &["--races", "1", "3"],
                b"races 1\nblock 3 word 0 edts 5 11\n",
            ),
            (&["--races", "4", "0"], b"races 0\n"),
            (&["--races", "2", "0"], b"races 0\n"),
            (&["--races", "0", "4"], b"races 0\n"),
            (&["--races", "0", "2"], b"races 0\n"),
            (&["--races", "4", "2"], b"races 0\n"),
        ],
    ),
    (
        READ_FIRST,
        &[
            (&["--races", "0"], b"races 1\nblock 3 word 0 edts 5 9\n"),
            (&["--races", "1"], b"races 1\nblock 3 word 0 edts 5 9\n"),
            (&["--races", "3"], b"races 1\nblock 3 word 0 edts 5 9\n"),
            (&["--races", "2"], b"races 0\n"),
            (&["--races", "4"], b"races 0\n"),
        ],
    ),
];

#[test]
fn races_in_the_order_of_one_worker_are_told_exactly(rt: HostRuntime) -> Result<(), Fail> {
    assert_eq!(rt; first_untold(&rt, rt.alloc(), "1", &ROWS_OF_ONE)?, None);
    Ok(())
}
