// Journals of runs by one, two and four workers.
use crate::events::FED;
use crate::journals::TREE;
use crate::runs::{recording_by, verdict};
use crate::scopes::{OUTPUT_ROWS, SCOPE_ROWS};
use ocr_tests_run::{CREWS, EXAMPLES, LAST_EXAMPLES, MORE_EXAMPLES};
use std::alloc::Global;
use std::sync::Wait;
use std::test::Fail;
use std::thread::Threads;

// Two EDTs want the same two blocks in EW, in either order of their slots.
const BOTH: &[u8] = b"fn both { store(depv[0], 0, load(depv[0], 0) + 1); }
fn mainEdt {
  let a = ocrDbCreate(8, DB_PROP_NO_ACQUIRE); let b = ocrDbCreate(8, DB_PROP_NO_ACQUIRE);
  let t = ocrEdtTemplateCreate(both, 0, 2);
  let x = ocrEdtCreate(t, EDT_PARAM_DEF, [], EDT_PARAM_DEF, [], 0);
  let y = ocrEdtCreate(t, EDT_PARAM_DEF, [], EDT_PARAM_DEF, [], 0);
  ocrAddDependence(a, x, 0, DB_MODE_EW); ocrAddDependence(b, x, 1, DB_MODE_EW);
  ocrAddDependence(b, y, 0, DB_MODE_EW); ocrAddDependence(a, y, 1, DB_MODE_EW);
}";

// Four EDTs add to one word while each of them may write it.
const SHARED: &[u8] = b"fn add { store(depv[0], 0, load(depv[0], 0) + 1); }
fn mainEdt {
  let d = ocrDbCreate(8, DB_PROP_NONE); let t = ocrEdtTemplateCreate(add, 0, 1); let i = 0;
  while i < 4 { ocrEdtCreate(t, EDT_PARAM_DEF, [], EDT_PARAM_DEF, [d], 0); i = i + 1; }
}";

// The block is destroyed while EDTs hold it, wait for it, or have not asked yet.
const DESTROYED: &[u8] = b"fn use { if depv[0] { print load(depv[0], 0); } }
fn mainEdt {
  let d = ocrDbCreate(8, DB_PROP_NONE); let t = ocrEdtTemplateCreate(use, 0, 1); let i = 0;
  while i < 4 {
    let w = ocrEdtCreate(t, EDT_PARAM_DEF, [], EDT_PARAM_DEF, [], 0);
    ocrAddDependence(d, w, 0, i % 2 + DB_MODE_RO);
    i = i + 1;
  }
  ocrDbDestroy(d);
}";

// Whether the journals of the examples' runs by so many workers are runs.
fn examples_are_replayed<R: Threads + Wait + Sync>(
    rt: &R,
    alloc: Global,
    workers: &str,
) -> Result<bool, Fail> {
    for (text, _, _) in EXAMPLES
        .into_iter()
        .chain(MORE_EXAMPLES)
        .chain(LAST_EXAMPLES)
    {
        let recording = recording_by(rt, alloc, workers, text)?;
        if verdict(alloc, &recording, &recording.entries).is_err() {
            return Ok(false);
        }
    }
    Ok(true)
}

#[test]
fn runs_of_the_examples_by_one_worker_are_replayed(rt: HostRuntime) -> Result<(), Fail> {
    assert!(rt; examples_are_replayed(&rt, rt.alloc(), "1")?);
    Ok(())
}

#[test]
fn runs_of_the_examples_by_two_workers_are_replayed(rt: HostRuntime) -> Result<(), Fail> {
    assert!(rt; examples_are_replayed(&rt, rt.alloc(), "2")?);
    Ok(())
}

#[test]
fn runs_of_the_examples_by_four_workers_are_replayed(rt: HostRuntime) -> Result<(), Fail> {
    assert!(rt; examples_are_replayed(&rt, rt.alloc(), "4")?);
    Ok(())
}

#[test]
fn runs_by_several_workers_are_replayed(rt: HostRuntime) -> Result<(), Fail> {
    let alloc = rt.alloc();
    for text in [TREE, BOTH, SHARED, DESTROYED] {
        for workers in CREWS {
            let recording = recording_by(&rt, alloc, workers, text)?;
            assert_eq!(rt; verdict(alloc, &recording, &recording.entries), Ok(()));
        }
    }
    Ok(())
}

/// Two EDTs count a latch down until it has fired, and events bring that on to an EDT; one of them
/// fires before another is linked to it, or after.
pub const COUNTED: &[u8] = b"fn down {
  while ocrEventSatisfySlot(paramv[0], NULL_GUID, OCR_EVENT_LATCH_DECR_SLOT) == 0 { }
}
fn after { print depv[0]; }
fn mainEdt {
  let l = ocrEventCreate(OCR_EVENT_LATCH_T, 0); let i = 0;
  while i < 20 {
    ocrEventSatisfySlot(l, NULL_GUID, OCR_EVENT_LATCH_INCR_SLOT); i = i + 1;
  }
  let s = ocrEventCreate(OCR_EVENT_STICKY_T, 0); ocrAddDependence(l, s, 0, 0);
  let t = ocrEdtTemplateCreate(down, 1, 0);
  ocrEdtCreate(t, EDT_PARAM_DEF, [l], EDT_PARAM_DEF, [], 0);
  ocrEdtCreate(t, EDT_PARAM_DEF, [l], EDT_PARAM_DEF, [], 0);
  let o = ocrEventCreate(OCR_EVENT_ONCE_T, 0);
  ocrEdtCreate(ocrEdtTemplateCreate(after, 0, 2), EDT_PARAM_DEF, [], EDT_PARAM_DEF, [o, s], 0);
  ocrAddDependence(s, o, 0, 0);
}";

/// Two stages write a digit each behind the numbers in four blocks, and a third one prints them.
pub const PIPELINE: &[u8] = b"fn stage {
  let d = depv[0]; store(d, 0, load(d, 0) * 10 + paramv[4]);
  ocrDbRelease(d); ocrEventSatisfy(paramv[3], d);
  if paramv[0] > 1 {
    ocrEdtCreate(paramv[1], 5, [paramv[0] - 1, paramv[1], paramv[2], paramv[3], paramv[4]],
      1, [paramv[2]], 0);
  }
}
fn show {
  print load(depv[0], 0);
  if paramv[0] > 1 {
    ocrEdtCreate(paramv[1], 3, [paramv[0] - 1, paramv[1], paramv[2]], 1, [paramv[2]], 0);
  }
}
fn mainEdt {
  let a = ocrEventCreateParams(OCR_EVENT_CHANNEL_T, EVT_PROP_TAKES_ARG, 4, 1, 1);
  let b = ocrEventCreateParams(OCR_EVENT_CHANNEL_T, EVT_PROP_TAKES_ARG, 4, 1, 1);
  let c = ocrEventCreateParams(OCR_EVENT_CHANNEL_T, EVT_PROP_TAKES_ARG, 4, 1, 1);
  let t = ocrEdtTemplateCreate(stage, 5, 1); let s = ocrEdtTemplateCreate(show, 3, 1);
  ocrEdtCreate(t, 5, [4, t, a, b, 7], 1, [a], 0); ocrEdtCreate(t, 5, [4, t, b, c, 8], 1, [b], 0);
  ocrEdtCreate(s, 3, [4, s, c], 1, [c], 0);
  let i = 1;
  while i <= 4 {
    let d = ocrDbCreate(8, 0); store(d, 0, i); ocrDbRelease(d); ocrEventSatisfy(a, d);
    i = i + 1;
  }
}";

// Two rounds over 64 by 64 cells in 16 tiles.
const STENCIL: &[u8] = b"fn tile {
  let me = depv[0]; let d = ocrDbCreate(2048, 0); let k = 0;
  while k < 256 {
    let v = load(me, k);
    if k < 16 { v = v + load(depv[1], 240 + k); } else { v = v + load(me, k - 16); }
    if k >= 240 { v = v + load(depv[2], k - 240); } else { v = v + load(me, k + 16); }
    if k % 16 == 0 { v = v + load(depv[3], k + 15); } else { v = v + load(me, k - 1); }
    if k % 16 == 15 { v = v + load(depv[4], k - 15); } else { v = v + load(me, k + 1); }
    store(d, k, v);
    k = k + 1;
  }
  ocrDbRelease(d); ocrEventSatisfy(paramv[0], d);
}
fn total {
  let s = 0; let i = 0;
  while i < 16 { let k = 0; while k < 256 { s = s + load(depv[i], k); k = k + 1; } i = i + 1; }
  print s; ocrShutdown();
}
fn mainEdt {
  let g = ocrDbCreate(256, 0); let t = ocrEdtTemplateCreate(tile, 1, 5); let i = 0;
  while i < 16 {
    let e = ocrEventCreate(OCR_EVENT_STICKY_T, EVT_PROP_TAKES_ARG);
    let d = ocrDbCreate(2048, 0); store(d, i, i);
    ocrDbRelease(d); ocrEventSatisfy(e, d); store(g, i, e); i = i + 1;
  }
  let r = 1;
  while r <= 2 {
    let from = (r + 1) % 2 * 16; let to = r % 2 * 16; i = 0;
    while i < 16 {
      let row = from + i / 4 * 4;
      store(g, to + i, ocrEventCreate(OCR_EVENT_STICKY_T, EVT_PROP_TAKES_ARG));
      let w = ocrEdtCreate(t, EDT_PARAM_DEF, [load(g, to + i)], EDT_PARAM_DEF, [], 0);
      ocrAddDependence(load(g, from + i), w, 0, DB_MODE_CONST);
      ocrAddDependence(load(g, from + (i + 12) % 16), w, 1, DB_MODE_CONST);
      ocrAddDependence(load(g, from + (i + 4) % 16), w, 2, DB_MODE_CONST);
      ocrAddDependence(load(g, row + (i + 3) % 4), w, 3, DB_MODE_CONST);
      ocrAddDependence(load(g, row + (i + 1) % 4), w, 4, DB_MODE_CONST);
      i = i + 1;
    }
    r = r + 1;
  }
  let s = ocrEdtCreate(ocrEdtTemplateCreate(total, 0, 16), EDT_PARAM_DEF, [],
    EDT_PARAM_DEF, [], 0);
  i = 0;
  while i < 16 { ocrAddDependence(load(g, i), s, i, DB_MODE_CONST); i = i + 1; }
}";

#[test]
fn runs_with_events_are_replayed(rt: HostRuntime) -> Result<(), Fail> {
    let alloc = rt.alloc();
    for text in [FED, COUNTED, PIPELINE, STENCIL] {
        for workers in CREWS {
            let recording = recording_by(&rt, alloc, workers, text)?;
            assert_eq!(rt; verdict(alloc, &recording, &recording.entries), Ok(()));
        }
    }
    Ok(())
}

// 40 EDTs in one scope; each second one has a scope of its own besides.
const FOREST: &[u8] = b"fn node {
  let i = 0; let less = paramv[0] - 1;
  while i < 3 - !paramv[0] * 3 {
    ocrEdtCreate(paramv[1], EDT_PARAM_DEF, [less, paramv[1]], 0, [], i % 2);
    i = i + 1;
  }
}
fn last { print depv[0]; }
fn mainEdt {
  let o = 0; let t = ocrEdtTemplateCreate(node, 2, EDT_PARAM_UNK);
  let f = ocrEdtCreate(t, EDT_PARAM_DEF, [3, t], 1, [], EDT_PROP_FINISH, &o);
  ocrEdtCreate(ocrEdtTemplateCreate(last, 0, 1), EDT_PARAM_DEF, [], EDT_PARAM_DEF, [o], 0);
  ocrAddDependence(NULL_GUID, f, 0, DB_MODE_NULL);
}";

#[test]
fn runs_with_output_events_are_replayed(rt: HostRuntime) -> Result<(), Fail> {
    let alloc = rt.alloc();
    for row in &OUTPUT_ROWS {
        for workers in CREWS {
            let recording = recording_by(&rt, alloc, workers, row.text)?;
            assert_eq!(rt; verdict(alloc, &recording, &recording.entries), Ok(()));
        }
    }
    Ok(())
}

#[test]
fn runs_with_scopes_are_replayed(rt: HostRuntime) -> Result<(), Fail> {
    let alloc = rt.alloc();
    for text in SCOPE_ROWS.iter().map(|row| row.text).chain([FOREST]) {
        for workers in CREWS {
            let recording = recording_by(&rt, alloc, workers, text)?;
            assert_eq!(rt; verdict(alloc, &recording, &recording.entries), Ok(()));
        }
    }
    Ok(())
}
