// A stencil of 64 by 64 cells in 16 tiles: tile i is row i / 4 and column i % 4, and both borders
// wrap. In each of 10 rounds a cell becomes the sum of itself and its four neighbours.
use crate::workers::first_wrong;
use ocr_tests_run::{CREWS, Row, Stream, Streams, WHOLE, outcome_of};
use std::test::Fail;

const STENCIL: &[u8] = b"fn tile {
  let me = depv[0]; let d = ocrDbCreate(2048, 0); let k = 0;
  while k < 256 {
    let v = load(me, k);
    if k < 16 { v = v + load(depv[1], 240 + k); } else { v = v + load(me, k - 16); }
    if k >= 240 { v = v + load(depv[2], k - 240); } else { v = v + load(me, k + 16); }
    if k % 16 == 0 { v = v + load(depv[3], k + 15); } else { v = v + load(me, k - 1); }
    if k % 16 == 15 { v = v + load(depv[4], k - 15); } else { v = v + load(me, k + 1); }
    store(d, k, v);
    k = k + 1;
  }
  ocrDbRelease(d); ocrEventSatisfy(paramv[0], d);
}
fn total {
  let s = 0; let i = 0;
  while i < 16 { let k = 0; while k < 256 { s = s + load(depv[i], k); k = k + 1; } i = i + 1; }
  print s; ocrShutdown();
}
fn mainEdt {
  let g = ocrDbCreate(256, 0); let t = ocrEdtTemplateCreate(tile, 1, 5); let i = 0;
  while i < 16 {
    let e = ocrEventCreate(OCR_EVENT_STICKY_T, EVT_PROP_TAKES_ARG);
    let d = ocrDbCreate(2048, 0); let k = 0;
    while k < 256 {
      store(d, k, (i / 4 * 16 + k / 16) * 64 + i % 4 * 16 + k % 16); k = k + 1;
    }
    ocrDbRelease(d); ocrEventSatisfy(e, d); store(g, i, e); i = i + 1;
  }
  let r = 1;
  while r <= 10 {
    let from = (r + 1) % 2 * 16; let to = r % 2 * 16; i = 0;
    while i < 16 {
      store(g, to + i, ocrEventCreate(OCR_EVENT_STICKY_T, EVT_PROP_TAKES_ARG));
      let w = ocrEdtCreate(t, EDT_PARAM_DEF, [load(g, to + i)], EDT_PARAM_DEF, [], 0);
      ocrAddDependence(load(g, from + i), w, 0, DB_MODE_CONST);
      ocrAddDependence(load(g, from + (i + 12) % 16), w, 1, DB_MODE_CONST);
      ocrAddDependence(load(g, from + (i + 4) % 16), w, 2, DB_MODE_CONST);
      ocrAddDependence(load(g, from + i / 4 * 4 + (i + 3) % 4), w, 3, DB_MODE_CONST);
      ocrAddDependence(load(g, from + i / 4 * 4 + (i + 1) % 4), w, 4, DB_MODE_CONST);
      i = i + 1;
    }
    r = r + 1;
  }
  let s = ocrEdtCreate(ocrEdtTemplateCreate(total, 0, 16), EDT_PARAM_DEF, [],
    EDT_PARAM_DEF, [], 0);
  i = 0;
  while i < 16 { ocrAddDependence(load(g, i), s, i, DB_MODE_CONST); i = i + 1; }
}";

// At first the cells have the numbers from 0 to 4,095, whose sum is 8,386,560; each round makes
// the sum five times as great.
static ROWS: [Row; 1] = [Row {
    words: &[],
    text: STENCIL,
    status: 0,
    out: b"81900000000000\n",
    err: b"",
}];

#[test]
fn stencil_is_the_same_by_any_number_of_workers(rt: HostRuntime) -> Result<(), Fail> {
    assert_eq!(rt; first_wrong(&rt, rt.alloc(), &ROWS)?, None);
    Ok(())
}

#[test]
fn second_write_of_the_stencil_fails(rt: HostRuntime) -> Result<(), Fail> {
    let alloc = rt.alloc();
    let out = Stream {
        most: 4,
        fails: Some(1),
    };
    let streams = Streams { out, ..WHOLE };
    for workers in CREWS {
        let words = ["run", "--workers", workers];
        let done = outcome_of(&rt, alloc, &words, STENCIL.to_vec(alloc)?, 1000, streams)?;
        assert_eq!(rt; done.ended.status, 8);
        assert_eq!(rt; done.out.bytes(), b"8190".as_slice());
        assert_eq!(rt; done.err.bytes(), b"write fault\n".as_slice());
    }
    Ok(())
}
