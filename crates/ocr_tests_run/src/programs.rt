// Programs that many tests run.

/// It prints, and shuts down.
pub const FIRST: &[u8] = b"fn mainEdt { print 42; ocrShutdown(); }";

/// Fibonacci's number of the argument: each EDT above the leaves makes two events, an EDT that adds
/// what they bring, and two EDTs that satisfy them.
pub const FIBONACCI: &[u8] = b"fn give {
  let d = ocrDbCreate(8, 0); store(d, 0, load(depv[0], 0) + load(depv[1], 0));
  ocrDbRelease(d); ocrEventSatisfy(paramv[0], d);
}
fn fib {
  if paramv[0] < 2 {
    let d = ocrDbCreate(8, 0);
    store(d, 0, paramv[0]);
    ocrDbRelease(d);
    ocrEventSatisfy(paramv[1], d);
    return NULL_GUID;
  }
  let a = ocrEventCreate(OCR_EVENT_STICKY_T, EVT_PROP_TAKES_ARG);
  let b = ocrEventCreate(OCR_EVENT_STICKY_T, EVT_PROP_TAKES_ARG);
  let s = ocrEdtCreate(paramv[3], EDT_PARAM_DEF, [paramv[1]], EDT_PARAM_DEF, [], 0);
  ocrAddDependence(a, s, 0, DB_MODE_CONST);
  ocrAddDependence(b, s, 1, DB_MODE_CONST);
  ocrEdtCreate(paramv[2], EDT_PARAM_DEF, [paramv[0] - 1, a, paramv[2], paramv[3]],
    EDT_PARAM_DEF, [], 0);
  ocrEdtCreate(paramv[2], EDT_PARAM_DEF, [paramv[0] - 2, b, paramv[2], paramv[3]],
    EDT_PARAM_DEF, [], 0);
}
fn last { print load(depv[0], 0); ocrShutdown(); }
fn mainEdt {
  let e = ocrEventCreate(OCR_EVENT_STICKY_T, EVT_PROP_TAKES_ARG);
  let w = ocrEdtCreate(ocrEdtTemplateCreate(last, 0, 1), EDT_PARAM_DEF, [], EDT_PARAM_DEF, [], 0);
  ocrAddDependence(e, w, 0, DB_MODE_CONST);
  let f = ocrEdtTemplateCreate(fib, 4, 0);
  ocrEdtCreate(f, EDT_PARAM_DEF, [load(depv[0], 1), e, f, ocrEdtTemplateCreate(give, 1, 2)],
    EDT_PARAM_DEF, [], 0);
}";

/// Eight EDTs, 7, 9 and so on to 21, count in a block that each of them holds alone; their output
/// events let one more show it.
pub const ADDERS: &[u8] = b"fn add { store(depv[0], 0, load(depv[0], 0) + 1); }
fn show { print load(depv[8], 0); }
fn mainEdt {
  let d = ocrDbCreate(8, DB_PROP_NO_ACQUIRE);
  let t = ocrEdtTemplateCreate(add, 0, 1);
  let s = ocrEdtCreate(ocrEdtTemplateCreate(show, 0, 9), EDT_PARAM_DEF, [], EDT_PARAM_DEF, [], 0);
  ocrAddDependence(d, s, 8, DB_MODE_RO);
  let i = 0;
  while i < 8 {
    let o = 0;
    let a = ocrEdtCreate(t, EDT_PARAM_DEF, [], EDT_PARAM_DEF, [], 0, &o);
    ocrAddDependence(o, s, i, DB_MODE_NULL);
    ocrAddDependence(d, a, 0, DB_MODE_EW);
    i = i + 1;
  }
}";
