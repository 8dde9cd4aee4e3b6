// The programs of examples/, each with what it writes and its status, as bench/examples.py takes
// them from there.

/// A program's text, its output and its status.
pub type Example = (&'static [u8], &'static [u8], u8);

const ABORT: &[u8] = b"# An abort ends the run with status 5.
fn mainEdt {
  print 1;
  ocrAbort(7);
  print 2;
}
";

const ABORT_OUT: &[u8] = b"1
";

const ABORT_STATUS: u8 = 5;

const BARRIER: &[u8] =
    b"# A latch as a barrier: the sum starts when both parts have counted the latch down.
fn part {
  store(depv[0], paramv[0], paramv[0] + 20);
  ocrDbRelease(depv[0]);
  ocrEventSatisfySlot(paramv[1], NULL_GUID, OCR_EVENT_LATCH_DECR_SLOT);
}
fn sum {
  print load(depv[0], 0) + load(depv[0], 1);
}
fn mainEdt {
  let d = ocrDbCreate(16, DB_PROP_NO_ACQUIRE);
  let latch = ocrEventCreate(OCR_EVENT_LATCH_T, EVT_PROP_NONE);
  ocrEventSatisfySlot(latch, NULL_GUID, OCR_EVENT_LATCH_INCR_SLOT);
  ocrEventSatisfySlot(latch, NULL_GUID, OCR_EVENT_LATCH_INCR_SLOT);
  let s = ocrEdtCreate(ocrEdtTemplateCreate(sum, 0, 2), 0, [], 2, [], EDT_PROP_NONE);
  ocrAddDependence(d, s, 0, DB_MODE_CONST);
  ocrAddDependence(latch, s, 1, DB_MODE_NULL);
  let t = ocrEdtTemplateCreate(part, 2, 1);
  ocrEdtCreate(t, 2, [0, latch], 1, [d], EDT_PROP_NONE);
  ocrEdtCreate(t, 2, [1, latch], 1, [d], EDT_PROP_NONE);
}
";

const BARRIER_OUT: &[u8] = b"41
";

const BARRIER_STATUS: u8 = 0;

const BLOCK: &[u8] =
    b"# Two tasks and a data block: mainEdt fills the block, and the reader prints what it finds there.
fn reader {
  print load(depv[0], 0);
}
fn mainEdt {
  let d = ocrDbCreate(8, DB_PROP_NONE);
  store(d, 0, 42);
  ocrDbRelease(d);
  let t = ocrEdtTemplateCreate(reader, 0, 1);
  let r = ocrEdtCreate(t, 0, [], 1, [], EDT_PROP_NONE);
  ocrAddDependence(d, r, 0, DB_MODE_CONST);
}
";

const BLOCK_OUT: &[u8] = b"42
";

const BLOCK_STATUS: u8 = 0;

const CHANNEL: &[u8] =
    b"# A channel: the first block that is sent goes to the first slot that is linked, and so on.
fn sender {
  let i = 1;
  while i <= 2 {
    let d = ocrDbCreate(8, DB_PROP_NONE);
    store(d, 0, i * 10);
    ocrDbRelease(d);
    ocrEventSatisfy(paramv[0], d);
    i = i + 1;
  }
}
fn receiver {
  print load(depv[0], 0);
  print load(depv[1], 0);
}
fn mainEdt {
  let c = ocrEventCreateParams(OCR_EVENT_CHANNEL_T, EVT_PROP_TAKES_ARG, 2, 1, 1);
  ocrEdtCreate(ocrEdtTemplateCreate(sender, 1, 0), 1, [c], 0, [], EDT_PROP_NONE);
  ocrEdtCreate(ocrEdtTemplateCreate(receiver, 0, 2), 0, [], 2, [c, c], EDT_PROP_NONE);
}
";

const CHANNEL_OUT: &[u8] = b"10
20
";

const CHANNEL_STATUS: u8 = 0;

const COLLATZ: &[u8] = b"# Variables, loops and choices: the steps that 27 takes to 1.
fn mainEdt {
  let n = 27;
  let steps = 0;
  while n != 1 {
    if n % 2 == 0 {
      n = n / 2;
    } else {
      n = 3 * n + 1;
    }
    steps = steps + 1;
  }
  print steps;
}
";

const COLLATZ_OUT: &[u8] = b"111
";

const COLLATZ_STATUS: u8 = 0;

const COUNTERS: &[u8] =
    b"# Eight EDTs count in a block that each of them holds alone; the last one prints.
fn add {
  let n = load(depv[0], 0) + 1;
  store(depv[0], 0, n);
  if n == 8 {
    print n;
  }
}
fn mainEdt {
  let d = ocrDbCreate(8, DB_PROP_NO_ACQUIRE);
  let t = ocrEdtTemplateCreate(add, 0, 1);
  let i = 0;
  while i < 8 {
    let a = ocrEdtCreate(t, EDT_PARAM_DEF, [], EDT_PARAM_DEF, [], EDT_PROP_NONE);
    ocrAddDependence(d, a, 0, DB_MODE_EW);
    i = i + 1;
  }
}
";

const COUNTERS_OUT: &[u8] = b"8
";

const COUNTERS_STATUS: u8 = 0;

const DESTRUCTION: &[u8] =
    b"# A block that is destroyed too early: its reader finds it gone and has NULL_GUID in its slot.
fn reader {
  print depv[0];
}
fn mainEdt {
  let d = ocrDbCreate(8, DB_PROP_NONE);
  store(d, 0, 42);
  let r = ocrEdtCreate(ocrEdtTemplateCreate(reader, 0, 1), 0, [], 1, [], EDT_PROP_NONE);
  ocrAddDependence(d, r, 0, DB_MODE_CONST);
  ocrDbDestroy(d);
  ocrDbRelease(d);
}
";

const DESTRUCTION_OUT: &[u8] = b"0
";

const DESTRUCTION_STATUS: u8 = 0;

const EDTS: &[u8] = b"# Each EDT prints its number and then makes the next one.
fn count_down {
  print paramv[0];
  if paramv[0] {
    ocrEdtCreate(paramv[1], EDT_PARAM_DEF, [paramv[0] - 1, paramv[1]], EDT_PARAM_DEF, [],
      EDT_PROP_NONE);
  }
}
fn mainEdt {
  let template = ocrEdtTemplateCreate(count_down, 2, 0);
  ocrEdtCreate(template, EDT_PARAM_DEF, [3, template], EDT_PARAM_DEF, [], EDT_PROP_NONE);
}
";

const EDTS_OUT: &[u8] = b"3
2
1
0
";

const EDTS_STATUS: u8 = 0;

const FAULT: &[u8] = b"# A fault in a body stops the run: status 6, and a line on standard error.
fn mainEdt {
  print depc;
  print depv[0];
  print depv[1];
}
";

const FAULT_OUT: &[u8] = b"1
1
";

const FAULT_STATUS: u8 = 6;

const FIBONACCI: &[u8] =
    b"# Fibonacci's number 10: an EDT makes two smaller ones, and events bring results to a third.
fn give {
  let d = ocrDbCreate(8, DB_PROP_NONE);
  store(d, 0, load(depv[0], 0) + load(depv[1], 0));
  ocrDbRelease(d);
  ocrEventSatisfy(paramv[0], d);
}
fn fib {
  let n = paramv[0];
  let result = paramv[1];
  let f = paramv[2];
  let g = paramv[3];
  if n < 2 {
    let d = ocrDbCreate(8, DB_PROP_NONE);
    store(d, 0, n);
    ocrDbRelease(d);
    ocrEventSatisfy(result, d);
    return NULL_GUID;
  }
  let a = ocrEventCreate(OCR_EVENT_STICKY_T, EVT_PROP_TAKES_ARG);
  let b = ocrEventCreate(OCR_EVENT_STICKY_T, EVT_PROP_TAKES_ARG);
  let sum = ocrEdtCreate(g, EDT_PARAM_DEF, [result], EDT_PARAM_DEF, [], EDT_PROP_NONE);
  ocrAddDependence(a, sum, 0, DB_MODE_CONST);
  ocrAddDependence(b, sum, 1, DB_MODE_CONST);
  ocrEdtCreate(f, EDT_PARAM_DEF, [n - 1, a, f, g], EDT_PARAM_DEF, [], EDT_PROP_NONE);
  ocrEdtCreate(f, EDT_PARAM_DEF, [n - 2, b, f, g], EDT_PARAM_DEF, [], EDT_PROP_NONE);
}
fn last {
  print load(depv[0], 0);
  ocrShutdown();
}
fn mainEdt {
  let result = ocrEventCreate(OCR_EVENT_STICKY_T, EVT_PROP_TAKES_ARG);
  let l = ocrEdtTemplateCreate(last, 0, 1);
  let w = ocrEdtCreate(l, EDT_PARAM_DEF, [], EDT_PARAM_DEF, [], EDT_PROP_NONE);
  ocrAddDependence(result, w, 0, DB_MODE_CONST);
  let f = ocrEdtTemplateCreate(fib, 4, 0);
  let g = ocrEdtTemplateCreate(give, 1, 2);
  ocrEdtCreate(f, EDT_PARAM_DEF, [10, result, f, g], EDT_PARAM_DEF, [], EDT_PROP_NONE);
}
";

const FIBONACCI_OUT: &[u8] = b"55
";

const FIBONACCI_STATUS: u8 = 0;

const FIRST: &[u8] = b"# The first program: it prints 42 and ends the run.
fn mainEdt {
  print 42;
  ocrShutdown();
}
";

const FIRST_OUT: &[u8] = b"42
";

const FIRST_STATUS: u8 = 0;

const FUTURE: &[u8] =
    b"# An event as a future: the reader starts when the writer has brought the value.
fn writer {
  let d = ocrDbCreate(8, DB_PROP_NONE);
  store(d, 0, 42);
  ocrDbRelease(d);
  ocrEventSatisfy(paramv[0], d);
}
fn reader {
  print load(depv[0], 0);
}
fn mainEdt {
  let future = ocrEventCreate(OCR_EVENT_STICKY_T, EVT_PROP_TAKES_ARG);
  let r = ocrEdtCreate(ocrEdtTemplateCreate(reader, 0, 1), 0, [], 1, [], EDT_PROP_NONE);
  ocrAddDependence(future, r, 0, DB_MODE_CONST);
  ocrEdtCreate(ocrEdtTemplateCreate(writer, 1, 0), 1, [future], 0, [], EDT_PROP_NONE);
}
";

const FUTURE_OUT: &[u8] = b"42
";

const FUTURE_STATUS: u8 = 0;

const OPERATORS: &[u8] = b"# Operators from the lowest level to the highest, and the constants.
fn mainEdt {
  print 1 | 2 ^ 3 & 1;
  print 1 < 2 == 1;
  print 1 << 2 + 1;
  print (1 + 2) * 3 % 5;
  print -1;
  print ~0 >> 63;
  print !0;
  print UNINITIALIZED_GUID;
}
";

const OPERATORS_OUT: &[u8] = b"3
1
8
4
18446744073709551615
1
1
18446744073709551615
";

const OPERATORS_STATUS: u8 = 0;

const PIPELINE: &[u8] =
    b"# A pipeline of channels: each stage writes a digit behind the number in a block, in order.
fn stage {
  let left = paramv[0];
  let template = paramv[1];
  let input = paramv[2];
  let output = paramv[3];
  let digit = paramv[4];
  let d = depv[0];
  store(d, 0, load(d, 0) * 10 + digit);
  ocrDbRelease(d);
  ocrEventSatisfy(output, d);
  # The EDT makes the next one of its stage only now, so that the blocks stay in order.
  if left > 1 {
    ocrEdtCreate(template, EDT_PARAM_DEF, [left - 1, template, input, output, digit],
      EDT_PARAM_DEF, [input], EDT_PROP_NONE);
  }
}
fn show {
  let left = paramv[0];
  print load(depv[0], 0);
  if left > 1 {
    ocrEdtCreate(paramv[1], EDT_PARAM_DEF, [left - 1, paramv[1], paramv[2]], EDT_PARAM_DEF,
      [paramv[2]], EDT_PROP_NONE);
  }
}
fn mainEdt {
  let a = ocrEventCreateParams(OCR_EVENT_CHANNEL_T, EVT_PROP_TAKES_ARG, 4, 1, 1);
  let b = ocrEventCreateParams(OCR_EVENT_CHANNEL_T, EVT_PROP_TAKES_ARG, 4, 1, 1);
  let c = ocrEventCreateParams(OCR_EVENT_CHANNEL_T, EVT_PROP_TAKES_ARG, 4, 1, 1);
  let t = ocrEdtTemplateCreate(stage, 5, 1);
  let s = ocrEdtTemplateCreate(show, 3, 1);
  ocrEdtCreate(t, EDT_PARAM_DEF, [4, t, a, b, 7], EDT_PARAM_DEF, [a], EDT_PROP_NONE);
  ocrEdtCreate(t, EDT_PARAM_DEF, [4, t, b, c, 8], EDT_PARAM_DEF, [b], EDT_PROP_NONE);
  ocrEdtCreate(s, EDT_PARAM_DEF, [4, s, c], EDT_PARAM_DEF, [c], EDT_PROP_NONE);
  let i = 1;
  while i <= 4 {
    let d = ocrDbCreate(8, DB_PROP_NONE);
    store(d, 0, i);
    ocrDbRelease(d);
    ocrEventSatisfy(a, d);
    i = i + 1;
  }
}
";

const PIPELINE_OUT: &[u8] = b"178
278
378
478
";

const PIPELINE_STATUS: u8 = 0;

const PRINTS: &[u8] = b"# Each print writes a line: a number from 0 to 2^64 - 1.
fn mainEdt {
  print 1;
  print 18446744073709551615;
}
";

const PRINTS_OUT: &[u8] = b"1
18446744073709551615
";

const PRINTS_STATUS: u8 = 0;

const QUEENS: &[u8] =
    b"# Counts the ways to put six queens on a board of six by six. Each EDT puts one in the next row, and
# all are in the scope of the first one: its output event lets the number be shown when they have
# ended.
fn found {
  store(depv[0], 0, load(depv[0], 0) + 1);
}
fn put {
  let rows = paramv[0];
  let columns = paramv[1];
  if rows == 0 {
    let f = ocrEdtCreate(paramv[5], EDT_PARAM_DEF, [], EDT_PARAM_DEF, [], EDT_PROP_NONE);
    ocrAddDependence(paramv[6], f, 0, DB_MODE_EW);
  }
  let free = 63 & ~(columns | paramv[2] | paramv[3]);
  while free {
    let queen = free & -free;
    let left = (paramv[2] | queen) << 1;
    let right = (paramv[3] | queen) >> 1;
    let p = paramv[4];
    ocrEdtCreate(p, EDT_PARAM_DEF,
      [rows - 1, columns | queen, left, right, p, paramv[5], paramv[6]], 0, [], EDT_PROP_NONE);
    free = free ^ queen;
  }
}
fn show {
  print load(depv[0], 0);
}
fn mainEdt {
  let d = ocrDbCreate(8, DB_PROP_NO_ACQUIRE);
  let p = ocrEdtTemplateCreate(put, 7, EDT_PARAM_UNK);
  let f = ocrEdtTemplateCreate(found, 0, 1);
  let done = 0;
  let first = ocrEdtCreate(p, EDT_PARAM_DEF, [6, 0, 0, 0, p, f, d], 1, [], EDT_PROP_FINISH, &done);
  let t = ocrEdtTemplateCreate(show, 0, 2);
  let last = ocrEdtCreate(t, EDT_PARAM_DEF, [], EDT_PARAM_DEF, [], EDT_PROP_NONE);
  ocrAddDependence(d, last, 0, DB_MODE_RO);
  ocrAddDependence(done, last, 1, DB_MODE_NULL);
  ocrAddDependence(NULL_GUID, first, 0, DB_MODE_NULL);
}
";

const QUEENS_OUT: &[u8] = b"4
";

const QUEENS_STATUS: u8 = 0;

const RACE: &[u8] =
    b"# A race: two writers hold the block in RW and store the same word, and nothing orders them.
fn writer {
  store(depv[0], 0, paramv[0]);
}
fn mainEdt {
  let d = ocrDbCreate(8, DB_PROP_NO_ACQUIRE);
  let t = ocrEdtTemplateCreate(writer, 1, 1);
  ocrEdtCreate(t, 1, [7], 1, [d], EDT_PROP_NONE);
  ocrEdtCreate(t, 1, [8], 1, [d], EDT_PROP_NONE);
}
";

const RACE_OUT: &[u8] = b"";

const RACE_STATUS: u8 = 0;

const REFUSALS: &[u8] = b"# A refused creation answers 0; `code` says why: 22 EINVAL, 2 ENOENT.
fn one {
}
fn mainEdt {
  let template = ocrEdtTemplateCreate(one, EDT_PARAM_UNK, 0);
  print ocrEdtTemplateCreate(one, 17, 0);
  print code;
  print ocrEdtCreate(99, 0, [], EDT_PARAM_DEF, [], 0);
  print code;
  print ocrEdtCreate(template, 2, [1], EDT_PARAM_DEF, [], 0);
  print code;
  print ocrEdtCreate(template, 1, [1], EDT_PARAM_DEF, [], 0);
  print code;
}
";

const REFUSALS_OUT: &[u8] = b"0
22
0
2
0
22
4
0
";

const REFUSALS_STATUS: u8 = 0;

const RETURNS: &[u8] = b"# A `return` ends a body, and a comparison gives 1 or 0.
fn mainEdt {
  print 3 >= 3;
  print 3 <= 2;
  print 3 > 2;
  if depc == 1 {
    return NULL_GUID;
  }
  print 9;
}
";

const RETURNS_OUT: &[u8] = b"1
0
1
";

const RETURNS_STATUS: u8 = 0;

const SCOPE: &[u8] =
    b"# A finish EDT: the last task starts when the top one and the child that it made have ended.
fn child {
  print 2;
}
fn top {
  print 1;
  ocrEdtCreate(ocrEdtTemplateCreate(child, 0, 0), 0, [], 0, [], EDT_PROP_NONE);
}
fn last {
  print 3;
}
fn mainEdt {
  let done = 0;
  let f = ocrEdtCreate(ocrEdtTemplateCreate(top, 0, 1), 0, [], 1, [], EDT_PROP_FINISH, &done);
  ocrEdtCreate(ocrEdtTemplateCreate(last, 0, 1), 0, [], 1, [done], EDT_PROP_NONE);
  ocrAddDependence(NULL_GUID, f, 0, DB_MODE_NULL);
}
";

const SCOPE_OUT: &[u8] = b"1
2
3
";

const SCOPE_STATUS: u8 = 0;

const SQUARES: &[u8] =
    b"# Four EDTs return a block each, and their output events bring the blocks to a fifth, which adds up.
fn square {
  let d = ocrDbCreate(8, DB_PROP_NONE);
  store(d, 0, paramv[0] * paramv[0]);
  return d;
}
fn sum {
  let s = 0;
  let i = 0;
  while i < depc {
    s = s + load(depv[i], 0);
    i = i + 1;
  }
  print s;
}
fn mainEdt {
  let t = ocrEdtTemplateCreate(square, 1, 1);
  let u = ocrEdtTemplateCreate(sum, 0, 4);
  let w = ocrEdtCreate(u, EDT_PARAM_DEF, [], EDT_PARAM_DEF, [], EDT_PROP_NONE);
  let i = 0;
  while i < 4 {
    let o = 0;
    let e = ocrEdtCreate(t, EDT_PARAM_DEF, [i + 1], EDT_PARAM_DEF, [], EDT_PROP_NONE, &o);
    ocrAddDependence(o, w, i, DB_MODE_CONST);
    ocrAddDependence(NULL_GUID, e, 0, DB_MODE_NULL);
    i = i + 1;
  }
}
";

const SQUARES_OUT: &[u8] = b"30
";

const SQUARES_STATUS: u8 = 0;

const STENCIL: &[u8] =
    b"# A stencil: 10 rounds over 64 by 64 cells in 16 tiles, an EDT for each tile of each round.
fn tile {
  # A tile and those above, below, left and right of it; a cell becomes the sum of itself and its
  # four neighbours, and the borders wrap.
  let me = depv[0];
  let d = ocrDbCreate(2048, DB_PROP_NONE);
  let k = 0;
  while k < 256 {
    let v = load(me, k);
    if k < 16 {
      v = v + load(depv[1], 240 + k);
    } else {
      v = v + load(me, k - 16);
    }
    if k >= 240 {
      v = v + load(depv[2], k - 240);
    } else {
      v = v + load(me, k + 16);
    }
    if k % 16 == 0 {
      v = v + load(depv[3], k + 15);
    } else {
      v = v + load(me, k - 1);
    }
    if k % 16 == 15 {
      v = v + load(depv[4], k - 15);
    } else {
      v = v + load(me, k + 1);
    }
    store(d, k, v);
    k = k + 1;
  }
  ocrDbRelease(d);
  ocrEventSatisfy(paramv[0], d);
}
fn total {
  let sum = 0;
  let i = 0;
  while i < 16 {
    let k = 0;
    while k < 256 {
      sum = sum + load(depv[i], k);
      k = k + 1;
    }
    i = i + 1;
  }
  print sum;
  ocrShutdown();
}
fn mainEdt {
  # Words 0 to 15 and 16 to 31 have, by turns, the events of the last round and of the next one.
  let g = ocrDbCreate(256, DB_PROP_NONE);
  let t = ocrEdtTemplateCreate(tile, 1, 5);
  let i = 0;
  while i < 16 {
    let e = ocrEventCreate(OCR_EVENT_STICKY_T, EVT_PROP_TAKES_ARG);
    let d = ocrDbCreate(2048, DB_PROP_NONE);
    let k = 0;
    while k < 256 {
      store(d, k, (i / 4 * 16 + k / 16) * 64 + i % 4 * 16 + k % 16);
      k = k + 1;
    }
    ocrDbRelease(d);
    ocrEventSatisfy(e, d);
    store(g, i, e);
    i = i + 1;
  }
  let r = 1;
  while r <= 10 {
    let from = (r + 1) % 2 * 16;
    let to = r % 2 * 16;
    i = 0;
    while i < 16 {
      let row = from + i / 4 * 4;
      store(g, to + i, ocrEventCreate(OCR_EVENT_STICKY_T, EVT_PROP_TAKES_ARG));
      let w = ocrEdtCreate(t, EDT_PARAM_DEF, [load(g, to + i)], EDT_PARAM_DEF, [], EDT_PROP_NONE);
      ocrAddDependence(load(g, from + i), w, 0, DB_MODE_CONST);
      ocrAddDependence(load(g, from + (i + 12) % 16), w, 1, DB_MODE_CONST);
      ocrAddDependence(load(g, from + (i + 4) % 16), w, 2, DB_MODE_CONST);
      ocrAddDependence(load(g, row + (i + 3) % 4), w, 3, DB_MODE_CONST);
      ocrAddDependence(load(g, row + (i + 1) % 4), w, 4, DB_MODE_CONST);
      i = i + 1;
    }
    r = r + 1;
  }
  let s = ocrEdtTemplateCreate(total, 0, 16);
  let last = ocrEdtCreate(s, EDT_PARAM_DEF, [], EDT_PARAM_DEF, [], EDT_PROP_NONE);
  i = 0;
  while i < 16 {
    ocrAddDependence(load(g, i), last, i, DB_MODE_CONST);
    i = i + 1;
  }
}
";

const STENCIL_OUT: &[u8] = b"81900000000000
";

const STENCIL_STATUS: u8 = 0;

const STUCK: &[u8] =
    b"# A task that never starts: nobody satisfies the event of its slot 1. The run ends with status 4.
fn reader {
  print load(depv[0], 0);
}
fn mainEdt {
  let d = ocrDbCreate(8, DB_PROP_NO_ACQUIRE);
  let event = ocrEventCreate(OCR_EVENT_STICKY_T, EVT_PROP_NONE);
  let r = ocrEdtCreate(ocrEdtTemplateCreate(reader, 0, 2), 0, [], 2, [], EDT_PROP_NONE);
  ocrAddDependence(d, r, 0, DB_MODE_CONST);
  ocrAddDependence(event, r, 1, DB_MODE_NULL);
}
";

const STUCK_OUT: &[u8] = b"";

const STUCK_STATUS: u8 = 4;

/// The first third of the programs.
pub const EXAMPLES: [Example; 9] = [
    (ABORT, ABORT_OUT, ABORT_STATUS),
    (BARRIER, BARRIER_OUT, BARRIER_STATUS),
    (BLOCK, BLOCK_OUT, BLOCK_STATUS),
    (CHANNEL, CHANNEL_OUT, CHANNEL_STATUS),
    (COLLATZ, COLLATZ_OUT, COLLATZ_STATUS),
    (COUNTERS, COUNTERS_OUT, COUNTERS_STATUS),
    (DESTRUCTION, DESTRUCTION_OUT, DESTRUCTION_STATUS),
    (EDTS, EDTS_OUT, EDTS_STATUS),
    (FAULT, FAULT_OUT, FAULT_STATUS),
];

/// The second third.
pub const MORE_EXAMPLES: [Example; 8] = [
    (FIBONACCI, FIBONACCI_OUT, FIBONACCI_STATUS),
    (FIRST, FIRST_OUT, FIRST_STATUS),
    (FUTURE, FUTURE_OUT, FUTURE_STATUS),
    (OPERATORS, OPERATORS_OUT, OPERATORS_STATUS),
    (PIPELINE, PIPELINE_OUT, PIPELINE_STATUS),
    (PRINTS, PRINTS_OUT, PRINTS_STATUS),
    (QUEENS, QUEENS_OUT, QUEENS_STATUS),
    (RACE, RACE_OUT, RACE_STATUS),
];

/// The last third.
pub const LAST_EXAMPLES: [Example; 6] = [
    (REFUSALS, REFUSALS_OUT, REFUSALS_STATUS),
    (RETURNS, RETURNS_OUT, RETURNS_STATUS),
    (SCOPE, SCOPE_OUT, SCOPE_STATUS),
    (SQUARES, SQUARES_OUT, SQUARES_STATUS),
    (STENCIL, STENCIL_OUT, STENCIL_STATUS),
    (STUCK, STUCK_OUT, STUCK_STATUS),
];
