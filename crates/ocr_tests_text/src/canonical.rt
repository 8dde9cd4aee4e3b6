// Canonical texts.
use crate::stencil::STENCIL;
use crate::texts::canonical_of;
use std::alloc::Global;

const SMALL: &[u8] = b"fn mainEdt{print (1+2)*3;if 0{}else{}}";

const SMALL_LINES: &[u8] = b"fn mainEdt {
  print (1 + 2) * 3;
  if 0 {
  }
}
";

// Each statement and most expressions, spaced otherwise and with brackets that nothing needs.
const LARGE: &[u8] = b"fn helper{let x=1-(2-3);x=(1-2)-3;return -(1+2);}
fn mainEdt{while(!(-(~1))){print (paramv[(0)]<depv[01])<=code;
if paramc|(depc&2){print(1|18446744073709551615)&3;}else{return NULL_GUID;}}
let w=ocrEdtCreate(ocrEdtTemplateCreate(helper,0,2),EDT_PARAM_DEF,[o,2],EDT_PARAM_DEF,[],0,&o);# no EDT
ocrShutdown();}";

const LARGE_LINES: &[u8] = b"fn helper {
  let x = 1 - (2 - 3);
  x = 1 - 2 - 3;
  return -(1 + 2);
}

fn mainEdt {
  while !-~1 {
    print paramv[0] < depv[1] <= code;
    if paramc | depc & 2 {
      print (1 | 18446744073709551615) & 3;
    } else {
      return NULL_GUID;
    }
  }
  let w = ocrEdtCreate(ocrEdtTemplateCreate(helper, 0, 2), EDT_PARAM_DEF, [o, 2], EDT_PARAM_DEF, [], 0, &o);
  ocrShutdown();
}
";

// Whether a text is a program, and has this canonical text.
fn is_printed_as(alloc: Global, text: &[u8], lines: &[u8]) -> bool {
    match canonical_of(alloc, text) {
        Some(printed) => printed.as_slice() == lines,
        None => false,
    }
}

// Whether the canonical text of a text is its own.
fn is_kept(alloc: Global, text: &[u8]) -> bool {
    match canonical_of(alloc, text) {
        Some(printed) => is_printed_as(alloc, printed.as_slice(), printed.as_slice()),
        None => false,
    }
}

#[test]
fn programs_have_their_lines(rt: HostRuntime) {
    let alloc = rt.alloc();
    for (text, lines) in [(SMALL, SMALL_LINES), (LARGE, LARGE_LINES)] {
        assert!(rt; is_printed_as(alloc, text, lines));
        assert!(rt; is_printed_as(alloc, lines, lines));
    }
}

#[test]
fn the_stencil_prints_as_a_text_of_itself(rt: HostRuntime) {
    assert!(rt; is_kept(rt.alloc(), STENCIL));
}
