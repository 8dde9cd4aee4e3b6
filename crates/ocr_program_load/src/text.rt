// The text of the program that `load` runs.
ghost use Rattle.std.specs.Prelude.{◌≡◌, ◌≤◌, IfOk, length};
ghost use Rattle.ocr_program_load.specs.Laws.{LoadLaw};
ghost use Rattle.ocr_program_load.specs.LoadText.{load_text};

use itoa::Buffer;
use ocr_base::NoMemory;
use std::alloc::Global;

const HEAD: &[u8] = b"fn node {
  let d = ocrDbCreate(8, 0);
  store(d, 0, load(depv[0], 0) * 3 + load(depv[1], 0) + paramv[1]);
  ocrDbRelease(d); ocrEventSatisfy(paramv[0], d);
}
fn total { let s = 0; let i = 0; while i < 8 { s = s + load(depv[i], 0); i = i + 1; } print s; }
fn mainEdt {
  let g = ocrDbCreate(128, 0); let t = ocrEdtTemplateCreate(node, 2, 2); let i = 0;
  while i < 8 {
    let e = ocrEventCreate(OCR_EVENT_STICKY_T, EVT_PROP_TAKES_ARG);
    let d = ocrDbCreate(8, 0); store(d, 0, i + 1);
    ocrDbRelease(d); ocrEventSatisfy(e, d); store(g, i, e); i = i + 1;
  }
  let r = 1;
  while r <= ";

const MIDDLE: &[u8] = b" {
    let from = (r + 1) % 2 * 8; let to = r % 2 * 8; i = 0;
    while i < 8 {
      store(g, to + i, ocrEventCreate(OCR_EVENT_STICKY_T, EVT_PROP_TAKES_ARG));
      let w = ocrEdtCreate(t, EDT_PARAM_DEF, [load(g, to + i), r], EDT_PARAM_DEF, [], 0);
      ocrAddDependence(load(g, from + i), w, 0, DB_MODE_CONST);
      ocrAddDependence(load(g, from + (i + 1) % 8), w, 1, DB_MODE_CONST);
      i = i + 1;
    }
    r = r + 1;
  }
  let s = ocrEdtCreate(ocrEdtTemplateCreate(total, 0, 8), EDT_PARAM_DEF, [], EDT_PARAM_DEF, [], 0);
  i = 0;
  while i < 8 { ocrAddDependence(load(g, ";

const TAIL: &[u8] = b" % 2 * 8 + i), s, i, DB_MODE_CONST); i = i + 1; }
}
";

/// The text of the program that `load` runs, with this number of layers. It fails for want of
/// memory alone.
pub fn load_text(alloc: Global, number: u64) -> Result<Vec<u8>, NoMemory>
    ensures text { IfOk result (λ text. text.items ≡ load_text number) }
    ensures short { IfOk result (λ text. length text.items ≤ 2000) }
{
    let mut buffer = Buffer::new();
    let digits = buffer.format(number).as_bytes();
    let mut text = HEAD.to_vec(alloc)?;
    text.extend_from_slice(digits)?;
    text.extend_from_slice(MIDDLE)?;
    text.extend_from_slice(digits)?;
    text.extend_from_slice(TAIL)?;
    Ok(text)
}

/// The law of these texts: each is a program that may be run.
#[tactic(auto, using(crate::proofs::Loaded::load_law))]
pub fn load_laws()
    ensures { LoadLaw }
{}
