// Lists of words.
ghost use Rattle.std.specs.Prelude.{◌≡◌, IfOk};

use ocr_base::NoMemory;
use std::alloc::Global;

/// A copy of the words, which takes no memory where there are none: most EDTs are given none.
#[inline(always)]
pub fn copied_words(alloc: Global, words: &[u64]) -> Result<Vec<u64>, NoMemory>
    ensures { IfOk result (λ copy. copy.items ≡ words.now) }
{
    if words.is_empty() {
        return Ok(Vec::new(alloc));
    }
    Ok(Vec::from_slice(alloc, words)?)
}
