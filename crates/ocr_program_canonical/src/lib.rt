//! The canonical text of task programs.
#![tactic(auto)]

ghost use Rattle.std.specs.Prelude.{◌≡◌, ℕ, List, IfOk};
ghost use Rattle.ocr_program_tree.specs.View.{tree_of};
ghost use Rattle.ocr_program_canonical.specs.Canonical.{program_text};
ghost use Rattle.ocr_program_canonical.specs.RoundTrip.{IsTextOf};

mod expression;
mod statement;

use ocr_base::NoMemory;
use ocr_program_tree::Program;
use std::alloc::Global;

/// The canonical text of a program: its one spelling in lines, with the fewest brackets. For a
/// program that some text has, the canonical text reads as that program. The only error is want of
/// memory.
#[tactic(auto, using(crate::proofs::RoundTrip::reads_back))]
pub fn print_program(alloc: Global, program: &Program) -> Result<Vec<u8>, NoMemory>
    ensures text { IfOk result (λ text. text.items ≡ program_text (tree_of program.now)) }
    ensures reads_back { IfOk result (λ text.
        (given : List ℕ) → IsTextOf given (tree_of program.now)
        → IsTextOf text.items (tree_of program.now)) }
{
    let mut text = Vec::new(alloc);
    statement::functions(alloc, &mut text, program)?;
    Ok(text)
}
