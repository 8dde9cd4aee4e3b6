// What a view tells of the history.
ghost use Rattle.ocr_turns_rule.specs.Contract.{SoleLaw};

use crate::machine::Machine;

/// Histories that the root's view fits while no other clerk is out are one.
pub fn sole_laws<M: Machine>()
    ensures { SoleLaw M.meaning }
{}
