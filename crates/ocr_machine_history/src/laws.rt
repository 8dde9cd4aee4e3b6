// What is told of all histories.
ghost use Rattle.ocr_machine_history.specs.Output.{LeftLaw};

/// The EDTs that are left are those that were made and never started, each once, rising.
#[tactic(auto, using(crate::proofs::Left::left_law))]
pub fn left_law()
    ensures { LeftLaw }
{}
