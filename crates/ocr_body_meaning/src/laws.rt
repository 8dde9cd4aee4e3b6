// What all bodies do.
ghost use Rattle.ocr_body_meaning.specs.Laws.{ServedLaw, AccessLaw, FuelLaw};
ghost use Rattle.ocr_body_meaning.specs.Units.{NodesLaw, UnitsLaw};
ghost use Rattle.ocr_body_meaning.specs.Words.{WordsLaw};

/// A body of a program makes calls whose function is there and whose lists are short; then it ends
/// or stops for a cause of its own. It loads and stores, as calls, only what its holds make an
/// entry. A body makes at most as many calls as it has units of fuel. What it does after some calls
/// costs a number of units: with fewer it is stopped for want of fuel, with more it does the same.
/// An expression that comes to a value has spent a unit for each of its nodes. A body deals with
/// numbers of 64 bits alone, and stores no others.
#[tactic(auto, using(crate::proofs::Rulesets::laws))]
pub fn body_laws()
    ensures served { ServedLaw }
    ensures access { AccessLaw }
    ensures fuel { FuelLaw }
    ensures units { UnitsLaw }
    ensures nodes { NodesLaw }
    ensures words { WordsLaw }
{}
