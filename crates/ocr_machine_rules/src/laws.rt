// The laws of the rules: they are what the parts of the machine's state tell of a run.
ghost use Rattle.ocr_machine_rules.specs.Laws.{PlanLaw, NextLaw, HeldLaw, ContentsLaw, LineLaw, DestroyedLaw, CodeLaw, PendingLaw, SaysLaw, LegalLaw, RunLaw, QuietLaw, CreatingLaw, WeighedLaw};

/// The rules and the parts of the machine's state tell the same of each run: the plan of an EDT,
/// the block that is next in it and its holds, the words of a block and who stands at it, which
/// objects are destroyed, the code of a call, what is undelivered, what a body does next, which
/// entry may come, what a run is, when it is quiescent, and why a limit stops it.
pub fn rule_laws()
    ensures plan { PlanLaw }
    ensures next { NextLaw }
    ensures held { HeldLaw }
    ensures contents { ContentsLaw }
    ensures line { LineLaw }
    ensures destroyed { DestroyedLaw }
    ensures code { CodeLaw }
    ensures pending { PendingLaw }
    ensures says { SaysLaw }
    ensures legal { LegalLaw }
    ensures run { RunLaw }
    ensures quiet { QuietLaw }
    ensures creating { CreatingLaw }
    ensures weighed { WeighedLaw }
{}
