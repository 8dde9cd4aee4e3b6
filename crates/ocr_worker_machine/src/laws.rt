// The laws that a table of turns asks.
ghost use Rattle.ocr_turns_rule.specs.Counts.{CountingLaws};
ghost use Rattle.ocr_turns_rule.specs.Meaning.{Lawful};
ghost use Rattle.ocr_worker_machine.specs.Clerks.{DeliverLaw, EntryLaw, HandCounted, HandHome, HandMember, HandSatisfiable, KnowsCounted, KnowsHome, KnowsMember, KnowsSatisfiable, LeaveLaw};
ghost use Rattle.ocr_worker_machine.specs.Ocr.{meaning};

/// The machine obeys the laws of the table of turns, and those of the words that count an EDT's
/// open slots.
pub fn table_laws()
    ensures lawful { Lawful meaning }
    ensures counting { CountingLaws meaning }
{}

/// An entry that is legal on the parts that a clerk has at hand, that its body says and whose facts
/// the clerk knows, is legal after every history that fits the clerk's view.
pub fn clerk_laws()
    ensures { EntryLaw }
{}

/// The event that a clerk owes a satisfaction is there and has the slot; so the clerk may enter the
/// delivery once it has the event's face at hand.
pub fn owing_laws()
    ensures satisfiable { KnowsSatisfiable }
    ensures at_hand { HandSatisfiable }
    ensures deliver { DeliverLaw }
{}

/// Each event can be counted once more, and so it is of those at hand.
pub fn counted_laws()
    ensures counted { KnowsCounted }
    ensures at_hand { HandCounted }
{}

/// The scope that a clerk owes a leave has a member; so the clerk may enter the delivery once it
/// has the scope's face at hand.
pub fn leaving_laws()
    ensures member { KnowsMember }
    ensures at_hand { HandMember }
    ensures leave { LeaveLaw }
{}

/// The home of a running EDT takes one member more, where the clerk has a number for it.
pub fn home_laws()
    ensures home { KnowsHome }
    ensures at_hand { HandHome }
{}
