// What the table asks of a machine.
ghost use Rattle.std.specs.Prelude.{◌≡◌};
ghost use Rattle.ocr_turns_rule.specs.Meaning.{Meaning, Lawful};
ghost use Rattle.ocr_turns_rule.specs.Counts.{CountingLaws};

/// A machine whose state consists of parts, each at a place, and which changes by entries. What
/// an entry changes rests on the parts of its places and on standing facts alone.
pub trait Machine {
    /// What legality rests on besides the history.
    type Setting;

    /// What stands at a place.
    type Part: Drop;

    /// A step of the machine.
    type Entry: Drop;

    /// What an entry leaves to be delivered by a later one.
    type Message: Drop;

    /// A standing fact, which no later entry undoes. Only clauses read its values.
    type Fact;

    /// What entries mean: which are legal after which, and what they change, send and tell.
    ghost meaning: { Meaning Self.Setting Self.Entry Self.Part Self.Message Self.Fact };

    /// The part of a number that is not made.
    fn vacant() -> Self::Part
        ensures { result ≡ meaning.vacant };

    /// The EDT that is ready at the opening, and the payload of its one slot.
    fn first() -> (u64, u64)
        ensures { result ≡ meaning.first };

    /// What the entry weighs against a clerk's share.
    fn weight(entry: &Self::Entry) -> u64
        ensures { result ≡ meaning.heavy entry.now };

    /// The message that the entry delivers, by its entry's number and its index there.
    fn delivers(entry: &Self::Entry) -> Option<(u64, u32)>
        ensures { result ≡ meaning.delivers entry.now };

    /// The laws on which the table rests.
    ghost laws: { Lawful meaning };

    /// The laws on which the countdown of slots rests.
    ghost counting_laws: { CountingLaws meaning };
}
