// The laws of runs and of the machine's parts.
ghost use Rattle.ocr_machine_parts.specs.Laws.{StartLaw, SetLaw, AfterLaw, EffectLaw, CodeLaw, LegalityLaw, FrameLaw, WithinLaw, RefusedLaw, HoldsLaw, SettledLaw, SettledLegalLaw, LentLaw, AllowedLaw, FreeLaw, AwaitedLaw, CountedLaw, OutputLaw};

/// In a run every EDT starts at most once, and only where its last slot is set.
pub fn run_laws()
    ensures start { StartLaw }
    ensures set { SetLaw }
{}

/// After a legal entry the parts are what the entry makes of the parts before it. What it does, and
/// whether it is legal, rests on the parts that it names, and it leaves all others as they were. A
/// refused call changes nothing. What an EDT holds after its call is what its body knows of it.
pub fn machine_laws()
    ensures after { AfterLaw }
    ensures effect { EffectLaw }
    ensures code { CodeLaw }
    ensures legality { LegalityLaw }
    ensures frame { FrameLaw }
    ensures within { WithinLaw }
    ensures refused { RefusedLaw }
    ensures holds { HoldsLaw }
{}

/// What was stored in loans is no matter to what an entry does, and to whether it is legal.
pub fn settled_laws()
    ensures settled { SettledLaw }
    ensures legal { SettledLegalLaw }
{}

/// What a run does to a block is what the block allows. Who has its words on loan keeps them, and
/// they are there where it can be granted, where it is held in another mode than EW, and where one
/// who waited for it holds it.
pub fn block_laws()
    ensures lent { LentLaw }
    ensures allowed { AllowedLaw }
    ensures free { FreeLaw }
    ensures awaited { AwaitedLaw }
{}

/// A latch was satisfied at most once by each entry, so it counts no more than there are entries.
/// An output event is a ONCE event that takes an argument.
pub fn event_laws()
    ensures counted { CountedLaw }
    ensures output { OutputLaw }
{}
