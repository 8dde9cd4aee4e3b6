// The laws of the quiet end.
ghost use Rattle.ocr_machine_laws.specs.Quiet.{StandingLaw, ToldLaw, WantedLaw, BoundLaw, EdtsLaw, WakeLaw, QuietLaw, NobodyLaw, FateLaw, IdleLaw, DrainLaw, DoneLaw};
ghost use Rattle.ocr_machine_laws.specs.Sent.{SentLaw};

/// What stands after every run: who stands at the blocks, how far the EDTs have come, and that what
/// they want is there.
pub fn standing_laws()
    ensures standing { StandingLaw }
    ensures told { ToldLaw }
    ensures wanted { WantedLaw }
    ensures bound { BoundLaw }
    ensures edts { EdtsLaw }
{}

/// How an EDT goes on, and when it cannot. A quiet run leaves exactly the EDTs with an open slot,
/// and nobody waits there.
pub fn quiet_laws()
    ensures wake { WakeLaw }
    ensures quiet { QuietLaw }
    ensures nobody { NobodyLaw }
    ensures fate { FateLaw }
    ensures idle { IdleLaw }
    ensures drain { DrainLaw }
    ensures done { DoneLaw }
{}

/// Each message that is to be delivered is sound: it carries NULL_GUID or a block that was made,
/// and satisfies a slot that its event has; or it leaves a finish scope that was made.
pub fn sent_laws()
    ensures { SentLaw }
{}
