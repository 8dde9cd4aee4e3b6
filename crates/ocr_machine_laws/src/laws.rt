// The laws of what lasts, of what rests on kept parts, and of when an entry may come.
ghost use Rattle.ocr_machine_laws.specs.Found.{FoundLaw, UnchangedLaw};
ghost use Rattle.ocr_machine_laws.specs.Held.{HoldingLaw, HeldLaw, KeptFitsLaw};
ghost use Rattle.ocr_machine_laws.specs.Kept.{KeptLaw, BackLaw, AfterKeptLaw, UntouchedLaw, OwnCoreLaw, FilledLaw};
ghost use Rattle.ocr_machine_laws.specs.Permanence.{MadeLaw, SetOnceLaw, DeliveredLaw, StaysLaw, PlannedLaw, NoOwnLaw, FreshLaw, BodyLaw};
ghost use Rattle.ocr_machine_laws.specs.Members.{MembersLaw, LeavingLaw, JoiningLaw, FinishLaw, AllLeftLaw};
ghost use Rattle.ocr_machine_laws.specs.Plain.{NextLaw, AcquireLaw, WaitLaw, StaleLaw, BeginLaw, FreeingLaw, DoomingLaw, SharingLaw, FreeLaw, EndLaw, DeliverLaw, CallLaw};

/// What an EDT holds is told by its core and by its blocks alike: the mode, the length and the
/// loan. So a running EDT may give back each block that it holds.
pub fn holding_laws()
    ensures holding { HoldingLaw }
    ensures held { HeldLaw }
    ensures fits { KeptFitsLaw }
{}

/// What is made lasts. A slot is set once, and a message is delivered once; so the slots and the
/// plan of an EDT stay once its slots are set, and its body from its start on.
pub fn lasting_laws()
    ensures made { MadeLaw }
    ensures once { SetOnceLaw }
    ensures delivered { DeliveredLaw }
    ensures stays { StaysLaw }
    ensures planned { PlannedLaw }
    ensures no_own { NoOwnLaw }
    ensures fresh { FreshLaw }
    ensures body { BodyLaw }
{}

/// Whoever keeps the parts that an entry names knows whether it is legal, and what it leaves,
/// whatever the rest of the run is.
pub fn kept_laws()
    ensures kept { KeptLaw }
    ensures back { BackLaw }
    ensures after { AfterKeptLaw }
    ensures untouched { UntouchedLaw }
    ensures own_core { OwnCoreLaw }
    ensures filled { FilledLaw }
{}

/// An EDT goes on exactly where it has not started, every slot is set, and the next block of its
/// plan is available, unavailable or gone, or its plan is done.
pub fn going_laws()
    ensures next { NextLaw }
    ensures acquire { AcquireLaw }
    ensures wait { WaitLaw }
    ensures stale { StaleLaw }
    ensures begin { BeginLaw }
{}

/// A running EDT frees the least block that it holds, may destroy each block, and loads and stores
/// what its holds let it.
pub fn working_laws()
    ensures freeing { FreeingLaw }
    ensures dooming { DoomingLaw }
    ensures sharing { SharingLaw }
{}

/// A running EDT makes a call exactly where its body says it and the answer is that of the objects;
/// once its body has come to its end, it frees the least block that it holds, and ends where it
/// holds none. A message is delivered exactly where it was sent and not delivered.
pub fn entering_laws()
    ensures call { CallLaw }
    ensures deliver { DeliverLaw }
    ensures free { FreeLaw }
    ensures end { EndLaw }
{}

/// What an EDT finds in a block that it acquires in `Ew` or `Const` are the contents before that,
/// and while it holds the block so no entry of another EDT changes them.
pub fn found_laws()
    ensures found { FoundLaw }
    ensures unchanged { UnchangedLaw }
{}

/// The members of a finish scope are the EDTs whose home it is and that have not ended, the scopes
/// in it that are not done, and one for each `Leave` that is to be delivered. So a `Leave` finds a
/// scope with a member, the home of a running EDT can be joined by one that it makes, and once the
/// scope is done all EDTs that were made in it, however deep, have ended. It is done exactly if
/// each EDT whose home it is has ended, each scope in it is done, and no `Leave` of it is
/// undelivered.
pub fn scope_laws()
    ensures members { MembersLaw }
    ensures leaving { LeavingLaw }
    ensures joining { JoiningLaw }
    ensures finish { FinishLaw }
    ensures all_left { AllLeftLaw }
{}
