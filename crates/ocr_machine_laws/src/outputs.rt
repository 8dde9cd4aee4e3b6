// The laws of output events.
ghost use Rattle.ocr_machine_laws.specs.Outputs.{IdentityLaw, MomentLaw, OnceLaw, OwnLaw, OtherLaw, EndLaw, EndedLaw};

/// The output event of an EDT is sent its one Satisfy by an end: when the EDT ends, or, for a
/// finish EDT, when its scope is done; never before, never twice. It brings the block that the EDT
/// returned, NULL_GUID where it returned none, and from a scope NULL_GUID. No two EDTs have the
/// same output event, and an end sends no Satisfy to any other event. The `End` of a finish EDT
/// itself sends none, and once its scope is done it has ended. Who an EDT is stays.
pub fn output_laws()
    ensures identity { IdentityLaw }
    ensures moment { MomentLaw }
    ensures once { OnceLaw }
    ensures own { OwnLaw }
    ensures other { OtherLaw }
    ensures end { EndLaw }
    ensures ended { EndedLaw }
{}
