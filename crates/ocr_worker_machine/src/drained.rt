// The laws of the root that no other clerk is beside.
ghost use Rattle.ocr_worker_machine.specs.Drained.{OrderlyLaw, PassLaw, RestLaw, StillLaw};

/// The root of a table, while no other clerk is out and it owes nothing, knows by the word of each
/// EDT how far this has come. Where no EDT is ready, the run is quiet; and in a quiet run none is.
/// Where the live word was 0 the run is quiet as well, whoever read it.
pub fn drain_laws()
    ensures orderly { OrderlyLaw }
    ensures pass { PassLaw }
    ensures rest { RestLaw }
    ensures still { StillLaw }
{}
