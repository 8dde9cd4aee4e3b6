// What a graph reaches.
ghost use Rattle.ocr_memory_model_rows.specs.Places.{WithinLaw, ThroughLaw};

/// What reaches a place comes no later, and what reaches it through another reaches it.
pub fn reach_laws()
    ensures within { WithinLaw }
    ensures through { ThroughLaw }
{}
