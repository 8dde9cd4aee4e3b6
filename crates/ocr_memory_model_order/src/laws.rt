// The laws of the memory order.
ghost use Rattle.ocr_memory_model_order.specs.Pairs.{ForwardLaw};
ghost use Rattle.ocr_memory_model_order.specs.Causes.{GraphLaw};
ghost use Rattle.ocr_memory_model_order.specs.Races.{LaterLaw};
ghost use Rattle.ocr_memory_model_order.specs.Loads.{WritesBeforeLaw, LoadedLaw};

/// In a run each pair of the memory order goes forward, and the order is what its graph reaches.
pub fn order_laws()
    ensures forward { ForwardLaw }
    ensures graph { GraphLaw }
    ensures writes { WritesBeforeLaw }
    ensures later { LaterLaw }
    ensures loaded { LoadedLaw }
{}
