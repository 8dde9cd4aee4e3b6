// The laws of races.
ghost use Rattle.ocr_memory_model.specs.RaceList.{SoleLaw};

/// The races of a run are one list.
pub fn race_laws()
    ensures { SoleLaw }
{}
