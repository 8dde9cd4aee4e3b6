// The law of the report on races.
ghost use Rattle.ocr_report.specs.Races.{SoleTextLaw};

/// The report on races is one text.
pub fn races_text_laws()
    ensures { SoleTextLaw }
{}
