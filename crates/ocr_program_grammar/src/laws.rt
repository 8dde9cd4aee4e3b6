// Laws of the grammar.
ghost use Rattle.ocr_program_grammar.specs.Laws.{CountLaw, LexemesLaw, NestingLaw, SpellingLaw, SizeLaw};

/// Carries the laws of the grammar's definitions; it does nothing.
#[tactic(auto, using(crate::proofs::Rulesets::laws))]
pub fn grammar_laws()
    ensures counts { CountLaw }
    ensures nestings { NestingLaw }
    ensures spellings { SpellingLaw }
    ensures sizes { SizeLaw }
    ensures lexemes { LexemesLaw }
{}
