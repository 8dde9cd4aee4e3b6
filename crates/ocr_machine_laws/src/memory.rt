// The laws of memory.
ghost use Rattle.ocr_machine_laws.specs.Memory.{WrittenLaw, AcquiredLaw, NoWriterLaw, EndedLaw};

/// Each write into a block, also one that changes no word, is an own entry of an EDT that holds the
/// block in `Rw` or `Ew`; in `Ew` it comes with the end of the hold. No other entry changes the
/// block's contents. Where an EDT acquires the block in `Ew` or `Const`, no EDT holds it in `Rw` or
/// `Ew`. So each write into it before that belongs to a hold that ended before.
pub fn memory_laws()
    ensures written { WrittenLaw }
    ensures acquired { AcquiredLaw }
    ensures no_writer { NoWriterLaw }
    ensures ended { EndedLaw }
{}
