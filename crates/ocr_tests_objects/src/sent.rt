// What an event sends, and to whom.
use ocr_guid::Guid;
use ocr_guid::target::{Satisfied, Target};

/// Slot 0 of an EDT of this number, as a target.
pub fn slot(object: u64) -> Target {
    Target {
        object: Guid(object),
        is_edt: true,
        slot: 0,
    }
}

/// Whether an event fires, and sends to nobody.
pub fn is_sent_to_nobody(answer: &Satisfied) -> bool {
    match answer {
        Satisfied::Fired(targets) => targets.is_empty(),
        Satisfied::Kept => false,
        Satisfied::Ignored => false,
        Satisfied::Refused(_) => false,
    }
}

/// Whether an event sends to this target alone.
pub fn is_sent_to(answer: &Satisfied, target: Target) -> bool {
    match answer {
        Satisfied::Fired(targets) => targets.as_slice() == [target].as_slice(),
        Satisfied::Kept => false,
        Satisfied::Ignored => false,
        Satisfied::Refused(_) => false,
    }
}
