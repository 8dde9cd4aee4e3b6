// The object whose places an entry is added to.
ghost use Rattle.std.specs.Prelude.{◌≡◌, ℕ};
ghost use Rattle.ocr_machine_parts.specs.Progress.{edt_in};
ghost use Rattle.ocr_memory_model_order.specs.Causes.{is_isolated_in};
ghost use Rattle.ocr_memory_model.specs.Keys as spec;

use ocr_acquire::Mode;
use ocr_body_meaning::{Answer, Call};
use ocr_guid::Code;
use ocr_machine_history::{Entry, Message, Stop, What};

/// The EDT of an entry; 0 for an entry that belongs to none.
pub(crate) fn edt_of(entry: &Entry) -> u64
    ensures { result ≡ edt_in entry.now }
{
    match entry {
        Entry::Call { edt, .. } => edt.0,
        Entry::Acquire { edt, .. } | Entry::Wait { edt, .. } => edt.0,
        Entry::StaleAcquire { edt, .. } | Entry::Start { edt } => edt.0,
        Entry::Free { edt, .. } | Entry::End { edt, .. } => edt.0,
        Entry::Stop(Stop::Shutdown { edt }) | Entry::Stop(Stop::Abort { edt, .. }) => edt.0,
        Entry::Stop(Stop::Fault { edt, .. }) => edt.0,
        _ => 0,
    }
}

/// The event that an entry satisfies.
pub(crate) fn satisfied_in(entry: &Entry) -> Option<u64>
    ensures { result ≡ spec.satisfied_in entry.now }
{
    match entry {
        Entry::Call {
            call: Call::Satisfy { event, .. },
            answer: Answer {
                code: Code::Done,
                ..
            },
            ..
        } => Some(*event),
        Entry::Deliver {
            message: Message {
                what: What::Satisfy { event, .. },
                ..
            },
            code: Code::Done,
        } => Some(event.0),
        _ => None,
    }
}

/// The scope that a member leaves by an entry.
pub(crate) fn left_in(entry: &Entry) -> Option<u64>
    ensures { result ≡ spec.left_in entry.now }
{
    match entry {
        Entry::Deliver {
            message: Message {
                what: What::Leave { scope },
                ..
            },
            code: Code::Done,
        } => Some(scope.0),
        _ => None,
    }
}

/// The EDT that an entry makes, or of which it sets a slot.
pub(crate) fn starting_in(entry: &Entry) -> Option<u64>
    ensures { result ≡ spec.starting_in entry.now }
{
    match entry {
        Entry::Call {
            call: Call::EdtCreate { .. },
            answer: Answer {
                code: Code::Done,
                value,
                ..
            },
            ..
        } => Some(*value),
        Entry::Deliver {
            message: Message {
                what: What::Set { edt, .. },
                ..
            },
            ..
        } => Some(edt.0),
        _ => None,
    }
}

fn given_by(call: &Call) -> Option<u64>
    ensures { result ≡ spec.given_by call.now }
{
    match call {
        Call::DbRelease { block } => Some(*block),
        Call::DbDestroy { block } => Some(*block),
        _ => None,
    }
}

/// The block that an entry gives back.
pub(crate) fn given_in(entry: &Entry) -> Option<u64>
    ensures { result ≡ spec.given_in entry.now }
{
    match entry {
        Entry::Call {
            call,
            answer: Answer {
                code: Code::Done,
                ..
            },
            ..
        } => given_by(call),
        Entry::Free { block, .. } => Some(block.0),
        _ => None,
    }
}

/// The block of which it ends a hold, which had this mode.
pub(crate) fn ended_key(entry: &Entry, mode: Option<Mode>) -> Option<u64>
    ensures { result ≡ spec.ended_key entry.now mode }
{
    if mode.is_some() {
        given_in(entry)
    } else {
        None
    }
}

fn is_isolated(mode: Option<Mode>) -> bool
    ensures { result ≡ is_isolated_in mode }
{
    matches!(mode, Some(Mode::Ew) | Some(Mode::Const))
}

/// And where that was EW or CONST.
pub(crate) fn isolated_key(entry: &Entry, mode: Option<Mode>) -> Option<u64>
    ensures { result ≡ spec.isolated_key entry.now mode }
{
    if is_isolated(mode) {
        given_in(entry)
    } else {
        None
    }
}
