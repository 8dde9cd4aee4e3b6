// The event or scope that sent a message, told by the entry at its place.
ghost use Rattle.std.specs.Prelude.{◌≡◌, ◌<◌, Some, length, slice_index};
ghost use Rattle.ocr_machine_history.specs.History.{history_of};
ghost use Rattle.ocr_memory_model_order.specs.Makers as spec;

use ocr_body_meaning::Call;
use ocr_machine_history::{Entry, Message, What};

pub(crate) fn slot_of(what: &What) -> u64
    ensures { result ≡ spec.slot_of what.now }
{
    match what {
        What::Set { slot, .. } => u64::from(*slot),
        What::Satisfy { slot, .. } => u64::from(*slot),
        What::Leave { .. } => 0,
    }
}

fn dep_at(deps: &[u64], slot: u64) -> u64
    ensures { result ≡ slice_index deps.now slot }
{
    if slot >= deps.len() as u64 {
        return 0;
    }
    deps[slot as usize]
}

fn source_by(call: &Call, what: &What) -> u64
    ensures { result ≡ spec.source_by call.now what.now }
{
    match call {
        Call::Satisfy { event, .. } => *event,
        Call::AddDependence { source, .. } => *source,
        Call::EdtCreate { deps, .. } => dep_at(deps.as_slice(), slot_of(what)),
        _ => 0,
    }
}

fn source_in(what: &What) -> u64
    ensures { result ≡ spec.source_in what.now }
{
    match what {
        What::Satisfy { event, .. } => event.0,
        What::Leave { scope } => scope.0,
        What::Set { .. } => 0,
    }
}

fn source_of(entry: &Entry, what: &What) -> u64
    ensures { result ≡ spec.source_of (Some entry.now) what.now }
{
    match entry {
        Entry::Call { call, .. } => source_by(call, what),
        Entry::Deliver { message, .. } => source_in(&message.what),
        _ => 0,
    }
}

/// The source of a message among the entries so far.
pub(crate) fn source_at(entries: &[Entry], message: &Message) -> u64
    requires { message.now.place < length entries.now }
    ensures { result ≡ spec.source_at (history_of entries.now) message.now }
{
    source_of(&entries[message.place as usize], &message.what)
}
