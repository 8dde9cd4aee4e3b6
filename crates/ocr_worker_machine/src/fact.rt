// What stands in a run, and lasts. Only clauses read a value of the type.
use ocr_body_meaning::Call;
use ocr_machine_parts::Core;
use ocr_slots::Slots;
use std::snapshot::Snapshot;

/// A fact that no later entry undoes.
#[derive(Drop)]
pub enum Fact {
    /// The EDT has so many slots.
    Count { edt: u64, slots: u64 },
    /// The slot of the EDT is set to the payload.
    IsSet { edt: u64, slot: u64, payload: u64 },
    /// The EDT started with this face and this core: what its body is told rests on them, and on
    /// the payloads of its slots.
    Began { edt: u64, face: Slots, core: Core },
    /// The run was stopped for want of numbers, where the EDT ran and its body said this creation
    /// next.
    Short { edt: u64, call: Snapshot<Call> },
}
