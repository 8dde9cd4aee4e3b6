use ocr_acquire::Mode;
use ocr_guid::{Code, Guid};
use ocr_slots::Slots;
use std::test::Fail;

#[test]
fn a_slot_takes_one_link(rt: HostRuntime) -> Result<(), Fail> {
    let mut slots = Slots::new(rt.alloc(), 2)?;
    let first = slots.link(0, Mode::Ro);
    prove!(first == Code::Done);
    let again = slots.link(0, Mode::Ew);
    prove!(again == Code::Eperm);
    let alike = slots.link(0, Mode::Ro);
    prove!(alike == Code::Eperm);
    let mode = slots.mode(0);
    prove!(mode == Mode::Ro);
    let past = slots.link(2, Mode::Ro);
    prove!(past == Code::Einval);
    Ok(())
}

#[test]
fn a_slot_tells_its_mode_and_payload(rt: HostRuntime) -> Result<(), Fail> {
    let mut slots = Slots::new(rt.alloc(), 3)?;
    let first = slots.link(1, Mode::Ew);
    prove!(first == Code::Done);
    let (linked, other) = (slots.is_linked(1), slots.is_linked(2));
    prove!(linked && !other);
    let (open, payload) = (slots.unset(), slots.payload(1));
    prove!(open == 3);
    prove!(payload.is_none());
    slots.set(1, Guid(7));
    let (left, depc, mode) = (slots.unset(), slots.depc(), slots.mode(1));
    prove!(left == 2 && depc == 3);
    prove!(mode == Mode::Ew);
    let (payload, other) = (slots.payload(1), slots.payload(0));
    prove!(payload == Some(Guid(7)));
    prove!(other.is_none());
    Ok(())
}
