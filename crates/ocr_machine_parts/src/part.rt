// The parts of the machine's state.
use crate::boxed::{BoxedBlock, BoxedCore, BoxedEvent};
use crate::loans::Loans;
use ocr_base::Seq;
use ocr_edt::Edt;
use ocr_finish::Scope;
use ocr_guid::Guid;
use ocr_machine_history::What;
use ocr_slots::Slots;
use ocr_template::Template;

/// What an EDT is besides its slots: the function and the parameters of its body, how far it has
/// come, and what it keeps with each block that it holds.
#[derive(Drop)]
pub struct Core {
    pub function: u32,
    pub params: Seq<u64>,
    pub edt: Edt,
    pub loans: Loans,
}

/// A part of the machine's state: the face of an object, the core of an EDT, or the place of one
/// that is not made.
#[derive(Drop)]
pub enum Part {
    Vacant,
    /// The face of an EDT.
    Edt(Slots),
    Block(BoxedBlock),
    Template(Template),
    Event(BoxedEvent),
    Scope(Scope),
    /// The core of an EDT.
    Core(BoxedCore),
}

/// What an entry does: the parts that it names, as they are after it, the messages that it sends,
/// and the EDTs that go on by it.
#[derive(Drop)]
pub struct Stepped {
    pub parts: Vec<(u64, Part)>,
    pub messages: Vec<What>,
    pub resumed: Vec<Guid>,
}
