//! The slots of an EDT.
#![tactic(auto)]

ghost use Rattle.std.specs.Prelude.{◌≡◌, ◌<◌, ◌≤◌, [], ◌↔◌, length, IsTrue, is_some, Some, None, IfOk, false};
ghost use Rattle.ocr_slots.specs.Slots.{state_of, slot_at, linked_at, unset_in};
ghost use Rattle.ocr_slots.specs.Steps.{on_link, after_link, after_set, LinkLaw, SetLaw, AnswerLaw, ReadLaw, SizeLaw, OpenLaw};

use ocr_acquire::Mode;
use ocr_base::{MOST_DEPENDENCES, NoMemory};
use ocr_guid::{Code, Guid};
use std::alloc::Global;
use std::marker::Model;

/// What is known of one slot: the mode in which it is linked, and the payload that it was set to.
#[derive(Clone, Copy, PartialEq, Eq, Debug)]
pub struct Slot {
    /// None where it is not linked.
    pub mode: Option<Mode>,
    /// None where it is not set.
    pub payload: Option<Guid>,
}

/// The slots of an EDT. Each takes one dependence, which links it in a mode, and is set once, to a
/// payload.
#[derive(Drop)]
pub struct Slots {
    slots: Vec<Slot>,
}

// Contracts see the slots as their list.
impl Model for Slots {
    ghost use Rattle.std.specs.Prelude.{List, ◌≤◌, length};
    ghost use Rattle.ocr_slots.specs.declared.Slot.{Slot};
    ghost use Rattle.ocr_base.specs.declared.limits.TheConstants.{MOST_DEPENDENCES};

    ghost Value = { List Slot };

    ghost view = { λ s. s.slots.items };

    ghost invariant = { λ s. length s.slots.items ≤ MOST_DEPENDENCES };
}

impl Slots {
    /// So many slots, none of them linked or set.
    #[tactic(auto, using(crate::proofs::Laws::fresh_slots))]
    pub fn new(alloc: Global, depc: u32) -> Result<Slots, NoMemory>
        requires { depc ≤ MOST_DEPENDENCES }
        ensures { IfOk result (λ slots. slots ≡ state_of depc []) }
    {
        let slot = Slot {
            mode: None,
            payload: None,
        };
        let slots = vec![in alloc; slot; depc as usize]?;
        Ok(Slots { slots })
    }

    /// Links a slot in a mode. EINVAL exactly where there is no such slot, EPERM exactly where it
    /// is linked.
    pub fn link(&mut self, slot: u64, mode: Mode) -> Code
        ensures answer { result ≡ on_link self.old slot }
        ensures state { self.new ≡ after_link self.old slot mode }
        ensures absent { (result ≡ Code.Einval) ↔ (length self.old ≤ slot) }
        ensures linked { (result ≡ Code.Eperm) ↔ IsTrue (linked_at self.old slot) }
        ensures refused { (¬ result ≡ Code.Done) → self.new ≡ self.old }
    {
        if slot >= self.slots.len() as u64 {
            return Code::Einval;
        }
        let place = slot as usize;
        if self.slots[place].mode.is_some() {
            return Code::Eperm;
        }
        self.slots[place].mode = Some(mode);
        Code::Done
    }

    /// Sets a slot to its payload.
    pub fn set(&mut self, slot: u32, payload: Guid)
        requires linked { IsTrue (linked_at self.old slot) }
        requires unset { (slot_at self.old slot).payload ≡ None }
        ensures { self.new ≡ after_set self.old slot payload }
    {
        self.slots[slot as usize].payload = Some(payload);
    }

    /// How many slots there are.
    pub fn depc(&self) -> u32
        ensures number { result ≡ length self.now }
        ensures most { result ≤ MOST_DEPENDENCES }
    {
        self.slots.len() as u32
    }

    /// Whether a slot is linked.
    pub fn is_linked(&self, slot: u32) -> bool
        requires { slot < length self.now }
        ensures { result ≡ linked_at self.now slot }
    {
        self.slots[slot as usize].mode.is_some()
    }

    /// How many slots are not set.
    pub fn unset(&self) -> u32
        ensures { result ≡ unset_in self.now }
    {
        self.slots
            .iter()
            .filter(|slot| slot.payload.is_none())
            .count() as u32
    }

    /// What a slot was set to; None exactly where it is not set.
    pub fn payload(&self, slot: u32) -> Option<Guid>
        requires { slot < length self.now }
        ensures { result ≡ (slot_at self.now slot).payload }
    {
        self.slots[slot as usize].payload
    }

    /// The mode in which a slot is linked.
    pub fn mode(&self, slot: u32) -> Mode
        requires { IsTrue (linked_at self.now slot) }
        ensures { (slot_at self.now slot).mode ≡ Some result }
    {
        match self.slots[slot as usize].mode {
            Some(mode) => mode,
            None => unreachable!(),
        }
    }
}

/// The state of the slots, and each answer, is told by the list of the calls that they accepted.
#[tactic(auto, using(crate::proofs::Laws::link_law, crate::proofs::Laws::set_law, crate::proofs::Laws::answer_law, crate::proofs::Laws::read_law, crate::proofs::Laws::size_law, crate::proofs::Laws::open_law))]
pub fn slot_laws()
    ensures link { LinkLaw }
    ensures set { SetLaw }
    ensures answer { AnswerLaw }
    ensures read { ReadLaw }
    ensures size { SizeLaw }
    ensures open_slots { OpenLaw }
{}
