// What the slots of an EDT were set to.
ghost use Rattle.std.specs.Prelude.{◌≡◌, ◌∷◌, [], IfOk, OnErr};
ghost use Rattle.ocr_slots.specs.Slots.{Setting, payload_of};
ghost use Rattle.ocr_machine_state.specs.Sets.{settings};

use ocr_base::NoMemory;
use ocr_guid::Guid;
use std::alloc::Global;
use std::marker::Model;

/// What the slots of an EDT were set to. Contracts see the calls that set them, the newest first.
#[derive(Drop)]
pub struct Sets {
    items: Vec<(u32, Guid)>,
}

impl Model for Sets {
    ghost use Rattle.std.specs.Prelude.{List};
    ghost use Rattle.ocr_slots.specs.Slots.{SlotCall};
    ghost use Rattle.ocr_machine_state.specs.Sets.{settings};

    ghost Value = { List SlotCall };

    ghost view = { λ s. settings s.items.items };
}

impl Sets {
    /// No slot is set.
    pub fn new(alloc: Global) -> Self
        ensures { result ≡ [] }
    {
        Sets {
            items: Vec::new(alloc),
        }
    }

    /// A slot is set to its payload. After an error nothing has changed.
    pub fn put(&mut self, slot: u32, payload: Guid) -> Result<(), NoMemory>
        ensures ok { IfOk result (λ _. self.new ≡ Setting slot payload ∷ self.old) }
        ensures err { OnErr result (self.new ≡ self.old) }
    {
        match self.items.insert(0, (slot, payload)) {
            Ok(()) => Ok(()),
            Err(_) => Err(NoMemory),
        }
    }

    /// What a slot was set to; None where it is not set.
    pub fn payload(&self, slot: u32) -> Option<Guid>
        ensures { result ≡ payload_of self.now slot }
    {
        find(&self.items, slot)
    }
}

fn find(items: &[(u32, Guid)], slot: u32) -> Option<Guid>
    ensures { result ≡ payload_of (settings items.now) slot }
{
    for i in 0..items.len() {
        if items[i].0 == slot {
            return Some(items[i].1);
        }
    }
    None
}
