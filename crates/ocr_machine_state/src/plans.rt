// The plans of EDTs, and the entries of a table.
ghost use Rattle.std.specs.Prelude.{◌≡◌, ◌↔◌, ◌<◌, ℕ, [], length, not, true, slice_set, vec_len, IfOk, IfSome, IfNone};
ghost use Rattle.ocr_acquire.specs.Plan.{IsWellFormed};
ghost use Rattle.ocr_acquire.specs.Mode.{is_null};
ghost use Rattle.ocr_edt.specs.Phases.{is_named};
ghost use Rattle.ocr_slots.specs.Slots.{payload_of, slot_at};
ghost use Rattle.ocr_machine_history.specs.History.{Setting, History};
ghost use Rattle.ocr_machine_parts.specs.Calls.{open_slots, payloads_of, plan_of, asks_in, depv_of, depv_in, value_of_slot, mode_or_null};
ghost use Rattle.ocr_machine_parts.specs.Progress.{edt_in, readied, ready_at, made_ready, with_phase, next_on};
ghost use Rattle.ocr_machine_parts.specs.Kinds.{on_core, core_progress, next_in, is_running};
ghost use Rattle.ocr_machine_parts.specs.Parts.{parts_of};
ghost use Rattle.ocr_machine_parts.specs.declared.part.Part.TheVariants as part;
ghost use Rattle.ocr_machine_state.specs.Sets.{filled, are_set, payloads_in, is_filling, is_filling_on, stale_in, stale_on};
ghost use Rattle.ocr_machine_effects.specs.All.{AreAllPlaced};
ghost use Rattle.ocr_machine_state.specs.State.{state_in, core_on, slots_on, plan_on, IsStateOf};

use crate::rows::set_at;
use crate::sets::Sets;
use crate::state::State;
use ocr_acquire::{Mode, Plan, plan};
use ocr_base::NoMemory;
use ocr_edt::Edt;
use ocr_guid::Guid;
use ocr_machine_history::Entry;
use ocr_machine_parts::{Part, ask_one, first, next_of, ready};
use ocr_slots::Slots;
use std::alloc::Global;

/// What the slots of an EDT ask for: the payload and the mode of each that is set and linked.
fn asks(alloc: Global, slots: &Slots, sets: &Sets) -> Result<Vec<(Guid, Mode)>, NoMemory>
    ensures { IfOk result (λ v. v.items ≡ asks_in (filled 0 slots.now sets.now)) }
{
    let mut asks = Vec::new(alloc);
    for k in 0..slots.depc() {
        ask_one(&mut asks, slots, k, sets.payload(k))?;
    }
    Ok(asks)
}

fn are_set(slots: &Slots, sets: &Sets) -> bool
    ensures { result ≡ are_set (filled 0 slots.now sets.now) }
{
    for k in 0..slots.depc() {
        if sets.payload(k).is_none() {
            return false;
        }
    }
    true
}

/// The payload of each slot, NULL_GUID where it is not set.
fn payloads(alloc: Global, slots: &Slots, sets: &Sets) -> Result<Vec<Guid>, NoMemory>
    ensures { IfOk result (λ v. v.items ≡ payloads_in (filled 0 slots.now sets.now)) }
{
    let mut payloads = Vec::new(alloc);
    for k in 0..slots.depc() {
        payloads.push(sets.payload(k).unwrap_or(Guid::NULL))?;
    }
    Ok(payloads)
}

impl State {
    /// The slots of an EDT, and what they were set to; None where it is no EDT.
    fn slots(&self, edt: Guid) -> Option<(&Slots, &Sets)>
        ensures some { IfSome result (λ pair. slots_on self.now edt
            ≡ filled 0 pair.0.now pair.1.now) }
        ensures none { IfNone result (slots_on self.now edt ≡ []) }
    {
        let Some(Part::Edt(slots)) = self.face(edt.0) else {
            return None;
        };
        Some((slots, &self.sets[edt.0 as usize]))
    }

    /// The plan of an EDT: the blocks that its slots ask for so far.
    pub fn plan(&self, alloc: Global, edt: Guid) -> Result<Plan, NoMemory>
        ensures plan { IfOk result (λ plan. (s : Setting) (past : History)
            → IsStateOf s past self.now → plan.items ≡ plan_of s past edt) }
        ensures well_formed { IfOk result (λ plan. IsWellFormed plan.items) }
    {
        self.plan_here(alloc, edt)
    }

    fn plan_here(&self, alloc: Global, edt: Guid) -> Result<Plan, NoMemory>
        ensures plan { IfOk result (λ plan. plan.items ≡ plan_on self.now edt) }
        ensures well_formed { IfOk result (λ plan. IsWellFormed plan.items) }
    {
        match self.slots(edt) {
            Some((slots, sets)) => {
                let asks = asks(alloc, slots, sets)?;
                plan(alloc, &asks)
            }
            None => plan(alloc, &[]),
        }
    }

    /// The block that an EDT acquires next or waits for, with its mode; None where it has acquired
    /// its plan, and where it is no EDT that acquires.
    pub fn next(&self, alloc: Global, edt: Guid) -> Result<Option<(Guid, Mode)>, NoMemory>
        ensures { IfOk result (λ next. (s : Setting) (past : History) → IsStateOf s past self.now
            → next ≡ next_on (ready_at edt (plan_of s past edt) (parts_of s past)) edt) }
    {
        self.next_here(alloc, edt)
    }

    fn next_here(&self, alloc: Global, edt: Guid) -> Result<Option<(Guid, Mode)>, NoMemory>
        ensures { IfOk result (λ next. next ≡ next_in (core_progress
            (on_core (core_on self.now edt) (with_phase (made_ready (plan_on self.now edt)))))) }
    {
        if self.is_filling(edt) {
            let members = self.plan_here(alloc, edt)?;
            return Ok(first(members.as_slice()));
        }
        let Some(Part::Core(core)) = self.core(edt) else {
            return Ok(None);
        };
        Ok(next_of(&core.get().edt))
    }

    /// Whether every slot of an EDT is set.
    pub fn is_full(&self, edt: Guid) -> bool
        ensures { (s : Setting) (past : History) → IsStateOf s past self.now
            → (result ≡ true) ↔ (open_slots s past edt ≡ []) }
    {
        self.is_full_here(edt)
    }

    fn is_full_here(&self, edt: Guid) -> bool
        ensures { result ≡ are_set (slots_on self.now edt) }
    {
        match self.slots(edt) {
            Some((slots, sets)) => are_set(slots, sets),
            None => true,
        }
    }

    /// The payloads of an EDT's slots, each NULL_GUID where it is not set.
    pub fn payloads(&self, alloc: Global, edt: Guid) -> Result<Vec<Guid>, NoMemory>
        ensures { IfOk result (λ v. (s : Setting) (past : History) → IsStateOf s past self.now
            → v.items ≡ payloads_of s past edt) }
    {
        self.payloads_here(alloc, edt)
    }

    fn payloads_here(&self, alloc: Global, edt: Guid) -> Result<Vec<Guid>, NoMemory>
        ensures { IfOk result (λ v. v.items ≡ payloads_in (slots_on self.now edt)) }
    {
        match self.slots(edt) {
            Some((slots, sets)) => payloads(alloc, slots, sets),
            None => Ok(Vec::new(alloc)),
        }
    }

    /// What the body of a running EDT gets, slot by slot: the payload, and NULL_GUID for a block
    /// that the EDT found gone, but in a slot of mode `Null`.
    pub fn depv(&self, alloc: Global, edt: Guid) -> Result<Vec<Guid>, NoMemory>
        ensures { IfOk result (λ v. (s : Setting) (past : History) → IsStateOf s past self.now
            → is_running ((parts_of s past).core edt) ≡ true → v.items ≡ depv_of s past edt) }
    {
        self.depv_here(alloc, edt)
    }

    fn depv_here(&self, alloc: Global, edt: Guid) -> Result<Vec<Guid>, NoMemory>
        ensures { IfOk result (λ v. v.items
            ≡ depv_in (stale_on (core_on self.now edt)) (slots_on self.now edt)) }
    {
        match self.slots(edt) {
            Some((slots, sets)) => self.values(alloc, edt, slots, sets),
            None => Ok(Vec::new(alloc)),
        }
    }

    fn values(
        &self,
        alloc: Global,
        edt: Guid,
        slots: &Slots,
        sets: &Sets,
    ) -> Result<Vec<Guid>, NoMemory>
        ensures { IfOk result (λ v. v.items
            ≡ depv_in (stale_on (core_on self.now edt)) (filled 0 slots.now sets.now)) }
    {
        let mut values = Vec::new(alloc);
        for k in 0..slots.depc() {
            values.push(self.value(edt, slots, sets, k))?;
        }
        Ok(values)
    }

    fn value(&self, edt: Guid, slots: &Slots, sets: &Sets, slot: u32) -> Guid
        requires { slot < length slots.now }
        ensures { result ≡ value_of_slot (stale_on (core_on self.now edt)) (record {
          mode = (slot_at slots.now slot).mode;
          payload = payload_of sets.now slot;
        }) }
    {
        let payload = sets.payload(slot).unwrap_or(Guid::NULL);
        if self.is_stale(edt, payload) && is_used(slots, slot) {
            return Guid::NULL;
        }
        payload
    }

    /// Whether a running EDT found the block gone.
    fn is_stale(&self, edt: Guid, block: Guid) -> bool
        ensures { result ≡ is_named block (stale_on (core_on self.now edt)) }
    {
        let Some(Part::Core(core)) = self.core(edt) else {
            return false;
        };
        is_stale_in(&core.get().edt, block)
    }

    /// An EDT that the entry lets go on is made ready.
    pub(crate) fn make_ready(&mut self, alloc: Global, entry: &Entry) -> Result<(), NoMemory>
        ensures limit { self.new.limit ≡ self.old.limit }
        ensures sets { self.new.sets ≡ self.old.sets }
        ensures len { vec_len self.new.parts ≡ vec_len self.old.parts }
        ensures parts { IfOk result (λ _. state_in self.new
            ≡ readied (plan_on self.old (edt_in entry.now)) entry.now (state_in self.old)) }
        ensures placed { IfOk result (λ _. AreAllPlaced self.old.limit self.old.parts.items
            → AreAllPlaced self.new.limit self.new.parts.items) }
    {
        match entry {
            Entry::Acquire { edt, block: _ } => self.ready_core(alloc, edt.0),
            Entry::Wait { edt, block: _ } => self.ready_core(alloc, edt.0),
            Entry::StaleAcquire { edt, block: _ } => self.ready_core(alloc, edt.0),
            Entry::Start { edt } => self.ready_core(alloc, edt.0),
            Entry::Call { .. } | Entry::Deliver { .. } | Entry::Free { .. } => Ok(()),
            Entry::End { .. } | Entry::Stop(_) => Ok(()),
        }
    }

    /// Whether the slots of an EDT are being filled.
    fn is_filling(&self, edt: Guid) -> bool
        ensures { result ≡ is_filling_on (core_on self.now edt) }
    {
        let Some(Part::Core(core)) = self.core(edt) else {
            return false;
        };
        is_filling(&core.get().edt)
    }

    fn ready_core(&mut self, alloc: Global, edt: u64) -> Result<(), NoMemory>
        ensures limit { self.new.limit ≡ self.old.limit }
        ensures sets { self.new.sets ≡ self.old.sets }
        ensures len { vec_len self.new.parts ≡ vec_len self.old.parts }
        ensures parts { IfOk result (λ _. state_in self.new
            ≡ ready_at edt (plan_on self.old edt) (state_in self.old)) }
        ensures placed { IfOk result (λ _. AreAllPlaced self.old.limit self.old.parts.items
            → AreAllPlaced self.new.limit self.new.parts.items) }
    {
        if !self.is_filling(Guid(edt)) {
            return Ok(());
        }
        let members = self.plan_here(alloc, Guid(edt))?;
        let place = (self.limit + edt) as usize;
        let part = std::mem::replace(&mut self.parts[place], Part::Vacant);
        set_at(&mut self.parts, place, ready_part(part, members));
        Ok(())
    }
}

fn is_filling(edt: &Edt) -> bool
    ensures { result ≡ is_filling edt.now }
{
    match edt {
        Edt::Filling(_) => true,
        Edt::Acquiring(_) | Edt::Waiting(_) | Edt::Running(_) | Edt::Ended(_) => false,
    }
}

fn is_stale_in(edt: &Edt, block: Guid) -> bool
    ensures { result ≡ is_named block (stale_in edt.now) }
{
    match edt {
        Edt::Running(running) => running.is_stale(block),
        Edt::Filling(_) | Edt::Acquiring(_) | Edt::Waiting(_) | Edt::Ended(_) => false,
    }
}

/// Whether a slot is linked in another mode than `Null`.
fn is_used(slots: &Slots, slot: u32) -> bool
    requires { slot < length slots.now }
    ensures { result ≡ not (is_null (mode_or_null (slot_at slots.now slot).mode)) }
{
    slots.is_linked(slot) && slots.mode(slot) != Mode::Null
}

/// The core of an EDT that is ready with this plan.
fn ready_part(part: Part, members: Plan) -> Part
    requires { IsWellFormed members.items }
    ensures { result ≡ on_core part (with_phase (made_ready members.items)) }
{
    match part {
        Part::Core(mut core) => {
            let edt = core.take_edt();
            core.put_edt(ready(edt, members));
            Part::Core(core)
        }
        other => other,
    }
}
