// The words that count an EDT's open slots, behind the turn words.
ghost use Rattle.std.specs.Prelude.{◌≡◌, ◌<◌, ◌≤◌, ◌+◌, ◌*◌, ◌-◌, ◌^◌, Some};
ghost use Rattle.ocr_turns_rule.specs.Counts.{state_at};
ghost use Rattle.ocr_turns_rule.specs.Debts.{IsNumber};
ghost use Rattle.ocr_turns_rule.specs.Words.{FitsSlots, MayStep, StepTells, count_after, steps_word};
ghost use Rattle.ocr_turns_rule.specs.Contract.{IsOfTable, SameHand};

use crate::clerk::Clerk;
use crate::take::TURNS;
use crate::turns::Turns;
use atomic_table::{Play, Seat};
use ocr_turns_rule::{Machine, View, WordStep};
use std::marker::{Brand, PhantomData};

/// The words of an EDT that can be claimed, that is claimed, and that waits.
const READY: u64 = 0;

const BUSY: u64 = 64;

const PARKED: u64 = 65;
/// An EDT that is not made, and that can have no slot more: one unit a slot, and one for its
/// making.
const UNMADE: u64 = 33;

// Which step is made, for the proof alone. A call at `Brand` picks it.
pub(crate) trait Chosen {
    ghost use Rattle.std.specs.Prelude.{Option, ℕ};
    ghost use Rattle.ocr_turns_rule.specs.declared.words.WordStep.{WordStep};

    ghost step: { Option (ℕ × WordStep) };
}

impl Chosen for Brand {
    ghost use Rattle.std.specs.Prelude.{None};

    ghost step = { None };
}

pub(crate) struct Counts<M, W> {
    machine: PhantomData<M>,
    chosen: PhantomData<W>,
}

impl<M: Machine, W: Chosen> Play<
    Option<M::Part>,
    View<M::Setting, M::Entry, M::Part, M::Message, M::Fact>,
> for Counts<M, W> {
    ghost then = { λ s me n w. steps_word M.meaning W.step me n w };
}

impl<M: Machine> Turns<M> {
    /// A step on the words of an EDT, and what stood in the word, where the step reads it. The
    /// crate `ocr_count` has a call for each step; nothing else uses this.
    #[inline(always)]
    pub fn step_word(&self, clerk: &mut Clerk<M>, edt: u64, step: WordStep) -> u64
        requires table { IsOfTable self.now clerk.old }
        requires may { MayStep M.meaning self.now.1 clerk.old.view edt step }
        ensures hand { SameHand clerk.old clerk.new }
        ensures told { StepTells M.meaning edt step clerk.old.view result clerk.new.view }
    {
        let found = self.take_step::<Brand>(&mut clerk.seat, edt, step);
        clerk.units = units_after(step, found, clerk.units);
        found
    }

    #[inline(always)]
    fn take_step<W: Chosen>(
        &self,
        seat: &mut Seat<Option<M::Part>, View<M::Setting, M::Entry, M::Part, M::Message, M::Fact>>,
        edt: u64,
        step: WordStep,
    ) -> u64
        requires chosen { W.step ≡ Some (edt, step) }
        requires table { seat.old.table_id ≡ self.now.0 }
        requires edt { IsNumber self.now.1.limit edt }
        requires slot { FitsSlots step }
        requires seat { 0 < seat.old.me.0.root + seat.old.me.0.seat }
        requires may { MayStep M.meaning self.now.1 seat.old.me.0 edt step }
        ensures table { (seat.new.table_id ≡ seat.old.table_id) × (seat.new.id ≡ seat.old.id) }
        ensures told { steps_word M.meaning (Some (edt, step)) seat.old.me result seat.new.me }
    {
        let state = self.state_word(edt);
        let words = &self.table.shared;
        match step {
            WordStep::Put { slot, payload } => {
                words.store::<Counts<M, W>>(seat, state + 1 + slot as usize, payload);
                payload
            }
            WordStep::Count => words.fetch_sub::<Counts<M, W>>(seat, state, 1),
            WordStep::CountMade { slots } => {
                words.fetch_sub::<Counts<M, W>>(seat, state, UNMADE - slots as u64)
            }
            WordStep::Read { slot } => {
                // An EDT has at most 32 slots, and this is one of them.
                words.load::<Counts<M, W>>(seat, state + 1 + slot as usize % 32)
            }
            WordStep::Claim => words.compare_exchange::<Counts<M, W>>(seat, state, READY, BUSY),
            WordStep::Park => {
                words.store::<Counts<M, W>>(seat, state, PARKED);
                PARKED
            }
            WordStep::Resume => {
                words.store::<Counts<M, W>>(seat, state, READY);
                READY
            }
            WordStep::Drop => {
                words.store::<Counts<M, W>>(seat, state, BUSY);
                BUSY
            }
        }
    }

    // Where the state word of an EDT lies. Its payload words come after it.
    fn state_word(&self, edt: u64) -> usize
        requires { IsNumber self.now.1.limit edt }
        ensures word { result ≡ state_at self.now.0.slots edt }
        ensures within { result + 33 ≤ self.now.0.words }
    {
        let slots = 2 * self.limit as usize + 1;
        TURNS + slots + 33 * (edt as usize - 1)
    }
}

// How many units a clerk has after a step that found this word.
#[inline(always)]
fn units_after(step: WordStep, found: u64, units: u64) -> u64
    requires slots { FitsSlots step }
    ensures fewer { result ≤ count_after step found units }
    ensures exact { count_after step found units < 2 ^ 64 → result ≡ count_after step found units }
{
    match step {
        WordStep::Claim if found == READY => units.saturating_add(1),
        WordStep::Count if found <= 1 => units.saturating_sub(1),
        WordStep::CountMade { slots } if found <= UNMADE - slots as u64 => units.saturating_sub(1),
        WordStep::Resume => units.saturating_sub(1),
        _ => units,
    }
}
