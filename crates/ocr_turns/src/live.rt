// The live word, and the number of entries once it was read as 0.
ghost use Rattle.std.specs.Prelude.{◌≡◌, ◌<◌, ◌≤◌, ◌+◌, ◌^◌, Some};
ghost use Rattle.ocr_turns_rule.specs.Contract.{IsOfTable, SameHand};
ghost use Rattle.ocr_turns_rule.specs.Live.{LiveTells, MayLive, count_lived, steps_live};

use crate::clerk::Clerk;
use crate::turns::{COMMIT, LIVE, Turns};
use atomic_table::{Play, Seat};
use ocr_turns_rule::{LiveStep, Machine, View};
use std::marker::{Brand, PhantomData};

// Which step is made, for the proof alone. A call at `Brand` picks it.
pub(crate) trait Lived {
    ghost use Rattle.std.specs.Prelude.{Option};
    ghost use Rattle.ocr_turns_rule.specs.declared.words.LiveStep.{LiveStep};

    ghost step: { Option LiveStep };
}

impl Lived for Brand {
    ghost use Rattle.std.specs.Prelude.{None};

    ghost step = { None };
}

pub(crate) struct Lives<M, W> {
    machine: PhantomData<M>,
    chosen: PhantomData<W>,
}

impl<M: Machine, W: Lived> Play<
    Option<M::Part>,
    View<M::Setting, M::Entry, M::Part, M::Message, M::Fact>,
> for Lives<M, W> {
    ghost then = { λ s me n w. steps_live M.meaning W.step me n w };
}

impl<M: Machine> Turns<M> {
    /// A step on the live word, or on the commit word once the live word was read as 0, and what
    /// stood in the word before it. The crate `ocr_live` has a call for each step; nothing else
    /// uses this.
    pub fn step_live(&self, clerk: &mut Clerk<M>, step: LiveStep) -> u64
        requires table { IsOfTable self.now clerk.old }
        requires may { MayLive clerk.old.view step }
        ensures hand { SameHand clerk.old clerk.new }
        ensures told { LiveTells M.meaning step clerk.old.view result clerk.new.view }
    {
        let found = self.take_live::<Brand>(&mut clerk.seat, step);
        clerk.units = units_lived(step, clerk.units);
        found
    }

    fn take_live<W: Lived>(
        &self,
        seat: &mut Seat<Option<M::Part>, View<M::Setting, M::Entry, M::Part, M::Message, M::Fact>>,
        step: LiveStep,
    ) -> u64
        requires chosen { W.step ≡ Some step }
        requires table { seat.old.table_id ≡ self.now.0 }
        requires seat { 0 < seat.old.me.0.root + seat.old.me.0.seat }
        requires may { MayLive seat.old.me.0 step }
        ensures table { (seat.new.table_id ≡ seat.old.table_id) × (seat.new.id ≡ seat.old.id) }
        ensures told { steps_live M.meaning (Some step) seat.old.me result seat.new.me }
    {
        let words = &self.table.shared;
        match step {
            LiveStep::Raise { units } => words.fetch_add::<Lives<M, W>>(seat, LIVE, units),
            LiveStep::Lower { units } => words.fetch_sub::<Lives<M, W>>(seat, LIVE, units),
            LiveStep::Read => words.load::<Lives<M, W>>(seat, LIVE),
            LiveStep::Entries => words.load::<Lives<M, W>>(seat, COMMIT),
        }
    }
}

// How many units a clerk has after a step.
fn units_lived(step: LiveStep, units: u64) -> u64
    ensures fewer { result ≤ count_lived step units }
    ensures exact { count_lived step units < 2 ^ 64 → result ≡ count_lived step units }
{
    match step {
        LiveStep::Raise { units: more } => units.saturating_add(more),
        LiveStep::Lower { units: less } => units.saturating_sub(less),
        _ => units,
    }
}
