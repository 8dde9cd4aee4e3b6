// New clerks, and clerks that come home.
ghost use Rattle.std.specs.Prelude.{◌≡◌, ◌<◌, ◌≤◌, ◌+◌, ◌++◌, [], length, vec_len, vec_capacity, IfOk, IfErr, OnErr};
ghost use Rattle.ocr_turns_rule.specs.Steps as steps;
ghost use Rattle.ocr_turns_rule.specs.Contract.{IsOfTable, SameHand};
ghost use Rattle.ocr_turns_rule.specs.Live.{MayLower};

use crate::clerk::Clerk;
use crate::log::Log;
use crate::opening::KEPT;
use crate::owed::Owed;
use crate::turns::Turns;
use ocr_base::NoMemory;
use ocr_turns_rule::Machine;
use ocr_turns_rule::rule::{Cut, CutSpare};
use std::alloc::{AllocError, AllocFailed, Global};

impl<M: Machine> Turns<M> {
    /// A new clerk, made by the root, with room for 64 parts and for an entry that ends the run.
    pub fn split(&self, alloc: Global, root: &mut Clerk<M>) -> Result<Clerk<M>, NoMemory>
        requires table { IsOfTable self.now root.old }
        requires root { (root.old.view.root ≡ 1) × (0 < root.old.view.quota) }
        ensures root { IfOk result (λ _. SameHand root.old root.new
            × (root.new.view ≡ steps.parted root.old.view)) }
        ensures clerk { IfOk result (λ c. (c.table ≡ root.old.table)
            × (c.view ≡ steps.fresh root.old.view) × (c.parts ≡ []) × (1 ≤ c.room)
            × (64 ≤ c.spare)) }
        ensures err { OnErr result (root.new ≡ root.old) }
    {
        let log = Log::with_capacity(alloc, 1)?;
        let parts = Vec::with_capacity(alloc, KEPT)?;
        let seat = self.table.shared.split_seat::<Cut>(&mut root.seat);
        Ok(Clerk {
            seat,
            log,
            joined: Vec::new(alloc),
            parts,
            emptied: Vec::new(alloc),
            owed: Owed::new(alloc),
            weight: 0,
            closed: None,
            full: None,
            units: 0,
        })
    }

    /// The same, and the new clerk has a spare unit of the root's.
    pub fn split_spare(&self, alloc: Global, root: &mut Clerk<M>) -> Result<Clerk<M>, NoMemory>
        requires table { IsOfTable self.now root.old }
        requires root { (root.old.view.root ≡ 1) × (0 < root.old.view.quota) }
        requires spare { MayLower root.old.view 1 }
        ensures root { IfOk result (λ _. SameHand root.old root.new
            × (root.new.view ≡ steps.parted_spare root.old.view)) }
        ensures clerk { IfOk result (λ c. (c.table ≡ root.old.table)
            × (c.view ≡ steps.fresh_spare root.old.view) × (c.parts ≡ []) × (1 ≤ c.room)
            × (64 ≤ c.spare)) }
        ensures err { OnErr result (root.new ≡ root.old) }
    {
        let log = Log::with_capacity(alloc, 1)?;
        let parts = Vec::with_capacity(alloc, KEPT)?;
        let seat = self.table.shared.split_seat::<CutSpare>(&mut root.seat);
        root.units = root.units.saturating_sub(1);
        Ok(Clerk {
            seat,
            log,
            joined: Vec::new(alloc),
            parts,
            emptied: Vec::new(alloc),
            owed: Owed::new(alloc),
            weight: 0,
            closed: None,
            full: None,
            units: 1,
        })
    }

    /// Takes a clerk into the root, which has its log, parts, messages and numbers then, and room
    /// for 64 parts more. Where memory is wanting the clerk comes back.
    pub fn join(
        &self,
        _alloc: Global,
        root: &mut Clerk<M>,
        clerk: Clerk<M>,
    ) -> Result<(), AllocFailed<Clerk<M>>>
        requires table { IsOfTable self.now root.old × IsOfTable self.now clerk }
        requires root { (root.old.view.root ≡ 1) × (clerk.view.root ≡ 0) }
        ensures view { IfOk result (λ _. (root.new.table ≡ root.old.table)
            × (root.new.view ≡ steps.gathered root.old.view clerk.view)) }
        ensures parts { IfOk result (λ _. (root.new.parts ≡ root.old.parts ++ clerk.parts)
            × (root.new.room ≡ root.old.room) × (64 ≤ root.new.spare)) }
        ensures err { IfErr result (λ f. (f.value ≡ clerk) × (root.new.view ≡ root.old.view)
            × (root.new.parts ≡ root.old.parts)) }
        ensures kept { OnErr result ((root.new.table ≡ root.old.table)
            × (root.new.room ≡ root.old.room) × (root.old.spare ≤ root.new.spare)
            × (root.old.space ≤ root.new.space)) }
    {
        let parts = clerk.parts.len() + KEPT;
        let owed = clerk.owed.len();
        let Ok(()) = make_room(
            &mut root.joined,
            &mut root.parts,
            &mut root.owed,
            parts,
            owed,
        ) else {
            return Err(AllocFailed { value: clerk });
        };
        let Clerk {
            seat,
            log,
            joined,
            mut parts,
            emptied: _,
            owed,
            weight: _,
            closed,
            full: _,
            units,
        } = clerk;
        self.table.shared.join_seat::<Cut>(&mut root.seat, seat);
        root.joined.push_reserved(log);
        drop(joined);
        append(&mut root.parts, &mut parts);
        root.owed.append(owed);
        root.closed = root.closed.or(closed);
        root.units = root.units.saturating_add(units);
        Ok(())
    }
}

// Room for one log more, and for so many parts and messages.
fn make_room<L: Drop, P: Drop, N: Drop>(
    joined: &mut Vec<L>,
    parts: &mut Vec<P>,
    owed: &mut Owed<N>,
    more_parts: usize,
    more_owed: usize,
) -> Result<(), AllocError>
    ensures same { (joined.new.items ≡ joined.old.items) × (parts.new.items ≡ parts.old.items)
        × (owed.new.items ≡ owed.old.items) }
    ensures grows { (vec_capacity parts.old ≤ vec_capacity parts.new)
        × (owed.old.room ≤ owed.new.room) }
    ensures room { IfOk result (λ _. (vec_len joined.new < vec_capacity joined.new)
        × (length parts.new.items + more_parts ≤ vec_capacity parts.new)
        × (more_owed ≤ owed.new.room)) }
{
    joined.reserve(1)?;
    parts.reserve(more_parts)?;
    owed.reserve(more_owed)?;
    Ok(())
}

// Moves all items behind those that there is room behind.
fn append<T: Drop>(items: &mut Vec<T>, more: &mut Vec<T>)
    requires { length items.old.items + length more.old.items ≤ vec_capacity items.old }
    ensures items { items.new.items ≡ items.old.items ++ more.old.items }
    ensures room { vec_capacity items.old ≤ vec_capacity items.new }
{
    if items.append(more).is_err() {
        unreachable!();
    }
}
