//! The rule of the table, and what each kind of step tells.
ghost use Rattle.std.specs.Prelude.{None};
ghost use Rattle.ocr_turns_rule.specs.Rule as rule;
ghost use Rattle.ocr_turns_rule.specs.Steps as steps;

use crate::machine::Machine;
use crate::view::{Terms, View};
use atomic_table::{Join, Play, Split, TableRule};
use std::marker::{Brand, PhantomData};

/// The rule that every step on the table keeps, for the proof alone.
pub struct Rules<M> {
    machine: PhantomData<M>,
}

impl<M: Machine> TableRule<
    Option<M::Part>,
    View<M::Setting, M::Entry, M::Part, M::Message, M::Fact>,
    Terms<M::Setting>,
> for Rules<M> {
    ghost holds = { λ t. rule.Holds M.meaning t };

    ghost first = { λ t. steps.rooted t };
}

/// What a commit will write, for the proof alone. A call at `Brand` picks it.
pub trait Told<E, P, N, F> {
    ghost use Rattle.std.specs.Prelude.{Option};
    ghost use Rattle.ocr_turns_rule.specs.Steps.{Deed};

    /// What it will write.
    ghost deed: { Option (Deed E P N F) };
}

impl<E, P, N, F> Told<E, P, N, F> for Brand {
    ghost deed = { None };
}

/// The step of a commit: the next number goes to its entry, where the run is open.
pub struct Commits<M, W> {
    machine: PhantomData<M>,
    told: PhantomData<W>,
}

impl<M: Machine, W: Told<M::Entry, M::Part, M::Message, M::Fact>> Play<
    Option<M::Part>,
    View<M::Setting, M::Entry, M::Part, M::Message, M::Fact>,
> for Commits<M, W> {
    ghost then = { λ s m n w. steps.commits M.meaning W.deed m n w };
}

/// The entry with which a close ends the run, and the facts that it tells, for the proof alone.
pub trait Stops<E, F> {
    ghost use Rattle.std.specs.Prelude.{List, Option};

    /// The entry, and the facts.
    ghost stop: { Option (E × List F) };
}

impl<E, F> Stops<E, F> for Brand {
    ghost stop = { None };
}

/// The step of a close: the run ends with its entry, where it is open.
pub struct Closes<M, W> {
    machine: PhantomData<M>,
    told: PhantomData<W>,
}

impl<M: Machine, W: Stops<M::Entry, M::Fact>> Play<
    Option<M::Part>,
    View<M::Setting, M::Entry, M::Part, M::Message, M::Fact>,
> for Closes<M, W> {
    ghost then = { λ s m n w. steps.closes M.meaning W.stop m n w };
}

/// The step of a look: whether the run is open.
pub struct Looks<M> {
    machine: PhantomData<M>,
}

impl<M: Machine> Play<Option<M::Part>, View<M::Setting, M::Entry, M::Part, M::Message, M::Fact>>
    for Looks<M> {
    ghost then = { λ s m n w. steps.looks M.meaning m n w };
}

/// The step of a draw: a number for an object, which comes after all that the seat drew before.
pub struct Draws<M> {
    machine: PhantomData<M>,
}

impl<M: Machine> Play<Option<M::Part>, View<M::Setting, M::Entry, M::Part, M::Message, M::Fact>>
    for Draws<M> {
    ghost then = { λ s m n w. steps.draws_from M.meaning m n w };
}

/// The step of a try to take a part: where it is free, the seat keeps it and carries its slot.
pub struct Takes<M> {
    machine: PhantomData<M>,
}

impl<M: Machine> Play<Option<M::Part>, View<M::Setting, M::Entry, M::Part, M::Message, M::Fact>>
    for Takes<M> {
    ghost then = { steps.takes_part M.meaning };
}

/// The step by which the carried slot goes home, empty.
pub struct Settles;

impl<G, E, P, N, F> Play<Option<P>, View<G, E, P, N, F>> for Settles {
    ghost then = { λ s m n w. steps.settles m w };
}

/// The step by which the empty slot of a part comes back to the seat that keeps the part.
pub struct Fetches;

impl<G, E, P, N, F> Play<Option<P>, View<G, E, P, N, F>> for Fetches {
    ghost then = { λ s m n w. steps.fetches s m w };
}

/// The step by which that slot goes home, filled with the part.
pub struct Returns;

impl<G, E, P, N, F> Play<Option<P>, View<G, E, P, N, F>> for Returns {
    ghost then = { λ s m n w. steps.gives_back s m w };
}

/// A new seat, cut from the root's, and a seat that comes home.
pub struct Cut;

impl<G, E, P, N, F> Split<View<G, E, P, N, F>> for Cut {
    ghost left = { steps.parted };

    ghost right = { steps.fresh };
}

impl<G, E, P, N, F> Join<View<G, E, P, N, F>> for Cut {
    ghost both = { steps.gathered };

    ghost spent = { steps.spent_view };
}

/// A new seat with a spare unit of the root's.
pub struct CutSpare;

impl<G, E, P, N, F> Split<View<G, E, P, N, F>> for CutSpare {
    ghost left = { steps.parted_spare };

    ghost right = { steps.fresh_spare };
}
