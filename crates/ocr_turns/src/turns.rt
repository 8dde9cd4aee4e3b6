// The table, and the calls on its commit word and its draw word that make no entry.
ghost use Rattle.std.specs.Prelude.{◌≡◌, ◌<◌, ◌≤◌, ◌+◌, ◌^◌, None, Some, MatchOption};
ghost use Rattle.ocr_turns_rule.specs.Contract.{DrawTells, LookTells, IsOfTable};

use crate::clerk::Clerk;
use atomic_table::Table;
use ocr_turns_rule::rule::{Draws, Looks, Rules};
use ocr_turns_rule::{Drawn, Machine, Terms, View};
use std::alloc::Global;
use std::marker::Model;

/// The commit word from which on the run has ended.
pub(crate) const ENDED: u64 = 1 << 48;
/// The word that counts the entries.
pub(crate) const COMMIT: usize = 0;
/// The word that counts the draws, on a cache line of its own.
pub(crate) const DRAW: usize = 8;
/// The live word, on a cache line of its own.
pub(crate) const LIVE: usize = 16;

/// A table that clerks share: the parts of a machine, each with its turn, and one history.
#[derive(Drop)]
pub struct Turns<M: Machine> {
    pub(crate) table: Table<
        Option<M::Part>,
        View<M::Setting, M::Entry, M::Part, M::Message, M::Fact>,
        Terms<M::Setting>,
        Rules<M>,
        Global,
    >,
    pub(crate) limit: u64,
    pub(crate) share: u64,
}

impl<M: Machine> Model for Turns<M> {
    ghost use Rattle.std.specs.Prelude.{◌≡◌, ◌≤◌, ◌+◌};
    ghost use Rattle.ocr_turns_rule.specs.declared.view.Terms.{Terms};
    ghost use Rattle.atomic_table.specs.Seated.{TableId};
    ghost use Rattle.ocr_turns_rule.specs.Clerks.{IsLaidFor};

    ghost Value = { TableId × Terms M.Setting };

    ghost view = { λ t. (t.table.shared.table_id, t.table.shared.key) };

    ghost invariant = { λ t. IsLaidFor t.table.shared.table_id t.table.shared.key t.limit t.share };
}

impl<M: Machine> Turns<M> {
    /// The greatest number of an object.
    pub fn limit(&self) -> u64
        ensures { result ≡ self.now.1.limit }
    {
        self.limit
    }

    /// The weight that one log may reach.
    pub fn share(&self) -> u64
        ensures { result ≡ self.now.1.share }
    {
        self.share
    }

    /// The commit word, where the run has ended. A clerk that knows it is answered again without a
    /// step.
    pub fn look(&self, clerk: &mut Clerk<M>) -> Option<u64>
        requires { IsOfTable self.now clerk.old }
        ensures { LookTells M.meaning result clerk.old clerk.new }
    {
        if let Some(word) = clerk.closed {
            return Some(word);
        }
        let found = self.table.shared.load::<Looks<M>>(&mut clerk.seat, COMMIT);
        if found >= ENDED {
            clerk.closed = Some(found);
            return Some(found);
        }
        None
    }

    /// A number for a new object. A clerk that was answered Full is answered so again without a
    /// step.
    pub fn draw(&self, clerk: &mut Clerk<M>) -> Drawn
        requires { IsOfTable self.now clerk.old }
        ensures { DrawTells M.meaning self.now.1.limit result clerk.old clerk.new }
    {
        if let Some(count) = clerk.full {
            return Drawn::Full(count);
        }
        let found = self
            .table
            .shared
            .fetch_add::<Draws<M>>(&mut clerk.seat, DRAW, 1);
        if found >= self.limit {
            clerk.full = Some(found);
            return Drawn::Full(found);
        }
        Drawn::Place(found + 1)
    }
}
