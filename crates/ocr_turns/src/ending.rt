// Entering an entry that ends the run.
ghost use Rattle.std.specs.Prelude.{◌≡◌, ◌<◌, ◌≤◌, ◌+◌, None, Some};
ghost use Rattle.ocr_turns_rule.specs.Steps as steps;
ghost use Rattle.ocr_turns_rule.specs.Contract.{CloseTells, IsOfTable, MayClose};

use crate::clerk::Clerk;
use crate::turns::{COMMIT, ENDED, Turns};
use atomic_table::Seat;
use ocr_turns_rule::rule::{Closes, Stops};
use ocr_turns_rule::{Committed, Machine, View};
use std::marker::Brand;

impl<M: Machine> Turns<M> {
    /// Enters an entry that ends the run, by one step, which also tells all clerks so. The clerk
    /// learns facts that stand from then on; only clauses keep these.
    pub fn close(&self, clerk: &mut Clerk<M>, entry: M::Entry, learns: &[M::Fact]) -> Committed
        requires table { IsOfTable self.now clerk.old }
        requires room { 1 ≤ clerk.old.room }
        requires may { clerk.old.view.closed ≡ None → MayClose M.meaning self.now.1 clerk.old.view
            entry learns.now }
        ensures { CloseTells M.meaning result clerk.old clerk.new entry learns.now }
    {
        if let Some(word) = clerk.closed {
            return Committed::Closed(word);
        }
        let found = self.step_close::<Brand>(&mut clerk.seat, &entry, learns);
        if found >= ENDED {
            clerk.closed = Some(found);
            return Committed::Closed(found);
        }
        clerk.log.push_reserved(found, entry);
        Committed::At(found)
    }

    fn step_close<W: Stops<M::Entry, M::Fact>>(
        &self,
        seat: &mut Seat<Option<M::Part>, View<M::Setting, M::Entry, M::Part, M::Message, M::Fact>>,
        entry: &M::Entry,
        learns: &[M::Fact],
    ) -> u64
        requires told { W.stop ≡ Some (entry.now, learns.now) }
        requires table { seat.old.table_id ≡ self.now.0 }
        requires open { seat.old.me.0.closed ≡ None }
        requires seat { 0 < seat.old.me.0.root + seat.old.me.0.seat }
        requires may { MayClose M.meaning self.now.1 seat.old.me.0 entry.now learns.now }
        ensures table { (seat.new.table_id ≡ seat.old.table_id) × (seat.new.id ≡ seat.old.id) }
        ensures told { steps.closes M.meaning (Some (entry.now, learns.now)) seat.old.me result
            seat.new.me }
    {
        self.table
            .shared
            .fetch_add::<Closes<M, W>>(seat, COMMIT, ENDED + 1)
    }
}
