// Entering an entry that leaves the parts at hand as they stand there.
ghost use Rattle.std.specs.Prelude.{◌≡◌, ◌<◌, ◌≤◌, ◌+◌, ◌^◌, length, None, Some};
ghost use Rattle.ocr_turns_rule.specs.Steps as steps;
ghost use Rattle.ocr_turns_rule.specs.Sums.{as_some, replace_all};
ghost use Rattle.ocr_turns_rule.specs.Contract.{CommitTells, IsOfTable, MayCommit};
ghost use Rattle.ocr_turns.specs.Hand.{at_hand};

use crate::clerk::{Clerk, Parts};
use crate::entry::owe_anew;
use crate::turns::{COMMIT, ENDED, Turns};
use atomic_table::Seat;
use ocr_turns_rule::rule::{Commits, Told};
use ocr_turns_rule::{Committed, Machine, View};
use std::marker::Brand;

impl<M: Machine> Turns<M> {
    /// Enters an entry that names the parts at hand, as `commit` enters one. Its step was made on
    /// them before: they stay as they stand there.
    // Each caller knows the kind of its entry, and what hangs on it costs nothing there.
    #[inline(always)]
    pub fn commit_at_hand(
        &self,
        clerk: &mut Clerk<M>,
        entry: M::Entry,
        messages: Vec<M::Message>,
    ) -> Committed
        requires table { IsOfTable self.now clerk.old }
        requires room { (2 ≤ clerk.old.room) × (length messages.items ≤ clerk.old.space)
            × (length messages.items < 2 ^ 32) }
        requires same { replace_all (as_some (at_hand clerk.old.parts)) clerk.old.parts
            ≡ clerk.old.parts }
        requires may { clerk.old.view.closed ≡ None → MayCommit M.meaning self.now.1 clerk.old.view
            entry (at_hand clerk.old.parts) messages.items }
        ensures { CommitTells M.meaning result clerk.old clerk.new
            (steps.deed M.meaning self.now.1.limit clerk.old.view
            entry (at_hand clerk.old.parts) messages.items) }
    {
        // What the share bounds is known of the table from here on.
        let _ = &self.table;
        if let Some(word) = clerk.closed {
            return Committed::Closed(word);
        }
        let delivered = M::delivers(&entry);
        let weight = M::weight(&entry);
        let found = self.step_at_hand::<Brand>(&mut clerk.seat, &entry, &clerk.parts, &messages);
        if found >= ENDED {
            clerk.closed = Some(found);
            return Committed::Closed(found);
        }
        owe_anew(&mut clerk.owed, delivered, found, messages);
        clerk.weight += weight;
        clerk.log.push_reserved(found, entry);
        Committed::At(found)
    }

    // The step, for an entry that leaves these parts as they stand.
    fn step_at_hand<W: Told<M::Entry, M::Part, M::Message, M::Fact>>(
        &self,
        seat: &mut Seat<Option<M::Part>, View<M::Setting, M::Entry, M::Part, M::Message, M::Fact>>,
        entry: &M::Entry,
        _hand: &Parts<M::Part>,
        _messages: &Vec<M::Message>,
    ) -> u64
        requires told { W.deed ≡ Some (steps.deed M.meaning self.now.1.limit seat.old.me.0
            entry.now (at_hand _hand.now.items) _messages.now.items) }
        requires table { seat.old.table_id ≡ self.now.0 }
        requires open { seat.old.me.0.closed ≡ None }
        requires seat { 0 < seat.old.me.0.root + seat.old.me.0.seat }
        requires may { MayCommit M.meaning self.now.1 seat.old.me.0
            entry.now (at_hand _hand.now.items) _messages.now.items }
        ensures table { (seat.new.table_id ≡ seat.old.table_id) × (seat.new.id ≡ seat.old.id) }
        ensures told { steps.commits M.meaning (Some
            (steps.deed M.meaning self.now.1.limit seat.old.me.0
            entry.now (at_hand _hand.now.items) _messages.now.items))
            seat.old.me result seat.new.me }
    {
        self.table
            .shared
            .fetch_add::<Commits<M, W>>(seat, COMMIT, 1)
    }
}
