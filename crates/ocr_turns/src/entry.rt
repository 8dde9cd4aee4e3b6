// Entering an entry that does not end the run.
ghost use Rattle.std.specs.Prelude.{◌≡◌, ◌<◌, ◌≤◌, ◌+◌, ◌^◌, ◌++◌, ℕ, None, Some, vec_len, vec_capacity, length, IfOk};
ghost use Rattle.ocr_base.specs.Mail as mail;
ghost use Rattle.ocr_turns_rule.specs.Steps as steps;
ghost use Rattle.ocr_turns_rule.specs.Clerks.{HasKeys};
ghost use Rattle.ocr_turns_rule.specs.Sums.{as_some, replace_all};
ghost use Rattle.ocr_turns_rule.specs.Contract.{CommitTells, IsOfTable, MayCommit};

use crate::clerk::{Clerk, Parts, swap_part, take_out};
use crate::owed::Owed;
use crate::turns::{COMMIT, ENDED, Turns};
use atomic_table::Seat;
use ocr_base::NoMemory;
use ocr_turns_rule::rule::{Commits, Told};
use ocr_turns_rule::{Change, Committed, Machine, View};
use std::alloc::Global;
use std::marker::Brand;

impl<M: Machine> Turns<M> {
    /// Room for one more entry, besides that for an entry that ends the run, and for so many
    /// messages.
    #[inline(always)]
    pub fn reserve(
        &self,
        _alloc: Global,
        clerk: &mut Clerk<M>,
        messages: usize,
    ) -> Result<(), NoMemory>
        ensures same { (clerk.new.table ≡ clerk.old.table) × (clerk.new.view ≡ clerk.old.view)
            × (clerk.new.parts ≡ clerk.old.parts) × (clerk.new.spare ≡ clerk.old.spare) }
        ensures grows { (clerk.old.room ≤ clerk.new.room) × (clerk.old.space ≤ clerk.new.space) }
        ensures room { IfOk result (λ _. (2 ≤ clerk.new.room) × (messages ≤ clerk.new.space)) }
    {
        // Room that is there already costs a look at the capacities.
        if clerk.log.has_room(2) && (messages == 0 || clerk.owed.has_room(messages)) {
            return Ok(());
        }
        self.reserve_more(clerk, messages)
    }

    // Room that is not there yet.
    #[inline(never)]
    fn reserve_more(&self, clerk: &mut Clerk<M>, messages: usize) -> Result<(), NoMemory>
        ensures same { (clerk.new.table ≡ clerk.old.table) × (clerk.new.view ≡ clerk.old.view)
            × (clerk.new.parts ≡ clerk.old.parts) × (clerk.new.spare ≡ clerk.old.spare) }
        ensures grows { (clerk.old.room ≤ clerk.new.room) × (clerk.old.space ≤ clerk.new.space) }
        ensures room { IfOk result (λ _. (2 ≤ clerk.new.room) × (messages ≤ clerk.new.space)) }
    {
        clerk.log.reserve_two()?;
        clerk.owed.reserve(messages)?;
        Ok(())
    }

    /// Enters an entry by one step. It is in the clerk's log then, the clerk keeps the changed
    /// parts, owes the messages sent under the entry's number, and owes a delivered one no more. A
    /// clerk that knows that the run has ended is answered so without a step; nothing changes for a
    /// refused entry.
    pub fn commit(&self, clerk: &mut Clerk<M>, entry: M::Entry, change: Change<M>) -> Committed
        requires table { IsOfTable self.now clerk.old }
        requires room { (2 ≤ clerk.old.room) × (length change.messages.items ≤ clerk.old.space)
            × (length change.messages.items < 2 ^ 32) }
        requires may { clerk.old.view.closed ≡ None → MayCommit M.meaning self.now.1 clerk.old.view
            entry change.parts.items change.messages.items }
        ensures { CommitTells M.meaning result clerk.old clerk.new
            (steps.deed M.meaning self.now.1.limit clerk.old.view
            entry change.parts.items change.messages.items) }
    {
        // What the share bounds is known of the table from here on.
        let _ = &self.table;
        if let Some(word) = clerk.closed {
            return Committed::Closed(word);
        }
        let delivered = M::delivers(&entry);
        let weight = M::weight(&entry);
        let found = self.step_commit::<Brand>(&mut clerk.seat, &entry, &change);
        if found >= ENDED {
            clerk.closed = Some(found);
            return Committed::Closed(found);
        }
        let Change {
            mut parts,
            messages,
        } = change;
        put_all(&mut clerk.parts, &mut parts);
        clerk.emptied = parts;
        owe_anew(&mut clerk.owed, delivered, found, messages);
        clerk.weight += weight;
        clerk.log.push_reserved(found, entry);
        Committed::At(found)
    }

    fn step_commit<W: Told<M::Entry, M::Part, M::Message, M::Fact>>(
        &self,
        seat: &mut Seat<Option<M::Part>, View<M::Setting, M::Entry, M::Part, M::Message, M::Fact>>,
        entry: &M::Entry,
        change: &Change<M>,
    ) -> u64
        requires told { W.deed ≡ Some (steps.deed M.meaning self.now.1.limit seat.old.me.0
            entry.now change.now.parts.items change.now.messages.items) }
        requires table { seat.old.table_id ≡ self.now.0 }
        requires open { seat.old.me.0.closed ≡ None }
        requires seat { 0 < seat.old.me.0.root + seat.old.me.0.seat }
        requires may { MayCommit M.meaning self.now.1 seat.old.me.0
            entry.now change.now.parts.items change.now.messages.items }
        ensures table { (seat.new.table_id ≡ seat.old.table_id) × (seat.new.id ≡ seat.old.id) }
        ensures told { steps.commits M.meaning (Some
            (steps.deed M.meaning self.now.1.limit seat.old.me.0
            entry.now change.now.parts.items change.now.messages.items))
            seat.old.me result seat.new.me }
    {
        self.table
            .shared
            .fetch_add::<Commits<M, W>>(seat, COMMIT, 1)
    }
}

// Puts each part where its place stands.
fn put_all<P: Drop>(hand: &mut Parts<P>, parts: &mut Vec<(u64, P)>)
    requires { HasKeys parts.old.items hand.old.items }
    ensures parts { hand.new.items ≡ replace_all (as_some parts.old.items) hand.old.items }
    ensures room { vec_capacity hand.new ≡ vec_capacity hand.old }
{
    while !parts.is_empty() {
        let (place, part) = take_out(parts, 0);
        drop(swap_part(hand, place, Some(part)));
    }
}

/// Owes the delivered message no more, and those of the entry of this number.
// Most entries deliver nothing and send nothing, and then neither call is made.
#[inline(always)]
pub(crate) fn owe_anew<N: Drop>(
    owed: &mut Owed<N>,
    delivered: Option<(u64, u32)>,
    number: u64,
    messages: Vec<N>,
)
    requires has { mail.Has delivered owed.old.items }
    requires room { (length messages.items < 2 ^ 32)
        × (length messages.items ≤ owed.old.room) }
    ensures owed { owed.new.items ≡ mail.without delivered owed.old.items
        ++ mail.named number 0 messages.items }
{
    if let Some((number, index)) = delivered {
        owed.forget(number, index);
    }
    if !messages.is_empty() {
        owe_all(owed, number, messages);
    }
}

// Owes the messages of the entry of this number.
fn owe_all<N: Drop>(owed: &mut Owed<N>, number: u64, messages: Vec<N>)
    requires { (length messages.items < 2 ^ 32)
        × (length messages.items ≤ owed.old.room) }
    ensures owed { owed.new.items ≡ owed.old.items ++ mail.named number 0 messages.items }
{
    let mut index = 0;
    for message in messages {
        owed.push_reserved((number, index, message));
        index += 1;
    }
}
