// Taking a part, and waiting for its turn.
ghost use Rattle.std.specs.Prelude.{◌≡◌, ◌<◌, ◌≤◌, ◌+◌, ◌*◌, ◌++◌, ◌∷◌, [], None, Some, true, false, length, vec_capacity, MatchOption};
ghost use Rattle.atomic_table.specs.Table.{rest};
ghost use Rattle.ocr_turns_rule.specs.Steps.{SeesBoth, settles, with_part};
ghost use Rattle.ocr_turns_rule.specs.Sums.{one_at, weigh};
ghost use Rattle.ocr_turns_rule.specs.Contract.{TakeTells, IsOfTable};

use crate::clerk::{Clerk, Parts};
use crate::turns::Turns;
use atomic_table::Seat;
use ocr_turns_rule::rule::{Settles, Takes};
use ocr_turns_rule::{Machine, Taken, View};
use std::sync::Wait;
use std::thread;

/// The first turn word. It shares no cache line with the commit word.
pub(crate) const TURNS: usize = 24;

impl<M: Machine> Turns<M> {
    /// Waits for the turn of a part, and reads the commit word before each try: a part is taken
    /// only where the run was seen open in this call.
    pub fn take<R: Wait>(&self, rt: &R, clerk: &mut Clerk<M>, place: u64) -> Taken
        requires table { IsOfTable self.now clerk.old }
        requires place { place ≤ 2 * self.now.1.limit }
        requires room { 0 < clerk.old.spare }
        ensures { TakeTells M.meaning result clerk.old clerk.new place }
    {
        // Most turns are free at once, and a loop that may go on for ever costs more to begin.
        if let Some(answer) = self.attempt(clerk, place) {
            return answer;
        }
        self.wait(rt, clerk, place)
    }

    // Tries until the turn is free or the run has ended, and lets other threads go first.
    #[inline(never)]
    fn wait<R: Wait>(&self, rt: &R, clerk: &mut Clerk<M>, place: u64) -> Taken
        requires table { IsOfTable self.now clerk.old }
        requires place { place ≤ 2 * self.now.1.limit }
        requires room { 0 < clerk.old.spare }
        ensures { TakeTells M.meaning result clerk.old clerk.new place }
    {
        for _ in rt.forever() {
            thread::yield_now();
            if let Some(answer) = self.attempt(clerk, place) {
                return answer;
            }
        }
        unreachable!()
    }

    // One look at the commit word, and one try.
    fn attempt(&self, clerk: &mut Clerk<M>, place: u64) -> Option<Taken>
        requires table { IsOfTable self.now clerk.old }
        requires place { place ≤ 2 * self.now.1.limit }
        requires room { 0 < clerk.old.spare }
        ensures { MatchOption result (clerk.new ≡ clerk.old)
            (λ answer. TakeTells M.meaning answer clerk.old clerk.new place) }
    {
        if let Some(word) = self.look(clerk) {
            return Some(Taken::Closed(word));
        }
        if self.try_take(&mut clerk.seat, &mut clerk.parts, place as usize) {
            return Some(Taken::Mine);
        }
        None
    }

    // Takes a part among those at hand if its turn is free. Whether it was.
    fn try_take(
        &self,
        seat: &mut Seat<Option<M::Part>, View<M::Setting, M::Entry, M::Part, M::Message, M::Fact>>,
        parts: &mut Parts<M::Part>,
        place: usize,
    ) -> bool
        requires table { seat.old.table_id ≡ self.now.0 }
        requires place { place ≤ 2 * self.now.1.limit }
        requires seat { 0 < seat.old.me.0.root + seat.old.me.0.seat }
        requires hand { (seat.old.me.0.carried ≡ None) × (seat.old.me.1 ≡ []) }
        requires room { length parts.old.items < vec_capacity parts.old }
        ensures table { (seat.new.table_id ≡ seat.old.table_id) × (seat.new.id ≡ seat.old.id) }
        ensures room { vec_capacity parts.new ≡ vec_capacity parts.old }
        ensures busy { result ≡ false → (seat.new.me ≡ seat.old.me)
            × (parts.new.items ≡ parts.old.items) }
        ensures free { result ≡ true → (x : M.Part)
            × (seat.new.me ≡ (with_part seat.old.me.0 place x, []))
            × SeesBoth M.meaning seat.old.me.0 seat.new.me.0
            × (parts.new.items ≡ parts.old.items ++ (place, Some x) ∷ []) }
    {
        let found = self
            .table
            .shared
            .compare_exchange::<Takes<M>>(seat, place + TURNS, 0, 1);
        if found != 0 {
            return false;
        }
        self.bring(seat, parts, place);
        true
    }

    // Brings the part of a turn that was taken from its slot. Apart from `try_take`, so that room
    // for it is made only once the turn was free.
    fn bring(
        &self,
        seat: &mut Seat<Option<M::Part>, View<M::Setting, M::Entry, M::Part, M::Message, M::Fact>>,
        parts: &mut Parts<M::Part>,
        place: usize,
    )
        requires table { seat.old.table_id ≡ self.now.0 }
        requires place { place ≤ 2 * self.now.1.limit }
        requires seat { 0 < seat.old.me.0.root + seat.old.me.0.seat }
        requires turn { (x : M.Part) × (seat.old.me.1 ≡ (place, Some x) ∷ [])
            × (seat.old.me.0.carried ≡ Some place)
            × (1 ≤ weigh (one_at place) seat.old.me.0.parts) }
        requires room { length parts.old.items < vec_capacity parts.old }
        ensures table { (seat.new.table_id ≡ seat.old.table_id) × (seat.new.id ≡ seat.old.id) }
        ensures room { vec_capacity parts.new ≡ vec_capacity parts.old }
        ensures part { (x : M.Part) × (seat.old.me.1 ≡ (place, Some x) ∷ rest seat.old.me.1)
            × settles (seat.old.me.0, (place, None) ∷ rest seat.old.me.1) seat.new.me
            × (parts.new.items ≡ parts.old.items ++ (place, Some x) ∷ []) }
    {
        let held = self.table.shared.exchange(seat, place, None);
        self.table.shared.load::<Settles>(seat, place + TURNS);
        let Some(part) = held else { unreachable!() };
        parts.push_reserved((place as u64, Some(part)));
    }
}
