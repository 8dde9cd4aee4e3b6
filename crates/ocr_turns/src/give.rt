// Giving back a part.
ghost use Rattle.std.specs.Prelude.{◌≡◌, ◌<◌, ◌≤◌, ◌+◌, ◌*◌, ◌-◌, ℕ, [], Option, None, Some, length, vec_capacity};
ghost use Rattle.ocr_turns_rule.specs.Clerks.{IsFirst};
ghost use Rattle.ocr_turns_rule.specs.Sums.{find, remove_at};
ghost use Rattle.ocr_turns_rule.specs.Steps.{without_part};
ghost use Rattle.ocr_turns_rule.specs.Contract.{GiveTells, IsOfTable, Loose, MayGive, Rests, SeenAs};

use crate::clerk::{Clerk, Parts, position, take_out};
use crate::take::TURNS;
use crate::turns::Turns;
use atomic_table::Seat;
use ocr_turns_rule::rule::{Fetches, Returns};
use ocr_turns_rule::{Machine, View};

impl<M: Machine> Turns<M> {
    /// Puts a kept part back into its slot, and frees its turn. A clerk that knows that the run has
    /// ended makes no step, and keeps the part.
    pub fn give_back(&self, clerk: &mut Clerk<M>, place: u64)
        requires table { IsOfTable self.now clerk.old }
        requires place { place ≤ 2 * self.now.1.limit }
        requires may { clerk.old.view.closed ≡ None → MayGive M.meaning self.now.1
            clerk.old.view clerk.old.parts place }
        ensures { GiveTells clerk.old clerk.new place }
    {
        let None = clerk.closed else {
            return;
        };
        let i = position(clerk.parts.as_slice(), place);
        if i + 1 < clerk.parts.len() {
            return self.give_among(clerk, place, i);
        }
        let part = remove_part(&mut clerk.parts, place, i);
        self.put_back(&mut clerk.seat, place as usize, part);
    }

    // The same for a part behind which others stand. Apart, so that the last one is given back with
    // nothing of what the moving of others costs.
    #[inline(never)]
    fn give_among(&self, clerk: &mut Clerk<M>, place: u64, i: usize)
        requires table { IsOfTable self.now clerk.old }
        requires place { place ≤ 2 * self.now.1.limit }
        requires open { clerk.old.view.closed ≡ None }
        requires may { MayGive M.meaning self.now.1 clerk.old.view clerk.old.parts place }
        requires within { i < length clerk.old.parts }
        requires first { IsFirst place clerk.old.parts i }
        ensures { GiveTells clerk.old clerk.new place }
    {
        let part = remove_part(&mut clerk.parts, place, i);
        self.put_back(&mut clerk.seat, place as usize, part);
    }

    // Puts a part, which is not lifted, back into its slot, and frees its turn.
    fn put_back(
        &self,
        seat: &mut Seat<Option<M::Part>, View<M::Setting, M::Entry, M::Part, M::Message, M::Fact>>,
        place: usize,
        part: Option<M::Part>,
    )
        requires table { seat.old.table_id ≡ self.now.0 }
        requires open { seat.old.me.0.closed ≡ None }
        requires keeps { (x : M.Part) × (part ≡ Some x)
            × SeenAs M.meaning self.now.1 seat.old.me.0 place x }
        requires seat { 0 < seat.old.me.0.root + seat.old.me.0.seat }
        requires hand { (seat.old.me.0.carried ≡ None) × (seat.old.me.1 ≡ []) }
        requires place { place ≤ 2 * self.now.1.limit }
        requires rests { Rests M.meaning self.now.1 seat.old.me.0 place }
        requires loose { Loose M.meaning self.now.1 seat.old.me.0 place }
        ensures table { (seat.new.table_id ≡ seat.old.table_id) × (seat.new.id ≡ seat.old.id) }
        ensures given { seat.new.me ≡ (without_part seat.old.me.0 place, []) }
    {
        self.table.shared.load::<Fetches>(seat, place + TURNS);
        match self.table.shared.exchange(seat, place, part) {
            None => {}
            Some(_) => unreachable!(),
        }
        self.table.shared.store::<Returns>(seat, place + TURNS, 0);
    }
}

// Takes out what first stands at the place, by where it stands.
#[inline(always)]
fn remove_part<P>(parts: &mut Parts<P>, place: u64, i: usize) -> Option<P>
    requires within { i < length parts.old.items }
    requires first { IsFirst place parts.old.items i }
    ensures found { find place parts.old.items ≡ Some result }
    ensures removed { parts.new.items ≡ remove_at place parts.old.items }
    ensures room { vec_capacity parts.new - length parts.new.items
        ≡ vec_capacity parts.old - length parts.old.items + 1 }
{
    let (_, part) = take_out(parts, i);
    part
}
