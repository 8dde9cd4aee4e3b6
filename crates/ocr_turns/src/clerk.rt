// A clerk: a seat at the table, with what it keeps.
ghost use Rattle.std.specs.Prelude.{◌≡◌, ◌<◌, ◌≤◌, ◌+◌, ℕ, [], Option, Some, None, IfOk, vec_capacity, length};
ghost use Rattle.std.specs.List.{remove};
ghost use mathlib.Core.Option.{some};
ghost use lib.ListN.{get_elem?};
ghost use Rattle.ocr_turns_rule.specs.Clerks.{IsFirst};
ghost use Rattle.ocr_turns_rule.specs.Sums.{find, replace};
ghost use Rattle.ocr_turns_rule.specs.Contract.{SameRoom};
ghost use Rattle.ocr_turns_rule.specs.Units.{units};

use crate::log::Log;
use crate::owed::Owed;
use atomic_table::Seat;
use ocr_base::NoMemory;
use ocr_turns_rule::{Machine, View};
use std::alloc::Global;
use std::marker::Model;

/// The parts that a clerk keeps, by place. `None` stands where a part was lifted.
pub(crate) type Parts<P> = Vec<(u64, Option<P>)>;

/// A clerk of a table: it keeps parts, logs the entries that it makes, and owes the messages that
/// these sent until it delivers them.
#[derive(Drop)]
pub struct Clerk<M: Machine> {
    pub(crate) seat: Seat<
        Option<M::Part>,
        View<M::Setting, M::Entry, M::Part, M::Message, M::Fact>,
    >,
    pub(crate) log: Log<M::Entry>,
    pub(crate) joined: Vec<Log<M::Entry>>,
    pub(crate) parts: Parts<M::Part>,
    /// The list that the last commit emptied, so that the next entry needs no memory of its own.
    pub(crate) emptied: Vec<(u64, M::Part)>,
    pub(crate) owed: Owed<M::Message>,
    pub(crate) weight: u64,
    pub(crate) closed: Option<u64>,
    pub(crate) full: Option<u64>,
    pub(crate) units: u64,
}

impl<M: Machine> Model for Clerk<M> {
    ghost use Rattle.std.specs.Prelude.{◌≡◌, ◌≤◌, ◌⊎◌, ℕ, List, vec_capacity, ◌-◌, length, map, [], None, MatchOption};
    ghost use Rattle.ocr_turns_rule.specs.declared.view.View.{View};
    ghost use Rattle.atomic_table.specs.Seated.{TableId};
    ghost use Rattle.ocr_turns_rule.specs.Contract.{Known};
    ghost use Rattle.ocr_turns_rule.specs.Clerks.{IsTrueTo};

    ghost Value = { Known M.Setting M.Entry M.Part M.Message M.Fact };

    ghost view = { λ c. record {
      table = c.seat.table_id;
      view = c.seat.me.0;
      parts = c.parts.items;
      room = c.log.room;
      spare = vec_capacity c.parts - length c.parts.items;
      space = c.owed.room;
    } };

    ghost invariant = { λ c. IsTrueTo c.seat.me c.log.items (map
        (λ l. l.items) c.joined.items) c.parts.items c.owed.items c.weight c.closed c.full c.units };
}

impl<M: Machine> Clerk<M> {
    /// Its entries with their numbers, in its order.
    pub fn log(&self) -> &Log<M::Entry>
        ensures { result.now.items ≡ self.now.view.log }
    {
        &self.log
    }

    /// What its log weighs.
    pub fn weight(&self) -> u64
        ensures { result ≡ self.now.view.weight }
    {
        self.weight
    }

    /// How many units it has. The root may have more, once clerks were joined into it.
    pub fn units(&self) -> u64
        ensures fewer { result ≤ units self.now.view }
        ensures exact { self.now.view.seat ≡ 1 → result ≡ units self.now.view }
    {
        self.units
    }

    /// The undelivered messages that it owes.
    pub fn owed(&self) -> &Owed<M::Message>
        ensures { result.now.items ≡ self.now.view.owed }
    {
        &self.owed
    }

    /// How many undelivered messages it owes.
    pub fn owed_len(&self) -> usize
        ensures { result ≡ length self.now.view.owed }
    {
        self.owed.len()
    }

    /// The undelivered message that it has owed for longest, with the number of its entry and its
    /// index there.
    pub fn first_owed(&self) -> &(u64, u32, M::Message)
        requires { 1 ≤ length self.now.view.owed }
        ensures { get_elem? self.now.view.owed 0 ≡ some result.now }
    {
        self.owed.first()
    }

    /// The part of a place that it keeps and has not lifted.
    pub fn part(&self, place: u64) -> &M::Part
        requires { (x : M.Part) × (find place self.now.parts ≡ Some (Some x)) }
        ensures { find place self.now.parts ≡ Some (Some result.now) }
    {
        match &self.parts[position(self.parts.as_slice(), place)].1 {
            Some(part) => part,
            None => unreachable!(),
        }
    }

    /// Hands out the part of a place. It still counts as kept, and comes back by `put` or by a
    /// commit.
    pub fn lift(&mut self, place: u64) -> M::Part
        requires { (x : M.Part) × (find place self.old.parts ≡ Some (Some x)) }
        ensures part { find place self.old.parts ≡ Some (Some result) }
        ensures parts { self.new.parts ≡ replace place None self.old.parts }
        ensures rest { (self.new.table ≡ self.old.table) × (self.new.view ≡ self.old.view)
            × SameRoom self.old self.new }
    {
        match swap_part(&mut self.parts, place, None) {
            Some(part) => part,
            None => unreachable!(),
        }
    }

    /// An empty list with room for so many lifted parts. It is the one that the last commit emptied,
    /// unless that was handed out since.
    pub fn parts_list(
        &mut self,
        alloc: Global,
        room: usize,
    ) -> Result<Vec<(u64, M::Part)>, NoMemory>
        ensures same { self.new ≡ self.old }
        ensures list { IfOk result (λ v. (v.items ≡ []) × (room ≤ vec_capacity v)) }
    {
        let mut list = std::mem::replace(&mut self.emptied, Vec::new(alloc));
        list.clear();
        list.reserve(room)?;
        Ok(list)
    }

    /// Puts a lifted part back at hand.
    pub fn put(&mut self, place: u64, part: M::Part)
        requires { find place self.old.parts ≡ Some None }
        ensures parts { self.new.parts ≡ replace place (Some part) self.old.parts }
        ensures rest { (self.new.table ≡ self.old.table) × (self.new.view ≡ self.old.view)
            × SameRoom self.old self.new }
    {
        let None = swap_part(&mut self.parts, place, Some(part)) else {
            unreachable!()
        };
    }

    /// Puts another part where one stands at hand, and hands out the one that stood there.
    pub fn exchange(&mut self, place: u64, part: M::Part) -> M::Part
        requires { (x : M.Part) × (find place self.old.parts ≡ Some (Some x)) }
        ensures part { find place self.old.parts ≡ Some (Some result) }
        ensures parts { self.new.parts ≡ replace place (Some part) self.old.parts }
        ensures rest { (self.new.table ≡ self.old.table) × (self.new.view ≡ self.old.view)
            × SameRoom self.old self.new }
    {
        match swap_part(&mut self.parts, place, Some(part)) {
            Some(old) => old,
            None => unreachable!(),
        }
    }
}

/// Where the place first stands.
pub(crate) fn position<P>(parts: &[(u64, Option<P>)], place: u64) -> usize
    requires { (x : Option P) × (find place parts.now ≡ Some x) }
    ensures within { result < length parts.now }
    ensures first { IsFirst place parts.now result }
{
    let mut i = 0;
    while parts[i].0 != place {
        i += 1;
    }
    i
}

/// Puts another value where the place first stands, and hands out what stood there.
pub(crate) fn swap_part<P>(parts: &mut Parts<P>, place: u64, part: Option<P>) -> Option<P>
    requires { (x : Option P) × (find place parts.old.items ≡ Some x) }
    ensures found { find place parts.old.items ≡ Some result }
    ensures replaced { parts.new.items ≡ replace place part parts.old.items }
    ensures room { vec_capacity parts.new ≡ vec_capacity parts.old }
{
    let i = position(parts.as_slice(), place);
    std::mem::replace(&mut parts[i].1, part)
}

/// Takes out the item at `i`. The last item moves no other one.
// So a caller that knows whether it is the last one has one of the two ways alone.
#[inline(always)]
pub(crate) fn take_out<T>(items: &mut Vec<T>, i: usize) -> T
    requires { i < length items.old.items }
    ensures item { get_elem? items.old.items i ≡ some result }
    ensures rest { items.new.items ≡ remove items.old.items i }
    ensures room { (vec_capacity items.new ≡ vec_capacity items.old)
        × (length items.new.items + 1 ≡ length items.old.items) }
{
    if i + 1 < items.len() {
        return items.remove(i);
    }
    match items.pop() {
        Some(item) => item,
        None => unreachable!(),
    }
}
