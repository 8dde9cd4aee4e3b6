// What a clerk owes.
ghost use Rattle.std.specs.Prelude.{◌≡◌, ◌<◌, ◌≤◌, ◌+◌, ◌++◌, ◌∷◌, [], ◌↔◌, IsTrue, Some, length, IfOk};
ghost use Rattle.std.specs.VecDeque.{deque_capacity};
ghost use mathlib.Core.Option.{some};
ghost use lib.ListN.{get_elem?};
ghost use Rattle.ocr_base.specs.Mail as mail;
ghost use Rattle.ocr_turns_rule.specs.Clerks.{IsFirstNamed};

use std::alloc::{AllocError, Global};
use std::collections::VecDeque;
use std::marker::Model;

/// Undelivered messages, each with the number of its entry and its index there, in the order in
/// which they were sent. The one that is owed for longest stands by itself, so that a clerk that
/// owes one at a time does not touch the others' memory.
#[derive(Drop)]
pub struct Owed<N> {
    first: Option<(u64, u32, N)>,
    rest: VecDeque<(u64, u32, N)>,
}

impl<N> Model for Owed<N> {
    ghost use Rattle.std.specs.Prelude.{◌≡◌, ◌-◌, ◌++◌, [], IfNone, length};
    ghost use Rattle.std.specs.Option.{option_to_list};
    ghost use Rattle.std.specs.VecDeque.{deque_capacity};
    ghost use Rattle.ocr_turns.specs.Owed.{Queued};

    ghost Value = { Queued N };

    ghost view = { λ o. record {
      items = option_to_list o.first ++ o.rest.items;
      room = deque_capacity o.rest - length o.rest.items;
    } };

    ghost invariant = { λ o. IfNone o.first (o.rest.items ≡ []) };
}

impl<N> Owed<N> {
    pub(crate) fn new(alloc: Global) -> Owed<N>
        ensures { result.items ≡ [] }
    {
        Owed {
            first: None,
            rest: VecDeque::new(alloc),
        }
    }

    /// How many messages are owed.
    pub fn len(&self) -> usize
        ensures { result ≡ length self.now.items }
    {
        match &self.first {
            Some(_) => self.rest.len() + 1,
            None => 0,
        }
    }

    /// Whether no message is owed.
    pub fn is_empty(&self) -> bool
        ensures { IsTrue result ↔ (self.now.items ≡ []) }
    {
        self.first.is_none()
    }

    /// The message that is owed for longest.
    pub fn first(&self) -> &(u64, u32, N)
        requires { 1 ≤ length self.now.items }
        ensures { get_elem? self.now.items 0 ≡ some result.now }
    {
        match &self.first {
            Some(first) => first,
            None => unreachable!(),
        }
    }

    /// Whether there is room for so many messages more.
    #[inline(always)]
    pub(crate) fn has_room(&self, more: usize) -> bool
        ensures { IsTrue result ↔ (more ≤ self.now.room) }
    {
        self.rest.capacity() - self.rest.len() >= more
    }

    /// Room for so many messages more.
    pub(crate) fn reserve(&mut self, more: usize) -> Result<(), AllocError>
        ensures items { self.new.items ≡ self.old.items }
        ensures grows { self.old.room ≤ self.new.room }
        ensures room { IfOk result (λ _. more ≤ self.new.room) }
    {
        self.rest.reserve(more)
    }
}

impl<N: Drop> Owed<N> {
    /// Owes a message that there is room for.
    #[inline(always)]
    pub(crate) fn push_reserved(&mut self, message: (u64, u32, N))
        requires { 0 < self.old.room }
        ensures items { self.new.items ≡ self.old.items ++ message ∷ [] }
        ensures room { self.old.room ≤ self.new.room + 1 }
    {
        if self.first.is_none() {
            self.first = Some(message);
            return;
        }
        self.rest.push_back_reserved(message);
    }

    /// Owes the message of this name no more.
    pub(crate) fn forget(&mut self, number: u64, index: u32)
        requires { mail.Has (Some (number, index)) self.old.items }
        ensures items { self.new.items ≡ mail.without (Some (number, index)) self.old.items }
        ensures room { self.old.room ≤ self.new.room }
    {
        if is_named(self.first(), number, index) {
            self.first = self.rest.pop_front();
            return;
        }
        forget_among(&mut self.rest, number, index);
    }

    /// Owes all that was owed elsewhere, behind what is owed here.
    pub(crate) fn append(&mut self, more: Owed<N>)
        requires { length more.items ≤ self.old.room }
        ensures { self.new.items ≡ self.old.items ++ more.items }
    {
        let Owed {
            first,
            rest: mut others,
        } = more;
        if let Some(message) = first {
            self.push_reserved(message);
        }
        if self.rest.append(&mut others).is_err() {
            unreachable!();
        }
    }
}

// The same for a message that others are owed before.
#[inline(never)]
fn forget_among<N: Drop>(rest: &mut VecDeque<(u64, u32, N)>, number: u64, index: u32)
    requires { mail.Has (Some (number, index)) rest.old.items }
    ensures items { rest.new.items ≡ mail.without (Some (number, index)) rest.old.items }
    ensures room { (deque_capacity rest.new ≡ deque_capacity rest.old)
        × (length rest.new.items ≤ length rest.old.items) }
{
    let i = message_position(rest, number, index);
    drop(rest.remove(i));
}

// Where the message of this name stands first.
fn message_position<N>(rest: &VecDeque<(u64, u32, N)>, number: u64, index: u32) -> usize
    requires { mail.Has (Some (number, index)) rest.now.items }
    ensures { IsFirstNamed (number, index) rest.now.items result }
{
    let mut i = 0;
    while !is_named(&rest[i], number, index) {
        i += 1;
    }
    i
}

fn is_named<N>(message: &(u64, u32, N), number: u64, index: u32) -> bool
    ensures { result ≡ mail.same_name (number, index) message.now }
{
    number == message.0 && index == message.1
}
