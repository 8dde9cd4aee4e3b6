// The parts that an entry has at hand.
ghost use Rattle.std.specs.Prelude.{◌≡◌, ◌≤◌, ◌+◌, true, false, IfSome, IfNone};
ghost use Rattle.ocr_machine_parts.specs.Kinds.{is_block, is_edt_face, is_event, is_scope, is_template};
ghost use Rattle.ocr_machine_parts.specs.Taken.{look, put};
ghost use Rattle.ocr_machine_parts.specs.declared.part.Part.TheVariants as part;
ghost use Rattle.ocr_machine_effects.specs.AtHand.{state, with_part, is_core, items_of, is_whole, numbered, listed, all_of};

use ocr_finish::Scope;
use ocr_guid::Guid;
use ocr_machine_codes::find;
use ocr_machine_parts::{BoxedBlock, BoxedCore, BoxedEvent, Part};
use ocr_slots::Slots;
use ocr_template::Template;
use std::marker::Model;

/// Where the parts stand that an entry has at hand.
#[derive(Drop)]
pub(crate) enum PartStore {
    /// Some of them, each beside its number.
    Listed(Vec<(u64, Part)>),
    /// All of them, each at its number.
    Whole(Vec<Part>),
}

/// Parts with their numbers: the face of object g has the number g, and the core of EDT t the
/// number limit + t.
#[derive(Drop)]
pub struct TakenParts {
    limit: u64,
    hand: PartStore,
}

impl Model for TakenParts {
    ghost use Rattle.std.specs.Prelude.{◌≤◌};
    ghost use Rattle.ocr_machine_effects.specs.AtHand.{AtHand, items_of, is_whole};

    ghost Value = { AtHand };

    ghost view = { λ t. record {
      limit = t.limit;
      items = items_of t.hand;
      whole = is_whole t.hand;
    } };

    ghost invariant = { λ t. t.limit ≤ 65536 };
}

impl TakenParts {
    /// These parts, each with its number, of a table with so many objects.
    pub fn listed(limit: u64, parts: Vec<(u64, Part)>) -> TakenParts
        requires { limit ≤ 65536 }
        ensures { result ≡ listed limit parts.items }
    {
        TakenParts {
            limit,
            hand: PartStore::Listed(parts),
        }
    }

    /// All parts of a table with so many objects, each at its number.
    pub fn whole(limit: u64, parts: Vec<Part>) -> TakenParts
        requires { limit ≤ 65536 }
        ensures { result ≡ all_of limit parts.items }
    {
        TakenParts {
            limit,
            hand: PartStore::Whole(parts),
        }
    }

    /// The parts, each with its number.
    pub fn into_listed(self) -> Vec<(u64, Part)>
        requires { self.whole ≡ false }
        ensures { result.items ≡ self.items }
    {
        match self.hand {
            PartStore::Listed(parts) => parts,
            PartStore::Whole(_) => unreachable!(),
        }
    }

    /// All parts, each at its number.
    pub fn into_whole(self) -> Vec<Part>
        requires { self.whole ≡ true }
        ensures { numbered 0 result.items ≡ self.items }
    {
        match self.hand {
            PartStore::Whole(parts) => parts,
            PartStore::Listed(_) => unreachable!(),
        }
    }

    /// The core of an EDT; None where it is not at hand.
    pub fn core(&self, edt: Guid) -> Option<&Part>
        requires { edt ≤ self.now.limit }
        ensures some { IfSome result (λ p. look self.now.items (self.now.limit + edt) ≡ p.now) }
        ensures none { IfNone result (look self.now.items (self.now.limit + edt) ≡ part.Vacant) }
    {
        find_in(&self.hand, self.limit + edt.0)
    }

    /// Puts a face in the place of the one that an object has.
    #[inline(always)]
    pub fn put_face(&mut self, object: u64, part: Part)
        ensures { self.new ≡ with_part self.old object part }
    {
        set(&mut self.hand, object, part);
    }

    /// Puts a core in the place of the one that an EDT has.
    #[inline(always)]
    pub fn put_core(&mut self, edt: Guid, core: BoxedCore)
        requires { edt ≤ self.old.limit }
        ensures { self.new ≡ with_part self.old (self.old.limit + edt) (part.Core core) }
    {
        set(&mut self.hand, self.limit + edt.0, Part::Core(core));
    }

    /// Takes the core of an EDT out.
    #[inline(always)]
    pub fn take_core(&mut self, edt: Guid) -> BoxedCore
        requires { is_core ((state self.old).core edt) ≡ true }
        ensures within { edt ≤ self.old.limit }
        ensures was { (state self.old).core edt ≡ part.Core result }
        ensures left { self.new ≡ with_part self.old (self.old.limit + edt) part.Vacant }
    {
        let Part::Core(core) = take(&mut self.hand, self.limit + edt.0) else {
            unreachable!()
        };
        core
    }

    /// Takes a block out.
    #[inline(always)]
    pub fn take_block(&mut self, block: u64) -> BoxedBlock
        requires { is_block ((state self.old).face block) ≡ true }
        ensures was { (state self.old).face block ≡ part.Block result }
        ensures left { self.new ≡ with_part self.old block part.Vacant }
    {
        let Part::Block(state) = take(&mut self.hand, block) else {
            unreachable!()
        };
        state
    }

    /// A template.
    pub fn template(&self, template: u64) -> Template
        requires { is_template ((state self.now).face template) ≡ true }
        ensures { (state self.now).face template ≡ part.Template result }
    {
        let Some(Part::Template(made)) = find_in(&self.hand, template) else {
            unreachable!()
        };
        *made
    }

    /// Whether the object is an event.
    pub fn is_event(&self, object: u64) -> bool
        ensures { result ≡ is_event ((state self.now).face object) }
    {
        if object < 1 || self.limit < object {
            return false;
        }
        matches!(find_in(&self.hand, object), Some(Part::Event(_)))
    }

    /// Whether the object is a block.
    pub fn is_block(&self, object: u64) -> bool
        ensures { result ≡ is_block ((state self.now).face object) }
    {
        if object < 1 || self.limit < object {
            return false;
        }
        matches!(find_in(&self.hand, object), Some(Part::Block(_)))
    }

    /// Whether the object is an EDT.
    pub fn is_edt(&self, object: u64) -> bool
        ensures { result ≡ is_edt_face ((state self.now).face object) }
    {
        if object < 1 || self.limit < object {
            return false;
        }
        matches!(find_in(&self.hand, object), Some(Part::Edt(_)))
    }

    /// Takes an event out.
    #[inline(always)]
    pub fn take_event(&mut self, event: u64) -> BoxedEvent
        requires { is_event ((state self.old).face event) ≡ true }
        ensures was { (state self.old).face event ≡ part.Event result }
        ensures left { self.new ≡ with_part self.old event part.Vacant }
    {
        let Part::Event(made) = take(&mut self.hand, event) else {
            unreachable!()
        };
        made
    }

    /// Takes a finish scope out.
    #[inline(always)]
    pub fn take_scope(&mut self, scope: u64) -> Scope
        requires { is_scope ((state self.old).face scope) ≡ true }
        ensures was { (state self.old).face scope ≡ part.Scope result }
        ensures left { self.new ≡ with_part self.old scope part.Vacant }
    {
        let Part::Scope(made) = take(&mut self.hand, scope) else {
            unreachable!()
        };
        made
    }

    /// Takes the slots of an EDT out.
    #[inline(always)]
    pub fn take_slots(&mut self, edt: Guid) -> Slots
        requires { is_edt_face ((state self.old).face edt) ≡ true }
        ensures was { (state self.old).face edt ≡ part.Edt result }
        ensures left { self.new ≡ with_part self.old edt part.Vacant }
    {
        let Part::Edt(slots) = take(&mut self.hand, edt.0) else {
            unreachable!()
        };
        slots
    }
}

/// The part with this number; None where it is not at hand.
#[inline(always)]
fn find_in(hand: &PartStore, number: u64) -> Option<&Part>
    ensures some { IfSome result (λ p. look (items_of hand.now) number ≡ p.now) }
    ensures none { IfNone result (look (items_of hand.now) number ≡ part.Vacant) }
{
    match hand {
        PartStore::Listed(parts) => find(parts, number),
        PartStore::Whole(parts) => find_at(parts, number),
    }
}

fn find_at(parts: &[Part], number: u64) -> Option<&Part>
    ensures some { IfSome result (λ p. look (numbered 0 parts.now) number ≡ p.now) }
    ensures none { IfNone result (look (numbered 0 parts.now) number ≡ part.Vacant) }
{
    if number >= parts.len() as u64 {
        return None;
    }
    Some(&parts[number as usize])
}

/// Puts a part in the place of the one with this number.
#[inline(always)]
fn set(hand: &mut PartStore, number: u64, part: Part)
    ensures items { items_of hand.new ≡ put (items_of hand.old) number part }
    ensures whole { is_whole hand.new ≡ is_whole hand.old }
{
    match hand {
        PartStore::Listed(parts) => set_listed(parts, number, part),
        PartStore::Whole(parts) => set_at(parts, number, part),
    }
}

#[inline(always)]
fn set_listed(parts: &mut Vec<(u64, Part)>, number: u64, part: Part)
    ensures { parts.new.items ≡ put parts.old.items number part }
{
    for i in 0..parts.len() {
        if parts[i].0 == number {
            parts[i].1 = part;
            return;
        }
    }
}

#[inline(always)]
fn set_at(parts: &mut Vec<Part>, number: u64, part: Part)
    ensures { numbered 0 parts.new.items ≡ put (numbered 0 parts.old.items) number part }
{
    if number < parts.len() as u64 {
        parts[number as usize] = part;
    }
}

/// Takes the part with this number out.
#[inline(always)]
fn take(hand: &mut PartStore, number: u64) -> Part
    ensures was { result ≡ look (items_of hand.old) number }
    ensures left { items_of hand.new ≡ put (items_of hand.old) number part.Vacant }
    ensures whole { is_whole hand.new ≡ is_whole hand.old }
{
    match hand {
        PartStore::Listed(parts) => take_listed(parts, number),
        PartStore::Whole(parts) => take_at(parts, number),
    }
}

#[inline(always)]
fn take_listed(parts: &mut Vec<(u64, Part)>, number: u64) -> Part
    ensures was { result ≡ look parts.old.items number }
    ensures left { parts.new.items ≡ put parts.old.items number part.Vacant }
{
    for i in 0..parts.len() {
        if parts[i].0 == number {
            return std::mem::replace(&mut parts[i].1, Part::Vacant);
        }
    }
    Part::Vacant
}

#[inline(always)]
fn take_at(parts: &mut Vec<Part>, number: u64) -> Part
    ensures was { result ≡ look (numbered 0 parts.old.items) number }
    ensures left { numbered 0 parts.new.items
        ≡ put (numbered 0 parts.old.items) number part.Vacant }
{
    if number >= parts.len() as u64 {
        return Part::Vacant;
    }
    std::mem::replace(&mut parts[number as usize], Part::Vacant)
}
