// Where the faces of objects are looked up.
ghost use Rattle.std.specs.Prelude.{◌≡◌, ◌↔◌, true, IfSome, IfNone};
ghost use Rattle.ocr_machine_parts.specs.Kinds.{is_vacant, is_block, is_template, is_event, is_edt_face, is_destroyed, is_held_by};
ghost use Rattle.ocr_machine_parts.specs.LegalOn.{delivery_code, IsSatisfiable, IsJoinable, HasMember};
ghost use Rattle.ocr_machine_parts.specs.Taken.{as_face, look};
ghost use Rattle.ocr_machine_parts.specs.declared.part.Part.TheVariants as part;
ghost use Rattle.ocr_machine_codes.specs.Lookup.{faces_of};

use crate::codes::{code_or, most_slot};
use ocr_finish::MOST_MEMBERS;
use ocr_guid::{Code, Guid};
use ocr_machine_parts::Part;

/// Where the face of an object is looked up.
#[derive(Drop)]
pub enum Faces<'a> {
    /// Among parts with their numbers.
    Taken(u64, &'a [(u64, Part)]),
    /// In the whole state, each part at its number.
    Whole(u64, &'a [Part]),
}

impl Faces<'_> {
    /// The part at the number of an object; None where there is no such number.
    pub(crate) fn face(&self, object: u64) -> Option<&Part>
        ensures none { IfNone result (faces_of self.now object ≡ part.Vacant) }
        ensures some { IfSome result (λ p. faces_of self.now object ≡ as_face p.now) }
    {
        match self {
            Faces::Taken(limit, parts) => {
                if object < 1 || *limit < object {
                    return None;
                }
                find(parts, object)
            }
            Faces::Whole(limit, parts) => {
                if object < 1 || *limit < object || object >= parts.len() as u64 {
                    return None;
                }
                Some(&parts[object as usize])
            }
        }
    }

    pub(crate) fn is_vacant(&self, object: u64) -> bool
        ensures { result ≡ is_vacant (faces_of self.now object) }
    {
        match self.face(object) {
            None | Some(Part::Vacant) | Some(Part::Core(_)) => true,
            _ => false,
        }
    }

    pub(crate) fn is_block(&self, object: u64) -> bool
        ensures { result ≡ is_block (faces_of self.now object) }
    {
        matches!(self.face(object), Some(Part::Block(_)))
    }

    pub(crate) fn is_template(&self, object: u64) -> bool
        ensures { result ≡ is_template (faces_of self.now object) }
    {
        matches!(self.face(object), Some(Part::Template(_)))
    }

    pub(crate) fn is_event(&self, object: u64) -> bool
        ensures { result ≡ is_event (faces_of self.now object) }
    {
        matches!(self.face(object), Some(Part::Event(_)))
    }

    pub(crate) fn is_edt(&self, object: u64) -> bool
        ensures { result ≡ is_edt_face (faces_of self.now object) }
    {
        matches!(self.face(object), Some(Part::Edt(_)))
    }

    pub(crate) fn is_destroyed(&self, object: u64) -> bool
        ensures { result ≡ is_destroyed (faces_of self.now object) }
    {
        match self.face(object) {
            Some(Part::Block(state)) => state.get().is_destroyed(),
            Some(Part::Template(template)) => template.destroyed,
            Some(Part::Event(event)) => event.get().is_destroyed(),
            _ => false,
        }
    }

    /// The code with which an event answers a satisfaction that a message brings.
    pub fn delivery_code(&self, event: u64, payload: Guid) -> Code
        ensures { result ≡ delivery_code (faces_of self.now event) payload }
    {
        let Some(Part::Event(event)) = self.face(event) else {
            return Code::Done;
        };
        code_or(event.get().refusal(payload))
    }

    /// Whether an event has the slot.
    pub fn is_satisfiable(&self, event: u64, slot: u64) -> bool
        ensures { (result ≡ true) ↔ IsSatisfiable slot (faces_of self.now event) }
    {
        let Some(Part::Event(event)) = self.face(event) else {
            return false;
        };
        slot <= most_slot(event.get())
    }

    /// Whether a scope takes one member more.
    pub fn is_joinable(&self, scope: u64) -> bool
        ensures { (result ≡ true) ↔ IsJoinable (faces_of self.now scope) }
    {
        let Some(Part::Scope(scope)) = self.face(scope) else {
            return false;
        };
        1 <= scope.members() && scope.members() < MOST_MEMBERS
    }

    /// Whether a scope has a member.
    pub fn has_member(&self, scope: u64) -> bool
        ensures { (result ≡ true) ↔ HasMember (faces_of self.now scope) }
    {
        let Some(Part::Scope(scope)) = self.face(scope) else {
            return false;
        };
        1 <= scope.members()
    }

    pub(crate) fn is_held_by(&self, object: u64, edt: Guid) -> bool
        ensures { result ≡ is_held_by (faces_of self.now object) edt }
    {
        let Some(Part::Block(state)) = self.face(object) else {
            return false;
        };
        state.get().mode_of(edt).is_some()
    }
}

/// The part with this number, among parts with their numbers.
pub fn find<'a>(parts: &'a [(u64, Part)], number: u64) -> Option<&'a Part>
    ensures some { IfSome result (λ p. look parts.now number ≡ p.now) }
    ensures none { IfNone result (look parts.now number ≡ part.Vacant) }
{
    for i in 0..parts.len() {
        if parts[i].0 == number {
            return Some(&parts[i].1);
        }
    }
    None
}
