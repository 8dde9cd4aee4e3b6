// The whole state of the machine.
ghost use Rattle.std.specs.Prelude.{◌≡◌, ◌↔◌, ◌≤◌, ◌<◌, ◌+◌, ◌-◌, ◌^◌, ℕ, [], ◌∷◌, ◌==◌, ◌||◌, length, slice_set, vec_len, true, if◌then◌else◌, IfOk, IfSome, IfNone};
ghost use Rattle.std.specs.List.{All};
ghost use Rattle.ocr_machine_history.specs.History.{Setting, History};
ghost use Rattle.ocr_machine_history.specs.Made.{is_new, names_new};
ghost use Rattle.ocr_machine_history.specs.Numbers.{is_in};
ghost use Rattle.ocr_machine_history.specs.declared.entry.What.TheVariants as what;
ghost use Rattle.ocr_machine_parts.specs.Calls.{set_step};
ghost use Rattle.ocr_machine_parts.specs.Codes.{code_of};
ghost use Rattle.ocr_machine_parts.specs.Effects.{changed};
ghost use Rattle.ocr_machine_parts.specs.Kinds.{counted_on, home_on};
ghost use Rattle.ocr_machine_parts.specs.LegalOn.{IsLegalOn, IsSatisfiable, IsJoinable, HasMember, delivery_code};
ghost use Rattle.ocr_machine_parts.specs.Messages.{sends, resumes};
ghost use Rattle.ocr_machine_parts.specs.Taken.{look, has, as_face, as_core, is_within};
ghost use Rattle.ocr_machine_parts.specs.declared.part.Part.TheVariants as part;
ghost use Rattle.ocr_program_tree.specs.Functions.{number_of_main};
ghost use Rattle.ocr_machine_state.specs.Sets.{set_after};

use crate::rows::{no_sets, put_at, set_at, set_row_at, vacant_parts};
use crate::sets::Sets;
use ocr_base::NoMemory;
use ocr_body_meaning::{Answer, Call};
use ocr_guid::{Code, Guid};
use ocr_machine::{Entered, home_of, opening, step_all};
use ocr_machine_codes::{Faces, code_at};
use ocr_machine_history::{Entry, What};
use ocr_machine_parts::{Part, machine_laws};
use std::alloc::Global;

/// All parts of the machine's state, each at its number, and for each EDT what its slots were set
/// to.
#[derive(Drop)]
pub struct State {
    pub limit: u64,
    pub parts: Vec<Part>,
    pub sets: Vec<Sets>,
    ghost most: { limit ≤ 65536 },
    ghost rows: { vec_len sets ≡ limit + 1 },
}

impl State {
    ghost use Rattle.ocr_machine_codes.specs.Lookup.{part_at};
    ghost use Rattle.ocr_machine_effects.specs.All.{AreAllPlaced};
    ghost use Rattle.ocr_machine_state.specs.State.{state_in, face_on, core_on, sets_in, IsWholeState, IsStateOf, IsBefore, IsBeforeEntry};

    /// A table in which nothing is made.
    pub fn new(alloc: Global, limit: u64) -> Result<State, NoMemory>
        requires { limit ≤ 65536 }
        ensures limit { IfOk result (λ table. table.limit ≡ limit) }
        ensures whole { IfOk result (λ table. IsWholeState table) }
        ensures parts { IfOk result (λ table. (n : ℕ) → part_at table.parts.items n ≡ part.Vacant) }
        ensures sets { IfOk result (λ table. (t : ℕ) → sets_in table t ≡ []) }
    {
        let parts = vacant_parts(alloc, (limit + limit + 1) as usize)?;
        let sets = no_sets(alloc, limit as usize + 1)?;
        Ok(State { limit, parts, sets })
    }

    /// The table of a run before its first entry, whose `mainEdt` has this number.
    pub fn opened(alloc: Global, main: u32, args: &[u64], limit: u64) -> Result<State, NoMemory>
        requires args { length args.now ≤ 32 }
        requires some { 2 ≤ limit }
        requires limit_fits { limit ≤ 65536 }
        ensures { IfOk result (λ table. (s : Setting) → number_of_main s.program ≡ main
            → s.args ≡ args.now → s.limit ≡ limit → IsStateOf s [] table) }
    {
        let mut table = State::new(alloc, limit)?;
        table.give(opening(alloc, main, args, limit)?);
        table.set(Guid::MAIN_EDT, 0, Guid::ARGUMENTS)?;
        Ok(table)
    }

    /// Puts parts at their numbers. A table that want of memory left without its parts stays so.
    pub fn give(&mut self, parts: Vec<(u64, Part)>)
        requires { All (λ p. p.0 ≤ self.old.limit + self.old.limit) parts.items }
        ensures limit { self.new.limit ≡ self.old.limit }
        ensures sets { self.new.sets ≡ self.old.sets }
        ensures whole { IsWholeState self.old → IsWholeState self.new }
        ensures parts { IsWholeState self.old → (n : ℕ) → part_at self.new.parts.items n
            ≡ (if has parts.items n then look parts.items n else part_at self.old.parts.items n) }
    {
        let mut parts = parts;
        while let Some((number, part)) = parts.pop() {
            set_at(&mut self.parts, number as usize, part);
        }
    }

    /// Enters an entry that may come next: an EDT that goes on is made ready, parts are changed,
    /// and a delivered payload is kept. For want of memory all parts may be lost.
    pub fn enter(&mut self, alloc: Global, entry: &Entry) -> Result<Entered, NoMemory>
        requires before { IsBeforeEntry entry.now self.old }
        requires counts { (g : ℕ) → counted_on (face_on self.old g) < 2 ^ 64 - 1 }
        ensures limit { self.new.limit ≡ self.old.limit }
        ensures table { IfOk result (λ _. (s : Setting) (past : History)
            → IsBefore s past entry.now self.old → IsStateOf s (entry.now ∷ past) self.new) }
        ensures messages { IfOk result (λ r. r.messages.items
            ≡ sends entry.now (state_in self.old)) }
        ensures resumed { IfOk result (λ r. r.resumed.items
            ≡ resumes entry.now (state_in self.old)) }
    {
        machine_laws(); // only for the proof: the equation of parts
        self.make_ready(alloc, entry)?;
        let entered = self.change(alloc, entry)?;
        self.note(alloc, entry)?;
        Ok(entered)
    }

    /// Changes the parts of an entry. For want of memory all parts are lost.
    fn change(&mut self, alloc: Global, entry: &Entry) -> Result<Entered, NoMemory>
        requires legal { IsLegalOn self.old.limit (state_in self.old) entry.now }
        requires counts { (g : ℕ) → counted_on (face_on self.old g) < 2 ^ 64 - 1 }
        requires whole { IsWholeState self.old }
        ensures limit { self.new.limit ≡ self.old.limit }
        ensures sets { self.new.sets ≡ self.old.sets }
        ensures whole { IfOk result (λ _. IsWholeState self.new) }
        ensures parts { IfOk result (λ _. state_in self.new
            ≡ changed entry.now (state_in self.old)) }
        ensures placed { IfOk result (λ _. AreAllPlaced self.old.limit self.old.parts.items
            → AreAllPlaced self.new.limit self.new.parts.items) }
        ensures messages { IfOk result (λ r. r.messages.items
            ≡ sends entry.now (state_in self.old)) }
        ensures resumed { IfOk result (λ r. r.resumed.items
            ≡ resumes entry.now (state_in self.old)) }
    {
        let parts = std::mem::replace(&mut self.parts, Vec::new(alloc));
        let stepped = step_all(alloc, self.limit, entry, parts)?;
        self.parts = stepped.parts;
        Ok(Entered {
            messages: stepped.messages,
            resumed: stepped.resumed,
        })
    }

    /// Keeps what a slot was set to, and forgets what the number of a new object had.
    fn note(&mut self, alloc: Global, entry: &Entry) -> Result<(), NoMemory>
        ensures limit { self.new.limit ≡ self.old.limit }
        ensures parts { self.new.parts ≡ self.old.parts }
        ensures sets { IfOk result (λ _. (t : ℕ) → is_within self.old.limit t ≡ true
            → sets_in self.new t ≡ set_after entry.now t (sets_in self.old t)) }
    {
        match entry {
            Entry::Deliver { message, code: _ } => self.note_delivered(message.what),
            Entry::Call {
                edt: _,
                home: _,
                call,
                answer,
                writes: _,
            } => {
                self.forget(alloc, call, answer);
                Ok(())
            }
            Entry::Acquire { .. } | Entry::Wait { .. } | Entry::StaleAcquire { .. } => Ok(()),
            Entry::Start { .. } | Entry::Free { .. } | Entry::End { .. } => Ok(()),
            Entry::Stop(_) => Ok(()),
        }
    }

    /// Forgets what the numbers of new objects had.
    fn forget(&mut self, alloc: Global, call: &Call, answer: &Answer)
        ensures limit { self.new.limit ≡ self.old.limit }
        ensures parts { self.new.parts ≡ self.old.parts }
        ensures sets { (t : ℕ) → is_within self.old.limit t ≡ true → sets_in self.new t
            ≡ (if is_new call.now answer.now t then [] else sets_in self.old t) }
    {
        if call.is_creation() && answer.code == Code::Done {
            self.set_row(answer.value, Sets::new(alloc));
            if let Call::EdtCreate { .. } = call {
                self.forget_beside(alloc, answer);
            }
        }
    }

    fn forget_beside(&mut self, alloc: Global, answer: &Answer)
        ensures limit { self.new.limit ≡ self.old.limit }
        ensures parts { self.new.parts ≡ self.old.parts }
        ensures sets { (t : ℕ) → is_within self.old.limit t ≡ true → sets_in self.new t
            ≡ (if names_new answer.now.scope t || names_new answer.now.output t then []
            else sets_in self.old t) }
    {
        // No object has the number 0, which stands for none.
        self.set_row(answer.scope.0, Sets::new(alloc));
        self.set_row(answer.output.0, Sets::new(alloc));
    }

    fn note_delivered(&mut self, message: What) -> Result<(), NoMemory>
        ensures limit { self.new.limit ≡ self.old.limit }
        ensures parts { self.new.parts ≡ self.old.parts }
        ensures sets { IfOk result (λ _. (t : ℕ) → is_within self.old.limit t ≡ true
            → sets_in self.new t ≡ set_step message t (sets_in self.old t)) }
    {
        match message {
            What::Set { edt, slot, payload } => self.set(edt, slot, payload),
            What::Satisfy { .. } | What::Leave { .. } => Ok(()),
        }
    }

    /// Keeps what a slot of an EDT was set to.
    fn set(&mut self, edt: Guid, slot: u32, payload: Guid) -> Result<(), NoMemory>
        ensures limit { self.new.limit ≡ self.old.limit }
        ensures parts { self.new.parts ≡ self.old.parts }
        ensures sets { IfOk result (λ _. (t : ℕ) → is_within self.old.limit t ≡ true
            → sets_in self.new t ≡ set_step (what.Set edt slot payload) t (sets_in self.old t)) }
    {
        if self.limit < edt.0 {
            return Ok(());
        }
        put_at(&mut self.sets, edt.0 as usize, slot, payload)
    }

    /// The slots of this number's EDT were set so.
    fn set_row(&mut self, edt: u64, row: Sets)
        ensures limit { self.new.limit ≡ self.old.limit }
        ensures parts { self.new.parts ≡ self.old.parts }
        ensures sets { (t : ℕ) → is_within self.old.limit t ≡ true
            → sets_in self.new t ≡ (if edt == t then row else sets_in self.old t) }
    {
        if edt <= self.limit {
            set_row_at(&mut self.sets, edt as usize, row);
        }
    }

    /// The code of a call of this EDT.
    pub fn decide(&self, edt: Guid, call: &Call) -> Code
        ensures { result ≡ code_of edt (face_on self.now) call.now }
    {
        code_at(edt, call, &Faces::Whole(self.limit, &self.parts))
    }

    /// The code with which an event answers a satisfaction that a message brings.
    pub fn delivery_code(&self, event: Guid, payload: Guid) -> Code
        ensures { result ≡ delivery_code (face_on self.now event) payload }
    {
        Faces::Whole(self.limit, &self.parts).delivery_code(event.0, payload)
    }

    /// Whether an event has the slot.
    pub fn is_satisfiable(&self, event: Guid, slot: u32) -> bool
        ensures { (result ≡ true) ↔ IsSatisfiable slot (face_on self.now event) }
    {
        Faces::Whole(self.limit, &self.parts).is_satisfiable(event.0, u64::from(slot))
    }

    /// Whether a finish scope takes one member more.
    pub fn is_joinable(&self, scope: Guid) -> bool
        ensures { (result ≡ true) ↔ IsJoinable (face_on self.now scope) }
    {
        Faces::Whole(self.limit, &self.parts).is_joinable(scope.0)
    }

    /// Whether a finish scope has a member.
    pub fn has_member(&self, scope: Guid) -> bool
        ensures { (result ≡ true) ↔ HasMember (face_on self.now scope) }
    {
        Faces::Whole(self.limit, &self.parts).has_member(scope.0)
    }

    /// The home of an EDT: the scope that it belongs to, NULL_GUID where there is none.
    pub fn home(&self, edt: Guid) -> Guid
        ensures { result ≡ home_on (core_on self.now edt) }
    {
        match self.core(edt) {
            Some(part) => home_of(part),
            None => Guid::NULL,
        }
    }

    /// The part at the number of an object; None where there is no such number.
    pub fn face(&self, object: u64) -> Option<&Part>
        ensures none { IfNone result (face_on self.now object ≡ part.Vacant) }
        ensures some { IfSome result (λ p. face_on self.now object ≡ as_face p.now) }
    {
        if object < 1 || self.limit < object || object >= self.parts.len() as u64 {
            return None;
        }
        Some(&self.parts[object as usize])
    }

    /// The part at the number of an EDT's core; None where there is no such number.
    pub fn core(&self, edt: Guid) -> Option<&Part>
        ensures none { IfNone result (core_on self.now edt ≡ part.Vacant) }
        ensures some { IfSome result (λ p. core_on self.now edt ≡ as_core p.now) }
    {
        if edt.0 < 1 || self.limit < edt.0 {
            return None;
        }
        let number = self.limit + edt.0;
        if number >= self.parts.len() as u64 {
            return None;
        }
        Some(&self.parts[number as usize])
    }
}
