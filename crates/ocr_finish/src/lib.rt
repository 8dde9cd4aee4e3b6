//! Finish scopes.
#![tactic(auto)]

ghost use Rattle.std.specs.Prelude.{◌≡◌, ◌<◌, [], ◌↔◌};
ghost use Rattle.ocr_finish.specs.Scope.{state_of, after_join, after_leave, on_leave, JoinLaw, LeaveLaw, MembersLaw};

use ocr_guid::Guid;
use std::marker::Model;

/// How many members a scope has at most.
pub const MOST_MEMBERS: u32 = 65_536;

/// What a scope answers to a member that leaves.
#[derive(Clone, Copy, PartialEq, Eq, Debug)]
pub enum Leaving {
    /// A member is left.
    Alive,
    /// It was the last.
    Done,
}

/// The scope of a finish EDT. Its members are the EDT itself, each EDT that a member makes, and for
/// a finish EDT among these its scope in its place. The scope counts those that have joined and
/// have not left.
#[derive(Clone, PartialEq, Eq, Debug, Drop)]
pub struct Scope {
    outer: Guid,
    event: Guid,
    members: u32,
}

// Contracts see a scope as its three fields.
impl Model for Scope {
    ghost use Rattle.ocr_finish.specs.Scope.{State};

    ghost Value = { State };

    ghost view = { λ s. record { outer = s.outer; event = s.event; members = s.members } };

    ghost inverse = { λ s. record { outer = s.outer; event = s.event; members = s.members } };
}

impl Scope {
    /// The scope of a new finish EDT, its one member so far. When it is done it leaves the scope
    /// `outer`, and it satisfies `event`; each is NULL_GUID where there is none.
    pub fn new(outer: Guid, event: Guid) -> Scope
        ensures { result ≡ state_of outer event [] }
    {
        Scope {
            outer,
            event,
            members: 1,
        }
    }

    /// The scope of which this one is a member.
    pub fn outer(&self) -> Guid
        ensures { result ≡ self.now.outer }
    {
        self.outer
    }

    /// The output event of the finish EDT.
    pub fn event(&self) -> Guid
        ensures { result ≡ self.now.event }
    {
        self.event
    }

    /// How many members it has: as many as have joined and have not left.
    pub fn members(&self) -> u32
        ensures { result ≡ self.now.members }
    {
        self.members
    }

    /// One member more. A scope that is done takes none.
    pub fn join(&mut self)
        requires alive { 0 < self.old.members }
        requires room { self.old.members < MOST_MEMBERS }
        ensures { self.new ≡ after_join self.old }
    {
        self.members += 1;
    }

    /// A member leaves. The answer is Done exactly where it was the last.
    pub fn leave(&mut self) -> Leaving
        requires { 0 < self.old.members }
        ensures answer { result ≡ on_leave self.old }
        ensures state { self.new ≡ after_leave self.old }
        ensures done { (result ≡ Leaving.Done) ↔ (self.new.members ≡ 0) }
    {
        self.members -= 1;
        if self.members == 0 {
            Leaving::Done
        } else {
            Leaving::Alive
        }
    }
}

/// The state of a scope is told by the list of the calls that it accepted.
#[tactic(auto, using(crate::proofs::Laws::join_law, crate::proofs::Laws::leave_law, crate::proofs::Laws::members_law))]
pub fn scope_laws()
    ensures join { JoinLaw }
    ensures leave { LeaveLaw }
    ensures members { MembersLaw }
{}
