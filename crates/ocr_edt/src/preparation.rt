//! The phases before an EDT starts.
ghost use Rattle.std.specs.Prelude.{◌≡◌, ◌<◌, IsSome, Some, None, length, true};
ghost use Rattle.ocr_acquire.specs.Plan.{IsWellFormed};
ghost use Rattle.ocr_edt.specs.Phases.{next_of};
ghost use Rattle.ocr_edt.specs.Steps.{after_ready, after_acquired, after_start, marked_at};

use crate::Identity;
use crate::execution::Running;
use ocr_acquire::{Mode, Plan};
use ocr_guid::Guid;
use std::marker::Model;

/// An EDT whose slots are being filled.
#[derive(Drop)]
pub struct Filling {
    identity: Identity,
}

impl Model for Filling {
    ghost use Rattle.ocr_edt.specs.declared.Identity.{Identity};

    ghost Value = { Identity };

    ghost view = { λ f. f.identity };
}

impl Filling {
    /// An EDT whose home is this scope, or that has none, with this output event, or with none. The
    /// home of a finish EDT is its own scope.
    pub fn new(edt: Guid, scope: Guid, output: Guid, finish: bool) -> Filling
        ensures { result ≡ record { edt = edt; scope = scope; output = output; finish = finish } }
    {
        let identity = Identity {
            edt,
            scope,
            output,
            finish,
        };
        Filling { identity }
    }

    /// What the EDT keeps through all its phases.
    pub fn identity(&self) -> Identity
        ensures { result ≡ self.now }
    {
        self.identity
    }

    /// Every slot is set: the EDT goes on to acquire the blocks of its plan.
    pub fn ready(self, plan: Plan) -> Acquiring
        requires { IsWellFormed plan.items }
        ensures { result ≡ after_ready self plan.items }
    {
        let Filling { identity } = self;
        Acquiring {
            identity,
            entries: plan,
            done: 0,
        }
    }
}

/// An EDT that acquires the blocks of its plan one by one.
#[derive(Drop)]
pub struct Acquiring {
    identity: Identity,
    // the plan, where a block that was found stale has the mode `Null`
    entries: Plan,
    done: usize,
}

impl Model for Acquiring {
    ghost use Rattle.ocr_edt.specs.Phases.{Progress};
    ghost use Rattle.ocr_edt.specs.Steps.{progress_in, IsUnderWay};

    ghost Value = { Progress };

    ghost view = { λ a. progress_in a.identity a.entries.items a.done };

    ghost invariant = { λ a. IsUnderWay a.entries.items a.done };
}

impl Acquiring {
    /// What the EDT keeps through all its phases.
    pub fn identity(&self) -> Identity
        ensures { result ≡ self.now.identity }
    {
        self.identity
    }

    /// The first block of the plan that is neither acquired nor found stale.
    pub fn next(&self) -> Option<(Guid, Mode)>
        ensures { result ≡ next_of self.now }
    {
        let entries = self.entries.as_slice();
        if self.done == entries.len() {
            return None;
        }
        Some(entries[self.done])
    }

    /// The next block was acquired, or it was found stale.
    pub fn acquired(self, stale: bool) -> Acquiring
        requires { IsSome (next_of self) }
        ensures { result ≡ after_acquired self stale }
    {
        let Acquiring {
            identity,
            entries,
            done,
        } = self;
        Acquiring {
            identity,
            entries: marked(entries, done, stale),
            done: done + 1,
        }
    }

    /// The next block can't be acquired yet: the EDT waits for it.
    pub fn wait(self) -> Waiting
        requires { IsSome (next_of self) }
        ensures { result ≡ self }
    {
        Waiting { acquiring: self }
    }

    /// The whole plan is done: the EDT runs, and holds what was acquired.
    pub fn start(self) -> Running
        requires { next_of self ≡ None }
        ensures { result ≡ after_start self }
    {
        let Acquiring {
            identity,
            entries,
            done: _,
        } = self;
        Running::begin(identity, entries)
    }
}

/// The entries, where the one at this place has the mode `Null` if it was found stale.
fn marked(mut entries: Plan, place: usize, stale: bool) -> Plan
    requires { place < length entries.items }
    ensures { result.items ≡ marked_at entries.items place stale }
{
    if stale {
        mark_stale(entries.as_mut_slice(), place);
    }
    entries
}

fn mark_stale(entries: &mut [(Guid, Mode)], place: usize)
    requires { place < length entries.old }
    ensures { entries.new ≡ marked_at entries.old place true }
{
    let entry = &mut entries[place];
    entry.1 = Mode::Null;
}

/// An EDT that waits in the queue of its next block.
#[derive(Drop)]
pub struct Waiting {
    acquiring: Acquiring,
}

impl Model for Waiting {
    ghost use Rattle.std.specs.Prelude.{IsSome};
    ghost use Rattle.ocr_edt.specs.Phases.{Progress, next_of};

    ghost Value = { Progress };

    ghost view = { λ w. w.acquiring };

    ghost invariant = { λ w. IsSome (next_of w.acquiring) };
}

impl Waiting {
    /// What the EDT keeps through all its phases.
    pub fn identity(&self) -> Identity
        ensures { result ≡ self.now.identity }
    {
        self.acquiring.identity()
    }

    /// The block that it waits for, and the mode in which it wants it.
    pub fn next(&self) -> (Guid, Mode)
        ensures { Some result ≡ next_of self.now }
    {
        match self.acquiring.next() {
            Some(awaited) => awaited,
            None => unreachable!(),
        }
    }

    /// The queue let the EDT go on: its next block is the one that it waited for.
    pub fn resumed(self) -> Acquiring
        ensures state { result ≡ self }
        ensures next { IsSome (next_of result) }
    {
        let Waiting { acquiring } = self;
        acquiring
    }
}
