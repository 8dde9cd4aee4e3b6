// Cores, blocks and events in boxes of their own.
ghost use Rattle.std.specs.Prelude.{◌≡◌, ◌≢◌, ◌≤◌, ◌<◌, ◌-◌, ◌^◌, [], length, Some, None, is_some, true, false, OnOk, OnErr, IfOk};
ghost use Rattle.ocr_acquire.specs.Mode.{is_null, mode_in};
ghost use Rattle.ocr_acquire.specs.declared.Mode.TheVariants.{Const, Ew};
ghost use Rattle.ocr_event_any.specs.AnyEvent as event;
ghost use Rattle.ocr_datablock.specs.Steps as block;
ghost use Rattle.ocr_edt.specs.Edt.{identity_of};
ghost use Rattle.ocr_edt.specs.Phases.{Work};
ghost use Rattle.ocr_edt.specs.declared.Edt.TheVariants as phase;
ghost use Rattle.ocr_guid.specs.Target.{on_destroy};
ghost use Rattle.ocr_machine_parts.specs.Effects.{dropped_edt, dropping_core, ended_edt, holding_core, holding_edt, started_edt};
ghost use Rattle.ocr_machine_parts.specs.Progress.{core_with, made_ready, with_phase};
ghost use Rattle.ocr_machine_parts.specs.Loans.{IsStorable, kept_in, loan_in, settled_loans, with_kept, with_loan};
ghost use Rattle.ocr_datablock.specs.Lent.{after_list_writes, after_store};

use crate::loans::Kept;
use crate::part::Core;
use ocr_acquire::Mode;
use ocr_base::NoMemory;
use ocr_datablock::{Asked, Block, Lent};
use ocr_edt::{Edt, Filling, Identity};
use ocr_event_any::AnyEvent;
use ocr_guid::target::{Linked, Satisfied, Target};
use ocr_guid::{Code, Guid};
use std::alloc::Global;
use std::boxed::Box;
use std::marker::Model;

/// A core in a box of its own, so that a part that is moved is small. Contracts see the core.
#[derive(Drop)]
pub struct BoxedCore {
    inner: Box<Core>,
}

impl Model for BoxedCore {
    ghost use Rattle.ocr_machine_parts.specs.declared.part.Core.{Core};

    ghost Value = { Core };

    ghost view = { λ b. b.inner.value };
}

impl BoxedCore {
    /// The core in a box.
    // A large value that is made here is written where it stays.
    #[inline(always)]
    pub fn new(alloc: Global, core: Core) -> Result<BoxedCore, NoMemory>
        ensures { IfOk result (λ boxed. boxed ≡ core) }
    {
        Ok(BoxedCore {
            inner: Box::new(alloc, core)?,
        })
    }

    /// The core.
    pub fn get(&self) -> &Core
        ensures { result.now ≡ self.now }
    {
        &self.inner
    }

    /// Takes the phase of its EDT out. Some other stands there until one is put.
    // So with the phase, which is large.
    #[inline(always)]
    pub fn take_edt(&mut self) -> Edt
        ensures was { result ≡ self.old.edt }
        ensures rest { self.new ≡ core_with self.old self.new.edt self.old.loans }
    {
        let none = Filling::new(Guid::NULL, Guid::NULL, Guid::NULL, false);
        std::mem::replace(&mut self.inner.edt, Edt::Filling(none))
    }

    /// Puts a phase of its EDT in the place of the one that stands there.
    #[inline(always)]
    pub fn put_edt(&mut self, edt: Edt)
        ensures { self.new ≡ core_with self.old edt self.old.loans }
    {
        self.inner.edt = edt;
    }

    /// Every slot of its EDT is set, and none of them asks for a block: the EDT runs from then on.
    pub fn start_bare(&mut self, alloc: Global)
        requires { (i : Identity) × (self.old.edt ≡ phase.Filling i) }
        ensures { self.new ≡ with_phase (λ e. started_edt (made_ready [] e)) self.old }
    {
        self.inner.edt.start_bare(alloc);
    }

    /// The body of its EDT has returned: the EDT has ended from then on. Gives what it keeps.
    pub fn end(&mut self) -> Identity
        requires { (w : Work) × (self.old.edt ≡ phase.Running w) × (w.holds ≡ []) }
        ensures state { self.new ≡ with_phase ended_edt self.old }
        ensures identity { result ≡ identity_of self.old.edt }
    {
        self.inner.edt.end()
    }

    /// What is kept with a block is put in place of what was. After an error all is as before.
    pub fn put_kept(&mut self, block: Guid, kept: Kept) -> Result<(), NoMemory>
        ensures ok { IfOk result (λ _. self.new
            ≡ core_with self.old self.old.edt (with_kept block kept self.old.loans)) }
        ensures err { OnErr result (self.new ≡ self.old) }
    {
        self.inner.loans.put(block, kept)
    }

    /// A running EDT holds a block that it made, of so many words. After an error something may be
    /// kept with the block that is not held: the core is lost then, and the run ends.
    pub fn hold(&mut self, alloc: Global, block: Guid, size: u32) -> Result<(), NoMemory>
        ensures { IfOk result (λ _. self.new ≡ holding_core block size self.old) }
    {
        self.inner.loans.put(block, Kept { size, loan: None })?;
        hold(alloc, &mut self.inner.edt, block)
    }

    /// A running EDT holds the block no longer; gives what was kept with it.
    pub fn drop_hold(&mut self, block: Guid) -> Option<Kept>
        ensures kept { result ≡ kept_in block self.old.loans }
        ensures left { self.new ≡ dropping_core block self.old }
    {
        let kept = self.inner.loans.take(block);
        drop_hold(&mut self.inner.edt, block);
        kept
    }

    /// Stores a word in the loan that is kept with a block. After an error all is as before.
    pub fn store(
        &mut self,
        alloc: Global,
        block: Guid,
        word: u32,
        value: u64,
    ) -> Result<(), NoMemory>
        requires { IsStorable (loan_in (kept_in block self.old.loans)) word }
        ensures ok { OnOk result (self.new ≡ core_with self.old self.old.edt
            (with_loan block (λ loan. after_store loan word value) self.old.loans)) }
        ensures err { OnErr result (self.new ≡ self.old) }
    {
        self.inner.loans.store(alloc, block, word, value)
    }

    /// Lists the words that were stored in the loan that is kept with a block, where there is one.
    pub fn list_writes(&mut self, block: Guid)
        ensures { self.new ≡ core_with self.old self.old.edt
            (with_loan block after_list_writes self.old.loans) }
    {
        self.inner.loans.list_writes(block);
    }

    /// Forgets what was stored in the loans.
    pub fn settle(&mut self)
        ensures { self.new ≡ core_with self.old self.old.edt (settled_loans self.old.loans) }
    {
        self.inner.loans.settle();
    }
}

fn hold(alloc: Global, edt: &mut Edt, block: Guid) -> Result<(), NoMemory>
    ensures { IfOk result (λ _. edt.new ≡ holding_edt block edt.old) }
{
    if let Edt::Running(running) = edt {
        running.hold(alloc, block)?;
    }
    Ok(())
}

fn drop_hold(edt: &mut Edt, block: Guid)
    ensures { edt.new ≡ dropped_edt block edt.old }
{
    if let Edt::Running(running) = edt {
        running.drop_hold(block);
    }
}

/// A block in a box of its own, so that a part that is moved is small. Contracts see the block.
#[derive(Drop)]
pub struct BoxedBlock {
    inner: Box<Block>,
}

impl Model for BoxedBlock {
    ghost use Rattle.ocr_datablock.specs.Block.{State};

    ghost Value = { State };

    ghost view = { λ b. b.inner.value };
}

// What a block changes by is told at `Block`.
impl BoxedBlock {
    /// The block in a box.
    pub fn new(alloc: Global, block: Block) -> Result<BoxedBlock, NoMemory>
        ensures { IfOk result (λ boxed. boxed ≡ block) }
    {
        Ok(BoxedBlock {
            inner: Box::new(alloc, block)?,
        })
    }

    /// The block.
    pub fn get(&self) -> &Block
        ensures { result.now ≡ self.now }
    {
        &self.inner
    }

    /// Lets an EDT hold the block, or wait for it. After an error the block is as before.
    pub fn ask(&mut self, alloc: Global, edt: Guid, mode: Mode) -> Result<Asked, NoMemory>
        requires no_holder { mode_in edt self.old.holders ≡ None }
        requires not_waiting { mode_in edt self.old.queue ≡ None }
        requires some_mode { is_null mode ≡ false }
        ensures answer { IfOk result (λ answer. answer ≡ block.on_ask self.old mode) }
        ensures state { IfOk result (λ _. self.new ≡ block.after_ask self.old edt mode) }
        ensures err { OnErr result (self.new ≡ self.old) }
    {
        self.inner.ask(alloc, edt, mode)
    }

    /// Ends a hold. Answers who goes on by that. After an error the block is as before.
    pub fn release(&mut self, alloc: Global, edt: Guid) -> Result<Vec<Guid>, NoMemory>
        requires holder { is_some (mode_in edt self.old.holders) ≡ true }
        requires nothing_lent { self.old.borrower ≢ Some edt }
        ensures answer { IfOk result (λ resumed. resumed.items ≡ block.on_release self.old edt) }
        ensures state { IfOk result (λ _. self.new ≡ block.after_release self.old edt) }
        ensures err { OnErr result (self.new ≡ self.old) }
    {
        self.inner.release(alloc, edt)
    }

    /// Destroys the block, and ends the hold of this EDT, if it has one. Answers who goes on by
    /// that. After an error the block is as before.
    pub fn doom(&mut self, alloc: Global, edt: Guid) -> Result<Vec<Guid>, NoMemory>
        requires not_destroyed { self.old.destroyed ≡ false }
        requires nothing_lent { self.old.borrower ≢ Some edt }
        ensures answer { IfOk result (λ resumed. resumed.items ≡ block.on_doom self.old edt) }
        ensures state { IfOk result (λ _. self.new ≡ block.after_doom self.old edt) }
        ensures err { OnErr result (self.new ≡ self.old) }
    {
        self.inner.doom(alloc, edt)
    }

    /// Sets a word of the block.
    pub fn store(&mut self, word: u32, value: u64)
        requires exists { word < self.old.size }
        requires nothing_lent { self.old.borrower ≡ None }
        ensures { self.new ≡ block.after_store self.old word value }
    {
        self.inner.store(word, value);
    }

    /// Lends the words themselves to an EDT that holds the block in `Ew`.
    pub fn lend(&mut self, edt: Guid) -> Lent
        requires writer { mode_in edt self.old.holders ≡ Some Ew }
        requires nothing_lent { self.old.borrower ≡ None }
        ensures loan { result ≡ block.loan_from self.old Ew }
        ensures state { self.new ≡ block.after_lend self.old edt }
    {
        self.inner.lend(edt)
    }

    /// Lends a copy of the words to an EDT that holds the block in `Const`.
    pub fn lend_const(&mut self, alloc: Global, edt: Guid) -> Result<Lent, NoMemory>
        requires reader { mode_in edt self.old.holders ≡ Some Const }
        requires nothing_lent { self.old.borrower ≡ None }
        ensures loan { IfOk result (λ loan. loan ≡ block.loan_from self.old Const) }
        ensures state { self.new ≡ self.old }
    {
        self.inner.lend_const(alloc, edt)
    }

    /// Takes a loan back, with these writes in place of those that it keeps.
    pub fn take_back_with(&mut self, edt: Guid, lent: Lent, writes: &[(u32, u64)])
        requires lent_to { lent.mode ≡ Ew → self.old.borrower ≡ Some edt }
        requires same_size { lent.mode ≡ Ew → length lent.began ≡ self.old.size }
        ensures { self.new ≡ block.after_take_back_with self.old lent writes.now }
    {
        self.inner.take_back_with(edt, lent, writes);
    }
}

/// An event in a box of its own, so that a part that is moved is small. Contracts see the event.
#[derive(Drop)]
pub struct BoxedEvent {
    inner: Box<AnyEvent>,
}

impl Model for BoxedEvent {
    ghost use Rattle.ocr_event_any.specs.declared.AnyEvent.{AnyEvent};

    ghost Value = { AnyEvent };

    ghost view = { λ b. b.inner.value };
}

// What an event changes by is told at `AnyEvent`.
impl BoxedEvent {
    /// The event in a box.
    pub fn new(alloc: Global, event: AnyEvent) -> Result<BoxedEvent, NoMemory>
        ensures { IfOk result (λ boxed. boxed ≡ event) }
    {
        Ok(BoxedEvent {
            inner: Box::new(alloc, event)?,
        })
    }

    /// The event.
    pub fn get(&self) -> &AnyEvent
        ensures { result.now ≡ self.now }
    {
        &self.inner
    }

    /// Satisfies the event on this slot. After an error it is as before.
    pub fn satisfy(
        &mut self,
        alloc: Global,
        slot: u32,
        payload: Guid,
    ) -> Result<Satisfied, NoMemory>
        requires slot { slot ≤ 1 }
        requires count { event.counted self.old < 2 ^ 64 - 1 }
        ensures answer { IfOk result (λ r. r ≡ event.on_satisfy self.old slot payload) }
        ensures state { IfOk result (λ _. self.new ≡ event.after_satisfy self.old slot payload) }
        ensures err { OnErr result (self.new ≡ self.old) }
    {
        self.inner.satisfy(alloc, slot, payload)
    }

    /// Links a target to the event. After an error it is as before.
    pub fn link(&mut self, alloc: Global, target: Target) -> Result<Linked, NoMemory>
        ensures answer { IfOk result (λ r. r ≡ event.on_link self.old) }
        ensures state { IfOk result (λ _. self.new ≡ event.after_link self.old target) }
        ensures err { OnErr result (self.new ≡ self.old) }
    {
        self.inner.link(alloc, target)
    }

    /// Destroys the event: what waits gets nothing. A destroyed event is Stale.
    pub fn destroy(&mut self) -> Code
        ensures answer { result ≡ on_destroy (event.is_destroyed self.old) }
        ensures state { self.new ≡ event.after_destroy self.old }
    {
        self.inner.destroy()
    }
}
