// The desk at which the body of a running EDT makes its calls.
ghost use Rattle.std.specs.Prelude.{◌≡◌, false, ◌-◌, ◌+◌, ◌^◌, min, IfOk, OnOk, OnErr};
ghost use Rattle.ocr_body_steps.specs.Api.{IsAccessed, IsNextWhereEntered};
ghost use Rattle.ocr_body_meaning.specs.Behaviour.{IsNextWith};
ghost use Rattle.ocr_body_meaning.specs.Body.{Body, says};
ghost use Rattle.ocr_body_meaning.specs.Call.{is_access};
ghost use Rattle.ocr_body_meaning.specs.Holds.{Refused, after_store, load_of, private_of, store_of};
ghost use Rattle.ocr_body_meaning.specs.declared.call.BodyStop.{BodyStop};
ghost use Rattle.ocr_worker_clerk.specs.Work.{AtWork, IsGone, Stays};
ghost use Rattle.ocr_worker_access.specs.Accesses.{IfFault, OnGoing, OnOver};
ghost use Rattle.ocr_worker_clerk.specs.Push.{IsPushed, PushesReady, ReadiesNone};
ghost use Rattle.ocr_worker_access.specs.Access.{IsCalled, Runs, holds_at};
ghost use Rattle.ocr_worker_access.specs.Served.{own_log};
ghost use Rattle.ocr_worker_body.specs.Given.{body_given};

use crate::given::Inputs;
use ocr_body_meaning::{Answer, BodyStop, Call};
use ocr_body_steps::Api;
use ocr_guid::Guid;
use ocr_steal::Hand;
use ocr_turns::Clerk;
use ocr_worker_access::{Refusal, load, store};
use ocr_worker_calls::make_call;
use ocr_worker_clerk::{Gate, Job, Ocr, Over};
use std::alloc::Global;
use std::snapshot::Snapshot;
use std::sync::Wait;

/// A worker that runs the body of an EDT: the end of the run, once a call found it, and how often
/// it was found. For proofs alone the hand as it was at the start of the body, and the clerk before
/// the call that found the end.
pub(crate) struct Desk<'a, 'j, R: Wait, G: Gate> {
    pub alloc: Global,
    pub job: &'a Job<'j, R, G>,
    pub worker: u32,
    pub clerk: &'a mut Clerk<Ocr>,
    pub hand: &'a mut Hand,
    pub edt: Guid,
    pub given: &'a Inputs,
    pub pushed: Snapshot<Hand>,
    pub last: Snapshot<Clerk<Ocr>>,
    pub over: Option<Over>,
    pub closings: u64,
}

// Once the run has ended, the EDT holds nothing more, and its log stays as it was.
impl<'a, 'j, R: Wait, G: Gate> Api for Desk<'a, 'j, R, G> {
    ghost use Rattle.ocr_worker_clerk.specs.Work.{Stays};
    ghost use Rattle.ocr_worker_clerk.specs.Push.{IsPushed};
    ghost use Rattle.ocr_worker_access.specs.Served.{own_log};
    ghost use Rattle.ocr_worker_body.specs.Given.{body_given};
    ghost use Rattle.ocr_worker_body.specs.Body.{IsReady, PushesSince, holds_while, state_in};

    type Kept = (
        &'a Job<'j, R, G>,
        u32,
        &'a mut Clerk<Ocr>,
        &'a mut Hand,
        Guid,
    );

    ghost serves = { λ d. body_given d.job.now.program.now d.given.now };

    ghost log = { λ d. own_log (state_in d.over d.clerk.now d.last.value).view.log d.edt };

    ghost holds = { λ d. holds_while d.over d.clerk.now };

    ghost is_ready = { λ d. IsReady d.over d.job.now.turns.now d.job.now.program.now d.worker d.edt
        (body_given d.job.now.program.now d.given.now) d.clerk.now d.closings
        × Stays d.given.now.begun.value d.clerk.now × IsPushed d.pushed.value d.hand.now
        × PushesSince d.over d.given.now.begun.value d.clerk.now d.pushed.value d.hand.now };

    ghost kept = { λ d. (
      d.job,
      d.worker,
      record d.clerk { now = d.given.now.begun.value },
      record d.hand { now = d.pushed.value },
      d.edt,
    ) };

    ghost closed = { λ d. d.closings };

    fn call(&mut self, call: &Call) -> Result<Answer, BodyStop> {
        if self.over.is_some() {
            self.closings = raised(self.closings);
            return Err(BodyStop::Closed);
        }
        let before = Snapshot::of(&*self.clerk);
        match answer(
            self.alloc,
            self.job,
            self.worker,
            self.clerk,
            self.hand,
            self.edt,
            self.given,
            call,
        ) {
            Ok(answer) => Ok(answer),
            Err(over) => {
                self.last = before;
                self.over = Some(over);
                self.closings = raised(self.closings);
                Err(BodyStop::Closed)
            }
        }
    }

    fn load(&mut self, block: Guid, word: u64) -> Result<u64, BodyStop> {
        if self.over.is_some() {
            return Err(BodyStop::NotHeld);
        }
        let before = Snapshot::of(&*self.clerk);
        match load_word(
            self.alloc,
            self.job,
            self.worker,
            self.clerk,
            self.edt,
            self.given,
            block,
            word,
        ) {
            Ok(value) => Ok(value),
            Err(Refusal::Fault(stop)) => Err(stop),
            Err(Refusal::Over(over)) => {
                self.last = before;
                self.over = Some(over);
                self.closings = raised(self.closings);
                Err(BodyStop::Closed)
            }
        }
    }

    fn store(&mut self, block: Guid, word: u64, value: u64) -> Result<(), BodyStop> {
        if self.over.is_some() {
            return Err(BodyStop::NotHeld);
        }
        let before = Snapshot::of(&*self.clerk);
        match store_word(
            self.alloc,
            self.job,
            self.worker,
            self.clerk,
            self.edt,
            self.given,
            block,
            word,
            value,
        ) {
            Ok(()) => Ok(()),
            Err(Refusal::Fault(stop)) => Err(stop),
            Err(Refusal::Over(over)) => {
                self.last = before;
                self.over = Some(over);
                self.closings = raised(self.closings);
                Err(BodyStop::Closed)
            }
        }
    }

    fn closings(&self) -> u64 {
        self.closings
    }
}

// Makes a call of the body that is given this.
fn answer<R: Wait, G: Gate>(
    alloc: Global,
    job: &Job<R, G>,
    worker: u32,
    clerk: &mut Clerk<Ocr>,
    hand: &mut Hand,
    edt: Guid,
    _given: &Inputs,
    call: &Call,
) -> Result<Answer, Over>
    ghost b: { Body }
    requires body { b ≡ body_given job.now.program.now _given.now }
    requires work { AtWork job.now.turns.now job.now.program.now clerk.old }
    requires runs { Runs job.now.turns.now.1 edt b clerk.old }
    requires plain { is_access call.now ≡ false }
    requires next { IsNextWith call.now (private_of call.now (holds_at clerk.old))
        (says b (own_log clerk.old.view.log edt)) }
    ensures stays { Stays clerk.old clerk.new }
    ensures work { OnOk result (AtWork job.now.turns.now job.now.program.now clerk.new) }
    ensures runs { OnOk result (Runs job.now.turns.now.1 edt b clerk.new) }
    ensures called { IfOk result (λ a. IsCalled edt call.now a clerk.old clerk.new) }
    ensures hand { IsPushed hand.old hand.new }
    ensures pushed { OnOk result (PushesReady clerk.old clerk.new hand.old hand.new) }
    ensures gone { OnErr result (IsGone job.now.turns.now worker clerk.new) }
{
    make_call(alloc, job, worker, clerk, hand, edt, call)
}

// Loads a word for the body that is given this.
fn load_word<R: Wait, G: Gate>(
    alloc: Global,
    job: &Job<R, G>,
    worker: u32,
    clerk: &mut Clerk<Ocr>,
    edt: Guid,
    _given: &Inputs,
    block: Guid,
    word: u64,
) -> Result<u64, Refusal>
    ghost b: { Body }
    requires body { b ≡ body_given job.now.program.now _given.now }
    requires work { AtWork job.now.turns.now job.now.program.now clerk.old }
    requires runs { Runs job.now.turns.now.1 edt b clerk.old }
    requires next { IsNextWhereEntered (load_of (holds_at clerk.old block) word)
        (Call.Load block word) (says b (own_log clerk.old.view.log edt)) }
    ensures stays { Stays clerk.old clerk.new }
    ensures readied { OnGoing result (ReadiesNone clerk.old clerk.new) }
    ensures work { OnGoing result (AtWork job.now.turns.now job.now.program.now clerk.new) }
    ensures runs { OnGoing result (Runs job.now.turns.now.1 edt b clerk.new) }
    ensures ok { IfOk result (λ v. IsAccessed (load_of (holds_at clerk.old block) word)
        (Call.Load block word) v (own_log clerk.old.view.log edt)
        (own_log clerk.new.view.log edt)) }
    ensures holds { OnOk result (holds_at clerk.new ≡ holds_at clerk.old) }
    ensures fault { IfFault result (λ stop. (clerk.new ≡ clerk.old)
        × (load_of (holds_at clerk.old block) word ≡ Refused stop)) }
    ensures over { OnOver result (IsGone job.now.turns.now worker clerk.new) }
    ensures fit { OnOver result ((s : BodyStop)
        → load_of (holds_at clerk.old block) word ≡ Refused s → ⊥) }
{
    load(alloc, job, worker, clerk, edt, block, word)
}

// Stores a value in a word for the body that is given this.
fn store_word<R: Wait, G: Gate>(
    alloc: Global,
    job: &Job<R, G>,
    worker: u32,
    clerk: &mut Clerk<Ocr>,
    edt: Guid,
    _given: &Inputs,
    block: Guid,
    word: u64,
    value: u64,
) -> Result<(), Refusal>
    ghost b: { Body }
    requires body { b ≡ body_given job.now.program.now _given.now }
    requires work { AtWork job.now.turns.now job.now.program.now clerk.old }
    requires runs { Runs job.now.turns.now.1 edt b clerk.old }
    requires next { IsNextWhereEntered (store_of (holds_at clerk.old block) word)
        (Call.Store block word value) (says b (own_log clerk.old.view.log edt)) }
    ensures stays { Stays clerk.old clerk.new }
    ensures readied { OnGoing result (ReadiesNone clerk.old clerk.new) }
    ensures work { OnGoing result (AtWork job.now.turns.now job.now.program.now clerk.new) }
    ensures runs { OnGoing result (Runs job.now.turns.now.1 edt b clerk.new) }
    ensures ok { OnOk result (IsAccessed (store_of (holds_at clerk.old block) word)
        (Call.Store block word value) 0 (own_log clerk.old.view.log edt)
        (own_log clerk.new.view.log edt)) }
    ensures holds { OnOk result (holds_at clerk.new
        ≡ after_store (store_of (holds_at clerk.old block) word) block word value
        (holds_at clerk.old)) }
    ensures fault { IfFault result (λ stop. (clerk.new ≡ clerk.old)
        × (store_of (holds_at clerk.old block) word ≡ Refused stop)) }
    ensures over { OnOver result (IsGone job.now.turns.now worker clerk.new) }
    ensures fit { OnOver result ((s : BodyStop)
        → store_of (holds_at clerk.old block) word ≡ Refused s → ⊥) }
{
    store(alloc, job, worker, clerk, edt, block, word, value)
}

// One more, up to the last number.
fn raised(count: u64) -> u64
    ensures { result ≡ min (count + 1) (2 ^ 64 - 1) }
{
    if count == u64::MAX {
        return count;
    }
    count + 1
}
