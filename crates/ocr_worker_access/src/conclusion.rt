// What follows an entry of a running EDT: the EDT that it made is counted, and those that it
// resumed are made ready.
ghost use Rattle.std.specs.Prelude.{◌≡◌, ◌∷◌, [], List, ℕ, OnOk, OnErr};
ghost use Rattle.ocr_body_meaning.specs.Body.{Body};
ghost use Rattle.ocr_worker_clerk.specs.Push.{IsPushed, PushesReady};
ghost use Rattle.ocr_worker_clerk.specs.Work.{AtWork, IsGone, Stays};
ghost use Rattle.ocr_turns_rule.specs.Debts.{listed};
ghost use Rattle.ocr_worker_access.specs.Access.{AreOthers, HasEntered, Runs, first_in, holds_at};

use ocr_count::{Down, count_made, resume};
use ocr_guid::Guid;
use ocr_steal::Hand;
use ocr_turns::Clerk;
use ocr_worker_clerk::{Gate, Job, Ocr, Over, give_faces, push_ready};
use std::alloc::Global;
use std::sync::Wait;

/// Makes the EDTs ready that the clerk's entry resumed, and pushes them.
pub(crate) fn resume_all<R: Wait, G: Gate>(
    alloc: Global,
    job: &Job<R, G>,
    worker: u32,
    clerk: &mut Clerk<Ocr>,
    hand: &mut Hand,
    edt: Guid,
    resumed: &[Guid],
) -> Result<(), Over>
    ghost s: { Body × List ℕ }
    requires work { AtWork job.now.turns.now job.now.program.now clerk.old }
    requires entered { HasEntered job.now.turns.now.1 edt s.0 clerk.old s.1 [] resumed.now }
    ensures stays { Stays clerk.old clerk.new }
    ensures work { OnOk result (AtWork job.now.turns.now job.now.program.now clerk.new) }
    ensures entered { OnOk result (HasEntered job.now.turns.now.1 edt s.0 clerk.new s.1 [] []) }
    ensures log { OnOk result (clerk.new.view.log ≡ clerk.old.view.log) }
    ensures parts { OnOk result (clerk.new.parts ≡ clerk.old.parts) }
    ensures hand { IsPushed hand.old hand.new }
    ensures pushed { OnOk result (PushesReady clerk.old clerk.new hand.old hand.new) }
    ensures gone { OnErr result (IsGone job.now.turns.now worker clerk.new) }
{
    for woken in resumed {
        resume(job.turns, clerk, *woken);
        push_ready(alloc, job, worker, clerk, hand, *woken)?;
    }
    Ok(())
}

/// Counts the making of the EDT that the clerk's entry made with so many slots, and pushes it where
/// nothing is left to be counted.
#[inline(always)]
pub(crate) fn count_new<R: Wait, G: Gate>(
    alloc: Global,
    job: &Job<R, G>,
    worker: u32,
    clerk: &mut Clerk<Ocr>,
    hand: &mut Hand,
    edt: Guid,
    new: Guid,
    slots: u32,
) -> Result<(), Over>
    ghost s: { Body × (List ℕ × List ℕ) }
    requires work { AtWork job.now.turns.now job.now.program.now clerk.old }
    requires entered { HasEntered job.now.turns.now.1 edt s.0 clerk.old s.1.0
        ((new, slots) ∷ []) s.1.1 }
    ensures stays { Stays clerk.old clerk.new }
    ensures work { OnOk result (AtWork job.now.turns.now job.now.program.now clerk.new) }
    ensures entered { OnOk result (HasEntered job.now.turns.now.1 edt s.0 clerk.new s.1.0 []
        s.1.1) }
    ensures log { OnOk result (clerk.new.view.log ≡ clerk.old.view.log) }
    ensures parts { OnOk result (clerk.new.parts ≡ clerk.old.parts) }
    ensures hand { IsPushed hand.old hand.new }
    ensures pushed { OnOk result (PushesReady clerk.old clerk.new hand.old hand.new) }
    ensures gone { OnErr result (IsGone job.now.turns.now worker clerk.new) }
{
    match count_made(job.turns, clerk, new, slots) {
        Down::More(_) => Ok(()),
        Down::Last => push_ready(alloc, job, worker, clerk, hand, new),
    }
}

// Counts the making of what the clerk's entry made, if it is an EDT.
#[inline(always)]
fn count_any<R: Wait, G: Gate>(
    alloc: Global,
    job: &Job<R, G>,
    worker: u32,
    clerk: &mut Clerk<Ocr>,
    hand: &mut Hand,
    edt: Guid,
    made: Option<(Guid, u32)>,
) -> Result<(), Over>
    ghost s: { Body × (List ℕ × List ℕ) }
    requires work { AtWork job.now.turns.now job.now.program.now clerk.old }
    requires entered { HasEntered job.now.turns.now.1 edt s.0 clerk.old s.1.0 (listed made) s.1.1 }
    ensures stays { Stays clerk.old clerk.new }
    ensures work { OnOk result (AtWork job.now.turns.now job.now.program.now clerk.new) }
    ensures entered { OnOk result (HasEntered job.now.turns.now.1 edt s.0 clerk.new s.1.0 []
        s.1.1) }
    ensures log { OnOk result (clerk.new.view.log ≡ clerk.old.view.log) }
    ensures parts { OnOk result (clerk.new.parts ≡ clerk.old.parts) }
    ensures hand { IsPushed hand.old hand.new }
    ensures pushed { OnOk result (PushesReady clerk.old clerk.new hand.old hand.new) }
    ensures gone { OnErr result (IsGone job.now.turns.now worker clerk.new) }
{
    match made {
        None => Ok(()),
        Some(one) => count_new(alloc, job, worker, clerk, hand, edt, one.0, one.1),
    }
}

/// Concludes an entry of a running EDT: what it made is counted, those that it resumed are made
/// ready, and all parts but the core are given back.
#[inline(always)]
pub fn conclude<R: Wait, G: Gate>(
    alloc: Global,
    job: &Job<R, G>,
    worker: u32,
    clerk: &mut Clerk<Ocr>,
    hand: &mut Hand,
    edt: Guid,
    made: Option<(Guid, u32)>,
    resumed: &[Guid],
    others: &[u64],
) -> Result<(), Over>
    ghost s: { Body × (List ℕ × List ℕ) }
    requires lists { (s.1.0 ≡ others.now) × (s.1.1 ≡ resumed.now) }
    requires work { AtWork job.now.turns.now job.now.program.now clerk.old }
    requires entered { HasEntered job.now.turns.now.1 edt s.0 clerk.old others.now (listed made)
        resumed.now }
    requires others { AreOthers job.now.turns.now.1 edt others.now }
    ensures stays { Stays clerk.old clerk.new }
    ensures work { OnOk result (AtWork job.now.turns.now job.now.program.now clerk.new) }
    ensures runs { OnOk result (Runs job.now.turns.now.1 edt s.0 clerk.new) }
    ensures log { OnOk result (clerk.new.view.log ≡ clerk.old.view.log) }
    ensures holds { OnOk result (holds_at clerk.new ≡ holds_at clerk.old) }
    ensures core { OnOk result (first_in clerk.new.parts ≡ first_in clerk.old.parts) }
    ensures hand { IsPushed hand.old hand.new }
    ensures pushed { OnOk result (PushesReady clerk.old clerk.new hand.old hand.new) }
    ensures gone { OnErr result (IsGone job.now.turns.now worker clerk.new) }
{
    count_any(alloc, job, worker, clerk, hand, edt, made)?;
    resume_all(alloc, job, worker, clerk, hand, edt, resumed)?;
    give_faces(job.turns, job.program, clerk, edt, others);
    Ok(())
}
