// An EDT whose body has returned gives back what it holds, and ends.
ghost use Rattle.std.specs.Prelude.{◌≡◌, ◌∷◌, [], ℕ, Some, IfOk, OnOk, OnErr};
ghost use Rattle.ocr_edt.specs.Phases.{least_of, without};
ghost use Rattle.ocr_datablock.specs.Lent.{after_list_writes};
ghost use Rattle.ocr_body_meaning.specs.Body.{Body};
ghost use Rattle.ocr_body_meaning.specs.Holds.{private_in};
ghost use Rattle.ocr_machine_history.specs.declared.entry.Entry.TheVariants as an;
ghost use Rattle.ocr_machine_parts.specs.declared.part.Core.{Core};
ghost use Rattle.ocr_machine_parts.specs.Taken.{is_within};
ghost use Rattle.ocr_machine_parts.specs.Progress.{core_after};
ghost use Rattle.ocr_worker_clerk.specs.Entry.{OcrKnown};
ghost use Rattle.ocr_worker_clerk.specs.Push.{IsPushed, PushesReady, ReadiesNone};
ghost use Rattle.ocr_worker_clerk.specs.Work.{AtWork, IsGone, IsIdleClerk, Stays};
ghost use Rattle.ocr_worker_access.specs.Access.{IsNewest, held_at, holds_at};
ghost use Rattle.ocr_worker_body.specs.Start.{HasCore, StepsCore};
ghost use Rattle.ocr_worker_body.specs.Body.{HasReturned};

use ocr_base::NoMemory;
use ocr_edt::Edt;
use ocr_guid::Guid;
use ocr_machine_history::{Entry, Writes};
use ocr_machine_parts::{Part, listed_writes};
use ocr_steal::Hand;
use ocr_turns::Clerk;
use ocr_worker_access::{conclude, core_at, end};
use ocr_worker_clerk::{Gate, Job, Ocr, Over, close_memory, enter_kept, take_part};
use std::alloc::Global;
use std::sync::Wait;

/// Gives back each block that the EDT still holds, the least first.
pub(crate) fn free_all<R: Wait, G: Gate>(
    alloc: Global,
    job: &Job<R, G>,
    worker: u32,
    clerk: &mut Clerk<Ocr>,
    hand: &mut Hand,
    edt: Guid,
) -> Result<(), Over>
    ghost b: { Body }
    requires work { AtWork job.now.turns.now job.now.program.now clerk.old }
    requires returned { (g : ℕ) × HasReturned job.now.turns.now.1 edt b g clerk.old }
    ensures stays { Stays clerk.old clerk.new }
    ensures work { OnOk result (AtWork job.now.turns.now job.now.program.now clerk.new) }
    ensures returned { OnOk result ((g : ℕ) → HasReturned job.now.turns.now.1 edt b g clerk.old
        → HasReturned job.now.turns.now.1 edt b g clerk.new) }
    ensures free { OnOk result (held_at clerk.new ≡ []) }
    ensures hand { IsPushed hand.old hand.new }
    ensures pushed { OnOk result (PushesReady clerk.old clerk.new hand.old hand.new) }
    ensures gone { OnErr result (IsGone job.now.turns.now worker clerk.new) }
{
    let place = job.turns.limit() + edt.0;
    while let Some(block) = least_held(clerk, place) {
        free(alloc, job, worker, clerk, hand, edt, block)?;
    }
    Ok(())
}

// The least block that the running EDT holds.
fn least_held(clerk: &Clerk<Ocr>, place: u64) -> Option<Guid>
    requires { (core : Core) × HasCore place core clerk.now }
    ensures { result ≡ least_of (held_at clerk.now) }
{
    match &core_at(clerk, place).edt {
        Edt::Running(running) => running.least_held(),
        _ => None,
    }
}

// Gives back the least block that the EDT holds, with what it stored there.
fn free<R: Wait, G: Gate>(
    alloc: Global,
    job: &Job<R, G>,
    worker: u32,
    clerk: &mut Clerk<Ocr>,
    hand: &mut Hand,
    edt: Guid,
    block: Guid,
) -> Result<(), Over>
    ghost b: { Body }
    requires work { AtWork job.now.turns.now job.now.program.now clerk.old }
    requires returned { (g : ℕ) × HasReturned job.now.turns.now.1 edt b g clerk.old }
    requires least { least_of (held_at clerk.old) ≡ Some block }
    ensures stays { Stays clerk.old clerk.new }
    ensures work { OnOk result (AtWork job.now.turns.now job.now.program.now clerk.new) }
    ensures returned { OnOk result ((g : ℕ) → HasReturned job.now.turns.now.1 edt b g clerk.old
        → HasReturned job.now.turns.now.1 edt b g clerk.new) }
    ensures held { OnOk result (held_at clerk.new ≡ without block (held_at clerk.old)) }
    ensures hand { IsPushed hand.old hand.new }
    ensures pushed { OnOk result (PushesReady clerk.old clerk.new hand.old hand.new) }
    ensures gone { OnErr result (IsGone job.now.turns.now worker clerk.new) }
{
    let place = job.turns.limit() + edt.0;
    let Ok(writes) = list_writes(alloc, clerk, place, block) else {
        return Err(close_memory(job, worker, clerk));
    };
    take_part(job, worker, clerk, block.0)?;
    let places = [place, block.0];
    let entry = Entry::Free { edt, block, writes };
    let resumed = enter_kept(alloc, job, worker, clerk, entry, &places)?;
    conclude(
        alloc,
        job,
        worker,
        clerk,
        hand,
        edt,
        None,
        &resumed,
        &places[1..],
    )
}

// The private writes of the hold of a block, by the core at hand, in which they are listed then.
fn list_writes(
    alloc: Global,
    clerk: &mut Clerk<Ocr>,
    place: u64,
    block: Guid,
) -> Result<Writes, NoMemory>
    requires { (core : Core) × HasCore place core clerk.old }
    ensures core { StepsCore place (core_after after_list_writes block) clerk.old clerk.new }
    ensures writes { IfOk result (λ w. w ≡ private_in (holds_at clerk.old block)) }
{
    let Part::Core(mut core) = clerk.lift(place) else {
        unreachable!()
    };
    let writes = listed_writes(alloc, &mut core, block);
    clerk.put(place, Part::Core(core));
    writes
}

/// Enters the End of an EDT that holds nothing more, on its core and the face that it returns,
/// where there is one, and gives them back.
pub(crate) fn finish<R: Wait, G: Gate>(
    alloc: Global,
    job: &Job<R, G>,
    worker: u32,
    clerk: &mut Clerk<Ocr>,
    edt: Guid,
    returned: Guid,
) -> Result<(), Over>
    ghost s: { Body × OcrKnown }
    requires first { s.1 ≡ clerk.old }
    requires work { AtWork job.now.turns.now job.now.program.now clerk.old }
    requires returned { HasReturned job.now.turns.now.1 edt s.0 returned clerk.old }
    requires free { held_at clerk.old ≡ [] }
    ensures stays { Stays clerk.old clerk.new }
    ensures readied { OnOk result (ReadiesNone clerk.old clerk.new) }
    ensures work { OnOk result (AtWork job.now.turns.now job.now.program.now clerk.new) }
    ensures idle { OnOk result (IsIdleClerk clerk.new) }
    ensures newest { OnOk result (IsNewest (an.End edt returned) clerk.old.view clerk.new.view) }
    ensures gone { OnErr result (IsGone job.now.turns.now worker clerk.new) }
{
    let limit = job.turns.limit();
    let place = limit + edt.0;
    if is_object(limit, returned.0) {
        take_part(job, worker, clerk, returned.0)?;
        let places = [place, returned.0];
        return end(alloc, job, worker, clerk, edt, returned, &places);
    }
    end(alloc, job, worker, clerk, edt, returned, &[place])
}

// Whether an object may have this number.
fn is_object(limit: u64, number: u64) -> bool
    ensures { result ≡ is_within limit number }
{
    1 <= number && number <= limit
}
