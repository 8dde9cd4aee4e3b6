// A round of an EDT that was claimed: at the block that it acquires next, or at its face.
ghost use Rattle.std.specs.Prelude.{◌≡◌, ◌≢◌, ◌+◌, [], ◌∷◌, true, None, IfOk, OnOk, OnErr};
ghost use Rattle.ocr_worker_machine.specs.Ocr.{meaning};
ghost use Rattle.ocr_machine_parts.specs.Taken.{is_within};
ghost use Rattle.ocr_turns_rule.specs.Steps.{Sees};
ghost use Rattle.ocr_turns_rule.specs.Words.{SeesReady};
ghost use Rattle.ocr_worker_clerk.specs.Push.{ReadiesNone};
ghost use Rattle.ocr_worker_clerk.specs.Work.{AtWork, HasTakenOn, IsGone, IsIdleClerk, KeepsFaces, Stays};
ghost use Rattle.ocr_worker_acquisition.specs.Park.{IsLetWait};
ghost use Rattle.ocr_worker_acquisition.specs.Block.{CanAct, HasThree, HoldsCore, IsUnbegun, KnowsThree, WantsNext};
ghost use Rattle.ocr_worker_acquisition.specs.Rounds.{GaveFaces, HasFace, HasMet, HoldsAwake, IsAfter, IsWanted, KnowsFace, PlansNext, lets_wait, name_in, places_of, step_of, two_places};

use crate::acquisition::{Step, next_of};
use crate::act::Act;
use crate::block::{decide, read_three};
use crate::outcome::carry_out;
use crate::park::park_edt;
use crate::payloads::{Payloads, read_payloads};
use ocr_acquire::Mode;
use ocr_guid::Guid;
use ocr_machine_parts::{Part, next_with};
use ocr_turns::Clerk;
use ocr_worker_clerk::{Gate, Job, Ocr, Over, close_memory, give_faces, take_part};
use std::alloc::Global;
use std::sync::Wait;

/// What an EDT came to at a block.
#[derive(Clone, Copy, PartialEq, Eq, Debug)]
pub enum Met {
    /// Its plan is done: its core and its face are kept.
    Through,
    /// It goes on: its core is kept.
    Further,
    /// It waits for the block, and is parked.
    Parked,
}

/// Takes the face of an EDT and a block, the lesser number first, so that no two workers wait for
/// each other.
pub(crate) fn take_two<R: Wait, G: Gate>(
    job: &Job<R, G>,
    worker: u32,
    clerk: &mut Clerk<Ocr>,
    edt: Guid,
    block: Guid,
) -> Result<bool, Over>
    requires work { AtWork job.now.turns.now job.now.program.now clerk.old }
    requires holds { HoldsCore job.now.turns.now.1 edt clerk.old }
    requires block { IsWanted job.now.turns.now.1 edt block clerk.old }
    ensures stays { Stays clerk.old clerk.new }
    ensures work { OnOk result (AtWork job.now.turns.now job.now.program.now clerk.new) }
    ensures three { IfOk result (λ first. HasThree job.now.turns.now.1 edt block first clerk.new) }
    ensures wants { OnOk result (IsWanted job.now.turns.now.1 edt block clerk.new) }
    ensures ready { OnOk result (SeesReady meaning clerk.new.view edt) }
    ensures readied { OnOk result (ReadiesNone clerk.old clerk.new) }
    ensures gone { OnErr result (IsGone job.now.turns.now worker clerk.new) }
{
    let first = block < edt;
    let (one, two) = if first { (block, edt) } else { (edt, block) };
    take_part(job, worker, clerk, one.0)?;
    take_part(job, worker, clerk, two.0)?;
    Ok(first)
}

/// Acquires the block that comes next in the plan of the EDT, passes it by, or lets the EDT wait
/// for it.
pub(crate) fn block_round<R: Wait, G: Gate>(
    alloc: Global,
    job: &Job<R, G>,
    worker: u32,
    clerk: &mut Clerk<Ocr>,
    edt: Guid,
    block: Guid,
) -> Result<Step, Over>
    requires work { AtWork job.now.turns.now job.now.program.now clerk.old }
    requires holds { HoldsCore job.now.turns.now.1 edt clerk.old }
    requires block { IsWanted job.now.turns.now.1 edt block clerk.old }
    ensures stays { Stays clerk.old clerk.new }
    ensures work { OnOk result (AtWork job.now.turns.now job.now.program.now clerk.new) }
    ensures after { IfOk result (λ s. IsAfter job.now.turns.now.1 edt s clerk.old clerk.new) }
    ensures readied { OnOk result (ReadiesNone clerk.old clerk.new) }
    ensures gone { OnErr result (IsGone job.now.turns.now worker clerk.new) }
{
    let first = take_two(job, worker, clerk, edt, block)?;
    let payloads = read_three(alloc, job, worker, clerk, edt, block, first)?;
    let known = payloads.as_slice();
    let met = meet(alloc, job, worker, clerk, edt, block, first, known)?;
    Ok(step_of(met, payloads))
}

// What comes after the block for an EDT with these payloads.
fn step_of(met: Met, payloads: Payloads) -> Step
    ensures { result ≡ step_of met payloads }
{
    match met {
        Met::Through => Step::Ready(payloads),
        Met::Further => Step::Next(None),
        Met::Parked => Step::Parked,
    }
}

// The EDT does what the block lets it do, where the block comes next.
fn meet<R: Wait, G: Gate>(
    alloc: Global,
    job: &Job<R, G>,
    worker: u32,
    clerk: &mut Clerk<Ocr>,
    edt: Guid,
    block: Guid,
    first: bool,
    payloads: &[Guid],
) -> Result<Met, Over>
    requires work { AtWork job.now.turns.now job.now.program.now clerk.old }
    requires apart { edt ≢ block }
    requires block { is_within job.now.turns.now.1.limit block ≡ true }
    requires knows { KnowsThree job.now.turns.now.1 edt block first payloads.now clerk.old }
    requires ready { SeesReady meaning clerk.old.view edt }
    requires wants { WantsNext job.now.turns.now.1 edt block clerk.old }
    requires unbegun { IsUnbegun clerk.old.view edt }
    ensures stays { Stays clerk.old clerk.new }
    ensures work { OnOk result (AtWork job.now.turns.now job.now.program.now clerk.new) }
    ensures met { IfOk result (λ m. HasMet job.now.turns.now.1 edt payloads.now m clerk.old
        clerk.new) }
    ensures readied { OnOk result (ReadiesNone clerk.old clerk.new) }
    ensures gone { OnErr result (IsGone job.now.turns.now worker clerk.new) }
{
    let Some(act) = decide(alloc, job, worker, clerk, edt, block, first, payloads)? else {
        give_two(job, clerk, edt, block, first);
        return Ok(Met::Further);
    };
    act_at_block(alloc, job, worker, clerk, edt, block, first, act, payloads)
}

// Enters what the block lets the EDT do. An EDT that is to wait is parked; else the core is kept,
// and the face too where nothing is left to acquire.
fn act_at_block<R: Wait, G: Gate>(
    alloc: Global,
    job: &Job<R, G>,
    worker: u32,
    clerk: &mut Clerk<Ocr>,
    edt: Guid,
    block: Guid,
    first: bool,
    act: Act,
    payloads: &[Guid],
) -> Result<Met, Over>
    requires work { AtWork job.now.turns.now job.now.program.now clerk.old }
    requires apart { edt ≢ block }
    requires block { is_within job.now.turns.now.1.limit block ≡ true }
    requires can { CanAct job.now.turns.now.1 edt block first payloads.now act clerk.old }
    requires unbegun { IsUnbegun clerk.old.view edt }
    ensures stays { Stays clerk.old clerk.new }
    ensures work { OnOk result (AtWork job.now.turns.now job.now.program.now clerk.new) }
    ensures met { IfOk result (λ m. HasMet job.now.turns.now.1 edt payloads.now m clerk.old
        clerk.new) }
    ensures readied { OnOk result (ReadiesNone clerk.old clerk.new) }
    ensures gone { OnErr result (IsGone job.now.turns.now worker clerk.new) }
{
    carry_out(alloc, job, worker, clerk, edt, block, first, act, payloads)?;
    if is_wait(act) {
        park_two(job, clerk, edt, block, first);
        return Ok(Met::Parked);
    }
    let place = job.turns.limit() + edt.0;
    if let Some(_) = next_of(clerk.part(place)) {
        give_two(job, clerk, edt, block, first);
        return Ok(Met::Further);
    }
    // Nothing is left to acquire: the EDT starts with its core and its face.
    job.turns.give_back(clerk, block.0);
    Ok(Met::Through)
}

// Whether the EDT is to wait.
fn is_wait(act: Act) -> bool
    ensures { result ≡ lets_wait act }
{
    match act {
        Act::Wait => true,
        Act::Acquire | Act::Pass => false,
    }
}

// Gives back the face of an EDT and a block, and keeps the core.
fn give_two<R: Wait, G: Gate>(
    job: &Job<R, G>,
    clerk: &mut Clerk<Ocr>,
    edt: Guid,
    block: Guid,
    first: bool,
)
    requires work { AtWork job.now.turns.now job.now.program.now clerk.old }
    requires taken { HasTakenOn job.now.turns.now.1 edt clerk.old }
    requires keeps { KeepsFaces job.now.turns.now.1 edt (two_places first edt block) clerk.old }
    ensures work { AtWork job.now.turns.now job.now.program.now clerk.new }
    ensures gave { GaveFaces clerk.old clerk.new }
{
    if first {
        give_faces(job.turns, job.program, clerk, edt, &[block.0, edt.0]);
    } else {
        give_faces(job.turns, job.program, clerk, edt, &[edt.0, block.0]);
    }
}

// Parks an EDT that waits for a block, and gives back all three parts.
fn park_two<R: Wait, G: Gate>(
    job: &Job<R, G>,
    clerk: &mut Clerk<Ocr>,
    edt: Guid,
    block: Guid,
    first: bool,
)
    requires work { AtWork job.now.turns.now job.now.program.now clerk.old }
    requires taken { HasTakenOn job.now.turns.now.1 edt clerk.old }
    requires waits { IsLetWait job.now.turns.now.1 edt
        (places_of job.now.turns.now.1.limit first edt block) clerk.old }
    ensures work { AtWork job.now.turns.now job.now.program.now clerk.new }
    ensures idle { IsIdleClerk clerk.new }
    ensures table { clerk.new.table ≡ clerk.old.table }
    ensures view { clerk.new.view ≡ record clerk.old.view {
      parts = [];
      claims = [];
      spares
          = clerk.old.view.spares + 1;
    } }
{
    let place = job.turns.limit() + edt.0;
    if first {
        park_edt(job.turns, job.program, clerk, edt, &[place, block.0, edt.0]);
    } else {
        park_edt(job.turns, job.program, clerk, edt, &[place, edt.0, block.0]);
    }
}

/// Reads the payloads of the EDT's slots: they tell the block that it acquires next, or that its
/// plan is done.
pub(crate) fn face_round<R: Wait, G: Gate>(
    alloc: Global,
    job: &Job<R, G>,
    worker: u32,
    clerk: &mut Clerk<Ocr>,
    edt: Guid,
) -> Result<Step, Over>
    requires work { AtWork job.now.turns.now job.now.program.now clerk.old }
    requires holds { HoldsAwake job.now.turns.now.1 edt clerk.old }
    ensures stays { Stays clerk.old clerk.new }
    ensures work { OnOk result (AtWork job.now.turns.now job.now.program.now clerk.new) }
    ensures after { IfOk result (λ s. IsAfter job.now.turns.now.1 edt s clerk.old clerk.new) }
    ensures readied { OnOk result (ReadiesNone clerk.old clerk.new) }
    ensures gone { OnErr result (IsGone job.now.turns.now worker clerk.new) }
{
    take_part(job, worker, clerk, edt.0)?;
    let payloads = read_face(alloc, job, worker, clerk, edt)?;
    let known = payloads.as_slice();
    let next = plan_next(alloc, job, worker, clerk, edt, known)?;
    if let Some(block) = next {
        give_faces(job.turns, job.program, clerk, edt, &[edt.0]);
        return Ok(Step::Next(Some(block)));
    }
    Ok(Step::Ready(payloads))
}

// Reads the payloads of the EDT whose face is kept.
fn read_face<R: Wait, G: Gate>(
    alloc: Global,
    job: &Job<R, G>,
    worker: u32,
    clerk: &mut Clerk<Ocr>,
    edt: Guid,
) -> Result<Payloads, Over>
    requires work { AtWork job.now.turns.now job.now.program.now clerk.old }
    requires face { HasFace job.now.turns.now.1 edt clerk.old }
    requires sees { Sees meaning clerk.old.view }
    ensures stays { Stays clerk.old clerk.new }
    ensures work { OnOk result (AtWork job.now.turns.now job.now.program.now clerk.new) }
    ensures knows { IfOk result (λ v. KnowsFace job.now.turns.now.1 edt v.items clerk.new) }
    ensures sees { OnOk result (Sees meaning clerk.new.view) }
    ensures readied { OnOk result (ReadiesNone clerk.old clerk.new) }
    ensures gone { OnErr result (IsGone job.now.turns.now worker clerk.new) }
{
    let Part::Edt(slots) = clerk.part(edt.0) else {
        unreachable!()
    };
    let count = slots.depc();
    let Ok(payloads) = read_payloads(alloc, job.turns, clerk, edt, count) else {
        return Err(close_memory(job, worker, clerk));
    };
    Ok(payloads)
}

// The block that comes next in the plan of the EDT whose core and face are kept.
fn plan_next<R: Wait, G: Gate>(
    alloc: Global,
    job: &Job<R, G>,
    worker: u32,
    clerk: &mut Clerk<Ocr>,
    edt: Guid,
    payloads: &[Guid],
) -> Result<Option<Guid>, Over>
    requires work { AtWork job.now.turns.now job.now.program.now clerk.old }
    requires knows { KnowsFace job.now.turns.now.1 edt payloads.now clerk.old }
    ensures stays { Stays clerk.old clerk.new }
    ensures same { OnOk result (clerk.new ≡ clerk.old) }
    ensures next { IfOk result (λ o. PlansNext job.now.turns.now.1 edt payloads.now o clerk.old) }
    ensures gone { OnErr result (IsGone job.now.turns.now worker clerk.new) }
{
    let place = job.turns.limit() + edt.0;
    let (Part::Core(core), Part::Edt(slots)) = (clerk.part(place), clerk.part(edt.0)) else {
        unreachable!()
    };
    let Ok(next) = next_with(alloc, &core.get().edt, slots, payloads) else {
        return Err(close_memory(job, worker, clerk));
    };
    Ok(block_in(next))
}

fn block_in(next: Option<(Guid, Mode)>) -> Option<Guid>
    ensures { result ≡ name_in next }
{
    Some(next?.0)
}
