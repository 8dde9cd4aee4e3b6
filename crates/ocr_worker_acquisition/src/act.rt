// What an EDT does with the block that it acquires next.
ghost use Rattle.std.specs.Prelude.{◌≡◌, OnOk, OnErr};
ghost use Rattle.ocr_worker_clerk.specs.Entry.{PlannedParts};
ghost use Rattle.ocr_worker_clerk.specs.Work.{AtWork, EntersKept, HasTakenOn, IsGone, Stays};
ghost use Rattle.ocr_worker_acquisition.specs.Acquisition.{IsLet, LetsAny, Meets, entry_by};

use ocr_acquire::Mode;
use ocr_datablock::Block;
use ocr_guid::Guid;
use ocr_machine_history::Entry;
use ocr_turns::Clerk;
use ocr_worker_clerk::{Gate, Job, Ocr, Over, enter_kept};
use std::alloc::Global;
use std::sync::Wait;

/// What an EDT does with the block that it acquires next.
#[derive(Clone, Copy, PartialEq, Eq, Debug)]
pub enum Act {
    /// It is granted, or was granted while the EDT waited: the EDT acquires it.
    Acquire,
    /// It is gone: the EDT passes it by.
    Pass,
    /// It cannot be granted yet: the EDT waits for it.
    Wait,
}

/// What the block lets an EDT do that wants it in this mode.
pub fn act_on(block: &Block, edt: Guid, mode: Mode) -> Act
    requires { LetsAny edt mode block.now }
    ensures { IsLet result edt mode block.now }
{
    if block.is_gone() {
        return Act::Pass;
    }
    // Who holds the block was granted it while it waited.
    if block.mode_of(edt).is_some() || block.grantable(mode) {
        return Act::Acquire;
    }
    Act::Wait
}

/// Enters what the block lets the EDT do, for which the worker keeps the EDT's core and face and
/// the block.
pub fn enter_act<R: Wait, G: Gate>(
    alloc: Global,
    job: &Job<R, G>,
    worker: u32,
    clerk: &mut Clerk<Ocr>,
    edt: Guid,
    block: Guid,
    act: Act,
    payloads: &[Guid],
    places: &[u64],
) -> Result<(), Over>
    ghost h: { PlannedParts }
    requires work { AtWork job.now.turns.now job.now.program.now clerk.old }
    requires taken { HasTakenOn job.now.turns.now.1 edt clerk.old }
    requires meets { Meets job.now.turns.now.1 edt block act payloads.now places.now h clerk.old }
    ensures stays { Stays clerk.old clerk.new }
    ensures work { OnOk result (AtWork job.now.turns.now job.now.program.now clerk.new) }
    ensures entered { OnOk result (EntersKept job.now.turns.now.1 clerk.old clerk.new
        (entry_by act edt block) h) }
    ensures gone { OnErr result (IsGone job.now.turns.now worker clerk.new) }
{
    // Who acquires, waits or passes by resumes nobody.
    let entry = entry_of(act, edt, block);
    enter_kept(alloc, job, worker, clerk, entry, places)?;
    Ok(())
}

fn entry_of(act: Act, edt: Guid, block: Guid) -> Entry
    ensures { result ≡ entry_by act edt block }
{
    match act {
        Act::Acquire => Entry::Acquire { edt, block },
        Act::Pass => Entry::StaleAcquire { edt, block },
        Act::Wait => Entry::Wait { edt, block },
    }
}
