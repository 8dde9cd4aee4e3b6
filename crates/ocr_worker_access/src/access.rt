// What the loads and stores of a body come to, by the core of its EDT.
ghost use Rattle.std.specs.Prelude.{◌≡◌, ◌<◌, ◌^◌, ◌∷◌, [], Some};
ghost use Rattle.ocr_acquire.specs.Mode.{mode_in, is_isolated, is_writable};
ghost use Rattle.ocr_body_meaning.specs.Holds.{load_of, store_of};
ghost use Rattle.ocr_machine_parts.specs.declared.part.Core.{Core};
ghost use Rattle.ocr_machine_parts.specs.declared.part.Part.TheVariants as part;
ghost use Rattle.ocr_machine_parts.specs.Bodies.{hold_of, holds_in};
ghost use Rattle.ocr_machine_parts.specs.Kinds.{holds_of, work_in};
ghost use Rattle.ocr_worker_access.specs.Accesses.{IfDone, IsFit, IsFitCore, access_of};

use ocr_acquire::Mode;
use ocr_body_meaning::BodyStop;
use ocr_edt::Edt;
use ocr_guid::Guid;
use ocr_machine_parts::{Core, Kept, Part};
use ocr_turns::Clerk;
use ocr_worker_clerk::{Ocr, Over};

/// Why a load or a store was not done: it is a fault of the body, or the run has ended.
#[derive(Clone, Copy, Debug)]
pub enum Refusal {
    Fault(BodyStop),
    Over(Over),
}

impl From<Over> for Refusal {
    ghost use Rattle.std.specs.Prelude.{◌≡◌};
    ghost use Rattle.ocr_worker_access.specs.declared.access.Refusal.TheVariants as refusal;

    ghost from_gives = { λ over r. r ≡ refusal.Over over };

    fn from(over: Over) -> Self {
        Refusal::Over(over)
    }
}

/// What a load or a store comes to.
#[derive(Clone, Copy)]
pub(crate) enum Found {
    Refused(BodyStop),
    /// It is no entry, and has this value.
    Silent(u64),
    Entered,
}

/// The core at hand of a clerk that keeps it alone.
pub fn core_at(clerk: &Clerk<Ocr>, place: u64) -> &Core
    requires { (core : Core) × (clerk.now.parts ≡ (place, Some (part.Core core)) ∷ []) }
    ensures { clerk.now.parts ≡ (place, Some (part.Core result.now)) ∷ [] }
{
    match clerk.part(place) {
        Part::Core(core) => core.get(),
        _ => unreachable!(),
    }
}

/// What a load of a word comes to. It is refused as `NotHeld` where the EDT does not hold the
/// block, and as `BadIndex` where the block has no such word.
pub(crate) fn find_load(core: &Core, block: Guid, word: u64) -> Found
    requires { IsFitCore core.now }
    ensures { access_of result ≡ load_of (holds_in (part.Core core.now) block) word }
{
    let Some(mode) = mode_of(&core.edt, block) else {
        return Found::Refused(BodyStop::NotHeld);
    };
    let Some(kept) = core.loans.get(block) else {
        return Found::Refused(BodyStop::NotHeld);
    };
    load_in(mode, kept, word)
}

/// What a store in a word comes to. It is refused as `NotHeld` where the EDT does not hold the
/// block, then as `NotWritable` where it holds it in `Null`, `Ro` or `Const`, then as `BadIndex`
/// where the block has no such word.
pub(crate) fn find_store(core: &Core, block: Guid, word: u64) -> Found
    ensures found { access_of result ≡ store_of (holds_in (part.Core core.now) block) word }
    ensures small { IfDone result (word < 2 ^ 32) }
{
    let Some(mode) = mode_of(&core.edt, block) else {
        return Found::Refused(BodyStop::NotHeld);
    };
    let Some(kept) = core.loans.get(block) else {
        return Found::Refused(BodyStop::NotHeld);
    };
    store_in(mode, kept, word)
}

// What a load of a word of a hold comes to.
fn load_in(mode: Mode, kept: &Kept, word: u64) -> Found
    requires { IsFit (Some mode) (Some kept.now) }
    ensures { access_of result ≡ load_of (hold_of (Some mode) (Some kept.now)) word }
{
    if word >= u64::from(kept.size) {
        return Found::Refused(BodyStop::BadIndex);
    }
    if !mode.is_isolated() {
        return Found::Entered;
    }
    match &kept.loan {
        Some(loan) => Found::Silent(loan.load(word as u32)),
        None => unreachable!(),
    }
}

// What a store in a word of a hold comes to.
fn store_in(mode: Mode, kept: &Kept, word: u64) -> Found
    ensures found { access_of result ≡ store_of (hold_of (Some mode) (Some kept.now)) word }
    ensures small { IfDone result (word < 2 ^ 32) }
{
    if !mode.is_writable() {
        return Found::Refused(BodyStop::NotWritable);
    }
    if word >= u64::from(kept.size) {
        return Found::Refused(BodyStop::BadIndex); // after a mode that cannot be written
    }
    if mode.is_isolated() {
        return Found::Silent(0);
    }
    Found::Entered
}

// The mode in which a running EDT holds the block.
fn mode_of(edt: &Edt, block: Guid) -> Option<Mode>
    ensures { result ≡ mode_in block (holds_of (work_in edt.now)) }
{
    match edt {
        Edt::Running(work) => work.mode(block),
        _ => None,
    }
}
