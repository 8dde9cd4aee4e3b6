//! The modes in which data blocks are held, and what an EDT acquires before it starts.
#![tactic(auto)]

ghost use Rattle.std.specs.Prelude.{◌≡◌, ◌≤◌, ◌↔◌, ◌∷◌, ◌++◌, IsTrue, IsSome, IfSome, IfOk};
ghost use Rattle.std.specs.List.{All, filter};
ghost use Rattle.ocr_acquire.specs.declared.Mode.TheVariants as mode;
ghost use Rattle.ocr_acquire.specs.Plan.{plan_of, IsPlan, IsWellFormed, asks, last_of_each, PlanLaw, OnlyPlanLaw, GivenLaw, LengthLaw};
ghost use Rattle.ocr_acquire.specs.Writes.{PutLaw, WrittenLaw};
ghost use Rattle.ocr_acquire.specs.Mode.{rank_of, mode_of, is_isolated, is_writable, together, fits_all, NumberLaw, OrderLaw, SharingLaw, AloneLaw};

use ocr_guid::{Guid, NoMemory};
use smallvec::SmallVec;
use std::alloc::Global;
use std::marker::Model;

/// Blocks and the modes in which they are acquired: two of them without memory of their own.
pub type Plan = SmallVec<(Guid, Mode), 2>;

/// How an EDT uses a data block: from the weakest mode to the strongest.
#[derive(Clone, Copy, PartialEq, Eq, PartialOrd, Ord, Debug)]
pub enum Mode {
    /// Nothing is acquired.
    Null,
    /// Reads, and may see what others write.
    Ro,
    /// Reads, and sees no write of others.
    Const,
    /// Reads and writes, beside other writers.
    Rw,
    /// Reads and writes alone.
    Ew,
}

impl Mode {
    /// The mode of a number from 0, weakest first; None for a number above 4.
    pub fn of(number: u64) -> Option<Mode>
        ensures value { result ≡ mode_of number }
        ensures known { IsSome result ↔ (number ≤ 4) }
        ensures number { IfSome result (λ mode. rank_of mode ≡ number) }
    {
        match number {
            0 => Some(Mode::Null),
            1 => Some(Mode::Ro),
            2 => Some(Mode::Const),
            3 => Some(Mode::Rw),
            4 => Some(Mode::Ew),
            _ => None,
        }
    }

    /// Whether who holds a block in this mode has words of its own, so that its loads and stores
    /// are no entries.
    pub fn is_isolated(self) -> bool
        ensures { result ≡ is_isolated self }
    {
        match self {
            Mode::Ew | Mode::Const => true,
            Mode::Null | Mode::Ro | Mode::Rw => false,
        }
    }

    /// Whether who holds a block in this mode may store in it.
    pub fn is_writable(self) -> bool
        ensures { result ≡ is_writable self }
    {
        match self {
            Mode::Ew | Mode::Rw => true,
            Mode::Null | Mode::Ro | Mode::Const => false,
        }
    }
}

/// Whether one EDT may hold a block in the one mode while another holds it in the other.
fn goes_with(one: Mode, other: Mode) -> bool
    ensures { result ≡ together one other }
{
    match one {
        Mode::Rw => matches!(other, Mode::Rw | Mode::Ro),
        Mode::Ro => matches!(other, Mode::Rw | Mode::Ro | Mode::Const),
        Mode::Const => matches!(other, Mode::Ro | Mode::Const),
        Mode::Ew | Mode::Null => false,
    }
}

/// Whether an EDT may hold a block in this mode beside all who hold it.
/// Nobody holds a block in `Null`, which goes with no mode.
pub fn fits(mode: Mode, holders: &[(Guid, Mode)]) -> bool
    ensures answer { result ≡ fits_all mode holders.now }
    ensures every { IsTrue result ↔ All (λ holder. IsTrue (together mode holder.1)) holders.now }
{
    for (_, held) in holders {
        if !goes_with(mode, *held) {
            return false;
        }
    }
    true
}

impl Default for Mode {
    fn default() -> Mode
        ensures { result ≡ mode.Null }
    {
        Mode::Null
    }
}

/// What an EDT acquires for the payloads and modes of its slots: the distinct blocks other than
/// NULL_GUID whose strongest mode is not `Null`, rising, each in its strongest mode.
pub fn plan(alloc: Global, slots: &[(Guid, Mode)]) -> Result<Plan, NoMemory>
    ensures value { IfOk result (λ plan. plan.items ≡ plan_of slots.now) }
    ensures wanted { IfOk result (λ plan. IsPlan slots.now plan.items) }
    ensures well_formed { IfOk result (λ plan. IsWellFormed plan.items) }
{
    let mut entries = asked(alloc, slots)?;
    entries.sort_unstable();
    strongest(alloc, entries.as_slice())
}

/// The slots that ask for a block.
fn asked(alloc: Global, slots: &[(Guid, Mode)]) -> Result<Plan, NoMemory>
    ensures { IfOk result (λ entries. entries.items ≡ filter asks slots.now) }
{
    let mut entries = SmallVec::new(alloc);
    for (block, mode) in slots {
        if *block == Guid::NULL || *mode == Mode::Null {
            continue;
        }
        entries.push((*block, *mode))?;
    }
    Ok(entries)
}

/// Of sorted entries the last of each block, which has its strongest mode.
fn strongest(alloc: Global, entries: &[(Guid, Mode)]) -> Result<Plan, NoMemory>
    ensures { IfOk result (λ plan. plan.items ≡ last_of_each entries.now) }
{
    let mut plan = SmallVec::new(alloc);
    for i in 0..entries.len() {
        let entry = entries[i];
        if i + 1 < entries.len() {
            let next = entries[i + 1];
            if next.0 == entry.0 {
                continue;
            }
        }
        plan.push(entry)?;
    }
    Ok(plan)
}

/// What is told of the modes: their numbers, their order, and who may share a block.
pub fn mode_laws()
    ensures number { NumberLaw }
    ensures order { OrderLaw }
    ensures sharing { SharingLaw }
    ensures alone { AloneLaw }
{}

/// What writes make of words, and how a further one is put among them.
pub fn write_laws()
    ensures put { PutLaw }
    ensures written { WrittenLaw }
{}

/// Slots have one plan, which is a function of them.
pub fn plan_laws()
    ensures plan { PlanLaw }
    ensures only { OnlyPlanLaw }
    ensures given { GivenLaw }
    ensures length { LengthLaw }
{}
