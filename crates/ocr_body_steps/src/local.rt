// What the walker keeps of a body.
ghost use Rattle.std.specs.Prelude.{◌≡◌, ◌<◌, ◌≤◌, List, ℕ, length, OnOk, OnErr};
ghost use Rattle.ocr_body_meaning.specs.Behaviour.{Behaviour};
ghost use Rattle.ocr_body_meaning.specs.Holds.{Holds};
ghost use Rattle.ocr_body_meaning.specs.Meaning.{State, with_variable};
ghost use Rattle.ocr_body_meaning.specs.Meaning as meaning;
ghost use Rattle.ocr_body_code.specs.Code.{name_at};
ghost use Rattle.ocr_body_steps.specs.Local.{Fits, KeepsLocal, state_in, state_of, value_in};

use ocr_body_code::Checked;
use ocr_body_meaning::BodyStop;
use ocr_guid::Guid;
use ocr_program_tree::Name;
use std::alloc::Global;

/// What the walker keeps of a body: its fuel, the code of its last call, its variables by their
/// places, and, once it stopped or returned, why and what.
#[derive(Drop)]
pub struct Local {
    pub fuel: u64,
    pub code: u64,
    pub values: Vec<u64>,
    pub stop: BodyStop,
    pub returned: Guid,
}

/// The body stopped, and why is kept in `stop`: so small an answer goes in a register.
#[derive(Clone, Copy)]
pub struct Halt;

/// What a body was given, its program, and the names of its variables.
#[derive(Clone, Copy)]
pub struct Frame<'a> {
    pub alloc: Global,
    pub program: &'a Checked,
    pub params: &'a [u64],
    pub deps: &'a [Guid],
    pub names: &'a [Name],
}

/// Where a statement leads. What a body returned is kept in `returned`.
#[derive(Clone, Copy)]
pub enum Flow {
    /// To the next one.
    Next,
    /// To the end of the body.
    Returned,
}

/// The body stops for this, which is kept in `stop`; fuel, code and variables stay.
#[inline(always)]
pub fn stopped(stop: BodyStop, local: &mut Local) -> Halt
    ensures stop { local.new.stop ≡ stop }
    ensures keeps { KeepsLocal local.old local.new }
{
    local.stop = stop;
    Halt
}

/// Pays one unit of fuel. Where none is left, the body stops for want of it: `stop` is `Fuel`.
pub fn pay(local: &mut Local) -> Result<(), Halt>
    ensures ok { OnOk result ((names : List (List ℕ)) (holds : Holds)
        (k : State → Behaviour) → meaning.spend (state_of names holds local.old) k
        ≡ k (state_of names holds local.new)) }
    ensures less { OnOk result (local.new.fuel < local.old.fuel) }
    ensures fuel { local.new.fuel ≤ local.old.fuel }
    ensures values { local.new.values ≡ local.old.values }
    ensures err { OnErr result ((local.new.stop ≡ BodyStop.Fuel) × (local.old.fuel ≡ 0)) }
{
    if local.fuel == 0 {
        return Err(stopped(BodyStop::Fuel, local));
    }
    local.fuel -= 1;
    Ok(())
}

/// The value of a variable, by its place.
pub fn read(frame: &Frame, place: usize, local: &Local) -> u64
    requires place { place < length frame.now.names.now }
    requires fits { Fits frame.now local.now }
    ensures { result ≡ value_in frame.now.names.now local.now.values.items
        (name_at frame.now.names.now place) }
{
    local.values[place]
}

/// A variable gets a value, whatever is held.
pub fn write(frame: &Frame, place: usize, value: u64, local: &mut Local)
    requires place { place < length frame.now.names.now }
    requires fits { Fits frame.now local.old }
    ensures state { (holds : Holds) → state_in frame.now holds local.new
        ≡ with_variable (name_at frame.now.names.now place) value
        (state_in frame.now holds local.old) }
    ensures room { length local.new.values.items ≡ length local.old.values.items }
    ensures fuel { local.new.fuel ≡ local.old.fuel }
{
    local.values[place] = value;
}
