// The life of the one EDT.
ghost use Rattle.std.specs.Prelude.{◌≡◌, ◌≤◌, ◌+◌, [], true, false, IfOk};
ghost use Rattle.ocr_turns_rule.specs.Contract.{IsOfTable};
ghost use Rattle.ocr_tests_count.specs.Solo.{before, stops};
ghost use Rattle.ocr_tests_count.specs.SoloClerks.{Entered, HasEdt, IsDone, IsFree};

use crate::solo::{Act, CORE, Solo, state_after};
use ocr_base::NoMemory;
use ocr_count::{Claimed, claim, drop_claim};
use ocr_guid::Guid;
use ocr_turns::{Change, Clerk, Committed, Taken, Turns};
use std::alloc::Global;
use std::sync::Wait;

/// The EDT that is ready at the opening.
pub const FIRST: Guid = Guid(1);

/// A table of the solo machine for one clerk besides the root.
pub fn open_solo(alloc: Global) -> Result<(Turns<Solo>, Clerk<Solo>), NoMemory>
    ensures { IfOk result (λ t. IsFree t.0 1 t.1 × (1 ≤ t.1.room) × (t.1.view.root ≡ 1)
        × (t.1.view.quota ≡ 1)) }
{
    let setting = 0;
    let opening = vec![in alloc; (1, 0)]?;
    Turns::new(alloc, &setting, opening, 2, 16, 2)
}

/// Claims the EDT and takes its core. `false`, where it is not to be started.
pub fn take_on<R: Wait>(rt: &R, turns: &Turns<Solo>, clerk: &mut Clerk<Solo>) -> bool
    requires { IsFree turns.now clerk.old.view.spares clerk.old }
    ensures { result ≡ true → HasEdt turns.now 0 0 clerk.old.view.spares clerk.new }
{
    let Claimed::Won = claim(turns, clerk, FIRST) else {
        return false;
    };
    let Taken::Mine = turns.take(rt, clerk, CORE) else {
        return false;
    };
    *clerk.part(CORE) == 0
}

// Enters an act of the EDT. `false`, where the run has ended.
fn enter(
    alloc: Global,
    turns: &Turns<Solo>,
    clerk: &mut Clerk<Solo>,
    act: Act,
) -> Result<bool, NoMemory>
    requires edt { HasEdt turns.now (before act) clerk.old.view.weight clerk.old.view.spares
        clerk.old }
    requires light { clerk.old.view.weight + 1 ≤ 16 }
    requires goes { stops act ≡ false }
    ensures { IfOk result (λ done. done ≡ true → Entered turns.now act clerk.old clerk.new
        × (1 ≤ clerk.new.room)) }
{
    let parts = vec![in alloc; (CORE, state_after(&act))]?;
    turns.reserve(alloc, clerk, 0)?;
    let change = Change {
        parts,
        messages: Vec::new(alloc),
    };
    Ok(matches!(turns.commit(clerk, act, change), Committed::At(_)))
}

/// Starts the EDT, lets it work twice and ends it, by four entries. `false`, where the run has
/// ended.
pub fn run_whole(
    alloc: Global,
    turns: &Turns<Solo>,
    clerk: &mut Clerk<Solo>,
) -> Result<bool, NoMemory>
    requires { HasEdt turns.now 0 0 clerk.old.view.spares clerk.old }
    ensures { IfOk result (λ done. done ≡ true
        → IsDone turns.now (clerk.old.view.spares + 1) clerk.new × (1 ≤ clerk.new.room)) }
{
    if !enter(alloc, turns, clerk, Act::Start)? {
        return Ok(false);
    }
    if !enter(alloc, turns, clerk, Act::Work)? {
        return Ok(false);
    }
    if !enter(alloc, turns, clerk, Act::Work)? {
        return Ok(false);
    }
    enter(alloc, turns, clerk, Act::End)
}

/// Destroys the claimed EDT before its start, and drops its claim. `false`, where the run has
/// ended.
pub fn destroy(
    alloc: Global,
    turns: &Turns<Solo>,
    clerk: &mut Clerk<Solo>,
) -> Result<bool, NoMemory>
    requires { HasEdt turns.now 0 0 clerk.old.view.spares clerk.old }
    ensures { IfOk result (λ done. done ≡ true
        → IsDone turns.now (clerk.old.view.spares + 1) clerk.new) }
{
    if !enter(alloc, turns, clerk, Act::Destroy)? {
        return Ok(false);
    }
    drop_claim(turns, clerk, FIRST);
    Ok(true)
}

/// Ends the run. `false`, where it had ended.
pub fn stop(turns: &Turns<Solo>, clerk: &mut Clerk<Solo>) -> bool
    requires table { IsOfTable turns.now clerk.old }
    requires room { 1 ≤ clerk.old.room }
    requires unit { 1 ≤ clerk.old.view.spares }
    ensures { IsOfTable turns.now clerk.new }
{
    matches!(turns.close(clerk, Act::Stop, &[]), Committed::At(_))
}
