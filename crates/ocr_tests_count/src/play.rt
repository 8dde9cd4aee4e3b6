// What clerks do with the toy's EDT.
ghost use Rattle.std.specs.Prelude.{◌≡◌, All, true, ◌<◌, ◌≤◌, ◌+◌, ◌++◌, ◌∷◌, [], Some, IfOk, MatchOption};
ghost use Rattle.ocr_turns_rule.specs.Contract.{IsOfTable, TermsAre};
ghost use Rattle.ocr_tests_count.specs.Clerks.{CanMake, CanSet, CanWait, CanWake, IsIdle, Owes};

use crate::toy::{Entry, FILLED, OPEN, SLOTS, Toy, UNMADE, WAITING, WAITS};
use ocr_base::NoMemory;
use ocr_count::{Claimed, Down, claim, count_down, count_made, park, payload, put_payload, resume};
use ocr_guid::Guid;
use ocr_live::{raise, split_live};
use ocr_turns::{Change, Clerk, Committed, Drawn, Taken, Turns};
use std::alloc::{AllocError, Global};
use std::sync::Wait;
use std::thread;
use std::thread::Threads;

/// The EDT that the toy makes.
pub const EDT: Guid = Guid(2);

/// A table of the toy for two clerks besides the root, which has six units to spare.
pub fn open(alloc: Global) -> Result<(Turns<Toy>, Clerk<Toy>), NoMemory>
    ensures { IfOk result (λ t. IsIdle t.0 t.1 × (t.1.view.root ≡ 1) × (t.1.view.quota ≡ 2)
        × (t.1.view.weight ≡ 0) × (t.1.view.facts ≡ []) × (t.0.1.share ≡ 16)
        × (t.1.view.spares ≡ 6) × (t.1.view.ended ≡ 0)) }
{
    let setting = 0;
    let opening = vec![in alloc; (1, UNMADE)]?;
    let (turns, mut root) = Turns::new(alloc, &setting, opening, 2, 16, 3)?;
    raise(&turns, &mut root, 5);
    Ok((turns, root))
}

/// Makes the EDT, and counts its making. `None`, where it is made.
pub fn make<R: Wait>(
    rt: &R,
    alloc: Global,
    turns: &Turns<Toy>,
    clerk: &mut Clerk<Toy>,
) -> Result<Option<Down>, NoMemory>
    requires idle { IsIdle turns.now clerk.old }
    requires light { clerk.old.view.weight + 1 ≤ turns.now.1.share }
    requires unit { 1 ≤ clerk.old.view.spares }
    ensures idle { IfOk result (λ r. MatchOption r (Unit {0}) (λ _. IsIdle turns.now clerk.new
        × (clerk.new.view.weight ≡ clerk.old.view.weight + 1)
        × (clerk.new.view.facts ≡ clerk.old.view.facts)
        × (clerk.new.view.root ≡ clerk.old.view.root)
        × (clerk.new.view.quota ≡ clerk.old.view.quota)
        × (clerk.old.view.spares ≤ clerk.new.view.spares + 1)
        × (clerk.new.view.ended ≡ clerk.old.view.ended))) }
{
    let parts = vec![in alloc; (SLOTS, OPEN), (SLOTS + 1, OPEN)]?;
    turns.reserve(alloc, clerk, 0)?;
    if !take_unmade(rt, turns, clerk) {
        return Ok(None);
    }
    let change = Change {
        parts,
        messages: Vec::new(alloc),
    };
    let Committed::At(_) = turns.commit(clerk, Entry::Make, change) else {
        return Ok(None);
    };
    turns.give_back(clerk, SLOTS);
    turns.give_back(clerk, SLOTS + 1);
    Ok(Some(count_made(turns, clerk, EDT, 2)))
}

// Draws the number of the EDT and takes the parts of its slots, where these are not made.
fn take_unmade<R: Wait>(rt: &R, turns: &Turns<Toy>, clerk: &mut Clerk<Toy>) -> bool
    requires idle { IsIdle turns.now clerk.old }
    ensures { result ≡ true → CanMake turns.now clerk.old clerk.new }
{
    let Drawn::Place(2) = turns.draw(clerk) else {
        return false;
    };
    let Taken::Mine = turns.take(rt, clerk, SLOTS) else {
        return false;
    };
    let Taken::Mine = turns.take(rt, clerk, SLOTS + 1) else {
        return false;
    };
    *clerk.part(SLOTS) == UNMADE && *clerk.part(SLOTS + 1) == UNMADE
}

/// Sets a slot and puts its payload. `false`, where the slot is not open.
pub fn fill<R: Wait>(
    rt: &R,
    alloc: Global,
    turns: &Turns<Toy>,
    clerk: &mut Clerk<Toy>,
    slot: u32,
    payload: u64,
) -> Result<bool, NoMemory>
    requires { CanSet turns.now slot clerk.old }
    ensures { IfOk result (λ done. done ≡ true → Owes turns.now ((2, slot, payload) ∷ []) clerk.new
        × (clerk.new.view.weight ≡ clerk.old.view.weight + 1)
        × (clerk.new.view.facts ≡ clerk.old.view.facts ++ (2, slot, payload) ∷ [])
        × (clerk.old.view.spares ≤ clerk.new.view.spares + 1)) }
{
    let place = SLOTS + slot as u64;
    let parts = vec![in alloc; (place, FILLED)]?;
    turns.reserve(alloc, clerk, 0)?;
    let Taken::Mine = turns.take(rt, clerk, place) else {
        return Ok(false);
    };
    if *clerk.part(place) != OPEN {
        return Ok(false);
    }
    let change = Change {
        parts,
        messages: Vec::new(alloc),
    };
    let Committed::At(_) = turns.commit(clerk, Entry::Set { slot, payload }, change) else {
        return Ok(false);
    };
    turns.give_back(clerk, place);
    put_payload(turns, clerk, EDT, slot, payload);
    Ok(true)
}

/// Sets a slot, puts its payload and counts it. `None`, where the slot is not open.
pub fn set<R: Wait>(
    rt: &R,
    alloc: Global,
    turns: &Turns<Toy>,
    clerk: &mut Clerk<Toy>,
    slot: u32,
    payload: u64,
) -> Result<Option<Down>, NoMemory>
    requires { CanSet turns.now slot clerk.old }
    ensures { IfOk result (λ r. MatchOption r (Unit {0}) (λ _. IsIdle turns.now clerk.new
        × (clerk.new.view.weight ≡ clerk.old.view.weight + 1)
        × (clerk.new.view.facts ≡ clerk.old.view.facts ++ (2, slot, payload) ∷ [])
        × (clerk.old.view.spares ≤ clerk.new.view.spares + 1))) }
{
    if !fill(rt, alloc, turns, clerk, slot, payload)? {
        return Ok(None);
    }
    Ok(Some(count_down(turns, clerk, EDT)))
}

/// A clerk with the slot that it is to set.
#[derive(Drop)]
pub struct Setter {
    pub slot: u32,
    pub clerk: Clerk<Toy>,
}

/// Lets each clerk set its slot, each in a thread.
pub fn set_all<R: Threads + Wait + Sync>(
    rt: &R,
    alloc: Global,
    turns: &Turns<Toy>,
    setters: Vec<Setter>,
) -> Result<Vec<Option<Down>>, AllocError>
    requires { All (λ s. CanSet turns.now s.slot s.clerk) setters.items }
{
    thread::map_vec(
        rt,
        setters,
        &|setter: Setter| -> Option<Down>
            requires { CanSet turns.now setter.slot setter.clerk }
        {
            let Setter { slot, mut clerk } = setter;
            match set(rt, alloc, turns, &mut clerk, slot, 7) {
                Ok(answer) => answer,
                Err(NoMemory) => None,
            }
        },
    )
}

/// Makes the EDT, and lets two threads set its slots: what their countdowns answer.
pub fn race<R: Threads + Wait + Sync>(
    rt: &R,
    alloc: Global,
) -> Result<Option<Vec<Option<Down>>>, NoMemory> {
    let (turns, mut root) = open(alloc)?;
    let Some(_) = make(rt, alloc, &turns, &mut root)? else {
        return Ok(None);
    };
    let first = split_live(&turns, alloc, &mut root)?;
    let second = split_live(&turns, alloc, &mut root)?;
    let setters = vec![in alloc;
        Setter {
            slot: 0,
            clerk: first
        },
        Setter {
            slot: 1,
            clerk: second
        },
    ]?;
    Ok(Some(set_all(rt, alloc, &turns, setters)?))
}

/// Claims the EDT, and reads its payloads. `Err` has the EDT's word, where it is not ready.
pub fn claim_and_read(
    turns: &Turns<Toy>,
    clerk: &mut Clerk<Toy>,
    first: u64,
    second: u64,
) -> Result<(u64, u64), u64>
    requires idle { IsIdle turns.now clerk.old }
    requires light { clerk.old.view.weight + 2 ≤ turns.now.1.share }
    requires facts { clerk.old.view.facts ≡ (2, 0, first) ∷ (2, 1, second) ∷ [] }
    ensures claimed { IfOk result (λ _. CanWait turns.now first second clerk.new) }
{
    match claim(turns, clerk, EDT) {
        Claimed::Won => {
            let zeroth = payload(turns, clerk, EDT, 0);
            Ok((zeroth, payload(turns, clerk, EDT, 1)))
        }
        Claimed::Lost(word) => Err(word),
    }
}

/// Lets the claimed EDT wait, and parks it. `false`, where it waits.
pub fn wait<R: Wait>(
    rt: &R,
    alloc: Global,
    turns: &Turns<Toy>,
    clerk: &mut Clerk<Toy>,
    first: u64,
    second: u64,
) -> Result<bool, NoMemory>
    requires { CanWait turns.now first second clerk.old }
    ensures { IfOk result (λ done. done ≡ true → CanWake turns.now clerk.new) }
{
    let parts = vec![in alloc; (WAITS, WAITING)]?;
    turns.reserve(alloc, clerk, 0)?;
    let Taken::Mine = turns.take(rt, clerk, WAITS) else {
        return Ok(false);
    };
    if *clerk.part(WAITS) != 0 {
        return Ok(false);
    }
    let change = Change {
        parts,
        messages: Vec::new(alloc),
    };
    let Committed::At(_) = turns.commit(clerk, Entry::Wait, change) else {
        return Ok(false);
    };
    park(turns, clerk, EDT);
    Ok(true)
}

/// Resumes the EDT.
pub fn wake(alloc: Global, turns: &Turns<Toy>, clerk: &mut Clerk<Toy>) -> Result<bool, NoMemory>
    requires { CanWake turns.now clerk.old }
    ensures { IfOk result (λ done. done ≡ true → IsOfTable turns.now clerk.new) }
{
    let parts = vec![in alloc; (WAITS, 0)]?;
    turns.reserve(alloc, clerk, 0)?;
    let change = Change {
        parts,
        messages: Vec::new(alloc),
    };
    let Committed::At(_) = turns.commit(clerk, Entry::Wake, change) else {
        return Ok(false);
    };
    resume(turns, clerk, EDT);
    Ok(true)
}

/// Lets the claimed EDT wait, tries a claim, resumes it and claims it: the word that the first
/// claim met, where the second was won.
pub fn rest<R: Wait>(
    rt: &R,
    alloc: Global,
    turns: &Turns<Toy>,
    clerk: &mut Clerk<Toy>,
    first: u64,
    second: u64,
) -> Result<Option<u64>, NoMemory>
    requires { CanWait turns.now first second clerk.old }
    ensures { IfOk result (λ r. MatchOption r (Unit {0}) (λ _. IsOfTable turns.now clerk.new)) }
{
    if !wait(rt, alloc, turns, clerk, first, second)? {
        return Ok(None);
    }
    let Claimed::Lost(parked) = claim(turns, clerk, EDT) else {
        return Ok(None);
    };
    if !wake(alloc, turns, clerk)? {
        return Ok(None);
    }
    match claim(turns, clerk, EDT) {
        Claimed::Won => Ok(Some(parked)),
        Claimed::Lost(_) => Ok(None),
    }
}
