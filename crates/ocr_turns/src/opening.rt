// A table at the opening.
ghost use Rattle.ocr_turns_rule.specs.declared.view.Terms.{Terms};
ghost use Rattle.std.specs.Prelude.{[], ◌≡◌, ◌<◌, ◌≤◌, ◌+◌, ◌*◌, ◌∷◌, ◌++◌, ℕ, Some, replicate, length, vec_len, IfOk};
ghost use mathlib.Core.Option.{some};
ghost use lib.ListN.{get_elem?};
ghost use Rattle.ocr_turns_rule.specs.Steps as steps;
ghost use Rattle.ocr_turns_rule.specs.Contract.{OpensWith, TermsAre, faces};
ghost use Rattle.ocr_turns_rule.specs.Beginning.{IsLaidOut, front_words, unmade_words};
ghost use Rattle.ocr_turns_rule.specs.Openings.{placed};

use crate::clerk::Clerk;
use crate::log::Log;
use crate::owed::Owed;
use crate::take::TURNS;
use crate::turns::{DRAW, LIVE, Turns};
use atomic_table::{Seat, Table};
use ocr_base::NoMemory;
use ocr_turns_rule::{Machine, Terms};
use std::alloc::{AllocError, Global};
use std::snapshot::Snapshot;

/// How many parts a clerk may keep from the start on.
pub(crate) const KEPT: usize = 64;

impl<M: Machine> Turns<M> {
    /// A table with the parts of the opening, each at its place, and `vacant` at every other. As
    /// many numbers count as drawn as the opening has objects. The clerk is the root. Only clauses
    /// keep the setting.
    pub fn new(
        alloc: Global,
        setting: &M::Setting,
        opening: Vec<(u64, M::Part)>,
        limit: u64,
        share: u64,
        seats: u32,
    ) -> Result<(Turns<M>, Clerk<M>), NoMemory>
        requires { (t : Terms M.Setting) → TermsAre t setting.now limit share seats
            → OpensWith M.meaning t opening.items }
        ensures table { IfOk result (λ t. TermsAre t.0.1 setting.now limit share seats) }
        ensures root { IfOk result (λ t. (t.1.table ≡ t.0.0) × (t.1.view ≡ steps.rooted t.0.1)
            × (t.1.parts ≡ []) × (1 ≤ t.1.room) × (64 ≤ t.1.spare)) }
    {
        let terms = Terms {
            setting: Snapshot::of(setting),
            limit,
            share,
            seats: seats as u64,
        };
        let words = first_words(
            alloc,
            limit as usize,
            face_count(opening.as_slice(), limit),
            M::first(),
        )?;
        let parts = first_parts::<M>(alloc, opening, limit as usize)?;
        let log = Log::with_capacity(alloc, 1)?;
        let kept = Vec::with_capacity(alloc, KEPT)?;
        match Table::new(alloc, words.as_slice(), parts, &terms) {
            Ok((table, seat)) => Ok((
                Turns {
                    table,
                    limit,
                    share,
                },
                Clerk {
                    seat,
                    log,
                    joined: Vec::new(alloc),
                    parts: kept,
                    emptied: Vec::new(alloc),
                    owed: Owed::new(alloc),
                    weight: 0,
                    closed: None,
                    full: None,
                    units: 1,
                },
            )),
            Err(_) => Err(NoMemory),
        }
    }
}

// How many of the parts are faces of objects.
fn face_count<P>(opening: &[(u64, P)], limit: u64) -> u64
    ensures { result ≡ faces limit opening.now }
{
    let mut count = 0;
    for i in 0..opening.len() {
        if opening[i].0 <= limit {
            count += 1;
        }
    }
    count
}

// The words of a table: the commit word, the draw word, a turn word for each place, all free, and
// the words that count, where the first EDT alone is made and ready.
fn first_words(
    alloc: Global,
    limit: usize,
    drawn: u64,
    first: (u64, u64),
) -> Result<Vec<u64>, AllocError>
    requires limit { limit ≤ 65536 }
    requires first { (1 ≤ first.0) × (first.0 ≤ limit) }
    ensures { IfOk result (λ v. IsLaidOut first limit drawn v.items) }
{
    let mut words = bare_words(alloc, limit, drawn)?;
    let state = TURNS + 2 * limit + 1 + 33 * (first.0 as usize - 1);
    words[state] = 0;
    words[state + 1] = first.1;
    Ok(words)
}

// The same where no EDT is made.
fn bare_words(alloc: Global, limit: usize, drawn: u64) -> Result<Vec<u64>, AllocError>
    requires { limit ≤ 65536 }
    ensures { IfOk result (λ v. v.items ≡ front_words drawn limit ++ unmade_words limit) }
{
    let mut unmade = [0; 33];
    unmade[0] = 33;
    let mut words = vec![in alloc; 0; DRAW]?;
    words.push(drawn)?;
    words.resize(LIVE, 0)?;
    words.push(2)?;
    words.resize(TURNS + 2 * limit + 1, 0)?;
    for _ in 0..limit {
        words.extend_from_slice(&unmade)?;
    }
    Ok(words)
}

// The parts of all places.
fn first_parts<M: Machine>(
    alloc: Global,
    opening: Vec<(u64, M::Part)>,
    limit: usize,
) -> Result<Vec<Option<M::Part>>, NoMemory>
    requires { (limit ≤ 65536) × ((k p : ℕ) (x : M.Part) → get_elem? opening.items k ≡ some (p, x)
        → p ≤ 2 * limit) }
    ensures { IfOk result
        (λ v. v.items ≡ placed opening.items (replicate (2 * limit + 1) (Some M.meaning.vacant))) }
{
    let mut parts = vacant_parts::<M>(alloc, 2 * limit + 1)?;
    for (place, part) in opening {
        parts[place as usize] = Some(part);
    }
    Ok(parts)
}

fn vacant_parts<M: Machine>(alloc: Global, count: usize) -> Result<Vec<Option<M::Part>>, AllocError>
    ensures { IfOk result (λ v. v.items ≡ replicate count (Some M.meaning.vacant)) }
{
    let mut parts = Vec::with_capacity(alloc, count)?;
    while parts.len() < count {
        parts.push_reserved(Some(M::vacant()));
    }
    Ok(parts)
}
