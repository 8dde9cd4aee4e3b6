//! Replays journals that are made for it. The words are a case, its size, how often its journal is
//! replayed, and, where it is not as many as the journal makes, the limit of objects; for the case
//! `each` all cases are replayed, each of this size. It prints for each case how many entries its
//! journal has, how many objects these make, and what replay says of them.
#![tactic(auto)]

mod blocks;
mod cases;
mod events;
mod journal;
mod prints;
mod scopes;

ghost use Rattle.std.specs.Prelude.{◌≤◌, IfOk};

use cases::{CASES, Case, journal_of, text_of};
use journal::Journal;
use ocr_body_code::Checked;
use ocr_program::parse;
use ocr_program_check::check;
use ocr_replay::{ReplayStop, replay};
use ocr_text::tokens;
use std::alloc::Global;
use std::io::{Error, ErrorKind};
use std::{env, io};

// The most objects that a replay takes.
const MOST_OBJECTS: u64 = 65_536;

// The program that a text is.
fn program(alloc: Global, text: &str) -> io::Result<Checked> {
    let bytes = text.as_bytes();
    let Ok(tokens) = tokens(alloc, bytes) else {
        return Err(Error::from(ErrorKind::InvalidData));
    };
    let Ok(program) = parse(alloc, bytes, &tokens) else {
        return Err(Error::from(ErrorKind::InvalidData));
    };
    if program.functions.len() > 10 {
        return Err(Error::from(ErrorKind::InvalidData));
    }
    match check(alloc, program) {
        Ok(checked) => Ok(checked),
        Err(_) => Err(Error::from(ErrorKind::InvalidData)),
    }
}

// What replay says so often, with this limit of objects; its last word.
fn replayed(
    alloc: Global,
    program: &Checked,
    journal: &Journal,
    limit: u64,
    size: u32,
    rounds: u32,
) -> io::Result<Result<(), ReplayStop>> {
    if limit < 2 || limit > MOST_OBJECTS {
        return Err(Error::from(ErrorKind::InvalidInput));
    }
    let args = [u64::from(size)];
    let mut outcome = Ok(());
    for _ in 0..rounds {
        outcome = replay(alloc, program, &args, limit, &journal.entries);
    }
    Ok(outcome)
}

fn measure(
    rt: &HostRuntime,
    name: &str,
    case: Case,
    size: u32,
    rounds: u32,
    objects: u32,
) -> io::Result<()> {
    let alloc = rt.alloc();
    let program = program(alloc, text_of(case))?;
    let Ok(journal) = journal_of(alloc, case, size) else {
        return Err(Error::from(ErrorKind::OutOfMemory));
    };
    let limit = journal.objects.max(u64::from(objects));
    let outcome = replayed(alloc, &program, &journal, limit, size, rounds)?;
    println!(rt;
        "{name} {} {} {outcome:?}",
        journal.entries.len(),
        journal.objects
    )
}

// The number that a word is.
fn number(rt: &HostRuntime, place: usize) -> io::Result<u32> {
    let Some(word) = env::args(rt)?.nth(place) else {
        return Err(Error::from(ErrorKind::InvalidInput));
    };
    match word.parse::<u32>() {
        Ok(number) => Ok(number),
        Err(_) => Err(Error::from(ErrorKind::InvalidInput)),
    }
}

fn main(rt: HostRuntime) -> io::Result<()> {
    let Some(word) = env::args(&rt)?.nth(1) else {
        return Err(Error::from(ErrorKind::InvalidInput));
    };
    let size = number(&rt, 2)?;
    let rounds = number(&rt, 3)?;
    let objects = number(&rt, 4).unwrap_or(0);
    for (name, case) in CASES {
        if word.as_str() == "each" || word.as_str() == name {
            measure(&rt, name, case, size, rounds, objects)?;
        }
    }
    Ok(())
}
