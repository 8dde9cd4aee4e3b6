//! So many clerks of the toy machine, each in a thread, take a place and give it back so often, and
//! make so many entries then, as the program's words say; prints how many entries the run has.
#![tactic(auto)]

ghost use Rattle.std.specs.Prelude.{◌<◌, IfOk};

use ocr_tests_turns::{Plan, run};
use std::io::{Error, ErrorKind};
use std::{env, io};

// The number that this word is.
fn number(rt: &HostRuntime, place: usize) -> io::Result<u64> {
    let Some(word) = env::args(rt)?.nth(place) else {
        return Err(Error::from(ErrorKind::InvalidInput));
    };
    match word.parse::<u64>() {
        Ok(number) => Ok(number),
        Err(_) => Err(Error::from(ErrorKind::InvalidInput)),
    }
}

// How many clerks there are to be.
fn clerks(rt: &HostRuntime) -> io::Result<u32>
    ensures { IfOk result (λ n. n < 128) }
{
    let count = number(rt, 1)?;
    if count >= 128 {
        return Err(Error::from(ErrorKind::InvalidInput));
    }
    Ok(count as u32)
}

fn main(rt: HostRuntime) -> io::Result<()> {
    let plan = Plan {
        threads: clerks(&rt)?,
        visits: number(&rt, 2)?,
        turns: number(&rt, 3)?,
        stop_after: None,
    };
    let Ok(ran) = run(&rt, rt.alloc(), &plan) else {
        return Err(Error::from(ErrorKind::OutOfMemory));
    };
    println!(rt; "{}", ran.entries)
}
