//! Pushes so many EDTs to a deque, takes so many and steals so many, as its words say, and prints
//! the sum of their names.
#![tactic(auto)]

ghost use Rattle.std.specs.Prelude.{◌≡◌};
ghost use Rattle.ocr_steal.specs.Pool.{IsOfPool, hands_in};

use ocr_guid::Guid;
use ocr_steal::{Hand, Pool, Steal};
use std::alloc::Global;
use std::io::{Error, ErrorKind};
use std::{env, io};

fn sum_stolen(pool: &Pool, thief: &mut Hand, steals: u32) -> u64
    requires { IsOfPool pool.now thief.old × (thief.old.number ≡ 1) × (hands_in pool.now ≡ 2) }
{
    let mut sum = 0u64;
    for _ in 0..steals {
        if let Steal::Got(edt) = thief.steal(pool, 0) {
            sum = sum.wrapping_add(edt.0);
        }
    }
    sum
}

// The deque has room for them all.
fn push_all(alloc: Global, owner: &mut Hand, pushes: u32) {
    for number in 0..pushes {
        let _ = owner.push(alloc, Guid(u64::from(number) + 1));
    }
}

fn sum_taken(owner: &mut Hand, takes: u32) -> u64 {
    let mut sum = 0u64;
    for _ in 0..takes {
        if let Some(edt) = owner.take() {
            sum = sum.wrapping_add(edt.0);
        }
    }
    sum
}

fn moved(rt: &HostRuntime, pushes: u32, takes: u32, steals: u32) -> io::Result<()> {
    let alloc = rt.alloc();
    let Ok((pool, mut hands)) = Pool::new(alloc, 2, pushes) else {
        return Err(Error::from(ErrorKind::OutOfMemory));
    };
    push_all(alloc, &mut hands[0], pushes);
    let taken = sum_taken(&mut hands[0], takes);
    let stolen = sum_stolen(&pool, &mut hands[1], steals);
    println!(rt; "{}", taken.wrapping_add(stolen))
}

// The number that this word is.
fn number(rt: &HostRuntime, place: usize) -> io::Result<u32> {
    let Some(word) = env::args(rt)?.nth(place) else {
        return Err(Error::from(ErrorKind::InvalidInput));
    };
    match word.parse::<u32>() {
        Ok(number) => Ok(number),
        Err(_) => Err(Error::from(ErrorKind::InvalidInput)),
    }
}

fn main(rt: HostRuntime) -> io::Result<()> {
    let pushes = number(&rt, 1)?;
    let takes = number(&rt, 2)?;
    let steals = number(&rt, 3)?;
    moved(&rt, pushes, takes, steals)
}
