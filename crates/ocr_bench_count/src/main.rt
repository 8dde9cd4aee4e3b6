//! Fills a slot in each of so many tables, as its first word says, and counts it where the second
//! word is 1. It prints how many slots were left to be counted, all in all.
#![tactic(auto)]

use ocr_base::NoMemory;
use ocr_count::{Down, count_down};
use ocr_tests_count::{EDT, fill, make, open};
use std::alloc::Global;
use std::io::{Error, ErrorKind};
use std::sync::Wait;
use std::{env, io};

// What one countdown leaves, where it is made.
fn left<R: Wait>(rt: &R, alloc: Global, counts: bool) -> Result<u64, NoMemory> {
    let (turns, mut clerk) = open(alloc)?;
    let Some(_) = make(rt, alloc, &turns, &mut clerk)? else {
        return Ok(0);
    };
    if !fill(rt, alloc, &turns, &mut clerk, 0, 7)? || !counts {
        return Ok(0);
    }
    match count_down(&turns, &mut clerk, EDT) {
        Down::Last => Ok(0),
        Down::More(left) => Ok(left),
    }
}

fn all_left<R: Wait>(rt: &R, alloc: Global, tables: u32, counts: bool) -> Result<u64, NoMemory> {
    let mut sum = 0u64;
    for _ in 0..tables {
        sum = sum.wrapping_add(left(rt, alloc, counts)?);
    }
    Ok(sum)
}

// The number that this word is.
fn number(rt: &HostRuntime, place: usize) -> io::Result<u32> {
    let Some(word) = env::args(rt)?.nth(place) else {
        return Err(Error::from(ErrorKind::InvalidInput));
    };
    match word.parse::<u32>() {
        Ok(number) => Ok(number),
        Err(_) => Err(Error::from(ErrorKind::InvalidInput)),
    }
}

fn main(rt: HostRuntime) -> io::Result<()> {
    let tables = number(&rt, 1)?;
    let counts = number(&rt, 2)? == 1;
    let Ok(sum) = all_left(&rt, rt.alloc(), tables, counts) else {
        return Err(Error::from(ErrorKind::OutOfMemory));
    };
    println!(rt; "{sum}")
}
