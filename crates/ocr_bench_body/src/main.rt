//! Runs a body whose EDT holds a block in `Ew`, on loan. The first word says what its loop does in
//! each turn, or `asks` where the Api is asked for loads without a body, or `tells` for stores; the
//! second word is how many turns there are. It prints what the body returns.
#![tactic(auto)]

mod loans;

ghost use Rattle.std.specs.Prelude.{◌≡◌, [], IfOk};
ghost use Rattle.ocr_bench_body.specs.Loans.{AreIsolated, IsBegun};

use loans::{Held, Lending};
use ocr_acquire::Mode;
use ocr_base::NoMemory;
use ocr_body::{BodyStop, Checked, walk};
use ocr_body_steps::Api;
use ocr_datablock::Block;
use ocr_guid::Guid;
use ocr_program::parse;
use ocr_program_check::{CheckStop, check};
use ocr_text::tokens;
use std::alloc::Global;
use std::io::{Error, ErrorKind};
use std::{env, io};

const EDT: Guid = Guid(2);

const BLOCK: Guid = Guid(9);

const WORDS: u32 = 16;

// What the loop of a body does in each turn.
fn turn_of(word: &str) -> Option<&'static str> {
    if word == "unit" || word == "asks" || word == "tells" {
        return Some("");
    }
    if word == "mixed" {
        return Some("j = (j * 3 + i) % 1000003; if j < 500000 { k = k + j; } else { k = k - 1; }");
    }
    if word == "copy" {
        return Some("j = k;");
    }
    if word == "load" {
        return Some("j = load(depv[0], k);");
    }
    if word == "sum" {
        return Some("j = j + load(depv[0], k);");
    }
    if word == "store" {
        return Some("store(depv[0], k, i);");
    }
    None
}

fn program(alloc: Global, turn: &str, turns: u64) -> io::Result<Checked> {
    let text = format!(in alloc;
        "fn mainEdt {{ let j = 7; let k = 0; let i = 0; \
        while i < {turns} {{ i = i + 1; {turn} }} return k + j; }}"
    )?;
    let bytes = text.as_bytes();
    let Ok(tokens) = tokens(alloc, bytes) else {
        return Err(Error::from(ErrorKind::InvalidData));
    };
    let Ok(program) = parse(alloc, bytes, &tokens) else {
        return Err(Error::from(ErrorKind::InvalidData));
    };
    if program.functions.len() > 1 {
        return Err(Error::from(ErrorKind::InvalidData));
    }
    match check(alloc, program) {
        Ok(checked) => Ok(checked),
        Err(_) => Err(Error::from(ErrorKind::Unsupported)),
    }
}

// One block is held in `Ew`, as it was acquired.
fn holding<'a>(
    alloc: Global,
    program: &'a Checked,
    deps: &'a [Guid],
    fuel: u64,
) -> Result<Lending<'a>, NoMemory>
    ensures begun { IfOk result IsBegun }
    ensures program { IfOk result (λ l. l.program.now ≡ program.now) }
    ensures deps { IfOk result (λ l. l.deps.now ≡ deps.now) }
    ensures fuel { IfOk result (λ l. l.fuel ≡ fuel) }
{
    let mut block = Block::new(alloc, WORDS, Guid::NULL)?;
    let _ = block.ask(alloc, EDT, Mode::Ew)?;
    let mut held = Vec::new(alloc);
    held.push(Held {
        block: BLOCK,
        loan: block.lend(EDT),
    })?;
    Ok(Lending {
        alloc,
        program,
        deps,
        fuel,
        held,
        closings: 0,
    })
}

// The last of so many loads.
#[tactic(auto, using(crate::proofs::Lends::no_load))]
fn asked(api: &mut Lending, turns: u64) -> Result<u64, BodyStop>
    requires { AreIsolated api.old.held.items }
{
    let mut value = 0;
    for _ in 0..turns {
        value = api.load(BLOCK, 0)?;
    }
    Ok(value)
}

// So many stores.
#[tactic(auto, using(crate::proofs::Lends::no_store))]
fn told(api: &mut Lending, turns: u64) -> Result<u64, BodyStop>
    requires { AreIsolated api.old.held.items }
{
    for i in 0..turns {
        api.store(BLOCK, 0, i)?;
    }
    Ok(0)
}

// What a body returns, or the last of so many loads or stores of the Api by itself.
fn walked(alloc: Global, program: &Checked, kind: &str, turns: u64) -> Result<u64, BodyStop> {
    if program.count() == 0 {
        return Err(BodyStop::Closed);
    }
    let deps = [BLOCK];
    let fuel = u64::MAX;
    let mut api = holding(alloc, program, &deps, fuel)?;
    if kind == "asks" {
        return asked(&mut api, turns);
    }
    if kind == "tells" {
        return told(&mut api, turns);
    }
    let returned = walk(alloc, program, 1, &[], &deps, fuel, &mut api)?;
    Ok(returned.0)
}

// The word at this place.
fn word(rt: &HostRuntime, place: usize) -> io::Result<String> {
    match env::args(rt)?.nth(place) {
        Some(word) => Ok(word),
        None => Err(Error::from(ErrorKind::InvalidInput)),
    }
}

fn main(rt: HostRuntime) -> io::Result<()> {
    let alloc = rt.alloc();
    let kind = word(&rt, 1)?;
    let Ok(turns) = word(&rt, 2)?.parse::<u64>() else {
        return Err(Error::from(ErrorKind::InvalidInput));
    };
    let Some(turn) = turn_of(kind.as_str()) else {
        return Err(Error::from(ErrorKind::InvalidInput));
    };
    let program = program(alloc, turn, turns)?;
    match walked(alloc, &program, kind.as_str(), turns) {
        Ok(value) => println!(rt; "{value}"),
        Err(stop) => println!(rt; "{stop:?}"),
    }
}
