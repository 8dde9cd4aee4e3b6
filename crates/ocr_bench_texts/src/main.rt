//! Makes a journal of five entries for each of so many EDTs, as its first word says, and of it, as
//! its second word says, nothing (0), its text (1) or its reports (2). Prints how many entries
//! there are, and how many bytes.
#![tactic(auto)]

ghost use Rattle.std.specs.Prelude.{◌≡◌, ◌<◌, IfOk};

use ocr_base::{NoMemory, Seq};
use ocr_body_meaning::{Answer, Call};
use ocr_guid::{Code, Guid};
use ocr_journal::journal_text;
use ocr_machine_history::{Entry, Journal, Message, What, Writes};
use ocr_program_tree::{Function, Name, Program};
use ocr_report::{left_text, refused_text, stale_text, summary_text};
use std::alloc::Global;
use std::io::{Error, ErrorKind};
use std::{env, io};

const MAIN: Guid = Guid(2);

const TEMPLATE: u64 = 3;

fn program(alloc: Global) -> Result<Program, NoMemory> {
    let mut name = Vec::new(alloc);
    name.extend_from_slice(b"mainEdt")?;
    let mut functions = Vec::new(alloc);
    functions.push(Function {
        name: Name::from_vec(name),
        body: Vec::new(alloc),
    })?;
    Ok(Program { functions })
}

fn call(alloc: Global, edt: Guid, call: Call, value: u64) -> Entry {
    Entry::Call {
        edt,
        home: Guid::NULL,
        call,
        answer: Answer {
            code: Code::Done,
            value,
            scope: Guid::NULL,
            output: Guid::NULL,
        },
        writes: Writes::none(alloc),
    }
}

fn creation(alloc: Global) -> Result<Call, NoMemory> {
    let mut deps = Vec::new(alloc);
    deps.push(0)?;
    Ok(Call::EdtCreate {
        template: TEMPLATE,
        paramc: 0,
        params: Seq::new(alloc),
        depc: 1,
        deps: Seq::from_vec(deps),
        flags: 0,
        output: false,
    })
}

fn set(edt: Guid, place: u64) -> Entry {
    Entry::Deliver {
        message: Message {
            place,
            index: 0,
            what: What::Set {
                edt,
                slot: 0,
                payload: Guid::NULL,
            },
        },
        code: Code::Done,
    }
}

fn journal(alloc: Global, edts: u64) -> Result<Journal, NoMemory>
    requires { edts < 65536 }
{
    let mut entries = Vec::new(alloc);
    let template = Call::TemplateCreate {
        function: 1,
        paramc: 0,
        depc: 1,
    };
    entries.push(call(alloc, MAIN, template, TEMPLATE))?;
    for number in 0..edts {
        let edt = Guid(TEMPLATE + 1 + number);
        entries.push(call(alloc, MAIN, creation(alloc)?, edt.0))?;
        entries.push(set(edt, 1 + number * 5))?;
        entries.push(Entry::Start { edt })?;
        entries.push(call(alloc, edt, Call::Print { value: number }, 0))?;
        entries.push(Entry::End {
            edt,
            returned: Guid::NULL,
        })?;
    }
    Ok(Journal::from_vec(entries))
}

// How many bytes the reports have, but for that on blocks, which is of a run alone.
fn reports(alloc: Global, journal: &Journal) -> Result<u64, NoMemory> {
    let mut bytes: u64 = 0;
    bytes = bytes.wrapping_add(summary_text(alloc, journal)?.len() as u64);
    bytes = bytes.wrapping_add(left_text(alloc, journal)?.len() as u64);
    bytes = bytes.wrapping_add(stale_text(alloc, journal)?.len() as u64);
    Ok(bytes.wrapping_add(refused_text(alloc, journal)?.len() as u64))
}

fn measured(alloc: Global, edts: u64, what: u64) -> Result<(u64, u64), NoMemory>
    requires { edts < 65536 }
{
    let journal = journal(alloc, edts)?;
    let bytes = match what {
        0 => 0,
        1 => journal_text(alloc, &journal, &program(alloc)?)?.len() as u64,
        _ => reports(alloc, &journal)?,
    };
    Ok((journal.entries().len() as u64, bytes))
}

// The number that a word is.
fn number(rt: &HostRuntime, place: usize) -> io::Result<u64>
    ensures { IfOk result (λ number. number < 65536) }
{
    let Some(word) = env::args(rt)?.nth(place) else {
        return Err(Error::from(ErrorKind::InvalidInput));
    };
    match word.parse::<u64>() {
        Ok(number) if number < 65_536 => Ok(number),
        _ => Err(Error::from(ErrorKind::InvalidInput)),
    }
}

fn main(rt: HostRuntime) -> io::Result<()> {
    let edts = number(&rt, 1)?;
    let what = number(&rt, 2)?;
    let Ok((entries, bytes)) = measured(rt.alloc(), edts, what) else {
        return Err(Error::from(ErrorKind::OutOfMemory));
    };
    println!(&rt; "{} {}", entries, bytes)
}
