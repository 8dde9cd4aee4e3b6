//! The program: `ocr run` reads a task program on standard input, runs it by workers in threads of
//! their own, and writes what it prints.
#![tactic(auto)]

ghost use Rattle.std.specs.Prelude.{◌≡◌, IfOk, drop};
ghost use Rattle.std.specs.Vec.Iter.{into_iter_items};
ghost use Rattle.ocr_base.specs.Count.{Rose};
ghost use Rattle.ocr_run.specs.Headline.{IsTold};

use ocr_io::{Sink, StderrSink, StdinSource, StdoutSink, write_all};
use ocr_run::{NoGate, ocr_main};
use std::alloc::{AllocError, Global};
use std::env::Args;
use std::io::ErrorKind;
use std::mem::ManuallyDrop;
use std::process::ExitCode;
use std::{env, io};

fn main(rt: HostRuntime) -> ExitCode {
    let mut input = StdinSource::new(rt.stdin());
    let mut out = StdoutSink::new(rt.stdout());
    let mut err = StderrSink::new(rt.stderr());
    let status = match words(&rt) {
        Ok(words) => {
            let ended = ocr_main(
                &rt,
                rt.alloc(),
                &words,
                &mut input,
                &mut out,
                &mut err,
                &NoGate,
            );
            // The process ends here, which gives back all memory at once.
            ManuallyDrop::new(ended).status
        }
        Err(error) if error.kind() == ErrorKind::OutOfMemory => {
            refuse(&mut err, 9, b"want of memory\n")
        }
        // A word is no text.
        Err(_) => refuse(&mut err, 2, b"words refused\n"),
    };
    ExitCode::from(status)
}

// The words after the program's name.
fn words(rt: &HostRuntime) -> io::Result<Vec<String>> {
    let args = env::args(rt)?;
    Ok(words_in(rt.alloc(), args)?)
}

// The words in the arguments, the first of which is the program's name.
fn words_in(alloc: Global, args: Args) -> Result<Vec<String>, AllocError>
    ensures { IfOk result (λ v. v.items ≡ drop 1 (into_iter_items args)) }
{
    args.skip(1).collect(alloc)
}

// The end where no words came. A write that fails there changes nothing else.
#[tactic(auto, using(ocr_run::proofs::Told::told_whole, ocr_run::proofs::Told::told_front))]
fn refuse<E: Sink>(err: &mut E, status: u8, line: &[u8]) -> u8
    ensures status { result ≡ status }
    ensures told { IsTold (E.taken err.old) (E.taken err.new)
        (Rose (E.failures err.old) (E.failures err.new)) line.now }
{
    let _ = write_all(err, line);
    status
}
