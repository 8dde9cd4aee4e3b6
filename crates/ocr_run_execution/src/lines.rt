// The lines on `err`.
ghost use Rattle.std.specs.Prelude.{◌≡◌, ◌++◌, IfOk};
ghost use Rattle.std.specs.Fmt.{decimal};
ghost use Rattle.ocr_run_execution.specs.Lines.{numbered, fault_words, stop_line, fault_line};
ghost use Rattle.ocr_run_execution.specs.Ending.{end_line};

use crate::ending::Ending;
use crate::text::TextFault;
use ocr_guid::Guid;
use ocr_machine_history::{Fault, Stop};
use ocr_program_check::CheckFault;
use std::alloc::{AllocError, Global};

// Words, a number, and more.
fn joined(alloc: Global, words: &[u8], number: u64, rest: &[u8]) -> Result<Vec<u8>, AllocError>
    ensures { IfOk result (λ line. line.items ≡ words.now ++ (decimal number ++ rest.now)) }
{
    let text = number.to_string(alloc)?;
    let mut line = words.to_vec(alloc)?;
    line.extend_from_slice(text.as_bytes())?;
    line.extend_from_slice(rest)?;
    Ok(line)
}

// A line of words and a number.
fn line_with(alloc: Global, words: &[u8], number: u64) -> Result<Vec<u8>, AllocError>
    ensures { IfOk result (λ line. line.items ≡ numbered words.now number) }
{
    joined(alloc, words, number, b"\n")
}

// A fault in a body, in words.
fn words_of(fault: Fault) -> &'static [u8]
    ensures { result.now ≡ fault_words fault }
{
    match fault {
        Fault::ZeroDivisor => b"zero divisor",
        Fault::BadIndex => b"bad index",
        Fault::NotHeld => b"not held",
        Fault::NotWritable => b"not writable",
        Fault::Fuel => b"fuel",
    }
}

// The line of a fault in an EDT's body.
fn fault_in_edt(alloc: Global, edt: Guid, fault: Fault) -> Result<Vec<u8>, AllocError>
    ensures { IfOk result (λ line. line.items ≡ stop_line (Stop.Fault edt fault)) }
{
    let mut end = b": ".to_vec(alloc)?;
    end.extend_from_slice(words_of(fault))?;
    end.push(b'\n')?;
    joined(alloc, b"fault in edt ", edt.0, &end)
}

// The line of a stop.
fn line_of_stop(alloc: Global, stop: Stop) -> Result<Vec<u8>, AllocError>
    ensures { IfOk result (λ line. line.items ≡ stop_line stop) }
{
    match stop {
        Stop::Shutdown { .. } => Ok(Vec::new(alloc)),
        Stop::Abort { code, .. } => line_with(alloc, b"aborted: ", code),
        Stop::Fault { edt, fault } => fault_in_edt(alloc, edt, fault),
        Stop::Objects => Ok(b"limit: objects\n".to_vec(alloc)?),
        Stop::Events { worker, .. } => {
            line_with(alloc, b"limit: events of worker ", worker as u64)
        }
        Stop::Memory => Ok(b"want of memory\n".to_vec(alloc)?),
    }
}

/// The line of a run that ended so; none where it is empty.
pub fn line_of_ending(alloc: Global, ending: &Ending) -> Result<Vec<u8>, AllocError>
    ensures { IfOk result (λ line. line.items ≡ end_line ending.now) }
{
    match *ending {
        Ending::Quiet(0) => Ok(Vec::new(alloc)),
        Ending::Quiet(left) => line_with(alloc, b"stuck: ", left),
        Ending::Stopped(stop) => line_of_stop(alloc, stop),
    }
}

// The line of a rule that is broken.
fn line_of_breach(alloc: Global, breach: CheckFault) -> Result<Vec<u8>, AllocError>
    ensures { IfOk result (λ line. line.items ≡ fault_line (TextFault.Breach breach)) }
{
    let end = line_with(alloc, b" in function ", breach.function as u64)?;
    joined(alloc, b"check fault: rule ", breach.rule as u64, &end)
}

/// The line of bytes that are no program.
pub fn line_of_fault(alloc: Global, fault: TextFault) -> Result<Vec<u8>, AllocError>
    ensures { IfOk result (λ line. line.items ≡ fault_line fault) }
{
    match fault {
        TextFault::Lexical(place) => line_with(alloc, b"lex fault at ", place as u64),
        TextFault::Syntax(place) => line_with(alloc, b"syntax fault at ", place as u64),
        TextFault::Breach(breach) => line_of_breach(alloc, breach),
    }
}
