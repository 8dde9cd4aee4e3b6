// The text of an entry.
ghost use Rattle.std.specs.Prelude.{◌≡◌, ◌++◌, OnOk};
ghost use Rattle.ocr_program_tree.specs.View.{tree_of};
ghost use Rattle.ocr_journal.specs.EntryText as spec;

use crate::calls::{answer, call};
use crate::words::{number, phrase};
use ocr_base::NoMemory;
use ocr_guid::Code;
use ocr_machine_history::{Entry, Fault, Stop, What, Writes};
use ocr_program_tree::Program;

// The private writes of a hold, where there are any.
fn writes(text: &mut Vec<u8>, writes: &Writes) -> Result<(), NoMemory>
    ensures { OnOk result (text.new.items ≡ text.old.items ++ spec.writes_text writes.now) }
{
    let words = writes.as_slice();
    if words.is_empty() {
        return Ok(());
    }
    text.extend_from_slice(b" writes")?;
    for (word, value) in words {
        text.push(b' ')?;
        number(text, *word as u64)?;
        text.push(b'=')?;
        number(text, *value)?;
    }
    Ok(())
}

fn delivery(text: &mut Vec<u8>, what: &What, code: Code) -> Result<(), NoMemory>
    ensures { OnOk result (text.new.items ≡ text.old.items ++ spec.delivery_text what.now code) }
{
    match what {
        What::Set { edt, slot, payload } => {
            phrase(text, b" set", &[edt.0, *slot as u64, payload.0])
        }
        What::Satisfy {
            event,
            slot,
            payload,
        } => {
            phrase(text, b" satisfy", &[event.0, *slot as u64, payload.0])?;
            phrase(text, b" ->", &[code.number()])
        }
        What::Leave { scope } => phrase(text, b" leave", &[scope.0]),
    }
}

fn fault_words(fault: Fault) -> &'static [u8]
    ensures { result.now ≡ spec.fault_words fault }
{
    match fault {
        Fault::ZeroDivisor => b"zero divisor",
        Fault::BadIndex => b"bad index",
        Fault::NotHeld => b"not held",
        Fault::NotWritable => b"not writable",
        Fault::Fuel => b"fuel",
    }
}

fn stop(text: &mut Vec<u8>, stop: &Stop) -> Result<(), NoMemory>
    ensures { OnOk result (text.new.items ≡ text.old.items ++ spec.stop_text stop.now) }
{
    match stop {
        Stop::Shutdown { edt } => phrase(text, b"stop shutdown", &[edt.0]),
        Stop::Abort { edt, code } => phrase(text, b"stop abort", &[edt.0, *code]),
        Stop::Fault { edt, fault } => {
            phrase(text, b"stop fault", &[edt.0])?;
            text.push(b' ')?;
            phrase(text, fault_words(*fault), &[])
        }
        Stop::Objects => phrase(text, b"stop objects", &[]),
        Stop::Events { worker, weight } => phrase(text, b"stop events", &[*worker as u64, *weight]),
        Stop::Memory => phrase(text, b"stop memory", &[]),
    }
}

/// Writes the text of an entry.
pub fn entry(text: &mut Vec<u8>, program: &Program, entry: &Entry) -> Result<(), NoMemory>
    ensures { OnOk result (text.new.items ≡ text.old.items
        ++ spec.entry_text (tree_of program.now) entry.now) }
{
    match entry {
        Entry::Call {
            edt,
            call: made,
            answer: answered,
            writes: written,
            ..
        } => {
            phrase(text, b"call", &[edt.0])?;
            text.push(b' ')?;
            call(text, program, made)?;
            answer(text, made, answered)?;
            writes(text, written)
        }
        Entry::Deliver { message, code } => {
            phrase(text, b"deliver", &[message.place])?;
            text.push(b'.')?;
            number(text, message.index as u64)?;
            delivery(text, &message.what, *code)
        }
        Entry::Acquire { edt, block } => phrase(text, b"acquire", &[edt.0, block.0]),
        Entry::Wait { edt, block } => phrase(text, b"wait", &[edt.0, block.0]),
        Entry::StaleAcquire { edt, block } => phrase(text, b"stale", &[edt.0, block.0]),
        Entry::Start { edt } => phrase(text, b"start", &[edt.0]),
        Entry::Free {
            edt,
            block,
            writes: written,
        } => {
            phrase(text, b"free", &[edt.0, block.0])?;
            writes(text, written)
        }
        Entry::End { edt, returned } => phrase(text, b"end", &[edt.0, returned.0]),
        Entry::Stop(why) => stop(text, why),
    }
}
