// The lines that a run has printed.
ghost use Rattle.std.specs.Prelude.{◌≡◌, ◌++◌, take, IfOk, OnOk};
ghost use Rattle.ocr_machine_history.specs.History.{history_of};
ghost use Rattle.ocr_machine_history.specs.Output.{printed, line_of};

use itoa::Buffer;
use ocr_base::NoMemory;
use ocr_body_meaning::Call;
use ocr_machine_history::Entry;
use std::alloc::Global;

/// The first `at` entries; all of them where there are fewer.
pub fn front(entries: &[Entry], at: u64) -> &[Entry]
    ensures { result.now ≡ take at entries.entry.now }
{
    if at < entries.len() as u64 {
        &entries[..at as usize]
    } else {
        entries
    }
}

/// The lines that these entries print, in their order. NoMemory where memory is refused.
pub fn lines_of(alloc: Global, entries: &[Entry]) -> Result<Vec<u8>, NoMemory>
    ensures { IfOk result (λ text. text.items ≡ printed (history_of entries.now)) }
{
    let mut text = Vec::new(alloc);
    for entry in entries {
        push_line(&mut text, entry)?;
    }
    Ok(text)
}

/// The lines that the first `at` entries of a journal print, in their order; those of all entries
/// where there are fewer. NoMemory where memory is refused.
pub fn lines_at(alloc: Global, entries: &[Entry], at: u64) -> Result<Vec<u8>, NoMemory>
    ensures { IfOk result (λ text. text.items ≡ printed (history_of (take at entries.now))) }
{
    lines_of(alloc, front(entries, at))
}

fn push_line(text: &mut Vec<u8>, entry: &Entry) -> Result<(), NoMemory>
    ensures { OnOk result (text.new.items ≡ text.old.items ++ line_of entry.now) }
{
    if let Entry::Call { call, .. } = entry {
        if let Call::Print { value } = call {
            let mut buffer = Buffer::new();
            text.extend_from_slice(buffer.format(*value).as_bytes())?;
            text.push(b'\n')?;
        }
    }
    Ok(())
}
