// The words of a block.
ghost use Rattle.std.specs.Prelude.{◌≡◌, ◌∷◌, [], ℕ, List, Option, IfOk, option_map, replicate, take, if◌then◌else◌};
ghost use Rattle.ocr_acquire.specs.Writes.{written};
ghost use Rattle.ocr_body_meaning.specs.Holds.{is_done};
ghost use Rattle.ocr_machine_history.specs.History.{Setting, history_of};
ghost use Rattle.ocr_machine_history.specs.Made.{is_beside, is_new, names_new};
ghost use Rattle.ocr_machine_rules.specs.Blocks.{writes_by};
ghost use Rattle.ocr_snapshot.specs.Contents.{words_in, made_words, words_after};

use crate::lines::front;
use ocr_base::NoMemory;
use ocr_body_meaning::{Answer, Call};
use ocr_guid::{Code, Guid};
use ocr_machine_history::{ARGUMENTS, Entry, Writes};
use std::alloc::Global;

// Whether the number names this object, which is made.
fn names_new(number: Guid, object: Guid) -> bool
    ensures { result ≡ names_new number object }
{
    number != Guid::NULL && number == object
}

// Whether the call makes this object beside an EDT, as its scope or its output event.
fn is_beside(call: &Call, answer: &Answer, object: Guid) -> bool
    ensures { result ≡ is_beside call.now answer.now object }
{
    match call {
        Call::EdtCreate { .. } => {
            answer.code == Code::Done
                && (names_new(answer.scope, object) || names_new(answer.output, object))
        }
        _ => false,
    }
}

// Whether the call makes this object.
fn is_new(call: &Call, answer: &Answer, object: Guid) -> bool
    ensures { result ≡ is_new call.now answer.now object }
{
    is_beside(call, answer, object)
        || (call.is_creation() && answer.code == Code::Done && answer.value == object.0)
}

// The words with which the object begins that the call makes, where it is a block.
fn made_words(alloc: Global, call: &Call) -> Result<Option<Vec<u64>>, NoMemory>
    ensures { IfOk result (λ words. option_map (λ v. v.items) words ≡ made_words call.now) }
{
    match call {
        Call::DbCreate { length, .. } => Ok(Some(vec![in alloc; 0u64; (*length / 8) as usize]?)),
        _ => Ok(None),
    }
}

// Makes the writes one after another, but for those past the last word.
fn write_each(words: &mut Vec<u64>, writes: &[(u32, u64)])
    ensures { words.new.items ≡ written writes.now words.old.items }
{
    for (word, value) in writes {
        if (*word as usize) < words.len() {
            words[*word as usize] = *value;
        }
    }
}

// Makes the writes that are a hold's in the words of a block.
fn with_writes(words: Option<Vec<u64>>, writes: &Writes) -> Option<Vec<u64>>
    ensures { option_map (λ v. v.items) result
        ≡ option_map (written writes.now) (option_map (λ v. v.items) words) }
{
    let mut words = words?;
    write_each(&mut words, writes.as_slice());
    Some(words)
}

// Stores a value in a word of a block.
fn with_store(words: Option<Vec<u64>>, word: u64, value: u64) -> Option<Vec<u64>>
    ensures { option_map (λ v. v.items) result
        ≡ option_map (written ((word, value) ∷ [])) (option_map (λ v. v.items) words) }
{
    let mut words = words?;
    if word < words.len() as u64 {
        words[word as usize] = value;
    }
    Some(words)
}

// The words after a call that was accepted and makes no block of this number.
fn words_written(
    words: Option<Vec<u64>>,
    call: &Call,
    writes: &Writes,
    block: Guid,
) -> Option<Vec<u64>>
    ensures { option_map (λ v. v.items) result ≡ option_map
        (written (writes_by call.now writes.now block)) (option_map (λ v. v.items) words) }
{
    match call {
        Call::Store {
            block: stored,
            word,
            value,
        } => {
            if *stored == block.0 {
                with_store(words, *word, *value)
            } else {
                words
            }
        }
        Call::DbRelease { block: ended } | Call::DbDestroy { block: ended } => {
            if *ended == block.0 {
                with_writes(words, writes)
            } else {
                words
            }
        }
        _ => words,
    }
}

// The words after one entry more.
fn words_after(
    alloc: Global,
    words: Option<Vec<u64>>,
    entry: &Entry,
    block: Guid,
) -> Result<Option<Vec<u64>>, NoMemory>
    ensures { IfOk result (λ after. option_map (λ v. v.items) after
        ≡ words_after entry.now block (option_map (λ v. v.items) words)) }
{
    match entry {
        Entry::Call {
            call,
            answer,
            writes,
            ..
        } => {
            if is_new(call, answer, block) {
                made_words(alloc, call)
            } else if answer.code == Code::Done {
                Ok(words_written(words, call, writes, block))
            } else {
                Ok(words)
            }
        }
        Entry::Free {
            block: ended,
            writes,
            ..
        } => {
            if *ended == block {
                Ok(with_writes(words, writes))
            } else {
                Ok(words)
            }
        }
        _ => Ok(words),
    }
}

// The words before the first entry.
fn words_opened(alloc: Global, args: &[u64], block: Guid) -> Result<Option<Vec<u64>>, NoMemory>
    ensures { IfOk result (λ words. (s : Setting) → s.args ≡ args.now
        → option_map (λ v. v.items) words ≡ words_in s [] block) }
{
    if block.0 != ARGUMENTS {
        return Ok(None);
    }
    let mut words = Vec::new(alloc);
    words.push(args.len() as u64)?;
    words.extend_from_slice(args)?;
    Ok(Some(words))
}

/// The words of a block after the first `at` entries of the journal of a run with these arguments;
/// after all of them where there are fewer. `Ok(None)` comes exactly where these entries leave no
/// block under this number, but no object or another one; `NoMemory` where memory is refused.
///
/// A block that is made has zeros, and the argument block the number of the arguments and the
/// arguments. A store in RW is seen at its entry, the private writes of a hold in EW where the hold
/// ends (docs/MACHINE.md, "Data blocks"). A destroyed block keeps its words, and takes the writes
/// of the holds that end later.
pub fn contents_at(
    alloc: Global,
    args: &[u64],
    entries: &[Entry],
    at: u64,
    block: Guid,
) -> Result<Option<Vec<u64>>, NoMemory>
    ensures { IfOk result (λ found. (s : Setting) → s.args ≡ args.now
        → option_map (λ words. words.items) found
        ≡ words_in s (history_of (take at entries.now)) block) }
{
    let mut words = words_opened(alloc, args, block)?;
    let entered = front(entries, at);
    for entry in entered {
        words = words_after(alloc, words, entry, block)?;
    }
    Ok(words)
}
