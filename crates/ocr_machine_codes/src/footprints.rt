// The parts that an entry names, and what it weighs.
ghost use Rattle.std.specs.Prelude.{◌≡◌, ◌<◌, ◌≤◌, ◌+◌, ◌∷◌, ◌++◌, [], take, drop, length, slice_index, IfOk};
ghost use Rattle.ocr_machine_history.specs.Numbers.{placed};
ghost use Rattle.ocr_machine_history.specs.Weight.{weight_of, call_weight};
ghost use Rattle.ocr_machine_parts.specs.Codes.{wanted, wanted_sources};
ghost use Rattle.ocr_machine_parts.specs.Footprint.{and_face, and_core, and_wanted, and_made, and_beside, message_footprint, footprint_of};

use crate::codes::is_object;
use ocr_base::NoMemory;
use ocr_body_meaning::{Answer, Call};
use ocr_guid::{Code, Guid};
use ocr_machine_history::{Entry, What};
use smallvec::SmallVec;
use std::alloc::Global;

/// Numbers of parts, of which most entries name few.
pub type Numbers = SmallVec<u64, 8>;

/// The numbers of the parts that the entry names, rising, each once. An object has parts where its
/// number is from 1 to the limit.
pub fn footprint(alloc: Global, entry: &Entry, limit: u64) -> Result<Numbers, NoMemory>
    requires { limit ≤ 65536 }
    ensures { IfOk result (λ numbers. numbers.items ≡ footprint_of limit entry.now) }
{
    let mut numbers = SmallVec::new(alloc);
    match entry {
        Entry::Call {
            edt,
            home,
            call,
            answer,
            writes: _,
        } => {
            and_core(&mut numbers, limit, edt.0)?;
            and_made(&mut numbers, limit, call, answer)?;
            and_wanted(&mut numbers, limit, call)?;
            and_beside(&mut numbers, limit, *home, call, answer)?;
        }
        Entry::Acquire { edt, block } => and_request(&mut numbers, limit, *edt, *block)?,
        Entry::Wait { edt, block } => and_request(&mut numbers, limit, *edt, *block)?,
        Entry::StaleAcquire { edt, block } => and_request(&mut numbers, limit, *edt, *block)?,
        Entry::Start { edt } => {
            and_core(&mut numbers, limit, edt.0)?;
            and_face(&mut numbers, limit, edt.0)?;
        }
        Entry::Free {
            edt,
            block,
            writes: _,
        } => {
            and_core(&mut numbers, limit, edt.0)?;
            and_face(&mut numbers, limit, block.0)?;
        }
        Entry::End { edt, returned } => {
            and_core(&mut numbers, limit, edt.0)?;
            and_face(&mut numbers, limit, returned.0)?;
        }
        Entry::Deliver { message, code: _ } => {
            and_message(&mut numbers, limit, message.what)?;
        }
        Entry::Stop(_) => (),
    }
    Ok(numbers)
}

/// The numbers of the faces that a call names before it is answered, rising, each once: of the
/// objects that it wants, and of the home that it joins.
pub fn call_faces(alloc: Global, limit: u64, home: Guid, call: &Call) -> Result<Numbers, NoMemory>
    ensures { IfOk result (λ numbers. numbers.items
        ≡ and_face limit home (and_wanted limit (wanted call.now) [])) }
{
    let mut numbers = SmallVec::new(alloc);
    and_wanted(&mut numbers, limit, call)?;
    and_face(&mut numbers, limit, home.0)?;
    Ok(numbers)
}

/// The face of the event that a message satisfies, or of the scope that it leaves.
fn and_message(numbers: &mut Numbers, limit: u64, message: What) -> Result<(), NoMemory>
    requires { numbers.old.items ≡ [] }
    ensures { IfOk result (λ _. numbers.new.items ≡ message_footprint limit message) }
{
    match message {
        What::Satisfy {
            event,
            slot: _,
            payload: _,
        } => and_face(numbers, limit, event.0),
        What::Leave { scope } => and_face(numbers, limit, scope.0),
        What::Set { .. } => Ok(()),
    }
}

/// Puts a number at its place among rising numbers, once.
fn place(numbers: &mut Numbers, number: u64) -> Result<(), NoMemory>
    ensures { IfOk result (λ _. numbers.new.items ≡ placed number numbers.old.items) }
{
    let at = place_of(numbers, number);
    if at < numbers.len() && numbers[at] == number {
        return Ok(());
    }
    match numbers.insert(at, number) {
        Ok(()) => Ok(()),
        Err(_) => Err(NoMemory),
    }
}

/// The place of the first number that is not less.
fn place_of(numbers: &[u64], number: u64) -> usize
    ensures within { result ≤ length numbers.now }
    ensures before { placed number numbers.now ≡ take result numbers.now
        ++ placed number (drop result numbers.now) }
    ensures next { result < length numbers.now → number ≤ slice_index numbers.now result }
{
    for i in 0..numbers.len() {
        if number <= numbers[i] {
            return i;
        }
    }
    numbers.len()
}

fn and_face(numbers: &mut Numbers, limit: u64, object: u64) -> Result<(), NoMemory>
    ensures { IfOk result (λ _. numbers.new.items ≡ and_face limit object numbers.old.items) }
{
    if 1 <= object && object <= limit {
        place(numbers, object)?;
    }
    Ok(())
}

fn and_core(numbers: &mut Numbers, limit: u64, edt: u64) -> Result<(), NoMemory>
    requires { limit ≤ 65536 }
    ensures { IfOk result (λ _. numbers.new.items ≡ and_core limit edt numbers.old.items) }
{
    if 1 <= edt && edt <= limit {
        place(numbers, limit + edt)?;
    }
    Ok(())
}

/// The parts of an EDT that asks for a block.
fn and_request(numbers: &mut Numbers, limit: u64, edt: Guid, block: Guid) -> Result<(), NoMemory>
    requires { limit ≤ 65536 }
    ensures { IfOk result (λ _. numbers.new.items
        ≡ and_face limit edt (and_face limit block (and_core limit edt numbers.old.items))) }
{
    and_core(numbers, limit, edt.0)?;
    and_face(numbers, limit, block.0)?;
    and_face(numbers, limit, edt.0)
}

/// The parts of what a call makes.
fn and_made(numbers: &mut Numbers, limit: u64, call: &Call, answer: &Answer) -> Result<(), NoMemory>
    requires { limit ≤ 65536 }
    ensures { IfOk result (λ _. numbers.new.items
        ≡ and_made limit call.now answer.now numbers.old.items) }
{
    if !call.is_creation() {
        return Ok(());
    }
    if let Call::EdtCreate { .. } = call {
        and_core(numbers, limit, answer.value)?;
    }
    and_face(numbers, limit, answer.value)
}

/// The faces of a new EDT's scope and output event, and of the home that it joins.
fn and_beside(
    numbers: &mut Numbers,
    limit: u64,
    home: Guid,
    call: &Call,
    answer: &Answer,
) -> Result<(), NoMemory>
    ensures { IfOk result (λ _. numbers.new.items
        ≡ and_beside limit home call.now answer.now numbers.old.items) }
{
    if let Call::EdtCreate { .. } = call {
        and_face(numbers, limit, answer.output.0)?;
        and_face(numbers, limit, answer.scope.0)?;
        and_face(numbers, limit, home.0)?;
    }
    Ok(())
}

/// The faces of the objects that a call wants.
fn and_wanted(numbers: &mut Numbers, limit: u64, call: &Call) -> Result<(), NoMemory>
    ensures { IfOk result (λ _. numbers.new.items
        ≡ and_wanted limit (wanted call.now) numbers.old.items) }
{
    match call {
        Call::DbRelease { block } => and_face(numbers, limit, *block),
        Call::DbDestroy { block } => and_face(numbers, limit, *block),
        Call::TemplateDestroy { template } => and_face(numbers, limit, *template),
        Call::EventDestroy { event } => and_face(numbers, limit, *event),
        Call::Load { block, word: _ } => and_face(numbers, limit, *block),
        Call::Store {
            block,
            word: _,
            value: _,
        } => and_face(numbers, limit, *block),
        Call::AddDependence {
            source,
            target,
            slot: _,
            mode: _,
        } => {
            if *source != 0 {
                and_face(numbers, limit, *source)?;
            }
            and_face(numbers, limit, *target)
        }
        Call::Satisfy {
            event,
            payload,
            slot: _,
        } => {
            if *payload != 0 {
                and_face(numbers, limit, *payload)?;
            }
            and_face(numbers, limit, *event)
        }
        Call::EdtCreate {
            template,
            paramc: _,
            params: _,
            depc: _,
            deps,
            flags: _,
            output: _,
        } => {
            and_sources(numbers, limit, deps.as_slice())?;
            and_face(numbers, limit, *template)
        }
        Call::Print { .. }
        | Call::DbCreate { .. }
        | Call::EventCreate { .. }
        | Call::EventCreateParams { .. }
        | Call::TemplateCreate { .. }
        | Call::Shutdown
        | Call::Abort { .. } => Ok(()),
    }
}

/// The faces of the objects that dependences name.
fn and_sources(numbers: &mut Numbers, limit: u64, deps: &[u64]) -> Result<(), NoMemory>
    ensures { IfOk result (λ _. numbers.new.items
        ≡ and_wanted limit (wanted_sources deps.now) numbers.old.items) }
{
    let mut k = deps.len();
    while k > 0 {
        k -= 1;
        if is_object(deps[k]) {
            and_face(numbers, limit, deps[k])?;
        }
    }
    Ok(())
}

/// What the entry weighs: 1 and its writes; a block that is made has a sixteenth of its words
/// besides; a Stop weighs nothing.
#[inline(always)]
pub fn weight(entry: &Entry) -> u64
    ensures { result ≡ weight_of entry.now }
{
    match entry {
        Entry::Call {
            edt: _,
            home: _,
            call,
            answer,
            writes,
        } => call_weight(call, answer) + writes.as_slice().len() as u64,
        Entry::Free {
            edt: _,
            block: _,
            writes,
        } => 1 + writes.as_slice().len() as u64,
        Entry::Stop(_) => 0,
        Entry::Deliver { .. } => 1,
        Entry::Acquire { .. } => 1,
        Entry::Wait { .. } => 1,
        Entry::StaleAcquire { .. } => 1,
        Entry::Start { .. } => 1,
        Entry::End { .. } => 1,
    }
}

#[inline(always)]
fn call_weight(call: &Call, answer: &Answer) -> u64
    ensures weight { result ≡ call_weight call.now answer.now }
    ensures small { result ≤ 1 + 144115188075855872 }
{
    if let Call::DbCreate { length, flags: _ } = call {
        if answer.code == Code::Done {
            return 1 + *length / 8 / 16;
        }
    }
    1
}
