// What a call names.
ghost use Rattle.std.specs.Prelude.{◌≡◌, ◌≤◌, ◌∷◌, ◌+◌, IfOk};
ghost use Rattle.ocr_worker_access.specs.Calls.{faces_of};

use ocr_base::NoMemory;
use ocr_body_meaning::{Answer, Call};
use ocr_guid::{Code, Guid};
use ocr_machine_codes::{Numbers, call_faces};
use std::alloc::Global;

/// The places of all parts that a call names but for what it makes: the caller's core, and behind
/// it the faces, rising, the home's among them.
pub(crate) fn named_places(
    alloc: Global,
    limit: u64,
    edt: Guid,
    home: Guid,
    call: &Call,
) -> Result<Numbers, NoMemory>
    requires limit { limit ≤ 65536 }
    requires edt { edt ≤ limit }
    ensures places { IfOk result (λ places. places.items
        ≡ (limit + edt) ∷ faces_of limit home call.now) }
{
    let mut places = call_faces(alloc, limit, home, call)?;
    places.insert(0, limit + edt.0)?;
    Ok(places)
}

/// An answer that names no scope and no output event.
pub fn answer_of(code: Code, value: u64) -> Answer
    ensures { result ≡ record { code = code; value = value; scope = 0; output = 0 } }
{
    Answer {
        code,
        value,
        scope: Guid::NULL,
        output: Guid::NULL,
    }
}

pub(crate) fn copied(call: &Call) -> Result<Call, NoMemory>
    ensures { IfOk result (λ copy. copy ≡ call.now) }
{
    Ok(call.clone()?)
}
