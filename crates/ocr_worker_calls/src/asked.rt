// What a call needs before its entry: the parts that it names, and its code.
ghost use Rattle.std.specs.Prelude.{◌≡◌, ◌≤◌, ◌+◌, ◌++◌, ◌∷◌, [], length, IfOk, OnOk, OnErr};
ghost use Rattle.ocr_body_meaning.specs.Body.{Body};
ghost use Rattle.ocr_machine_parts.specs.Codes.{code_of, wanted};
ghost use Rattle.ocr_machine_parts.specs.Taken.{face_in};
ghost use Rattle.ocr_worker_clerk.specs.Work.{AtWork, IsGone, Stays};
ghost use Rattle.ocr_machine_parts.specs.declared.part.Part.TheVariants as part;
ghost use Rattle.ocr_worker_access.specs.Calls.{faces_of, home_for};
ghost use Rattle.ocr_worker_access.specs.Access.{HasLifted, Runs, home_at};

use crate::named::{copied, named_places};
use ocr_base::NoMemory;
use ocr_body_meaning::Call;
use ocr_guid::{Code, Guid};
use ocr_machine_codes::{Numbers, decide};
use ocr_machine_parts::{Core, Part};
use ocr_turns::Clerk;
use ocr_worker_access::core_at;
use ocr_worker_clerk::{Gate, Job, Ocr, Over, close_memory, lift_parts, take_parts};
use std::alloc::Global;
use std::sync::Wait;

/// A call on the parts that it names, which the clerk lifted: the home that it joins, the places of
/// these parts, the caller's core first, the parts, and the call's code.
#[derive(Drop)]
pub(crate) struct Asked {
    pub call: Call,
    pub home: Guid,
    pub places: Numbers,
    pub parts: Vec<(u64, Part)>,
    pub code: Code,
}

impl Asked {
    /// Puts a part that was lifted behind the others, with its place.
    pub(crate) fn put(&mut self, place: u64, part: Part) -> Result<(), NoMemory>
        ensures same { (self.new.call ≡ self.old.call) × (self.new.code ≡ self.old.code)
            × (self.new.home ≡ self.old.home) }
        ensures parts { OnOk result (self.new.parts.items
            ≡ self.old.parts.items ++ (place, part) ∷ []) }
        ensures places { OnOk result (self.new.places.items ≡ self.old.places.items ++ place ∷ []) }
    {
        self.parts.push((place, part))?;
        self.places.push(place)?;
        Ok(())
    }
}

/// Takes what the call names, lifts it with the core, and decides the call.
pub(crate) fn ask<R: Wait, G: Gate>(
    alloc: Global,
    job: &Job<R, G>,
    worker: u32,
    clerk: &mut Clerk<Ocr>,
    edt: Guid,
    call: &Call,
) -> Result<Asked, Over>
    ghost b: { Body }
    requires work { AtWork job.now.turns.now job.now.program.now clerk.old }
    requires runs { Runs job.now.turns.now.1 edt b clerk.old }
    requires few { length (wanted call.now) ≤ 33 }
    ensures stays { Stays clerk.old clerk.new }
    ensures work { OnOk result (AtWork job.now.turns.now job.now.program.now clerk.new) }
    ensures lifted { IfOk result (λ a. HasLifted job.now.turns.now.1 edt clerk.old clerk.new
        (faces_of job.now.turns.now.1.limit a.home call.now) [] a.parts.items) }
    ensures places { IfOk result (λ a. a.places.items ≡ (job.now.turns.now.1.limit + edt)
        ∷ faces_of job.now.turns.now.1.limit a.home call.now) }
    ensures call { IfOk result (λ a. a.call ≡ call.now) }
    ensures home { IfOk result (λ a. a.home ≡ home_at clerk.old call.now) }
    ensures code { IfOk result (λ a. a.code
        ≡ code_of edt (face_in job.now.turns.now.1.limit a.parts.items) call.now) }
    ensures gone { OnErr result (IsGone job.now.turns.now worker clerk.new) }
{
    let limit = job.turns.limit();
    let home = home_for(core_at(clerk, limit + edt.0), call);
    let Ok(copy) = copied(call) else {
        return Err(close_memory(job, worker, clerk));
    };
    let Ok(places) = named_places(alloc, limit, edt, home, call) else {
        return Err(close_memory(job, worker, clerk));
    };
    take_parts(job, worker, clerk, &places[1..])?;
    let Ok(parts) = lift_parts(alloc, clerk, &places) else {
        return Err(close_memory(job, worker, clerk));
    };
    let code = decide(limit, edt, call, &parts);
    Ok(Asked {
        call: copy,
        home,
        places,
        parts,
        code,
    })
}

/// The home that the call joins, by its caller's core.
pub fn home_for(core: &Core, call: &Call) -> Guid
    ensures { result ≡ home_for call.now (part.Core core.now) }
{
    match call {
        Call::EdtCreate { .. } => core.edt.scope(),
        _ => Guid::NULL,
    }
}
