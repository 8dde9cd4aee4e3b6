// The End of an EDT.
ghost use Rattle.std.specs.Prelude.{◌≡◌, ◌+◌, ◌∷◌, [], true, Some, OnOk, OnErr};
ghost use Rattle.ocr_body_meaning.specs.Behaviour.{Ends};
ghost use Rattle.ocr_body_meaning.specs.Body.{Body, says};
ghost use Rattle.ocr_body_meaning.specs.Holds.{Holds};
ghost use Rattle.ocr_machine_history.specs.declared.entry.Entry.TheVariants as an;
ghost use Rattle.ocr_machine_parts.specs.declared.part.Part.{Part};
ghost use Rattle.ocr_machine_parts.specs.Kinds.{is_block};
ghost use Rattle.ocr_machine_parts.specs.Messages.{payload_of_end};
ghost use Rattle.ocr_machine_parts.specs.Taken.{face_in, is_within};
ghost use Rattle.ocr_turns_rule.specs.Sums.{find};
ghost use Rattle.ocr_worker_clerk.specs.Entry.{PlannedParts, OcrKnown};
ghost use Rattle.ocr_worker_clerk.specs.Push.{ReadiesNone};
ghost use Rattle.ocr_worker_clerk.specs.Work.{AtWork, IsGone, IsIdleClerk, Stays, in_hand};
ghost use Rattle.ocr_worker_access.specs.Access.{HasTaken, IsNewest, Runs, held_at, returned_faces};
ghost use Rattle.ocr_worker_access.specs.Served.{own_log};

use crate::end_step::end_core;
use ocr_guid::Guid;
use ocr_machine_history::Entry;
use ocr_machine_parts::{Part, sent_by_end};
use ocr_turns::Clerk;
use ocr_worker_clerk::{Gate, Job, Ocr, Over, close_memory, enter_at_hand, give_all};
use std::alloc::Global;
use std::sync::Wait;

/// Enters the End of an EDT on these parts, its core and the face that it returns, where there is
/// one, and gives them back.
pub fn end<R: Wait, G: Gate>(
    alloc: Global,
    job: &Job<R, G>,
    worker: u32,
    clerk: &mut Clerk<Ocr>,
    edt: Guid,
    returned: Guid,
    places: &[u64],
) -> Result<(), Over>
    ghost s: { Body × (Holds × (OcrKnown × OcrKnown)) }
    requires first { s.1.1.1 ≡ clerk.old }
    requires work { AtWork job.now.turns.now job.now.program.now clerk.old }
    requires runs { Runs job.now.turns.now.1 edt s.0 s.1.1.0 }
    requires taken { HasTaken job.now.turns.now.1 edt s.1.1.0 clerk.old
        (returned_faces job.now.turns.now.1.limit returned) }
    requires places { places.now ≡ (job.now.turns.now.1.limit + edt)
        ∷ returned_faces job.now.turns.now.1.limit returned }
    requires ends { says s.0 (own_log s.1.1.0.view.log edt) ≡ Ends returned s.1.0 }
    requires free { held_at s.1.1.0 ≡ [] }
    ensures stays { Stays clerk.old clerk.new }
    ensures readied { OnOk result (ReadiesNone clerk.old clerk.new) }
    ensures work { OnOk result (AtWork job.now.turns.now job.now.program.now clerk.new) }
    ensures idle { OnOk result (IsIdleClerk clerk.new) }
    ensures newest { OnOk result (IsNewest (an.End edt returned) clerk.old.view clerk.new.view) }
    ensures gone { OnErr result (IsGone job.now.turns.now worker clerk.new) }
{
    let payload = payload_of_end(clerk, job.turns.limit(), returned);
    let identity = end_core(clerk, places[0]);
    let Ok(messages) = sent_by_end(alloc, identity, payload) else {
        return Err(close_memory(job, worker, clerk));
    };
    let entry = Entry::End { edt, returned };
    enter_at_hand(alloc, job, worker, clerk, entry, messages)?;
    give_all(job.turns, job.program, clerk, places);
    Ok(())
}

// What the output event gets: the block that the body returned, where its face is at hand, and
// NULL_GUID for anything else.
fn payload_of_end(clerk: &Clerk<Ocr>, limit: u64, returned: Guid) -> Guid
    requires { is_within limit returned ≡ true
        → (x : Part) × (find returned clerk.now.parts ≡ Some (Some x)) }
    ensures { result ≡ payload_of_end
        (face_in limit (in_hand clerk.now.parts) returned) returned }
{
    if returned.0 < 1 || limit < returned.0 {
        return Guid::NULL;
    }
    if is_block(clerk.part(returned.0)) {
        return returned;
    }
    Guid::NULL
}

fn is_block(part: &Part) -> bool
    ensures { result ≡ is_block part.now }
{
    matches!(part, Part::Block(_))
}
