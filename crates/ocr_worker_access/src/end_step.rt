// The core at hand goes on to the last phase of its EDT.
ghost use Rattle.std.specs.Prelude.{◌≡◌, ◌∷◌, [], ℕ, List, Option, Some, true};
ghost use Rattle.ocr_machine_parts.specs.declared.part.Core.{Core};
ghost use Rattle.ocr_machine_parts.specs.declared.part.Part.{Part};
ghost use Rattle.ocr_machine_parts.specs.declared.part.Part.TheVariants as part;
ghost use Rattle.ocr_machine_parts.specs.Effects.{ended_edt};
ghost use Rattle.ocr_machine_parts.specs.Progress.{with_phase};
ghost use Rattle.ocr_machine_parts.specs.Kinds.{holds_of, identity_on, is_running, work_of};
ghost use Rattle.ocr_worker_access.specs.Access.{StepsFirst};

use ocr_edt::Identity;
use ocr_machine_parts::{BoxedCore, Part};
use ocr_turns::Clerk;
use ocr_worker_clerk::Ocr;

/// The core that stands first at hand ends; gives what it keeps through all its phases.
pub(crate) fn end_core(clerk: &mut Clerk<Ocr>, place: u64) -> Identity
    requires { (core : Core) × (rest : List (ℕ × Option Part))
        × (clerk.old.parts ≡ (place, Some (part.Core core)) ∷ rest)
        × (is_running (part.Core core) ≡ true) × (holds_of (work_of (part.Core core)) ≡ []) }
    ensures stepped { StepsFirst place (with_phase ended_edt) clerk.old clerk.new }
    ensures identity { (core : Core) (rest : List (ℕ × Option Part))
        → clerk.old.parts ≡ (place, Some (part.Core core)) ∷ rest
        → result ≡ identity_on (part.Core core) }
{
    let Part::Core(mut core) = clerk.lift(place) else {
        unreachable!()
    };
    let identity = ended(&mut core);
    clerk.put(place, Part::Core(core));
    identity
}

fn ended(core: &mut BoxedCore) -> Identity
    requires running { is_running (part.Core core.old) ≡ true }
    requires free { holds_of (work_of (part.Core core.old)) ≡ [] }
    ensures core { core.new ≡ with_phase ended_edt core.old }
    ensures identity { result ≡ identity_on (part.Core core.old) }
{
    core.end()
}
