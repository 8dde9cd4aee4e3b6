// The private writes that a call carries.
ghost use Rattle.std.specs.Prelude.{◌≡◌, None, if◌then◌else◌, IfOk};
ghost use Rattle.ocr_body_meaning.specs.Holds.{is_done, private_of};
ghost use Rattle.ocr_machine_parts.specs.declared.part.Part.TheVariants as part;
ghost use Rattle.ocr_machine_parts.specs.Effects.{settled_core};
ghost use Rattle.ocr_machine_parts.specs.Legal.{carried};
ghost use Rattle.ocr_machine_parts.specs.Bodies.{holds_in};
ghost use Rattle.ocr_worker_calls.specs.Calls.{ended_in};

use ocr_base::NoMemory;
use ocr_body_meaning::Call;
use ocr_guid::{Code, Guid};
use ocr_machine_history::Writes;
use ocr_machine_parts::{BoxedCore, listed_writes};
use std::alloc::Global;

/// The private writes that a call carries: those of the hold that it ends, where it is accepted.
/// What the core holds stays the same.
pub(crate) fn carried_writes(
    alloc: Global,
    call: &Call,
    code: Code,
    core: &mut BoxedCore,
) -> Result<Writes, NoMemory>
    ensures alike { settled_core core.new ≡ settled_core core.old }
    ensures edt { core.new.edt ≡ core.old.edt }
    ensures holds { holds_in (part.Core core.new) ≡ holds_in (part.Core core.old) }
    ensures writes { IfOk result (λ w. w
        ≡ carried (is_done code) (private_of call.now (holds_in (part.Core core.old)))) }
{
    match ended_block(call, code) {
        None => Ok(Writes::none(alloc)),
        Some(block) => listed_writes(alloc, core, block),
    }
}

// The block whose hold the call ends.
fn ended_block(call: &Call, code: Code) -> Option<Guid>
    ensures { result ≡ (if is_done code then ended_in call.now else None) }
{
    match code {
        Code::Done => {}
        Code::Eperm | Code::Enoent | Code::Ebusy | Code::Einval | Code::Stale => return None,
    }
    match call {
        Call::DbRelease { block } | Call::DbDestroy { block } => Some(Guid(*block)),
        _ => None,
    }
}
