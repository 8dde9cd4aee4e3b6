// Who joins finish scopes and who leaves them.
ghost use Rattle.std.specs.Prelude.{◌≡◌, IfOk, true};
ghost use Rattle.ocr_finish.specs.Scope.{after_join, after_leave};
ghost use Rattle.ocr_machine_parts.specs.Effects.{joins, joined};
ghost use Rattle.ocr_machine_parts.specs.Progress.{with_face};
ghost use Rattle.ocr_machine_parts.specs.Kinds.{with_scope, home_on};
ghost use Rattle.ocr_machine_parts.specs.LegalOn.{IsJoinable, HasMember};
ghost use Rattle.ocr_machine_parts.specs.Messages.{sent_by_leave};
ghost use Rattle.ocr_machine_effects.specs.AtHand.{state, Becomes};

use crate::taken::TakenParts;
use ocr_base::NoMemory;
use ocr_body_meaning::Call;
use ocr_guid::Guid;
use ocr_machine_history::What;
use ocr_machine_parts::{Part, sent_if_done};
use std::alloc::Global;

/// The home of an EDT, by its core: the scope that it belongs to, NULL_GUID where there is none.
pub fn home_of(part: &Part) -> Guid
    ensures { result ≡ home_on part.now }
{
    let Part::Core(core) = part else {
        return Guid::NULL;
    };
    core.get().edt.scope()
}

/// An EDT that is made joins its maker's home, where it has one.
pub fn join_home(parts: &mut TakenParts, home: u64, call: &Call)
    requires { joins call.now home home ≡ true → IsJoinable ((state parts.old).face home) }
    ensures { Becomes parts.old parts.new (joined call.now home (state parts.old)) }
{
    if let Call::EdtCreate { .. } = call {
        if home != 0 {
            join_at(parts, home);
        }
    }
}

/// The scope has one member more.
fn join_at(parts: &mut TakenParts, scope: u64)
    requires { IsJoinable ((state parts.old).face scope) }
    ensures { Becomes parts.old parts.new
        (with_face (state parts.old) scope
        (with_scope ((state parts.old).face scope) after_join)) }
{
    let mut state = parts.take_scope(scope);
    state.join();
    parts.put_face(scope, Part::Scope(state));
}

/// A member leaves the scope; gives what goes out where it was the last.
pub(crate) fn leave_at(
    alloc: Global,
    parts: &mut TakenParts,
    scope: u64,
) -> Result<Vec<What>, NoMemory>
    requires { HasMember ((state parts.old).face scope) }
    ensures parts { IfOk result (λ _. Becomes parts.old parts.new
        (with_face (state parts.old) scope
        (with_scope ((state parts.old).face scope) after_leave))) }
    ensures messages { IfOk result (λ r. r.items ≡ sent_by_leave ((state parts.old).face scope)) }
{
    let mut state = parts.take_scope(scope);
    let leaving = state.leave();
    let messages = sent_if_done(alloc, leaving, &state)?;
    parts.put_face(scope, Part::Scope(state));
    Ok(messages)
}
