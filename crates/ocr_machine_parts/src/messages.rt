// What the end of an EDT sends, and a scope that is done.
ghost use Rattle.std.specs.Prelude.{◌≡◌, ◌++◌, IfOk};
ghost use Rattle.ocr_machine_parts.specs.Messages.{satisfy_some, leave_some, sent_if_done, sent_by_end};

use ocr_base::NoMemory;
use ocr_edt::Identity;
use ocr_finish::{Leaving, Scope};
use ocr_guid::Guid;
use ocr_machine_history::What;
use std::alloc::Global;

/// What goes out where an EDT ends: the payload to its output event, where no scope of its own
/// satisfies it, and that it leaves its home.
#[inline(always)]
pub fn sent_by_end(alloc: Global, identity: Identity, payload: Guid) -> Result<Vec<What>, NoMemory>
    ensures { IfOk result (λ r. r.items ≡ sent_by_end identity payload) }
{
    let Identity {
        edt: _,
        scope,
        output,
        finish,
    } = identity;
    let mut messages = Vec::new(alloc);
    if !finish {
        satisfy_some(&mut messages, output, payload)?;
    }
    leave_some(&mut messages, scope)?;
    Ok(messages)
}

/// A scope that is done satisfies the output event of its finish EDT, and leaves its outer scope.
pub fn sent_if_done(alloc: Global, leaving: Leaving, scope: &Scope) -> Result<Vec<What>, NoMemory>
    ensures { IfOk result (λ r. r.items ≡ sent_if_done leaving scope.now) }
{
    let mut messages = Vec::new(alloc);
    if leaving == Leaving::Done {
        satisfy_some(&mut messages, scope.event(), Guid::NULL)?;
        leave_some(&mut messages, scope.outer())?;
    }
    Ok(messages)
}

/// The event is satisfied, where there is one.
fn satisfy_some(messages: &mut Vec<What>, event: Guid, payload: Guid) -> Result<(), NoMemory>
    ensures { IfOk result (λ _. messages.new.items
        ≡ messages.old.items ++ satisfy_some event payload) }
{
    if event != Guid::NULL {
        messages.push(What::Satisfy {
            event,
            slot: 0,
            payload,
        })?;
    }
    Ok(())
}

/// The scope is left, where there is one.
fn leave_some(messages: &mut Vec<What>, scope: Guid) -> Result<(), NoMemory>
    ensures { IfOk result (λ _. messages.new.items ≡ messages.old.items ++ leave_some scope) }
{
    if scope != Guid::NULL {
        messages.push(What::Leave { scope })?;
    }
    Ok(())
}
