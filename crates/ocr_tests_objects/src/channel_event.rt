use crate::sent::slot;
use ocr_channel_event::Channel;
use ocr_guid::target::{Linked, Satisfied};
use ocr_guid::{Code, Guid};
use std::test::Fail;

#[test]
fn keeps_payloads_for_links_to_come(rt: HostRuntime) -> Result<(), Fail> {
    let mut channel = Channel::new(rt.alloc(), 2, true);
    let takes_arg = channel.takes_arg();
    prove!(takes_arg);
    let first = channel.satisfy(rt.alloc(), Guid(3))?;
    prove!(matches!(&first, Satisfied::Kept));
    let second = channel.satisfy(rt.alloc(), Guid(4))?;
    prove!(matches!(&second, Satisfied::Kept));
    let third = channel.satisfy(rt.alloc(), Guid(5))?;
    prove!(matches!(&third, Satisfied::Refused(Code::Ebusy)));
    let oldest = channel.link(rt.alloc(), slot(7))?;
    prove!(oldest == Linked::Now(Guid(3)));
    let refusal = channel.refusal(Guid(5));
    prove!(refusal.is_none());
    let next = channel.link(rt.alloc(), slot(8))?;
    prove!(next == Linked::Now(Guid(4)));
    let waits = channel.link(rt.alloc(), slot(9))?;
    prove!(waits == Linked::Kept);
    Ok(())
}

#[test]
fn gives_satisfactions_to_waiting_targets(rt: HostRuntime) -> Result<(), Fail> {
    let mut channel = Channel::new(rt.alloc(), 1, false);
    let (one, other) = (slot(7), slot(4));
    let first = channel.link(rt.alloc(), one)?;
    prove!(first == Linked::Kept);
    let second = channel.link(rt.alloc(), other)?;
    prove!(second == Linked::Kept);
    let refusal = channel.refusal(Guid(3));
    prove!(refusal == Some(Code::Einval));
    match channel.satisfy(rt.alloc(), Guid::NULL)? {
        Satisfied::Fired(targets) => {
            let sent = targets.as_slice();
            prove!(sent.len() == 1);
            prove!(sent[0] == one);
        }
        Satisfied::Kept => unreachable!(),
        Satisfied::Ignored => unreachable!(),
        Satisfied::Refused(_) => unreachable!(),
    }
    match channel.satisfy(rt.alloc(), Guid::NULL)? {
        Satisfied::Fired(targets) => {
            let sent = targets.as_slice();
            prove!(sent.len() == 1);
            prove!(sent[0] == other);
        }
        Satisfied::Kept => unreachable!(),
        Satisfied::Ignored => unreachable!(),
        Satisfied::Refused(_) => unreachable!(),
    }
    let kept = channel.satisfy(rt.alloc(), Guid::NULL)?;
    prove!(matches!(&kept, Satisfied::Kept));
    Ok(())
}

// A target waits as it is destroyed.
#[test]
fn is_destroyed_once(rt: HostRuntime) -> Result<(), Fail> {
    let mut channel = Channel::new(rt.alloc(), 1, false);
    let waits = channel.link(rt.alloc(), slot(4))?;
    prove!(waits == Linked::Kept);
    let destroyed = channel.destroy();
    prove!(destroyed == Code::Done);
    let (gone, again) = (channel.is_destroyed(), channel.destroy());
    prove!(gone);
    prove!(again == Code::Stale);
    let late = channel.link(rt.alloc(), slot(9))?;
    prove!(late == Linked::Refused(Code::Stale));
    Ok(())
}

// A satisfaction that was refused memory took no target away.
#[test]
fn is_as_before_where_memory_was_refused(rt: HostRuntime) -> Result<(), Fail> {
    let mut channel = Channel::new(rt.alloc(), 1, true);
    let one = slot(7);
    let kept = channel.link(rt.alloc(), one)?;
    prove!(kept == Linked::Kept);
    if channel.satisfy(rt.alloc(), Guid(3)).is_ok() {
        return Ok(());
    }
    match channel.satisfy(rt.alloc(), Guid(4))? {
        Satisfied::Fired(targets) => {
            let sent = targets.as_slice();
            prove!(sent.len() == 1);
            prove!(sent[0] == one);
        }
        Satisfied::Kept => unreachable!(),
        Satisfied::Ignored => unreachable!(),
        Satisfied::Refused(_) => unreachable!(),
    }
    Ok(())
}
