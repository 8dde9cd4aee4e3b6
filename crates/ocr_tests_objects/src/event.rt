use crate::sent::{is_sent_to_nobody, slot};
use ocr_event::{Event, EventKind};
use ocr_guid::target::{Linked, Satisfied};
use ocr_guid::{Code, Guid};
use std::test::Fail;

#[test]
fn once_fires_in_link_order_and_is_destroyed(rt: HostRuntime) -> Result<(), Fail> {
    let mut event = Event::new(rt.alloc(), EventKind::Once, false);
    let (one, other) = (slot(7), slot(4));
    let first = event.link(rt.alloc(), one)?;
    prove!(first == Linked::Kept);
    let second = event.link(rt.alloc(), other)?;
    prove!(second == Linked::Kept);
    let (refusal, block) = (event.refusal(Guid(3)), event.satisfy(Guid(3)));
    prove!(refusal == Some(Code::Einval));
    prove!(matches!(&block, Satisfied::Refused(Code::Einval)));
    match event.satisfy(Guid::NULL) {
        Satisfied::Fired(targets) => {
            let sent = targets.as_slice();
            prove!(sent.len() == 2);
            prove!(sent[0] == one && sent[1] == other);
        }
        Satisfied::Kept => unreachable!(),
        Satisfied::Ignored => unreachable!(),
        Satisfied::Refused(_) => unreachable!(),
    }
    let (gone, refusal) = (event.is_destroyed(), event.refusal(Guid::NULL));
    prove!(gone);
    prove!(refusal == Some(Code::Stale));
    let late = event.link(rt.alloc(), slot(9))?;
    prove!(late == Linked::Refused(Code::Stale));
    Ok(())
}

#[test]
fn idem_passes_over_and_gives_its_first_payload(rt: HostRuntime) -> Result<(), Fail> {
    let mut event = Event::new(rt.alloc(), EventKind::Idem, true);
    let takes_arg = event.takes_arg();
    prove!(takes_arg);
    let first = event.satisfy(Guid(3));
    prove!(matches!(&first, Satisfied::Fired(_)));
    assert!(rt; is_sent_to_nobody(&first));
    let second = event.satisfy(Guid(5));
    prove!(matches!(&second, Satisfied::Ignored));
    let gone = event.is_destroyed();
    prove!(!gone);
    let later = event.link(rt.alloc(), slot(9))?;
    prove!(later == Linked::Now(Guid(3)));
    Ok(())
}

#[test]
fn sticky_refuses_a_second_satisfaction(rt: HostRuntime) -> Result<(), Fail> {
    let mut event = Event::new(rt.alloc(), EventKind::Sticky, true);
    let first = event.satisfy(Guid(3));
    prove!(matches!(&first, Satisfied::Fired(_)));
    assert!(rt; is_sent_to_nobody(&first));
    let second = event.satisfy(Guid(5));
    prove!(matches!(&second, Satisfied::Refused(Code::Eperm)));
    let later = event.link(rt.alloc(), slot(9))?;
    prove!(later == Linked::Now(Guid(3)));
    let (destroyed, again) = (event.destroy(), event.destroy());
    prove!(destroyed == Code::Done);
    prove!(again == Code::Stale);
    let stale = event.satisfy(Guid(8));
    prove!(matches!(&stale, Satisfied::Refused(Code::Stale)));
    let late = event.link(rt.alloc(), slot(9))?;
    prove!(late == Linked::Refused(Code::Stale));
    Ok(())
}

#[test]
fn a_block_is_refused_before_a_second_satisfaction_is(rt: HostRuntime) {
    let mut event = Event::new(rt.alloc(), EventKind::Sticky, false);
    let first = event.satisfy(Guid::NULL);
    prove!(matches!(&first, Satisfied::Fired(_)));
    let block = event.satisfy(Guid(7));
    prove!(matches!(&block, Satisfied::Refused(Code::Einval)));
}
