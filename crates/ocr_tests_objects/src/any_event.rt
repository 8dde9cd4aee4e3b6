use crate::sent::{is_sent_to, slot};
use ocr_event_any::{CHANNEL, IDEM, LATCH, ONCE, STICKY, event_of};
use ocr_guid::target::{Linked, Satisfied};
use ocr_guid::{Code, Guid};
use std::test::Fail;

#[test]
fn an_event_of_each_kind_sends_and_is_destroyed(rt: HostRuntime) -> Result<(), Fail> {
    for kind in 1..6_u64 {
        let mut event = event_of(rt.alloc(), kind, 1, 2);
        assert!(rt; event.takes_arg());
        assert_eq!(rt; event.link(rt.alloc(), slot(7))?, Linked::Kept);
        assert_eq!(rt; event.refusal(Guid(3)), None);
        let first = event.satisfy(rt.alloc(), 1, Guid(3))?;
        let fired = if kind == LATCH {
            event.satisfy(rt.alloc(), 0, Guid(3))?
        } else {
            first
        };
        assert!(rt; is_sent_to(&fired, slot(7)));
        assert_eq!(rt; event.is_destroyed(), kind == ONCE || kind == LATCH);
        let gone = if event.is_destroyed() {
            Code::Stale
        } else {
            Code::Done
        };
        assert_eq!(rt; event.destroy(), gone);
        assert_eq!(rt; event.refusal(Guid(3)), Some(Code::Stale));
    }
    Ok(())
}

#[test]
fn each_number_makes_an_event_of_its_kind(rt: HostRuntime) -> Result<(), Fail> {
    let mut once = event_of(rt.alloc(), ONCE, 1, 0);
    let _fired = once.satisfy(rt.alloc(), 0, Guid(3))?;
    let second = once.refusal(Guid(5));
    prove!(second == Some(Code::Stale));
    let mut idem = event_of(rt.alloc(), IDEM, 1, 0);
    let _fired = idem.satisfy(rt.alloc(), 0, Guid(3))?;
    let second = idem.satisfy(rt.alloc(), 0, Guid(5))?;
    prove!(matches!(&second, Satisfied::Ignored));
    let mut sticky = event_of(rt.alloc(), STICKY, 1, 0);
    let _fired = sticky.satisfy(rt.alloc(), 0, Guid(3))?;
    let second = sticky.refusal(Guid(5));
    prove!(second == Some(Code::Eperm));
    Ok(())
}

#[test]
fn a_latch_counts_and_a_channel_keeps(rt: HostRuntime) -> Result<(), Fail> {
    let mut latch = event_of(rt.alloc(), LATCH, 1, 0);
    let up = latch.satisfy(rt.alloc(), 1, Guid(3))?;
    prove!(matches!(&up, Satisfied::Kept));
    let down = latch.satisfy(rt.alloc(), 0, Guid(3))?;
    prove!(matches!(&down, Satisfied::Fired(_)));
    let mut channel = event_of(rt.alloc(), CHANNEL, 1, 2);
    let kept = channel.satisfy(rt.alloc(), 0, Guid(3))?;
    prove!(matches!(&kept, Satisfied::Kept));
    let oldest = channel.link(rt.alloc(), slot(7))?;
    prove!(oldest == Linked::Now(Guid(3)));
    let (destroyed, again) = (channel.destroy(), channel.destroy());
    prove!(destroyed == Code::Done && again == Code::Stale);
    Ok(())
}

#[test]
fn the_flag_tells_whether_blocks_are_taken(rt: HostRuntime) {
    let (taking, bare) = (
        event_of(rt.alloc(), STICKY, 1, 0),
        event_of(rt.alloc(), STICKY, 0, 0),
    );
    let (takes, takes_none) = (taking.takes_arg(), !bare.takes_arg());
    prove!(takes && takes_none);
    let (block, none) = (bare.refusal(Guid(3)), bare.refusal(Guid::NULL));
    prove!(block == Some(Code::Einval));
    prove!(none.is_none());
}
