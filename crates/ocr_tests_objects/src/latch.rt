use crate::sent::slot;
use ocr_guid::target::{Linked, Satisfied};
use ocr_guid::{Code, Guid};
use ocr_latch::Latch;
use std::test::Fail;

#[test]
fn fires_in_link_order_where_the_counts_meet(rt: HostRuntime) -> Result<(), Fail> {
    let mut latch = Latch::new(rt.alloc(), false);
    let (one, other) = (slot(7), slot(4));
    let first = latch.link(rt.alloc(), one)?;
    prove!(first == Linked::Kept);
    let second = latch.link(rt.alloc(), other)?;
    prove!(second == Linked::Kept);
    let once = latch.satisfy(Latch::INCREMENT_SLOT, Guid::NULL);
    prove!(matches!(&once, Satisfied::Kept));
    let twice = latch.satisfy(Latch::INCREMENT_SLOT, Guid::NULL);
    prove!(matches!(&twice, Satisfied::Kept));
    let back = latch.satisfy(Latch::DECREMENT_SLOT, Guid::NULL);
    prove!(matches!(&back, Satisfied::Kept));
    match latch.satisfy(Latch::DECREMENT_SLOT, Guid::NULL) {
        Satisfied::Fired(targets) => {
            let sent = targets.as_slice();
            prove!(sent.len() == 2);
            prove!(sent[0] == one && sent[1] == other);
        }
        Satisfied::Kept => unreachable!(),
        Satisfied::Ignored => unreachable!(),
        Satisfied::Refused(_) => unreachable!(),
    }
    let (gone, refusal) = (latch.is_destroyed(), latch.refusal(Guid::NULL));
    prove!(gone);
    prove!(refusal == Some(Code::Stale));
    let late = latch.link(rt.alloc(), slot(9))?;
    prove!(late == Linked::Refused(Code::Stale));
    let again = latch.destroy();
    prove!(again == Code::Stale);
    Ok(())
}

#[test]
fn a_block_is_dropped_or_refused(rt: HostRuntime) {
    let mut plain = Latch::new(rt.alloc(), false);
    let block = plain.satisfy(Latch::DECREMENT_SLOT, Guid(3));
    prove!(matches!(&block, Satisfied::Refused(Code::Einval)));
    let mut taking = Latch::new(rt.alloc(), true);
    let takes_arg = taking.takes_arg();
    prove!(takes_arg);
    let below = taking.satisfy(Latch::DECREMENT_SLOT, Guid(3));
    prove!(matches!(&below, Satisfied::Kept));
    let destroyed = taking.destroy();
    prove!(destroyed == Code::Done);
    let refusal = taking.refusal(Guid(3));
    prove!(refusal == Some(Code::Stale));
}
