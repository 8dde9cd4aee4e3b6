// What the live word tells, by rows.
use crate::life::{FIRST, destroy, open_solo, run_whole, stop, take_on};
use ocr_count::{Claimed, claim};
use ocr_live::{LiveRead, live, lower, raise, split_live};
use std::test::Fail;

#[test]
fn the_live_word_counts_units_and_ready_edts(rt: HostRuntime) -> Result<(), Fail> {
    let Ok((turns, mut root)) = open_solo(rt.alloc()) else {
        assert!(rt; false);
        return Ok(())
    };
    assert!(rt; matches!(live(&turns, &mut root), LiveRead::Busy(2)));
    raise(&turns, &mut root, 5);
    assert!(rt; matches!(live(&turns, &mut root), LiveRead::Busy(7)));
    let Ok(mut clerk) = split_live(&turns, rt.alloc(), &mut root) else {
        assert!(rt; false);
        return Ok(())
    };
    assert!(rt; matches!(live(&turns, &mut clerk), LiveRead::Busy(7)));
    lower(&turns, &mut clerk, 1);
    assert!(rt; matches!(live(&turns, &mut root), LiveRead::Busy(6)));
    lower(&turns, &mut root, 5);
    assert!(rt; matches!(live(&turns, &mut clerk), LiveRead::Busy(1)));
    assert_eq!(rt; clerk.units(), 0);
    assert_eq!(rt; root.units(), 0);
    Ok(())
}

// The root's one unit goes first. The claim has the EDT's unit then, until the EDT ends.
#[test]
fn nothing_can_come_once_the_edt_ended(rt: HostRuntime) -> Result<(), Fail> {
    let Ok((turns, mut root)) = open_solo(rt.alloc()) else {
        assert!(rt; false);
        return Ok(())
    };
    lower(&turns, &mut root, 1);
    assert!(rt; matches!(live(&turns, &mut root), LiveRead::Busy(1)));
    if !take_on(&rt, &turns, &mut root) {
        assert!(rt; false);
        return Ok(())
    }
    let Ok(true) = run_whole(rt.alloc(), &turns, &mut root) else {
        assert!(rt; false);
        return Ok(())
    };
    assert!(rt; matches!(live(&turns, &mut root), LiveRead::Busy(1)));
    lower(&turns, &mut root, 1);
    assert!(rt; matches!(live(&turns, &mut root), LiveRead::Quiet { entries: 4 }));
    Ok(())
}

#[test]
fn who_ended_the_run_keeps_the_live_word_up(rt: HostRuntime) -> Result<(), Fail> {
    let Ok((turns, mut root)) = open_solo(rt.alloc()) else {
        assert!(rt; false);
        return Ok(())
    };
    lower(&turns, &mut root, 1);
    if !take_on(&rt, &turns, &mut root) {
        assert!(rt; false);
        return Ok(())
    }
    let Ok(true) = run_whole(rt.alloc(), &turns, &mut root) else {
        assert!(rt; false);
        return Ok(())
    };
    assert!(rt; stop(&turns, &mut root));
    assert!(rt; matches!(live(&turns, &mut root), LiveRead::Busy(1)));
    Ok(())
}

// Its word stays that of a claimed EDT, where parking leaves another.
#[test]
fn the_claim_of_a_destroyed_edt_is_dropped(rt: HostRuntime) -> Result<(), Fail> {
    let Ok((turns, mut root)) = open_solo(rt.alloc()) else {
        assert!(rt; false);
        return Ok(())
    };
    lower(&turns, &mut root, 1);
    if !take_on(&rt, &turns, &mut root) {
        assert!(rt; false);
        return Ok(())
    }
    let Ok(true) = destroy(rt.alloc(), &turns, &mut root) else {
        assert!(rt; false);
        return Ok(())
    };
    assert!(rt; matches!(claim(&turns, &mut root, FIRST), Claimed::Lost(64)));
    lower(&turns, &mut root, 1);
    assert!(rt; matches!(live(&turns, &mut root), LiveRead::Quiet { entries: 1 }));
    Ok(())
}
