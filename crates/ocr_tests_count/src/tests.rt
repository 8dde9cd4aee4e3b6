use crate::play::{EDT, claim_and_read, make, open, race, rest, set};
use ocr_base::NoMemory;
use ocr_count::{Claimed, Down, claim};
use std::alloc::Global;
use std::sync::Wait;
use std::test::Fail;

const ROUNDS: u64 = 1_000;

// What is left to be counted; 1,000 where the call made no countdown.
fn left(answer: &Option<Down>) -> u64 {
    match answer {
        Some(Down::Last) => 0,
        Some(Down::More(left)) => *left,
        None => 1_000,
    }
}

#[test]
fn one_of_two_threads_counts_the_last_slot(rt: HostRuntime) -> Result<(), Fail> {
    for _ in 0..ROUNDS {
        let Ok(Some(answers)) = race(&rt, rt.alloc()) else {
            assert!(rt; false);
            return Ok(())
        };
        assert_eq!(rt; answers.len(), 2);
        let (first, second) = (left(&answers[0]), left(&answers[1]));
        assert!(rt; first == 0 && second == 1 || first == 1 && second == 0);
    }
    Ok(())
}

// What the calls of one EDT's life answered.
#[derive(Drop)]
struct Life {
    made: u64,
    first: u64,
    second: u64,
    payloads: (u64, u64),
    parked: u64,
    claimed: u64,
}

fn live<R: Wait>(rt: &R, alloc: Global) -> Result<Option<Life>, NoMemory> {
    let (turns, mut clerk) = open(alloc)?;
    let Some(made) = make(rt, alloc, &turns, &mut clerk)? else {
        return Ok(None);
    };
    let Some(first) = set(rt, alloc, &turns, &mut clerk, 0, 70)? else {
        return Ok(None);
    };
    let Some(second) = set(rt, alloc, &turns, &mut clerk, 1, 81)? else {
        return Ok(None);
    };
    let Ok(payloads) = claim_and_read(&turns, &mut clerk, 70, 81) else {
        return Ok(None);
    };
    let Some(parked) = rest(rt, alloc, &turns, &mut clerk, 70, 81)? else {
        return Ok(None);
    };
    let Claimed::Lost(claimed) = claim(&turns, &mut clerk, EDT) else {
        return Ok(None);
    };
    Ok(Some(Life {
        made: left(&Some(made)),
        first: left(&Some(first)),
        second: left(&Some(second)),
        payloads,
        parked,
        claimed,
    }))
}

#[test]
fn an_edt_is_made_counted_claimed_parked_and_resumed(rt: HostRuntime) -> Result<(), Fail> {
    let Ok(Some(life)) = live(&rt, rt.alloc()) else {
        assert!(rt; false);
        return Ok(())
    };
    assert_eq!(rt; life.made, 2);
    assert_eq!(rt; life.first, 1);
    assert_eq!(rt; life.second, 0);
    assert_eq!(rt; life.payloads, (70, 81));
    assert_eq!(rt; life.parked, 65);
    assert_eq!(rt; life.claimed, 64);
    Ok(())
}
