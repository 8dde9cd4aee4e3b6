ghost use Rattle.std.specs.Prelude.{◌≡◌, ◌<◌, ℕ, All, IfOk, length, slice_index_or, vec_len};
ghost use Rattle.ocr_steal.specs.Hand.{pool_of};
ghost use Rattle.ocr_steal.specs.Pool.{IsOfPool};

use crate::{Hand, Pool, Steal, gather};
use ocr_guid::Guid;
use std::alloc::{AllocError, Global};
use std::test::Fail;
use std::thread;
use std::thread::Threads;

const PUSHES: u64 = 2_500;

#[test]
fn hand_without_a_push_has_nothing(rt: HostRuntime) -> Result<(), Fail> {
    let Ok((pool, mut hands)) = Pool::new(rt.alloc(), 2, 4) else {
        assert!(rt; false);
        return Ok(())
    };
    assert_eq!(rt; pool.hands(), 2);
    assert_eq!(rt; hands[0].take(), None);
    assert_eq!(rt; hands[1].number(), 1);
    assert_eq!(rt; hands[1].steal(&pool, 0), Steal::Empty);
    assert_eq!(rt; hands[1].misses(0), 1);
    Ok(())
}

#[test]
fn bell_wakes_one_at_a_time(rt: HostRuntime) -> Result<(), Fail> {
    let Ok((pool, _)) = Pool::new(rt.alloc(), 2, 4) else {
        assert!(rt; false);
        return Ok(())
    };
    let bell = &pool.bell;
    bell.ring();
    assert!(rt; !bell.end_search());
    let rung = bell.lie_down();
    bell.ring();
    bell.ring();
    bell.sleep(&rt, rung, 60_000); // it rang since, so this is no sleep
    bell.get_up();
    assert_eq!(rt; bell.lie_down(), rung.wrapping_add(1));
    assert!(rt; bell.end_search());
    assert!(rt; !bell.end_search());
    Ok(())
}

// What a thread made of its hand.
#[derive(Drop)]
struct Played {
    hand: Hand,
    got: Vec<Guid>,
    is_whole: bool,
}

fn rob(pool: &Pool, hand: &mut Hand) -> Option<Guid>
    requires { IsOfPool pool.now hand.old }
    ensures { (hand.new.number ≡ hand.old.number) × (pool_of hand.new ≡ pool_of hand.old) }
{
    for victim in 0..pool.hands() {
        if victim != hand.number() {
            if let Steal::Got(edt) = hand.steal(pool, victim) {
                return Some(edt);
            }
        }
    }
    None
}

// Pushes as many, and takes or steals after two pushes of three.
fn play(alloc: Global, pool: &Pool, mut hand: Hand) -> Played
    requires { IsOfPool pool.now hand }
    ensures { (result.hand.number ≡ hand.number) × (pool_of result.hand ≡ pool_of hand) }
{
    let first = u64::from(hand.number()) * PUSHES + 1;
    let mut got = Vec::new(alloc);
    let mut is_whole = true;
    for k in 0..PUSHES {
        is_whole = is_whole && hand.push(alloc, Guid(first + k)).is_ok();
        let edt = match k % 3 {
            0 => rob(pool, &mut hand),
            1 => hand.take(),
            _ => None,
        };
        if let Some(edt) = edt {
            is_whole = is_whole && got.push(edt).is_ok();
        }
    }
    Played {
        hand,
        got,
        is_whole,
    }
}

fn play_all<R: Threads + Sync>(
    rt: &R,
    alloc: Global,
    pool: &Pool,
    hands: Vec<Hand>,
) -> Result<Vec<Played>, AllocError>
    requires { All (λ h. IsOfPool pool.now h) hands.items }
    ensures many { IfOk result (λ played. vec_len played ≡ vec_len hands) }
    ensures hands { IfOk result (λ played. (k : ℕ) (p : Played) (h : Hand) → k < length hands.items
        → ((slice_index_or played.items k p).hand.number ≡ (slice_index_or hands.items k h).number)
        × IsOfPool pool.now (slice_index_or played.items k p).hand) }
{
    thread::map_vec(
        rt,
        hands,
        &|hand: Hand| -> Played
            requires { IsOfPool pool.now hand }
            ensures { (result.hand.number ≡ hand.number) × (pool_of result.hand ≡ pool_of hand) }
        { play(alloc, pool, hand) },
    )
}

// Adds what a thread got to the list, and gives its hand back.
fn keep(all: &mut Vec<Guid>, played: Played) -> Result<Hand, AllocError>
    ensures { IfOk result (λ hand. (hand.number ≡ played.hand.number)
        × (pool_of hand ≡ pool_of played.hand)) }
{
    for edt in &played.got {
        all.push(*edt)?;
    }
    Ok(played.hand)
}

#[test]
fn four_threads_lose_and_double_nothing(rt: HostRuntime) -> Result<(), Fail> {
    let alloc = rt.alloc();
    let Ok((pool, hands)) = Pool::new(alloc, 4, 8) else {
        assert!(rt; false);
        return Ok(())
    };
    let mut played = play_all(&rt, alloc, &pool, hands)?;
    let (Some(d), Some(c), Some(b), Some(a)) = (
        played.pop(),
        played.pop(),
        played.pop(),
        played.pop(),
    ) else {
        assert!(rt; false);
        return Ok(())
    };
    assert!(rt; a.is_whole && b.is_whole && c.is_whole && d.is_whole);
    let mut all = Vec::new(alloc);
    let a = keep(&mut all, a)?;
    let b = keep(&mut all, b)?;
    let c = keep(&mut all, c)?;
    let d = keep(&mut all, d)?;
    let Ok(left) = gather(alloc, pool, vec![in alloc; a, b, c, d]?) else {
        assert!(rt; false);
        return Ok(())
    };
    for edt in &left {
        all.push(*edt)?;
    }
    all.sort()?;
    assert_eq!(rt; all.len() as u64, 4 * PUSHES);
    for place in 0..all.len() {
        assert_eq!(rt; all[place].0, place as u64 + 1);
    }
    Ok(())
}
