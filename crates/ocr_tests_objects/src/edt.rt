// The steps stand in functions of a few calls each: an EDT that is held by value is dropped on each
// way out.
use ocr_acquire::{Mode, plan};
use ocr_base::NoMemory;
use ocr_edt::{Edt, Filling, Running};
use ocr_guid::Guid;
use std::alloc::Global;
use std::test::Fail;

// An EDT acquires one of its three blocks, waits for the next and finds it stale, and acquires the
// last one.
fn started(alloc: Global) -> Result<Running, NoMemory> {
    let slots = [
        (Guid(7), Mode::Rw),
        (Guid(3), Mode::Const),
        (Guid(5), Mode::Ew),
    ];
    let plan = plan(alloc, &slots)?;
    let edt = Filling::new(Guid(4), Guid::NULL, Guid(6), true).ready(plan);
    let first = edt.next();
    prove!(first == Some((Guid(3), Mode::Const)));
    let edt = edt.acquired(false);
    let second = edt.next();
    prove!(second == Some((Guid(5), Mode::Ew)));
    let edt = edt.wait();
    let awaited = edt.next();
    prove!(awaited == (Guid(5), Mode::Ew));
    let edt = edt.resumed().acquired(true);
    let last = edt.next();
    prove!(last == Some((Guid(7), Mode::Rw)));
    let edt = edt.acquired(false);
    let none = edt.next();
    prove!(none.is_none());
    let mut edt = edt.start();
    let (held, stale, least) = (edt.mode(Guid(3)), edt.mode(Guid(5)), edt.least_held());
    prove!(held == Some(Mode::Const));
    prove!(stale.is_none());
    prove!(least == Some(Guid(3)));
    let (is_stale, other) = (edt.is_stale(Guid(5)), edt.is_stale(Guid(3)));
    prove!(is_stale && !other);
    edt.drop_hold(Guid(5));
    let is_stale = edt.is_stale(Guid(5));
    prove!(is_stale);
    Ok(edt)
}

fn holds_what_it_acquired(edt: &Running) -> bool {
    edt.mode(Guid(3)) == Some(Mode::Const)
        && edt.mode(Guid(5)).is_none()
        && edt.is_stale(Guid(5))
        && !edt.is_stale(Guid(3))
}

// A hold that it has is one in `Rw` from then on, and none in any mode is left where it is dropped.
// No `requires`: the claim speaks of every running EDT, also of one that drops a hold in `Ew`.
fn holds_what_it_makes(alloc: Global, edt: &mut Running) -> Result<(), NoMemory> {
    edt.hold(alloc, Guid(2))?;
    edt.hold(alloc, Guid(3))?;
    let mode = edt.mode(Guid(3));
    prove!(mode == Some(Mode::Rw));
    edt.drop_hold(Guid(3));
    let none = edt.mode(Guid(3));
    prove!(none.is_none());
    Ok(())
}

fn gives_back_the_least_first(edt: &mut Running) -> bool {
    let first = edt.least_held();
    edt.drop_hold(Guid(2));
    let second = edt.least_held();
    edt.drop_hold(Guid(7));
    (first, second) == (Some(Guid(2)), Some(Guid(7)))
}

#[test]
fn an_edt_goes_through_its_phases(rt: HostRuntime) -> Result<(), Fail> {
    let mut edt = started(rt.alloc())?;
    assert!(rt; holds_what_it_acquired(&edt));
    holds_what_it_makes(rt.alloc(), &mut edt)?;
    assert!(rt; gives_back_the_least_first(&mut edt));
    assert_eq!(rt; edt.least_held(), None);
    let edt = Edt::Ended(edt.end());
    assert_eq!(rt;
        (edt.scope(), edt.output(), edt.finish()),
        (Guid::NULL, Guid(6), true)
    );
    Ok(())
}

#[test]
fn one_without_blocks_starts_and_ends_where_it_stands(rt: HostRuntime) -> Result<(), Fail> {
    let mut edt = Edt::Filling(Filling::new(Guid(8), Guid(9), Guid::NULL, false));
    let identity = edt.identity();
    edt.start_bare(rt.alloc());
    assert_eq!(rt; edt.identity(), identity);
    assert_eq!(rt; edt.end(), identity);
    assert_eq!(rt; edt.identity(), identity);
    Ok(())
}
