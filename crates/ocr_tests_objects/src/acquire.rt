use ocr_acquire::{Mode, fits, plan};
use ocr_guid::Guid;
use std::test::Fail;

#[test]
fn modes_have_the_numbers_from_0_to_4(_rt: HostRuntime) {
    let (least, constant, most) = (Mode::of(0), Mode::of(2), Mode::of(4));
    prove!(least == Some(Mode::Null));
    prove!(constant == Some(Mode::Const));
    prove!(most == Some(Mode::Ew));
    let none = Mode::of(5);
    prove!(none.is_none());
}

#[test]
fn a_mode_fits_beside_all_holders_or_not(_rt: HostRuntime) {
    let sharing = [(Guid(2), Mode::Ro), (Guid(3), Mode::Rw)];
    let (ro, rw) = (fits(Mode::Ro, &sharing), fits(Mode::Rw, &sharing));
    prove!(ro && rw);
    let (constant, ew) = (fits(Mode::Const, &sharing), fits(Mode::Ew, &sharing));
    prove!(!constant && !ew);
    let reading = [(Guid(2), Mode::Const)];
    let (rw, ew) = (fits(Mode::Rw, &reading), fits(Mode::Ew, &reading));
    prove!(!rw && !ew);
    let alone = fits(Mode::Ew, &[]);
    prove!(alone);
}

#[test]
fn the_strongest_mode_of_each_block_is_planned(rt: HostRuntime) -> Result<(), Fail> {
    let slots = [
        (Guid(7), Mode::Rw),
        (Guid(3), Mode::Const),
        (Guid(7), Mode::Ew),
        (Guid(0), Mode::Rw),
        (Guid(9), Mode::Null),
    ];
    let plan = plan(rt.alloc(), &slots)?;
    prove!(plan.len() == 2);
    let (first, second) = (plan[0], plan[1]);
    prove!(first == (Guid(3), Mode::Const));
    prove!(second == (Guid(7), Mode::Ew));
    Ok(())
}
