use ocr_base::{NoMemory, Seq};
use ocr_body_meaning::{BodyStop, Call};

#[test]
fn calls_are_the_same_where_all_that_they_name_is(_rt: HostRuntime) {
    let (one, other) = (Call::Print { value: 5 }, Call::Print { value: 6 });
    let (same, different) = (one.is_same(&one), one.is_same(&other));
    prove!(same && !different);
    let (release, destroy) = (Call::DbRelease { block: 5 }, Call::DbDestroy { block: 5 });
    let same = release.is_same(&destroy);
    prove!(!same);
}

#[test]
fn a_creation_is_told_from_what_makes_nothing(rt: HostRuntime) {
    let made = Call::EdtCreate {
        template: 5,
        paramc: 0,
        params: Seq::new(rt.alloc()),
        depc: 0,
        deps: Seq::new(rt.alloc()),
        flags: 0,
        output: false,
    };
    let (is_one, is_none) = (made.is_creation(), Call::Print { value: 5 }.is_creation());
    prove!(is_one && !is_none);
}

#[test]
fn want_of_memory_stops_a_body_as_such(_rt: HostRuntime) {
    let stop = BodyStop::from(NoMemory);
    prove!(stop == BodyStop::NoMemory);
}
