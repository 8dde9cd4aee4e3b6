use ocr_guid::Code;
use std::test::Fail;

#[test]
fn codes_have_their_numbers(_rt: HostRuntime) {
    let (done, eperm, enoent) = (
        Code::Done.number(),
        Code::Eperm.number(),
        Code::Enoent.number(),
    );
    prove!(done == 0 && eperm == 1 && enoent == 2);
    let (ebusy, einval, stale) = (
        Code::Ebusy.number(),
        Code::Einval.number(),
        Code::Stale.number(),
    );
    prove!(ebusy == 16 && einval == 22 && stale == 200);
}

#[test]
fn codes_are_written_by_their_names(rt: HostRuntime) -> Result<(), Fail> {
    let rows = [
        (Code::Done, "done"),
        (Code::Eperm, "EPERM"),
        (Code::Enoent, "ENOENT"),
        (Code::Ebusy, "EBUSY"),
        (Code::Einval, "EINVAL"),
        (Code::Stale, "STALE"),
    ];
    for (code, name) in rows {
        assert_eq!(rt; code.to_string(rt.alloc())?.as_str(), name);
    }
    Ok(())
}
