use ocr_audit::{MOST_BYTES, split_input};
use std::test::Fail;

#[test]
fn splits_inputs(rt: HostRuntime) {
    let rows = [
        ("program 3\na\nb0 start 1\n", Some((10, 13))),
        ("program 0\n", Some((10, 10))),
        ("program 0\n0 start 1\n", Some((10, 10))),
        ("program 12\nprogram 1\nab", Some((11, 23))),
        ("program 12\nprogram 1\na", None),
        ("program 03\na\nb", None),
        ("program 00\n", None),
        ("program \n", None),
        ("program 3a\nabc", None),
        ("program 3\r\nabc", None),
        ("program +3\nabc", None),
        ("program  3\nabc", None),
        ("program 3", None),
        ("Program 3\nabc", None),
        ("program", None),
        ("", None),
        ("program 18446744073709551616\na", None),
    ];
    for (text, places) in rows {
        assert_eq!(rt; split_input(text.as_bytes()), places, "in {text}");
    }
}

#[test]
fn takes_as_many_bytes_as_a_program_has(rt: HostRuntime) -> Result<(), Fail> {
    let mut bytes = b"program 1048576\n".to_vec(rt.alloc())?;
    bytes.resize(16 + MOST_BYTES, b' ')?;
    assert_eq!(rt; split_input(&bytes), Some((16, 16 + MOST_BYTES)));
    let mut more = b"program 1048577\n".to_vec(rt.alloc())?;
    more.resize(17 + MOST_BYTES, b' ')?;
    assert_eq!(rt; split_input(&more), None);
    let mut digits = b"program ".to_vec(rt.alloc())?;
    digits.resize(1_000_008, b'1')?;
    assert_eq!(rt; split_input(&digits), None);
    Ok(())
}
