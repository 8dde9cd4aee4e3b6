use ocr_base::Count;

#[test]
fn a_count_stands_still_at_its_last_value(_rt: HostRuntime) {
    let mut count = Count::new();
    count.raise();
    let first = count.number();
    prove!(first == 1);
    count.raise_by(u64::MAX - 2);
    let last_but_one = count.number();
    prove!(last_but_one == 18446744073709551614);
    count.raise();
    count.raise();
    let last = count.number();
    prove!(last == 18446744073709551615);
}
