use ocr_base::Seq;
use std::test::Fail;

#[test]
fn list_of_numbers_is_pushed_cloned_and_given_back(rt: HostRuntime) -> Result<(), Fail> {
    let mut list: Seq<u64> = Seq::new(rt.alloc());
    let empty = list.is_empty();
    prove!(empty);
    list.push(7)?;
    let (empty, one) = (list.is_empty(), list.len());
    prove!(!empty && one == 1);
    list.push(9)?;
    let items = list.as_slice();
    prove!(items.len() == 2);
    prove!(items[0] == 7 && items[1] == 9);
    let copy = list.clone()?;
    assert_eq!(rt; copy.as_slice(), [7, 9].as_slice());
    let again = Seq::from_vec(list.into_vec());
    assert_eq!(rt; again.as_slice(), [7, 9].as_slice());
    Ok(())
}
