// Lists of numbers, each found by a number.
ghost use Rattle.std.specs.Prelude.{◌≡◌, ◌==◌, ◌++◌, [], ◌∷◌, ℕ, OnOk, if◌then◌else◌};
ghost use Rattle.ocr_report.specs.Lists.{list_at};

use ocr_base::{NoMemory, Seq};
use std::alloc::Global;
use std::collections::BTreeMap;

/// Lists of numbers, each by the number that it is of.
pub type Lists = BTreeMap<u64, Seq<u64>>;

/// The list of a number.
pub fn list_of(lists: &Lists, number: u64) -> &[u64]
    ensures { result.now ≡ list_at lists.now number }
{
    match lists.get(&number) {
        Some(list) => list.as_slice(),
        None => &[],
    }
}

/// Takes the list of a number out.
pub fn take(alloc: Global, lists: &mut Lists, number: u64) -> Seq<u64>
    ensures list { result ≡ list_at lists.old number }
    ensures rest { (n : ℕ) → list_at lists.new n
        ≡ (if number == n then [] else list_at lists.old n) }
{
    match lists.remove(&number) {
        Some(list) => list,
        None => Seq::new(alloc),
    }
}

/// Gives a number this list.
pub fn put(lists: &mut Lists, number: u64, list: Seq<u64>) -> Result<(), NoMemory>
    ensures { OnOk result ((n : ℕ) → list_at lists.new n
        ≡ (if number == n then list else list_at lists.old n)) }
{
    lists.insert(number, list)?;
    Ok(())
}

/// Adds an item at the end of a number's list.
pub fn append(alloc: Global, lists: &mut Lists, number: u64, item: u64) -> Result<(), NoMemory>
    ensures { OnOk result ((n : ℕ) → list_at lists.new n
        ≡ (if number == n then list_at lists.old n ++ item ∷ [] else list_at lists.old n)) }
{
    let mut list = take(alloc, lists, number);
    list.push(item)?;
    put(lists, number, list)
}
