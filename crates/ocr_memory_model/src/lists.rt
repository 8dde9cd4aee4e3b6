// Places, each found by a number.
ghost use Rattle.std.specs.Prelude.{◌≡◌, ◌==◌, ◌++◌, [], ◌∷◌, ℕ, OnOk, if◌then◌else◌};
ghost use Rattle.ocr_memory_model.specs.Keys.{last_in, list_at};

use ocr_base::{NoMemory, Seq};
use std::alloc::Global;
use std::collections::BTreeMap;

/// Lists of places, each by the number that it is of.
pub(crate) type Lists = BTreeMap<u64, Seq<u64>>;

/// The list of a number.
pub(crate) fn list_of(lists: &Lists, number: u64) -> &[u64]
    ensures { result.now ≡ list_at lists.now number }
{
    match lists.get(&number) {
        Some(list) => list.as_slice(),
        None => &[],
    }
}

fn take(alloc: Global, lists: &mut Lists, number: u64) -> Seq<u64>
    ensures list { result ≡ list_at lists.old number }
    ensures rest { (n : ℕ) → list_at lists.new n
        ≡ (if number == n then [] else list_at lists.old n) }
{
    match lists.remove(&number) {
        Some(list) => list,
        None => Seq::new(alloc),
    }
}

fn put(lists: &mut Lists, number: u64, list: Seq<u64>) -> Result<(), NoMemory>
    ensures { OnOk result ((n : ℕ) → list_at lists.new n
        ≡ (if number == n then list else list_at lists.old n)) }
{
    lists.insert(number, list)?;
    Ok(())
}

/// Adds a place at the end of a number's list.
pub(crate) fn append(
    alloc: Global,
    lists: &mut Lists,
    number: u64,
    place: u64,
) -> Result<(), NoMemory>
    ensures { OnOk result ((n : ℕ) → list_at lists.new n
        ≡ (if number == n then list_at lists.old n ++ place ∷ [] else list_at lists.old n)) }
{
    let mut list = take(alloc, lists, number);
    list.push(place)?;
    put(lists, number, list)
}

/// The place is the last of a number.
pub(crate) fn put_last(
    places: &mut BTreeMap<u64, u64>,
    number: u64,
    place: u64,
) -> Result<(), NoMemory>
    ensures { OnOk result ((n : ℕ) → last_in places.new n
        ≡ (if number == n then place ∷ [] else last_in places.old n)) }
{
    places.insert(number, place)?;
    Ok(())
}
