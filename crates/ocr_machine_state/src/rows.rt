// The rows of a table.
ghost use Rattle.std.specs.Prelude.{◌≡◌, ◌≤◌, ◌<◌, ℕ, [], ◌∷◌, length, slice_set, vec_len, IfOk};
ghost use Rattle.ocr_machine_parts.specs.declared.part.Part.TheVariants as part;
ghost use Rattle.ocr_slots.specs.Slots.{Setting};
ghost use Rattle.ocr_machine_codes.specs.Lookup.{part_at};
ghost use Rattle.ocr_machine_state.specs.State.{row_at};

use crate::sets::Sets;
use ocr_base::NoMemory;
use ocr_guid::Guid;
use ocr_machine_parts::Part;
use std::alloc::Global;

pub(crate) fn vacant_parts(alloc: Global, count: usize) -> Result<Vec<Part>, NoMemory>
    requires { count ≤ 131073 }
    ensures len { IfOk result (λ parts. vec_len parts ≡ count) }
    ensures vacant { IfOk result (λ parts. (n : ℕ) → part_at parts.items n ≡ part.Vacant) }
{
    let mut parts = Vec::with_capacity(alloc, count)?;
    for _ in 0..count {
        parts.push_reserved(Part::Vacant);
    }
    Ok(parts)
}

pub(crate) fn no_sets(alloc: Global, count: usize) -> Result<Vec<Sets>, NoMemory>
    requires { count ≤ 65537 }
    ensures len { IfOk result (λ sets. vec_len sets ≡ count) }
    ensures none { IfOk result (λ sets. (t : ℕ) → row_at sets.items t ≡ []) }
{
    let mut sets = Vec::with_capacity(alloc, count)?;
    for _ in 0..count {
        sets.push_reserved(Sets::new(alloc));
    }
    Ok(sets)
}

/// Puts a part in the place of the one with this number, where there is one.
#[inline(always)]
pub(crate) fn set_at(parts: &mut Vec<Part>, number: usize, part: Part)
    ensures parts { parts.new.items ≡ slice_set parts.old.items number part }
    ensures len { vec_len parts.new ≡ vec_len parts.old }
{
    if number < parts.len() {
        parts[number] = part;
    }
}

pub(crate) fn set_row_at(sets: &mut Vec<Sets>, place: usize, row: Sets)
    requires { place < length sets.old.items }
    ensures items { sets.new.items ≡ slice_set sets.old.items place row }
    ensures len { vec_len sets.new ≡ vec_len sets.old }
{
    sets[place] = row;
}

pub(crate) fn put_at(
    sets: &mut Vec<Sets>,
    place: usize,
    slot: u32,
    payload: Guid,
) -> Result<(), NoMemory>
    requires { place < length sets.old.items }
    ensures items { IfOk result (λ _. sets.new.items
        ≡ slice_set sets.old.items place (Setting slot payload ∷ row_at sets.old.items place)) }
    ensures len { vec_len sets.new ≡ vec_len sets.old }
{
    sets[place].put(slot, payload)
}
