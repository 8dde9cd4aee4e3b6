// What is made beside an EDT: its scope, and its output event.
ghost use Rattle.std.specs.Prelude.{◌≡◌, ℕ, None, if◌then◌else◌};
ghost use Rattle.std.specs.Ordering.{nat_cmp};
ghost use Rattle.std.specs.BTreeMap as map;
ghost use Rattle.ocr_machine_history.specs.Made.{names_new};
ghost use Rattle.ocr_report.specs.Made.{is_beside_in};

use ocr_body_meaning::{Answer, Call};
use ocr_guid::{Code, Guid};
use ocr_machine_history::Entry;
use std::collections::BTreeMap;

// Takes out what a table keeps at a number, unless it is NULL_GUID.
fn clear<V: Drop>(table: &mut BTreeMap<u64, V>, number: Guid)
    ensures { (g : ℕ) → map.get nat_cmp table.new g
        ≡ (if names_new number g then None else map.get nat_cmp table.old g) }
{
    if number != Guid::NULL {
        table.remove(&number.0);
    }
}

/// Takes out what a table keeps at the scope and at the output event of an EDT that the entry
/// makes.
pub fn clear_beside<V: Drop>(table: &mut BTreeMap<u64, V>, entry: &Entry)
    ensures { (g : ℕ) → map.get nat_cmp table.new g
        ≡ (if is_beside_in entry.now g then None else map.get nat_cmp table.old g) }
{
    if let Entry::Call {
        call: Call::EdtCreate { .. },
        answer: Answer {
            code: Code::Done,
            scope,
            output,
            ..
        },
        ..
    } = entry
    {
        clear(table, *scope);
        clear(table, *output);
    }
}
