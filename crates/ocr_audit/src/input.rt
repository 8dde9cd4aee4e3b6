// Where the task text lies in the input of an audit.
ghost use Rattle.std.specs.Prelude.{◌≡◌, ◌≤◌, ◌↔◌, ℕ, List, Option, Some, IfSome, IfNone, IsTrue, length, drop, slice_get, slice_range, decimal};
ghost use Rattle.std.specs.List.{list_all, prefix_len};
ghost use Rattle.ocr_text.specs.Forms as form;
ghost use Rattle.ocr_audit.specs.Input.{IsInput, IsPlain, IsSplit, InputLaw};

use ocr_text::number_value;

/// The most bytes that a task text has.
pub const MOST_BYTES: usize = 1_048_576;

/// What stands before the number of bytes.
const WORD: &[u8] = b"program ";

// How many digits stand at the front.
fn digits_in(bytes: &[u8]) -> usize
    ensures is { result ≡ prefix_len form.is_digit bytes.now }
    ensures within { result ≤ length bytes.now }
{
    bytes
        .iter()
        .take_while(|b| b'0' <= **b && **b <= b'9')
        .count()
}

// Whether there are digits, and no zero stands before others.
fn is_plain(digits: &[u8]) -> bool
    ensures { IsTrue result ↔ IsPlain digits.now }
{
    match digits {
        [] => false,
        [first, rest @ ..] => *first != b'0' || rest.is_empty(),
    }
}

// The number that these digits write without leading zeros, where a task text may have so many
// bytes.
fn count_of(digits: &[u8]) -> Option<usize>
    requires { IsTrue (list_all form.is_digit digits.now) }
    ensures { (n : ℕ) → (result ≡ Some n) ↔ ((digits.now ≡ decimal n) × (n ≤ MOST_BYTES)) }
{
    if !is_plain(digits) {
        return None;
    }
    let value = number_value(digits)?;
    if value > MOST_BYTES as u64 {
        return None;
    }
    Some(value as usize)
}

// Whether a line ends at this place.
fn ends_at(line: &[u8], place: usize) -> bool
    requires { place ≤ length line.now }
    ensures { IsTrue result ↔ (slice_get line.now place ≡ Some 10) }
{
    line.get(place) == Some(&b'\n')
}

/// Where the task text starts and ends in the input of an audit: the line `program K`, K in decimal
/// without leading zeros and at most 1,048,576, then K bytes of task text, then at once the text of
/// a journal, of which nothing is asked here. The places count bytes from 0. `None` comes exactly
/// where no first bytes are such a line with so many bytes behind it.
pub fn split_input(bytes: &[u8]) -> Option<(usize, usize)>
    ensures split { (a b : ℕ) → (result ≡ Some (a, b)) ↔ IsSplit bytes.now a b }
    ensures parts { IfSome result (λ places. IsInput bytes.now
        (slice_range bytes.now places.0 places.1) (drop places.1 bytes.now)) }
    ensures within { IfSome result
        (λ places. (places.0 ≤ places.1) × (places.1 ≤ length bytes.now)) }
    ensures none { IfNone result ((text rest : List ℕ) → IsInput bytes.now text rest → ⊥) }
{
    let line = bytes.strip_prefix(WORD)?;
    let width = digits_in(line);
    let count = count_of(&line[..width])?;
    if !ends_at(line, width) {
        return None;
    }
    let start = WORD.len() + width + 1;
    if bytes.len() < start + count {
        return None;
    }
    Some((start, start + count))
}

/// The law of the input: bytes have one task text at most, and one rest behind it.
pub fn input_law()
    ensures { InputLaw }
{}
