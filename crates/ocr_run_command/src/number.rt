// Numbers and the texts that write them.
ghost use Rattle.std.specs.Prelude.{◌≡◌, ◌≤◌, ◌<◌, ◌↔◌, ℕ, IfOk, IfErr, IfSome, IfNone, IsTrue, length, map, option_map};
ghost use Rattle.ocr_run_command.specs.Wanted.{IsNumber, IsOr, IsWithin, AreNumbers, value};

use crate::wanted::WordsStop;
use std::alloc::Global;

/// The number that a text of 1 to 20 digits writes, where 64 bits take it.
pub fn number_of(text: &str) -> Option<u64>
    ensures some { IfSome result (λ n. IsNumber text.now × (n ≡ value text.now)) }
    ensures none { IfNone result (IsNumber text.now → ⊥) }
{
    // std reads a sign too, and any number of zeros before the digits.
    if text.len() > 20 || text.as_bytes().first() == Some(&b'+') {
        return None;
    }
    match text.parse::<u64>() {
        Ok(number) => Some(number),
        Err(_) => None,
    }
}

/// The number that a text writes, from `least` to `most`.
pub fn number_within(text: &str, least: u64, most: u64) -> Option<u64>
    ensures some { IfSome result (λ n. IsWithin least most text.now n) }
    ensures none { IfNone result ((n : ℕ) → IsWithin least most text.now n → ⊥) }
{
    let number = number_of(text)?;
    if least <= number && number <= most {
        Some(number)
    } else {
        None
    }
}

/// The number that is given, or `default` where none is. `None` where what is given is no number
/// from `least` to `most`.
pub fn number_or(text: Option<&str>, default: u64, least: u64, most: u64) -> Option<u64>
    ensures some { IfSome result
        (λ n. IsOr default least most (option_map (λ t. t.now) text.entry) n) }
    ensures within { least ≤ default → default ≤ most
        → IfSome result (λ n. (least ≤ n) × (n ≤ most)) }
    ensures none { IfNone result
        ((n : ℕ) → IsOr default least most (option_map (λ t. t.now) text.entry) n → ⊥) }
{
    match text {
        None => Some(default),
        Some(text) => number_within(text, least, most),
    }
}

/// Whether each of these texts writes a number.
fn are_numbers(texts: &[&str]) -> bool
    ensures { IsTrue result ↔ AreNumbers (map (λ t. t.now) texts.now) }
{
    for text in texts {
        if number_of(text).is_none() {
            return false;
        }
    }
    true
}

/// The numbers that texts write. `Refused` comes exactly where one of them writes none, since
/// memory is asked for after that.
pub fn numbers_of(alloc: Global, texts: &[&str]) -> Result<Vec<u64>, WordsStop>
    ensures ok { IfOk result (λ v. AreNumbers (map (λ t. t.now) texts.now)
        × (v.items ≡ map value (map (λ t. t.now) texts.now))) }
    ensures refused { IfErr result
        (λ stop. stop ≡ WordsStop.Refused → AreNumbers (map (λ t. t.now) texts.now) → ⊥) }
    ensures memory { IfErr result (λ stop. stop ≡ WordsStop.NoMemory
        → AreNumbers (map (λ t. t.now) texts.now) × (0 < length texts.now)) }
{
    if !are_numbers(texts) {
        return Err(WordsStop::Refused);
    }
    let mut numbers = Vec::new(alloc);
    for text in texts {
        let Some(number) = number_of(text) else {
            unreachable!()
        };
        numbers.push(number)?;
    }
    Ok(numbers)
}
