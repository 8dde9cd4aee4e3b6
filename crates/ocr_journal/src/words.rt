// Words and numbers.
ghost use Rattle.std.specs.Prelude.{◌≡◌, ◌++◌, OnOk, decimal};
ghost use Rattle.ocr_journal.specs.Phrase as spec;

use itoa::Buffer;
use ocr_base::NoMemory;

// Writes a number in decimal at the text's end.
pub(crate) fn number(text: &mut Vec<u8>, number: u64) -> Result<(), NoMemory>
    ensures { OnOk result (text.new.items ≡ text.old.items ++ decimal number) }
{
    let mut buffer = Buffer::new();
    text.extend_from_slice(buffer.format(number).as_bytes())?;
    Ok(())
}

/// Writes words at the text's end, and numbers in decimal, each after a space.
pub fn phrase(text: &mut Vec<u8>, words: &[u8], numbers: &[u64]) -> Result<(), NoMemory>
    ensures { OnOk result (text.new.items ≡ text.old.items
        ++ spec.phrase words.now numbers.now) }
{
    text.extend_from_slice(words)?;
    for n in numbers {
        text.push(b' ')?;
        number(text, *n)?;
    }
    Ok(())
}

// Writes words, a name, and numbers in decimal, each after a space.
pub(crate) fn named_phrase(
    text: &mut Vec<u8>,
    words: &[u8],
    name: &[u8],
    numbers: &[u64],
) -> Result<(), NoMemory>
    ensures { OnOk result (text.new.items ≡ text.old.items
        ++ spec.named_phrase words.now name.now numbers.now) }
{
    text.extend_from_slice(words)?;
    text.push(b' ')?;
    phrase(text, name, numbers)
}

// Writes a list of numbers between brackets, after a space.
pub(crate) fn list(text: &mut Vec<u8>, numbers: &[u64]) -> Result<(), NoMemory>
    ensures { OnOk result (text.new.items ≡ text.old.items ++ spec.listed numbers.now) }
{
    match numbers {
        [] => text.extend_from_slice(b" []")?,
        [first, rest @ ..] => {
            text.extend_from_slice(b" [")?;
            number(text, *first)?;
            phrase(text, b"", rest)?;
            text.push(b']')?;
        }
    }
    Ok(())
}
