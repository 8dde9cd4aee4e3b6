// A report is a line with a number and lines below it.
ghost use Rattle.std.specs.Prelude.{◌≡◌, ◌++◌, [], ◌∷◌, OnOk, IfOk};
ghost use Rattle.ocr_journal.specs.Phrase as lines;
ghost use Rattle.ocr_report.specs.Headed as spec;

use ocr_base::NoMemory;
use ocr_journal::phrase;
use std::alloc::Global;

/// The text of a report: its words with a count, and behind them its lines.
pub fn headed(alloc: Global, words: &[u8], count: u64, lines: &[u8]) -> Result<Vec<u8>, NoMemory>
    ensures { IfOk result (λ text. text.items ≡ spec.headed words.now count lines.now) }
{
    let mut text = Vec::new(alloc);
    phrase(&mut text, words, &[count])?;
    text.push(b'\n')?;
    text.extend_from_slice(lines)?;
    Ok(text)
}

/// Writes words and numbers as a line.
pub fn line(text: &mut Vec<u8>, words: &[u8], numbers: &[u64]) -> Result<(), NoMemory>
    ensures { OnOk result (text.new.items ≡ text.old.items
        ++ (lines.phrase words.now numbers.now ++ 10 ∷ [])) }
{
    phrase(text, words, numbers)?;
    text.push(b'\n')?;
    Ok(())
}
