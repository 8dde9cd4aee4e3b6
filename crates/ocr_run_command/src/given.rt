// The texts that the words give, read by clap.
ghost use Rattle.std.specs.Prelude.{◌≡◌, ◌≢◌, ◌↔◌, IfOk, IfErr, OnErr, IsErrAnd, IsSome, drop, map, codes, [], option_map, unwrap_or};
ghost use Rattle.clap.specs.Words.{found_of, kind_of, matched_of, raw_values};
ghost use Rattle.ocr_run_command.specs.Form.{Line, IsLineOf, said, texts_of};
ghost use Rattle.ocr_run_command.specs.Wanted.{reports_in};
ghost use Rattle.ocr_run_command.specs.Numerals.{AreNumerals};
ghost use Rattle.ocr_run_command.specs.Given.{Gives, Reads};

use crate::reader::reader;
use crate::wanted::{Reports, WordsStop};
use clap::error::ErrorKind;
use clap::{ArgMatches, Error};
use std::alloc::{AllocError, Global};

/// What is given after the command.
#[derive(Drop)]
pub struct Arguments<'a> {
    pub workers: Option<&'a str>,
    pub objects: Option<&'a str>,
    pub events: Option<&'a str>,
    pub reports: Reports,
    pub numbers: Vec<&'a str>,
}

fn reports_by(matches: &ArgMatches<'_>) -> Reports
    ensures { (l : Line) → Reads (found_of matches.now) l → result ≡ reports_in (said l) }
{
    Reports {
        summary: matches.get_flag("summary"),
        left: matches.get_flag("left"),
        stale: matches.get_flag("stale"),
        refused: matches.get_flag("refused"),
        races: matches.get_flag("races"),
        blocks: matches.get_flag("blocks"),
        journal: matches.get_flag("journal"),
    }
}

fn numbers_by<'a>(alloc: Global, matches: &ArgMatches<'a>) -> Result<Vec<&'a str>, AllocError>
    ensures items { IfOk result (λ v. map (λ s. s.now) v.items ≡ unwrap_or
        (option_map raw_values (matched_of (found_of matches.now) (codes "numbers"))) []) }
    ensures memory { OnErr result
        (IsSome (matched_of (found_of matches.now) (codes "numbers"))) }
{
    match matches.get_raw("numbers") {
        Some(texts) => Vec::from_slice(alloc, texts),
        None => Ok(Vec::new(alloc)),
    }
}

fn given_by<'a>(alloc: Global, matches: &ArgMatches<'a>) -> Result<Arguments<'a>, AllocError>
    ensures given { IfOk result
        (λ g. (l : Line) → Reads (found_of matches.now) l → Gives g (said l)) }
    ensures memory { OnErr result
        (IsSome (matched_of (found_of matches.now) (codes "numbers"))) }
{
    let numbers = numbers_by(alloc, matches)?;
    Ok(Arguments {
        workers: matches.get_str("workers"),
        objects: matches.get_str("objects"),
        events: matches.get_str("events"),
        reports: reports_by(matches),
        numbers,
    })
}

fn stop_of(error: &Error) -> WordsStop
    ensures { (result ≡ WordsStop.NoMemory) ↔ (kind_of error.now ≡ ErrorKind.OutOfMemory) }
{
    match error.kind() {
        ErrorKind::OutOfMemory => WordsStop::NoMemory,
        _ => WordsStop::Refused,
    }
}

/// What is given, by clap's answer. `NoMemory` comes where clap was refused memory, or where
/// numbers that it found could not be kept; `Refused` comes where clap refuses the words.
fn given_from<'a>(
    alloc: Global,
    answer: Result<ArgMatches<'a>, Error>,
) -> Result<Arguments<'a>, WordsStop>
    ensures given { IfOk answer.entry (λ m. IfOk result
        (λ g. (l : Line) → Reads (found_of m) l → Gives g (said l))) }
    ensures memory { IfOk answer.entry (λ m. IfErr result (λ stop. (stop ≡ WordsStop.NoMemory)
        × IsSome (matched_of (found_of m) (codes "numbers")))) }
    ensures stopped { IfErr answer.entry (λ e. IsErrAnd result
        (λ stop. (stop ≡ WordsStop.NoMemory) ↔ (kind_of e ≡ ErrorKind.OutOfMemory))) }
{
    match answer {
        Ok(matches) => {
            let given = given_by(alloc, &matches)?;
            Ok(given)
        }
        Err(error) => Err(stop_of(&error)),
    }
}

/// What clap finds in the words after the first one. It fails for want of memory, and else only
/// where no line whose numbers are digits has these words.
fn matches_in<'a>(alloc: Global, words: &'a [String]) -> Result<ArgMatches<'a>, Error>
    ensures line { IfOk result (λ m. (l : Line) × IsLineOf l (drop 1 (texts_of words.entry.now))
        × Reads (found_of m) l) }
    ensures every { IfOk result (λ m. (l : Line) → IsLineOf l (drop 1 (texts_of words.entry.now))
        → AreNumerals l.pieces → Reads (found_of m) l) }
    ensures refused { IfErr result (λ e. kind_of e ≢ ErrorKind.OutOfMemory
        → (l : Line) → IsLineOf l (drop 1 (texts_of words.entry.now)) → AreNumerals l.pieces → ⊥) }
{
    let reader = reader(alloc)?;
    reader.try_get_matches_from(words)
}

/// Reads the words after the first one, whatever that is. `Refused` comes only where no line whose
/// numbers are digits has these words. No clause says when `NoMemory` comes: clap takes memory
/// before it looks at a word.
pub fn read<'a>(alloc: Global, words: &'a [String]) -> Result<Arguments<'a>, WordsStop>
    ensures line { IfOk result (λ g. (l : Line) × IsLineOf l (drop 1 (texts_of words.entry.now))
        × (Gives g (said l))) }
    ensures every { IfOk result (λ g. (l : Line) → IsLineOf l (drop 1 (texts_of words.entry.now))
        → AreNumerals l.pieces → Gives g (said l)) }
    ensures refused { IfErr result (λ stop. stop ≡ WordsStop.Refused
        → (l : Line) → IsLineOf l (drop 1 (texts_of words.entry.now)) → AreNumerals l.pieces → ⊥) }
{
    given_from(alloc, matches_in(alloc, words))
}
