// The commands, and what each takes of what is given.
ghost use Rattle.std.specs.Prelude.{◌≡◌, ◌≤◌, ◌<◌, [], ℕ, List, length, IfOk, IfErr, IfSome, IfNone, IsTrue, ◌↔◌, codes};
ghost use Rattle.ocr_run_command.specs.Form.{AreKnown, Piece, given as given_as, numbers, texts_of};
ghost use Rattle.ocr_run_command.specs.Wanted.{Asks, AskedLaw, AreWorkers, IsRunOptions, IsAsked, IsWithin, NamesCommand, option_in};
ghost use Rattle.ocr_run_command.specs.Given.{Gives};

use crate::given::{Arguments, read};
use crate::number::{number_or, number_within, numbers_of};
use crate::wanted::{Options, Reports, Wanted, WordsStop};
use ocr_base::{MOST_OBJECTS, MOST_WORKERS, Seq};
use std::alloc::Global;

const DEFAULT_WORKERS: u64 = 4;

const DEFAULT_OBJECTS: u64 = 4_096;

/// Of one worker, and of all workers together.
const MAX_EVENTS: u64 = 16_000_000;

const DEFAULT_EVENTS: u64 = 200_000;

const MAX_NUMBERS: usize = 32;

const MAX_LOAD: u64 = 500;

const NO_REPORTS: Reports = Reports {
    summary: false,
    left: false,
    stale: false,
    refused: false,
    races: false,
    blocks: false,
    journal: false,
};

fn workers(given: &Arguments<'_>) -> Option<u64>
    ensures some { IfSome result
        (λ n. (ps : List Piece) → Gives given.now ps → AreWorkers ps n) }
    ensures within { IfSome result (λ n. (1 ≤ n) × (n ≤ 64)) }
    ensures none { IfNone result
        ((ps : List Piece) → Gives given.now ps → (n : ℕ) → AreWorkers ps n → ⊥) }
{
    number_or(given.workers, DEFAULT_WORKERS, 1, MOST_WORKERS)
}

fn run_options(given: &Arguments<'_>) -> Option<Options>
    ensures some { IfSome result
        (λ options. (ps : List Piece) → Gives given.now ps → IsRunOptions ps options) }
    ensures none { IfNone result ((ps : List Piece) → Gives given.now ps
        → (options : Options) → IsRunOptions ps options → ⊥) }
{
    let workers = workers(given)?;
    let objects = number_or(given.objects, DEFAULT_OBJECTS, 2, MOST_OBJECTS)?;
    let events = number_or(given.events, DEFAULT_EVENTS, 1, MAX_EVENTS)?;
    if workers * events > MAX_EVENTS {
        return None;
    }
    Some(Options {
        workers: workers as u32,
        objects,
        events,
        reports: given.reports,
    })
}

fn run(alloc: Global, given: &Arguments<'_>) -> Result<Wanted, WordsStop>
    ensures ok { IfOk result
        (λ w. (ps : List Piece) → Gives given.now ps → Asks (codes "run") ps w) }
    ensures refused { IfErr result (λ stop. stop ≡ WordsStop.Refused → (ps : List Piece)
        → Gives given.now ps → (w : Wanted) → Asks (codes "run") ps w → ⊥) }
    ensures memory { IfErr result (λ stop. stop ≡ WordsStop.NoMemory
        → (ps : List Piece) → Gives given.now ps
        → ((w : Wanted) × Asks (codes "run") ps w) × (0 < length (given_as numbers ps))) }
{
    let Some(options) = run_options(given) else {
        return Err(WordsStop::Refused)
    };
    if given.numbers.len() > MAX_NUMBERS {
        return Err(WordsStop::Refused);
    }
    let args = numbers_of(alloc, &given.numbers)?;
    Ok(Wanted::Run {
        options,
        args: Seq::from_vec(args),
    })
}

fn is_nothing(given: &Arguments<'_>) -> bool
    ensures { (ps : List Piece) → AreKnown ps → Gives given.now ps
        → (IsTrue result ↔ (ps ≡ [])) }
{
    given.workers.is_none()
        && given.objects.is_none()
        && given.events.is_none()
        && given.reports == NO_REPORTS
        && given.numbers.is_empty()
}

fn check(given: &Arguments<'_>) -> Result<Wanted, WordsStop>
    ensures ok { IfOk result (λ w. (ps : List Piece) → AreKnown ps → Gives given.now ps
        → Asks (codes "check") ps w) }
    ensures refused { IfErr result (λ stop. (stop ≡ WordsStop.Refused)
        × ((ps : List Piece) → AreKnown ps → Gives given.now ps
        → (w : Wanted) → Asks (codes "check") ps w → ⊥)) }
{
    if is_nothing(given) {
        Ok(Wanted::Check)
    } else {
        Err(WordsStop::Refused)
    }
}

fn load(given: &Arguments<'_>) -> Result<Wanted, WordsStop>
    ensures ok { IfOk result
        (λ w. (ps : List Piece) → Gives given.now ps → Asks (codes "load") ps w) }
    ensures refused { IfErr result (λ stop. (stop ≡ WordsStop.Refused) × ((ps : List Piece)
        → Gives given.now ps → (w : Wanted) → Asks (codes "load") ps w → ⊥)) }
{
    if given.numbers.len() != 1 || given.objects.is_some() || given.events.is_some() {
        return Err(WordsStop::Refused);
    }
    let Some(number) = number_within(given.numbers[0], 1, MAX_LOAD) else {
        return Err(WordsStop::Refused)
    };
    let Some(workers) = workers(given) else {
        return Err(WordsStop::Refused)
    };
    Ok(Wanted::Load {
        number,
        options: Options {
            workers: workers as u32,
            objects: MOST_OBJECTS,
            events: DEFAULT_EVENTS,
            reports: Reports {
                summary: true,
                ..given.reports
            },
        },
    })
}

/// What the words after the program's name ask for. Three forms are taken,
/// `run [--workers N] [--objects N] [--events N] [REPORT..] [NUMBER..]`, `check`, and
/// `load NUMBER [--workers N] [REPORT..]`; `Refused` comes only where the words are in none of
/// them, and `NoMemory` only after a first word that is one of these commands.
pub fn command(alloc: Global, words: &[String]) -> Result<Wanted, WordsStop>
    ensures ok { IfOk result (λ w. IsAsked (texts_of words.now) w) }
    ensures only { IfOk result
        (λ w. (other : Wanted) → IsAsked (texts_of words.now) other → other ≡ w) }
    ensures refused { IfErr result
        (λ stop. stop ≡ WordsStop.Refused → (w : Wanted) → IsAsked (texts_of words.now) w → ⊥) }
    ensures memory { IfErr result
        (λ stop. stop ≡ WordsStop.NoMemory → NamesCommand (texts_of words.now)) }
{
    let Some(command) = words.first() else {
        return Err(WordsStop::Refused)
    };
    match command.as_str() {
        "run" => {
            let given = read(alloc, words)?;
            run(alloc, &given)
        }
        "check" => {
            let given = read(alloc, words)?;
            check(&given)
        }
        "load" => {
            let given = read(alloc, words)?;
            load(&given)
        }
        _ => Err(WordsStop::Refused),
    }
}

/// The law of the words: they ask for one thing at most.
#[tactic(auto, using(crate::proofs::Asked::asked_law))]
pub fn words_law()
    ensures { AskedLaw }
{}
