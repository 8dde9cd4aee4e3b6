// The races of a run.
ghost use Rattle.std.specs.Prelude.{◌≡◌, ◌++◌, ◌≤◌, ◌<◌, ◌*◌, ◌^◌, [], ◌∷◌, length, ℕ, List, OnOk, IfOk};
ghost use Rattle.std.specs.List.{flat_map};
ghost use Rattle.ocr_memory_model.specs.Orders.{setting_in};
ghost use Rattle.ocr_machine_history.specs.History as history;
ghost use Rattle.ocr_machine_history.specs.History.{History, history_of};
ghost use Rattle.ocr_memory_model.specs.Orders.{Orders};
ghost use Rattle.ocr_memory_model.specs.RaceList.{AreRaces};
ghost use Rattle.ocr_memory_model.specs.Walk.{all_races, first_pair, pairs_left};
ghost use Rattle.ocr_memory_model.specs.declared.happens_before.TheConstants.{MOST_ORDERED};
ghost use Rattle.ocr_memory_model.specs.declared.race.Race as race;
ghost use Rattle.ocr_machine_parts.specs.Legal.{IsRun};
ghost use Rattle.ocr_report.specs.Races as spec;
ghost use Rattle.ocr_report.specs.Races.{IsRacesText};

use crate::headed::line;
use ocr_base::NoMemory;
use ocr_journal::phrase;
use ocr_machine_history::Journal;
use ocr_memory_model::{HappensBefore, OrderStop, Pair, Race, Setting, Touches, order};
use std::alloc::Global;

// How many races there are.
fn race_count(touches: &Touches, order: &HappensBefore) -> u64
    requires { pairs_left touches.now first_pair < 2 ^ 64 }
    ensures { (s : history.Setting) (J : History) → Orders s J order.now
        → result ≡ length (all_races s J touches.now) }
{
    let mut count: u64 = 0;
    let mut at = Pair::new();
    while let Some((_, next)) = touches.next_race(order, at) {
        count += 1;
        at = next;
    }
    count
}

// Writes the line of a race.
fn race_line(text: &mut Vec<u8>, race: Race) -> Result<(), NoMemory>
    ensures { OnOk result (text.new.items ≡ text.old.items ++ spec.race_line race) }
{
    phrase(text, b"block", &[race.block.0])?;
    phrase(text, b" word", &[race.word])?;
    line(text, b" edts", &[race.first.0, race.second.0])
}

// Writes the lines of all races.
fn race_lines(text: &mut Vec<u8>, touches: &Touches, order: &HappensBefore) -> Result<(), NoMemory>
    ensures { OnOk result ((s : history.Setting) (J : History) → Orders s J order.now
        → text.new.items
        ≡ text.old.items ++ flat_map spec.race_line (all_races s J touches.now)) }
{
    let mut at = Pair::new();
    while let Some((race, next)) = touches.next_race(order, at) {
        race_line(text, race)?;
        at = next;
    }
    Ok(())
}

// Writes the report by the order of the entries, race by race: a list of them may be too long.
fn push_told(
    alloc: Global,
    text: &mut Vec<u8>,
    journal: &Journal,
    order: &HappensBefore,
) -> Result<(), NoMemory>
    requires { length journal.now ≤ MOST_ORDERED }
    ensures { OnOk result ((s : history.Setting) → Orders s (history_of journal.now) order.now
        → (races : List race.Race) × AreRaces s (history_of journal.now) races
        × (text.new.items ≡ text.old.items ++ spec.races_told races)) }
{
    let touches = Touches::of(alloc, journal)?;
    line(text, b"races", &[race_count(&touches, order)])?;
    race_lines(text, &touches, order)?;
    Ok(())
}

// Writes that there are too many entries.
fn push_unknown(text: &mut Vec<u8>, entries: u64) -> Result<(), NoMemory>
    ensures { OnOk result (text.new.items ≡ text.old.items ++ spec.races_unknown entries) }
{
    phrase(text, b"races unknown:", &[entries])?;
    text.extend_from_slice(b" entries\n")?;
    Ok(())
}

/// Writes the report on the races of a run behind a text.
pub fn push_races(
    alloc: Global,
    text: &mut Vec<u8>,
    setting: &Setting,
    limit: u64,
    journal: &Journal,
) -> Result<(), NoMemory>
    requires args { length setting.now.args.items ≤ 32 }
    requires limit { (2 ≤ limit) × (limit ≤ 65536) }
    requires run { IsRun (setting_in setting.now limit) (history_of journal.now) }
    ensures { OnOk result ((report : List ℕ)
        × IsRacesText (setting_in setting.now limit) (history_of journal.now) report
        × (text.new.items ≡ text.old.items ++ report)) }
{
    match order(alloc, setting, limit, journal) {
        Ok(order) => {
            push_told(alloc, text, journal, &order)?;
            Ok(())
        }
        Err(OrderStop::TooLong) => {
            push_unknown(text, journal.entries().len() as u64)?;
            Ok(())
        }
        Err(OrderStop::NoMemory) => Err(NoMemory),
    }
}

/// The report on the races of a run: how many there are, and for each, rising, its block, its word
/// and the two EDTs; or that there are too many entries. NoMemory where memory is refused.
pub fn races_text(
    alloc: Global,
    setting: &Setting,
    limit: u64,
    journal: &Journal,
) -> Result<Vec<u8>, NoMemory>
    requires args { length setting.now.args.items ≤ 32 }
    requires limit { (2 ≤ limit) × (limit ≤ 65536) }
    requires run { IsRun (setting_in setting.now limit) (history_of journal.now) }
    ensures { IfOk result (λ text.
        IsRacesText (setting_in setting.now limit) (history_of journal.now) text.items) }
{
    let mut text = Vec::new(alloc);
    push_races(alloc, &mut text, setting, limit, journal)?;
    Ok(text)
}
