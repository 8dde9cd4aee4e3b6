// What a run writes.
ghost use Rattle.std.specs.Prelude.{◌≡◌, ◌++◌, ◌≤◌, length, ℕ, List, true, IfOk, OnOk};
ghost use Rattle.ocr_body_code.specs.Checked.{checked_tree};
ghost use Rattle.ocr_worker_machine.specs.Ocr.{setting_in};
ghost use Rattle.ocr_program_tree.specs.View.{tree_of};
ghost use Rattle.ocr_machine_history.specs.History as history;
ghost use Rattle.ocr_machine_history.specs.History.{history_of};
ghost use Rattle.ocr_journal.specs.JournalText as journals;
ghost use Rattle.ocr_machine_parts.specs.Legal.{IsRun};
ghost use Rattle.ocr_report.specs.Blocks as made;
ghost use Rattle.ocr_report.specs.Left as lefts;
ghost use Rattle.ocr_report.specs.Races.{IsRacesText};
ghost use Rattle.ocr_report.specs.Refused as refusals;
ghost use Rattle.ocr_report.specs.Stale as stales;
ghost use Rattle.ocr_report.specs.Summary as summaries;
ghost use Rattle.ocr_run_execution.specs.Output.{asked_if, IsOutput};

use ocr_base::NoMemory;
use ocr_journal::journal_text;
use ocr_machine_history::Journal;
use ocr_program_tree::Program;
use ocr_report::{blocks_text, left_text, push_races, refused_text, stale_text, summary_text};
use ocr_run_command::Reports;
use ocr_snapshot::lines_of;
use ocr_worker_machine::Setting;
use std::alloc::Global;

/// What a run of this program with these arguments writes that has this journal: the lines of its
/// prints, in their order, and the texts that are asked for.
pub fn output_of(
    alloc: Global,
    setting: &Setting,
    limit: u64,
    journal: &Journal,
    reports: Reports,
) -> Result<Vec<u8>, NoMemory>
    requires args { length setting.now.args.items ≤ 32 }
    requires limit { (2 ≤ limit) × (limit ≤ 65536) }
    requires run { IsRun (setting_in setting.now limit) (history_of journal.now) }
    ensures { IfOk result (λ text. IsOutput (setting_in setting.now limit)
        (history_of journal.now) reports text.items) }
{
    let mut text = lines_of(alloc, journal.entries())?;
    summary(alloc, &mut text, journal, reports.summary)?;
    left(alloc, &mut text, journal, reports.left)?;
    stale(alloc, &mut text, journal, reports.stale)?;
    refused(alloc, &mut text, journal, reports.refused)?;
    races(alloc, &mut text, setting, limit, journal, reports.races)?;
    blocks(alloc, &mut text, setting, limit, journal, reports.blocks)?;
    let program = setting.program.program();
    entries(alloc, &mut text, journal, program, reports.journal)?;
    Ok(text)
}

fn summary(
    alloc: Global,
    text: &mut Vec<u8>,
    journal: &Journal,
    is_asked: bool,
) -> Result<(), NoMemory>
    ensures { OnOk result (text.new.items ≡ text.old.items
        ++ asked_if is_asked (summaries.summary_text (history_of journal.now))) }
{
    if is_asked {
        let report = summary_text(alloc, journal)?;
        text.extend_from_slice(&report)?;
    }
    Ok(())
}

fn left(
    alloc: Global,
    text: &mut Vec<u8>,
    journal: &Journal,
    is_asked: bool,
) -> Result<(), NoMemory>
    ensures { OnOk result ((s : history.Setting) → text.new.items ≡ text.old.items
        ++ asked_if is_asked (lefts.left_text s (history_of journal.now))) }
{
    if is_asked {
        let report = left_text(alloc, journal)?;
        text.extend_from_slice(&report)?;
    }
    Ok(())
}

fn stale(
    alloc: Global,
    text: &mut Vec<u8>,
    journal: &Journal,
    is_asked: bool,
) -> Result<(), NoMemory>
    ensures { OnOk result ((s : history.Setting) → IsRun s (history_of journal.now)
        → text.new.items ≡ text.old.items
        ++ asked_if is_asked (stales.stale_text s (history_of journal.now))) }
{
    if is_asked {
        let report = stale_text(alloc, journal)?;
        text.extend_from_slice(&report)?;
    }
    Ok(())
}

fn refused(
    alloc: Global,
    text: &mut Vec<u8>,
    journal: &Journal,
    is_asked: bool,
) -> Result<(), NoMemory>
    ensures { OnOk result (text.new.items ≡ text.old.items
        ++ asked_if is_asked (refusals.refused_text (history_of journal.now))) }
{
    if is_asked {
        let report = refused_text(alloc, journal)?;
        text.extend_from_slice(&report)?;
    }
    Ok(())
}

fn races(
    alloc: Global,
    text: &mut Vec<u8>,
    setting: &Setting,
    limit: u64,
    journal: &Journal,
    is_asked: bool,
) -> Result<(), NoMemory>
    requires args { length setting.now.args.items ≤ 32 }
    requires limit { (2 ≤ limit) × (limit ≤ 65536) }
    requires run { IsRun (setting_in setting.now limit) (history_of journal.now) }
    ensures { OnOk result ((report : List ℕ) × (is_asked ≡ true
        → IsRacesText (setting_in setting.now limit) (history_of journal.now) report)
        × (text.new.items ≡ text.old.items ++ asked_if is_asked report)) }
{
    if is_asked {
        push_races(alloc, text, setting, limit, journal)?;
    }
    Ok(())
}

fn blocks(
    alloc: Global,
    text: &mut Vec<u8>,
    setting: &Setting,
    limit: u64,
    journal: &Journal,
    is_asked: bool,
) -> Result<(), NoMemory>
    requires args { length setting.now.args.items ≤ 32 }
    requires limit { (2 ≤ limit) × (limit ≤ 65536) }
    requires run { IsRun (setting_in setting.now limit) (history_of journal.now) }
    ensures { OnOk result (text.new.items ≡ text.old.items ++ asked_if is_asked
        (made.blocks_text (setting_in setting.now limit) (history_of journal.now))) }
{
    if is_asked {
        let report = blocks_text(alloc, setting, limit, journal)?;
        text.extend_from_slice(&report)?;
    }
    Ok(())
}

fn entries(
    alloc: Global,
    text: &mut Vec<u8>,
    journal: &Journal,
    program: &Program,
    is_asked: bool,
) -> Result<(), NoMemory>
    ensures { OnOk result (text.new.items ≡ text.old.items
        ++ asked_if is_asked
        (journals.journal_text (tree_of program.now) (history_of journal.now))) }
{
    if is_asked {
        let report = journal_text(alloc, journal, program)?;
        text.extend_from_slice(&report)?;
    }
    Ok(())
}
