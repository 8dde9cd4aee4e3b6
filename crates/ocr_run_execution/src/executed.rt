// From the bytes of a program to the output of its run.
ghost use Rattle.std.specs.Prelude.{◌≡◌, ◌≤◌, IfOk, IfErr, length};
ghost use Rattle.ocr_body_code.specs.Checked.{checked_tree};
ghost use Rattle.ocr_worker_machine.specs.Ocr.{setting_in};
ghost use Rattle.ocr_machine_history.specs.History.{history_of};
ghost use Rattle.ocr_machine_parts.specs.Legal.{IsRun};
ghost use Rattle.ocr_run_execution.specs.Ending.{IsMet, end_of, end_status};
ghost use Rattle.ocr_run_execution.specs.Executed.{AreWithin, IsExecuted, IsRunOf};
ghost use Rattle.ocr_run_execution.specs.Lines.{ending_line};
ghost use Rattle.ocr_run_execution.specs.ProgramText.{IsTextStop, most_bytes};
ghost use Rattle.ocr_run_execution.specs.Output.{IsOutput};

use crate::ending::ending_of;
use crate::lines::line_of_ending;
use crate::output::output_of;
use crate::text::{TextStop, program_of};
use ocr_base::NoMemory;
use ocr_run_command::{Options, Reports};
use ocr_run_crew::{Gate, Limits, Merged, run};
use ocr_worker_machine::Setting;
use std::alloc::Global;
use std::sync::Wait;
use std::thread::Threads;

/// What a run came to: its journal, what it prints, its status, and the line that goes with it.
#[derive(Drop)]
pub struct Executed {
    pub journal: Merged,
    pub text: Vec<u8>,
    pub status: u8,
    pub line: Vec<u8>,
}

/// Runs the program that these bytes are, with these options and arguments; or tells the first
/// thing that is wrong with the bytes.
pub fn execute<R: Threads + Wait + Sync, G: Gate + Sync>(
    rt: &R,
    alloc: Global,
    options: Options,
    args: Vec<u64>,
    bytes: &[u8],
    gate: &G,
) -> Result<Executed, TextStop>
    requires size { length bytes.now ≤ most_bytes }
    requires args { length args.items ≤ 32 }
    requires options { AreWithin options }
    ensures ran { IfOk result
        (λ e. IsExecuted options args.items bytes.now e.journal e.text.items e.status) }
    ensures line { IfOk result (λ e. e.line.items ≡ ending_line (history_of e.journal)) }
    ensures met { IfOk result (λ e. IsMet e.status) }
    ensures stop { IfErr result (IsTextStop bytes.now) }
{
    let program = program_of(alloc, bytes)?;
    let setting = Setting { program, args };
    match run_checked(rt, alloc, options, &setting, gate) {
        Ok(executed) => Ok(executed),
        Err(_) => Err(TextStop::NoMemory),
    }
}

// Runs a program that is ready to be run.
fn run_checked<R: Threads + Wait + Sync, G: Gate + Sync>(
    rt: &R,
    alloc: Global,
    options: Options,
    setting: &Setting,
    gate: &G,
) -> Result<Executed, NoMemory>
    requires args { length setting.now.args.items ≤ 32 }
    requires options { AreWithin options }
    ensures ran { IfOk result (λ e. IsRunOf (checked_tree setting.now.program) options
        setting.now.args.items e.journal e.text.items e.status) }
    ensures line { IfOk result (λ e. e.line.items ≡ ending_line (history_of e.journal)) }
    ensures met { IfOk result (λ e. IsMet e.status) }
{
    let limits = Limits {
        workers: options.workers,
        objects: options.objects,
        share: options.events,
    };
    let journal = run(rt, alloc, setting, limits, gate)?;
    told(alloc, options.reports, setting, options.objects, journal)
}

// What is told of a run with this journal.
#[tactic(auto, using(crate::proofs::Ends::line_of_end))]
fn told(
    alloc: Global,
    reports: Reports,
    setting: &Setting,
    limit: u64,
    journal: Merged,
) -> Result<Executed, NoMemory>
    requires args { length setting.now.args.items ≤ 32 }
    requires limit { (2 ≤ limit) × (limit ≤ 65536) }
    requires run { IsRun (setting_in setting.now limit) (history_of journal) }
    ensures journal { IfOk result (λ e. e.journal ≡ journal) }
    ensures text { IfOk result (λ e.
        IsOutput (setting_in setting.now limit) (history_of journal) reports e.text.items) }
    ensures status { IfOk result (λ e. e.status ≡ end_status (end_of (history_of journal))) }
    ensures line { IfOk result (λ e. e.line.items ≡ ending_line (history_of journal)) }
    ensures met { IfOk result (λ e. IsMet e.status) }
{
    let entries = journal.journal();
    let ending = ending_of(alloc, entries.entries())?;
    let line = line_of_ending(alloc, &ending)?;
    let text = output_of(alloc, setting, limit, entries, reports)?;
    Ok(Executed {
        journal,
        text,
        status: ending.status(),
        line,
    })
}
