// The top call.
ghost use Rattle.std.specs.Prelude.{◌≡◌, ◌≢◌, ◌⊎◌, ◌+◌, ◌<◌, ◌≤◌, ◌^◌, ◌↔◌, true, IfOk, IfErr, IsErrOf, IfSome, IfNone, IsSome, IsNone, length, List, ℕ, Option, Some, Err};
ghost use Rattle.std.specs.Io.KnownBytes.{Keeps};
ghost use Rattle.ocr_base.specs.Count.{Rose};
ghost use Rattle.ocr_program_tree.specs.Tree.{FunctionTree};
ghost use Rattle.ocr_machine_history.specs.History.{history_of};
ghost use Rattle.ocr_machine_history.specs.Output.{ending_of};
ghost use Rattle.ocr_run_command.specs.Form.{texts_of};
ghost use Rattle.ocr_run_command.specs.Wanted.{IsAsked};
ghost use Rattle.ocr_run_execution.specs.Ending.{IsMet};
ghost use Rattle.ocr_run_execution.specs.Executed.{AreWithin};
ghost use Rattle.ocr_run_execution.specs.Lines.{ending_line};
ghost use Rattle.ocr_run_execution.specs.ProgramText.{IsProgramText, IsNoProgram, most_bytes};
ghost use Rattle.ocr_run.specs.Headline.{IsHeadline, IsAnswered, IsCopied, IsCheckedText, IsWritten, IsCheck, IsComplete, IsCaused, CameTo, AreRefused, IsTooBig, IsFirstFault, HasProgram, HasNoProgram, IsLine, IsTold, IsStatus, is_silent};
ghost use Rattle.ocr_run.specs.Wants.{IsServable, IsLoad, IsTextFor, IsAnsweredAs, IsReadAs};

use ocr_io::{ReadStop, Sink, Source, read_all, write_all};
use ocr_run_command::{Options, Wanted, WordsStop, command};
use ocr_run_execution::{
    Executed, Gate, Merged, TextFault, TextStop, canonical_of, execute, line_of_fault, load_text,
};
use std::alloc::Global;
use std::sync::Wait;
use std::thread::Threads;

/// The most bytes that a program has.
const MOST_BYTES: usize = 1_048_576;

/// How a call of the program came out: its exit status, and the journal of the run where one was
/// made.
#[derive(Drop)]
pub struct Ended {
    pub status: u8,
    pub journal: Option<Merged>,
}

// Writes a line to `err`. A write that fails there changes nothing else.
#[tactic(auto, using(crate::proofs::Told::told_whole, crate::proofs::Told::told_front))]
fn tell<E: Sink>(err: &mut E, line: &[u8])
    ensures { IsTold (E.taken err.old) (E.taken err.new)
        (Rose (E.failures err.old) (E.failures err.new)) line.now }
{
    let _ = write_all(err, line);
}

// The end without a run.
#[tactic(auto, using(crate::proofs::Told::silent_caused, crate::proofs::Told::silent_status))]
fn refuse<E: Sink>(err: &mut E, status: u8, line: &[u8]) -> Ended
    requires { is_silent status ≡ true }
    ensures status { result.status ≡ status }
    ensures known { IsStatus result.status }
    ensures caused { IsCaused ⊥ result.journal result.status }
    ensures journal { IsNone result.journal }
    ensures told { IsTold (E.taken err.old) (E.taken err.new)
        (Rose (E.failures err.old) (E.failures err.new)) line.now }
{
    tell(err, line);
    Ended {
        status,
        journal: None,
    }
}

// The end of bytes that are no program.
fn refuse_text<E: Sink>(alloc: Global, err: &mut E, found: TextFault) -> Ended
    ensures status { (result.status ≡ 3) ⊎ (result.status ≡ 9) }
    ensures known { IsStatus result.status }
    ensures caused { IsCaused ⊥ result.journal result.status }
    ensures journal { IsNone result.journal }
    ensures told { (line : List ℕ) × (IsTold (E.taken err.old) (E.taken err.new)
        (Rose (E.failures err.old) (E.failures err.new)) line
        × IsLine ⊥ (λ other. other ≡ found) result.journal result.status line) }
{
    match line_of_fault(alloc, found) {
        Ok(line) => refuse(err, 3, &line),
        Err(_) => refuse(err, 9, b"want of memory\n"),
    }
}

// Writes what a run printed, and its line.
fn finish<O: Sink, E: Sink>(executed: Executed, out: &mut O, err: &mut E) -> Ended
    requires met { IsMet executed.status }
    requires ending { ending_of (history_of executed.journal) ≡ executed.status }
    requires line { executed.line.items ≡ ending_line (history_of executed.journal) }
    ensures journal { result.journal ≡ Some executed.journal }
    ensures written { IsWritten (O.taken out.old) (O.taken out.new)
        (Rose (O.failures out.old) (O.failures out.new))
        executed.text.items executed.status result.status }
    ensures told { (line : List ℕ) × (IsTold (E.taken err.old) (E.taken err.new)
        (Rose (E.failures err.old) (E.failures err.new)) line
        × IsLine ⊥ (λ found. ⊥) result.journal result.status line) }
    ensures status { IsStatus result.status }
{
    if executed.status == 9 {
        tell(err, &executed.line);
        return Ended {
            status: 9,
            journal: Some(executed.journal),
        };
    }
    match write_all(out, &executed.text) {
        Ok(()) => {
            tell(err, &executed.line);
            Ended {
                status: executed.status,
                journal: Some(executed.journal),
            }
        }
        Err(_) => {
            tell(err, b"write fault\n");
            Ended {
                status: 8,
                journal: Some(executed.journal),
            }
        }
    }
}

// Runs the program that these bytes are, and writes its output.
fn answer_run<R: Threads + Wait + Sync, O: Sink, E: Sink, G: Gate + Sync>(
    rt: &R,
    alloc: Global,
    options: Options,
    args: Vec<u64>,
    bytes: &[u8],
    out: &mut O,
    err: &mut E,
    gate: &G,
) -> Ended
    requires size { length bytes.now ≤ most_bytes }
    requires args { length args.items ≤ 32 }
    requires options { AreWithin options }
    ensures status { IsStatus result.status }
    ensures accepted { (result.status ≢ 2) × (result.status ≢ 7) }
    ensures ran { IfSome result.journal (IsAnswered options args.items bytes.now (O.taken out.old)
        (O.taken out.new) (Rose (O.failures out.old) (O.failures out.new)) result.status) }
    ensures unrun { IfNone result.journal
        (((result.status ≡ 3) ⊎ (result.status ≡ 9)) × Keeps (O.taken out.old) (O.taken out.new)) }
    ensures caused { IsCaused ⊥ result.journal result.status }
    ensures no_program { result.status ≡ 3
        → IsNone result.journal × ((found : TextFault) × IsNoProgram bytes.now found) }
    ensures complete { (program : List FunctionTree) → IsProgramText bytes.now program
        → (Rose (O.failures out.old) (O.failures out.new) → ⊥)
        → (result.status ≡ 9) ⊎ CameTo result.journal result.status }
    ensures refused { (found : TextFault) → IsNoProgram bytes.now found
        → (result.status ≡ 3) ⊎ (result.status ≡ 9) }
    ensures told { (line : List ℕ) × (IsTold (E.taken err.old) (E.taken err.new)
        (Rose (E.failures err.old) (E.failures err.new)) line
        × IsLine ⊥ (IsNoProgram bytes.now) result.journal result.status line) }
    ensures write_fault { result.status ≡ 8 → Rose (O.failures out.old) (O.failures out.new) }
    ensures memory { result.status ≡ 9 → Keeps (O.taken out.old) (O.taken out.new) }
{
    match execute(rt, alloc, options, args, bytes, gate) {
        Ok(executed) => finish(executed, out, err),
        Err(TextStop::Fault(found)) => refuse_text(alloc, err, found),
        Err(TextStop::NoMemory) => refuse(err, 9, b"want of memory\n"),
    }
}

// Writes the canonical text of a program.
fn copy<O: Sink, E: Sink>(text: &[u8], out: &mut O, err: &mut E) -> Ended
    ensures status { (result.status ≡ 0) ⊎ (result.status ≡ 8) }
    ensures journal { IsNone result.journal }
    ensures written { IsWritten (O.taken out.old) (O.taken out.new)
        (Rose (O.failures out.old) (O.failures out.new)) text.now 0 result.status }
    ensures told { (line : List ℕ) × (IsTold (E.taken err.old) (E.taken err.new)
        (Rose (E.failures err.old) (E.failures err.new)) line
        × IsLine ⊥ (λ found. ⊥) result.journal result.status line) }
{
    match write_all(out, text) {
        Ok(()) => Ended {
            status: 0,
            journal: None,
        },
        Err(_) => {
            tell(err, b"write fault\n");
            Ended {
                status: 8,
                journal: None,
            }
        }
    }
}

// Checks the program that these bytes are, and writes its canonical text.
fn answer_check<O: Sink, E: Sink>(alloc: Global, bytes: &[u8], out: &mut O, err: &mut E) -> Ended
    requires { length bytes.now ≤ most_bytes }
    ensures status { (result.status ≡ 0) ⊎ (result.status ≡ 3) ⊎ (result.status ≡ 8)
        ⊎ (result.status ≡ 9) }
    ensures journal { IsNone result.journal }
    ensures copied { (result.status ≡ 0) ⊎ (result.status ≡ 8)
        → IsCopied bytes.now (O.taken out.old) (O.taken out.new)
        (Rose (O.failures out.old) (O.failures out.new)) result.status }
    ensures silent { (result.status ≡ 3) ⊎ (result.status ≡ 9)
        → Keeps (O.taken out.old) (O.taken out.new) }
    ensures no_program { result.status ≡ 3
        → (found : TextFault) × IsNoProgram bytes.now found }
    ensures complete { (program : List FunctionTree) → IsProgramText bytes.now program
        → (Rose (O.failures out.old) (O.failures out.new) → ⊥)
        → (result.status ≡ 9) ⊎ (result.status ≡ 0) }
    ensures refused { (found : TextFault) → IsNoProgram bytes.now found
        → (result.status ≡ 3) ⊎ (result.status ≡ 9) }
    ensures told { (line : List ℕ) × (IsTold (E.taken err.old) (E.taken err.new)
        (Rose (E.failures err.old) (E.failures err.new)) line
        × IsLine ⊥ (IsNoProgram bytes.now) result.journal result.status line) }
    ensures write_fault { result.status ≡ 8 → Rose (O.failures out.old) (O.failures out.new) }
{
    match canonical_of(alloc, bytes) {
        Ok(text) => copy(&text, out, err),
        Err(TextStop::Fault(found)) => refuse_text(alloc, err, found),
        Err(TextStop::NoMemory) => refuse(err, 9, b"want of memory\n"),
    }
}

// Does with these bytes what is wanted.
fn answer<R: Threads + Wait + Sync, O: Sink, E: Sink, G: Gate + Sync>(
    rt: &R,
    alloc: Global,
    wanted: Wanted,
    bytes: &[u8],
    out: &mut O,
    err: &mut E,
    gate: &G,
) -> Ended
    requires size { length bytes.now ≤ most_bytes }
    requires servable { IsServable wanted }
    ensures status { IsStatus result.status }
    ensures accepted { (result.status ≢ 2) × (result.status ≢ 7) }
    ensures ran { IfSome result.journal (IsAnsweredAs wanted bytes.now (O.taken out.old)
        (O.taken out.new) (Rose (O.failures out.old) (O.failures out.new)) result.status) }
    ensures copied { IsCheck wanted → (result.status ≡ 0) ⊎ (result.status ≡ 8)
        → IsCopied bytes.now (O.taken out.old) (O.taken out.new)
        (Rose (O.failures out.old) (O.failures out.new)) result.status }
    ensures unrun { (IsCheck wanted → ⊥)
        → IfNone result.journal ((result.status ≡ 3) ⊎ (result.status ≡ 9)) }
    ensures silent { is_silent result.status ≡ true → Keeps (O.taken out.old) (O.taken out.new) }
    ensures caused { IsCaused (IsCheck wanted) result.journal result.status }
    ensures no_program { result.status ≡ 3
        → IsNone result.journal × ((found : TextFault) × IsNoProgram bytes.now found) }
    ensures complete { (program : List FunctionTree) → IsProgramText bytes.now program
        → (Rose (O.failures out.old) (O.failures out.new) → ⊥)
        → (result.status ≡ 9) ⊎ IsComplete wanted result.journal result.status }
    ensures refused { (found : TextFault) → IsNoProgram bytes.now found
        → (result.status ≡ 3) ⊎ (result.status ≡ 9) }
    ensures told { (line : List ℕ) × (IsTold (E.taken err.old) (E.taken err.new)
        (Rose (E.failures err.old) (E.failures err.new)) line
        × IsLine ⊥ (IsNoProgram bytes.now) result.journal result.status line) }
    ensures write_fault { result.status ≡ 8 → Rose (O.failures out.old) (O.failures out.new) }
{
    match wanted {
        Wanted::Run { options, args } => {
            answer_run(rt, alloc, options, args.into_vec(), bytes, out, err, gate)
        }
        Wanted::Check => answer_check(alloc, bytes, out, err),
        Wanted::Load { options, .. } => {
            answer_run(rt, alloc, options, Vec::new(alloc), bytes, out, err, gate)
        }
    }
}

// The bytes of the program that is wanted: all of the source, or the text of a number, for which
// nothing is read.
#[tactic(auto, using(crate::proofs::Told::all_of))]
fn text_for<S: Source>(alloc: Global, wanted: &Wanted, input: &mut S) -> Result<Vec<u8>, ReadStop>
    ensures text { IfOk result
        (λ text. IsTextFor wanted.now (S.left input.old) (S.left input.new) text.items) }
    ensures most { IfOk result (λ text. length text.items ≤ most_bytes) }
    ensures loaded { IsLoad wanted.now
        → (input.new ≡ input.old) × IfErr result (λ stop. stop ≡ ReadStop.NoMemory) }
    ensures too_big { IsErrOf result ReadStop.TooBig
        → IsTooBig (S.left input.old) (S.left input.new) (S.given input.old) (S.given input.new) }
    ensures exactly { S.given input.old + (most_bytes + 1) < 2 ^ 64
        → ((result ≡ Err ReadStop.TooBig)
        ↔ (S.given input.new ≡ S.given input.old + (most_bytes + 1))) }
    ensures failed { IsErrOf result ReadStop.Failed
        → Rose (S.failures input.old) (S.failures input.new) }
{
    match wanted {
        Wanted::Load { number, .. } => match load_text(alloc, *number) {
            Ok(text) => Ok(text),
            Err(_) => Err(ReadStop::NoMemory),
        },
        Wanted::Run { .. } | Wanted::Check => read_all(alloc, input, MOST_BYTES),
    }
}

// Takes the bytes of the program, and does with them what is wanted.
fn serve<R: Threads + Wait + Sync, S: Source, O: Sink, E: Sink, G: Gate + Sync>(
    rt: &R,
    alloc: Global,
    wanted: Wanted,
    input: &mut S,
    out: &mut O,
    err: &mut E,
    gate: &G,
) -> Ended
    requires { IsServable wanted }
    ensures status { IsStatus result.status }
    ensures accepted { result.status ≢ 2 }
    ensures loaded { IsLoad wanted
        → (input.new ≡ input.old) × (result.status ≢ 3) × (result.status ≢ 7) }
    ensures ran { IfSome result.journal (IsReadAs wanted (S.left input.old) (S.left input.new)
        (O.taken out.old) (O.taken out.new) (Rose (O.failures out.old) (O.failures out.new))
        result.status) }
    ensures copied { IsCheck wanted → (result.status ≡ 0) ⊎ (result.status ≡ 8)
        → IsCheckedText (S.left input.old) (S.left input.new) (O.taken out.old) (O.taken out.new)
        (Rose (O.failures out.old) (O.failures out.new)) result.status }
    ensures unrun { (IsCheck wanted → ⊥) → IfNone result.journal (is_silent result.status ≡ true) }
    ensures silent { is_silent result.status ≡ true → Keeps (O.taken out.old) (O.taken out.new) }
    ensures caused { IsCaused (IsCheck wanted) result.journal result.status }
    ensures no_program { result.status ≡ 3 → IsNone result.journal
        × (IsTooBig (S.left input.old) (S.left input.new) (S.given input.old) (S.given input.new)
        ⊎ ((found : TextFault) × IsFirstFault (S.left input.old) (S.left input.new) found)) }
    ensures too_big { S.given input.old + (most_bytes + 1) < 2 ^ 64
        → S.given input.new ≡ S.given input.old + (most_bytes + 1) → result.status ≡ 3 }
    ensures read_fault { result.status ≡ 7
        → IsNone result.journal × Rose (S.failures input.old) (S.failures input.new) }
    ensures write_fault { result.status ≡ 8 → Rose (O.failures out.old) (O.failures out.new) }
    ensures complete { HasProgram wanted (S.left input.old)
        → (Rose (S.failures input.old) (S.failures input.new) → ⊥)
        → (Rose (O.failures out.old) (O.failures out.new) → ⊥)
        → (result.status ≡ 9) ⊎ IsComplete wanted result.journal result.status }
    ensures refused { HasNoProgram wanted (S.left input.old)
        → (Rose (S.failures input.old) (S.failures input.new) → ⊥)
        → (result.status ≡ 3) ⊎ (result.status ≡ 9) }
    ensures told { (line : List ℕ) × (IsTold (E.taken err.old) (E.taken err.new)
        (Rose (E.failures err.old) (E.failures err.new)) line
        × IsLine (IsTooBig (S.left input.old) (S.left input.new) (S.given input.old)
        (S.given input.new))
        (IsFirstFault (S.left input.old) (S.left input.new)) result.journal result.status line) }
{
    match text_for(alloc, &wanted, input) {
        Ok(bytes) => answer(rt, alloc, wanted, &bytes, out, err, gate),
        Err(ReadStop::Failed) => refuse(err, 7, b"read fault\n"),
        Err(ReadStop::TooBig) => refuse(err, 3, b"text too big\n"),
        Err(ReadStop::NoMemory) => refuse(err, 9, b"want of memory\n"),
    }
}

/// The program: looks at the words, reads the input, does what the words ask for, and writes what
/// comes of it. For `load` nothing is read.
///
/// The words may be any: docs/LANGUAGE.md tells in "The words" which forms are taken, and in
/// "The program" the statuses, 2 where the words have no form; the line that goes with a status is
/// written to `err`. For `run` and `load` the journal is given with each of the statuses 0, 4, 5,
/// 6, 8 and 10, may be given with 9, and is not given with 2, 3 and 7. `check` gives none. Each
/// worker of a run passes the gate before it enters an entry.
pub fn ocr_main<R: Threads + Wait + Sync, S: Source, O: Sink, E: Sink, G: Gate + Sync>(
    rt: &R,
    alloc: Global,
    words: &[String],
    input: &mut S,
    out: &mut O,
    err: &mut E,
    gate: &G,
) -> Ended
    // The headline, for any number of workers and whatever order their steps come in: the words ask
    // for a run, all bytes of the source are a program, or `load` has it, the journal is a run of
    // it that came to its end and kept the limits, and the bytes written are its output.
    ensures headline { IfSome result.journal
        (IsHeadline (texts_of words.now) (S.left input.old) (S.left input.new) (O.taken out.old)
        (O.taken out.new) (Rose (O.failures out.old) (O.failures out.new)) result.status) }
    ensures given { (result.status ≡ 0) ⊎ (result.status ≡ 4) ⊎ (result.status ≡ 5)
        ⊎ (result.status ≡ 6) ⊎ (result.status ≡ 8) ⊎ (result.status ≡ 10)
        → IsSome result.journal ⊎ IsAsked (texts_of words.now) Wanted.Check }
    // A check: all bytes of the source are a program, and its canonical text was written.
    ensures check { IsAsked (texts_of words.now) Wanted.Check
        → (result.status ≡ 0) ⊎ (result.status ≡ 8)
        → IsCheckedText (S.left input.old) (S.left input.new) (O.taken out.old) (O.taken out.new)
        (Rose (O.failures out.old) (O.failures out.new)) result.status }
    ensures silent { is_silent result.status ≡ true → Keeps (O.taken out.old) (O.taken out.new) }

    // Each status has its cause.
    ensures status { IsStatus result.status }
    ensures caused { IsCaused (IsAsked (texts_of words.now) Wanted.Check) result.journal
        result.status }
    ensures words { result.status ≡ 2 → AreRefused (texts_of words.now) }
    ensures words_refused { AreRefused (texts_of words.now)
        → ((result.status ≡ 2) ⊎ (result.status ≡ 9)) × (input.new ≡ input.old) }
    ensures loaded { (number : ℕ) (options : Options)
        → IsAsked (texts_of words.now) (Wanted.Load number options)
        → (input.new ≡ input.old) × (result.status ≢ 3) × (result.status ≢ 7) }
    ensures no_program { result.status ≡ 3 → IsNone result.journal
        × (IsTooBig (S.left input.old) (S.left input.new) (S.given input.old) (S.given input.new)
        ⊎ ((found : TextFault) × IsFirstFault (S.left input.old) (S.left input.new) found)) }
    ensures too_big { S.given input.old + (most_bytes + 1) < 2 ^ 64
        → S.given input.new ≡ S.given input.old + (most_bytes + 1) → result.status ≡ 3 }
    ensures read_fault { result.status ≡ 7
        → IsNone result.journal × Rose (S.failures input.old) (S.failures input.new) }
    ensures write_fault { result.status ≡ 8 → Rose (O.failures out.old) (O.failures out.new) }

    // Where no read and no write failed, a program is run to its end or its text written, and other
    // bytes are refused, but for want of memory.
    ensures complete { (wanted : Wanted) → IsAsked (texts_of words.now) wanted
        → HasProgram wanted (S.left input.old)
        → (Rose (S.failures input.old) (S.failures input.new) → ⊥)
        → (Rose (O.failures out.old) (O.failures out.new) → ⊥)
        → (result.status ≡ 9) ⊎ IsComplete wanted result.journal result.status }
    ensures refused { (wanted : Wanted) → IsAsked (texts_of words.now) wanted
        → HasNoProgram wanted (S.left input.old)
        → (Rose (S.failures input.old) (S.failures input.new) → ⊥)
        → (result.status ≡ 3) ⊎ (result.status ≡ 9) }

    ensures told { (line : List ℕ) × (IsTold (E.taken err.old) (E.taken err.new)
        (Rose (E.failures err.old) (E.failures err.new)) line
        × IsLine (IsTooBig (S.left input.old) (S.left input.new) (S.given input.old)
        (S.given input.new))
        (IsFirstFault (S.left input.old) (S.left input.new)) result.journal result.status line) }
{
    match command(alloc, words) {
        Ok(wanted) => serve(rt, alloc, wanted, input, out, err, gate),
        Err(WordsStop::Refused) => refuse(err, 2, b"words refused\n"),
        Err(WordsStop::NoMemory) => refuse(err, 9, b"want of memory\n"),
    }
}
