// The text of a call and of its answer.
ghost use Rattle.std.specs.Prelude.{◌≡◌, ◌++◌, [], false, OnOk};
ghost use Rattle.ocr_body_meaning.specs.declared.call.Call.TheVariants as called;
ghost use Rattle.ocr_program_tree.specs.View.{tree_of};
ghost use Rattle.ocr_journal.specs.EntryText as spec;

use crate::words::{list, named_phrase, phrase};
use ocr_base::NoMemory;
use ocr_body_meaning::{Answer, Call};
use ocr_program_tree::Program;

// The letters of the name of function number n, from 1. A number without a function has none.
fn name_at(program: &Program, function: u32) -> &[u8]
    ensures { result.now ≡ spec.name_at (tree_of program.now) function }
{
    if function == 0 {
        return b"";
    }
    match program.functions.get(function as usize - 1) {
        Some(function) => function.name.as_bytes(),
        None => b"",
    }
}

// The creation of an EDT with its two lists.
fn edt_create(
    text: &mut Vec<u8>,
    template: u64,
    paramc: u64,
    params: &[u64],
    depc: u64,
    deps: &[u64],
    flags: u64,
) -> Result<(), NoMemory>
    ensures { OnOk result (text.new.items ≡ text.old.items
        ++ spec.call_text []
        (called.EdtCreate template paramc params.now depc deps.now flags false)) }
{
    phrase(text, b"ocrEdtCreate", &[template, paramc])?;
    list(text, params)?;
    phrase(text, b"", &[depc])?;
    list(text, deps)?;
    phrase(text, b"", &[flags])
}

/// Writes the name of a call and its arguments.
pub fn call(text: &mut Vec<u8>, program: &Program, call: &Call) -> Result<(), NoMemory>
    ensures { OnOk result (text.new.items ≡ text.old.items
        ++ spec.call_text (tree_of program.now) call.now) }
{
    match call {
        Call::DbCreate { length, flags } => phrase(text, b"ocrDbCreate", &[*length, *flags]),
        Call::DbRelease { block } => phrase(text, b"ocrDbRelease", &[*block]),
        Call::DbDestroy { block } => phrase(text, b"ocrDbDestroy", &[*block]),
        Call::EventCreate { kind, flags } => phrase(text, b"ocrEventCreate", &[*kind, *flags]),
        Call::EventCreateParams {
            kind,
            flags,
            max_gen,
            nb_sat,
            nb_deps,
        } => {
            let numbers = [*kind, *flags, *max_gen, *nb_sat, *nb_deps];
            phrase(text, b"ocrEventCreateParams", &numbers)
        }
        Call::EventDestroy { event } => phrase(text, b"ocrEventDestroy", &[*event]),
        Call::Satisfy {
            event,
            payload,
            slot,
        } => phrase(text, b"ocrEventSatisfySlot", &[*event, *payload, *slot]),
        Call::AddDependence {
            source,
            target,
            slot,
            mode,
        } => phrase(text, b"ocrAddDependence", &[*source, *target, *slot, *mode]),
        Call::TemplateCreate {
            function,
            paramc,
            depc,
        } => {
            let name = name_at(program, *function);
            named_phrase(text, b"ocrEdtTemplateCreate", name, &[*paramc, *depc])
        }
        Call::TemplateDestroy { template } => phrase(text, b"ocrEdtTemplateDestroy", &[*template]),
        Call::EdtCreate {
            template,
            paramc,
            params,
            depc,
            deps,
            flags,
            ..
        } => {
            let (params, deps) = (params.as_slice(), deps.as_slice());
            edt_create(text, *template, *paramc, params, *depc, deps, *flags)
        }
        Call::Shutdown => phrase(text, b"ocrShutdown", &[]),
        Call::Abort { code } => phrase(text, b"ocrAbort", &[*code]),
        Call::Load { block, word } => phrase(text, b"load", &[*block, *word]),
        Call::Store { block, word, value } => phrase(text, b"store", &[*block, *word, *value]),
        Call::Print { value } => phrase(text, b"print", &[*value]),
    }
}

/// Writes what a call answered.
pub fn answer(text: &mut Vec<u8>, call: &Call, answer: &Answer) -> Result<(), NoMemory>
    ensures { OnOk result (text.new.items ≡ text.old.items
        ++ spec.answer_text call.now answer.now) }
{
    let code = answer.code.number();
    match call {
        Call::EdtCreate { .. } => {
            phrase(
                text,
                b" ->",
                &[code, answer.value, answer.scope.0, answer.output.0],
            )
        }
        Call::Load { .. } => phrase(text, b" ->", &[answer.value]),
        Call::Store { .. } | Call::Print { .. } => Ok(()),
        _ => phrase(text, b" ->", &[code, answer.value]),
    }
}
