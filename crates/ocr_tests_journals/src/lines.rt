// Entries written short, as in the text of a journal: first the EDT, then what it acts on.
use ocr_base::Seq;
use ocr_body_meaning::{Answer, Call};
use ocr_guid::{Code, Guid};
use ocr_machine_history::{Entry, Fault, Message, Stop, What, Writes};
use std::alloc::Global;
use std::test::Fail;

/// EDT_PARAM_DEF.
const DEFAULT: u64 = 4_294_967_294;

/// OCR_EVENT_CHANNEL_T.
const CHANNEL: u64 = 5;

/// Words with their values.
pub type Words = &'static [(u32, u64)];

/// The flags of an EDT that is made, and whether it has an output event.
pub type Form = (u64, bool);

/// The code of a creation of an EDT, and the new EDT, its scope and its output event, 0 for none.
pub type Made = (Code, u64, u64, u64);

/// An EDT and nothing beside it.
pub const PLAIN: Form = (0, false);

/// With an output event.
pub const OUTPUT: Form = (0, true);

/// A finish EDT.
pub const FINISH: Form = (1, false);

/// A finish EDT with an output event.
pub const BOTH: Form = (1, true);

/// An entry, written short.
#[derive(Clone, Copy)]
pub enum Line {
    Acquire(u64, u64),
    Wait(u64, u64),
    Stale(u64, u64),
    Start(u64),
    /// With the private writes.
    Free(u64, u64, Words),
    /// The body returns NULL_GUID.
    End(u64),
    /// The body returns this.
    Returns(u64, u64),
    /// The place and the index of the message, the EDT and its slot, and the payload.
    Set(u64, u32, u64, u32, u64),
    /// The same with the event and its slot, and the code.
    Satisfy(u64, u32, u64, u32, u64, Code),
    /// The place and the index of the message, and the scope.
    Leave(u64, u32, u64),
    /// Bytes, flags, and the new block.
    Block(u64, u64, u64, u64),
    Release(u64, u64, Code, Words),
    Destroy(u64, u64, Code, Words),
    /// Source, target, slot and mode.
    Depends(u64, u64, u64, u64, u64),
    /// Function, parameters, slots, and the new template.
    Template(u64, u32, u64, u64, u64),
    Untemplate(u64, u64, Code),
    /// The three, refused with this code.
    NoBlock(u64, u64, u64, Code),
    NoDependence(u64, u64, u64, u64, u64, Code),
    NoTemplate(u64, u32, u64, u64, Code),
    /// Kind, flags, and the new event.
    Event(u64, u64, u64, u64),
    /// Flags, the most that it keeps, and the new channel.
    Channel(u64, u64, u64, u64),
    Unevent(u64, u64, Code),
    /// Event, payload, slot, and code.
    Satisfies(u64, u64, u64, u64, Code),
    /// Template, parameters, dependences, code, and the new EDT.
    Edt(u64, u64, &'static [u64], &'static [u64], Code, u64),
    /// The home of its maker, template, parameters, dependences, and what is made.
    Task(u64, u64, u64, &'static [u64], &'static [u64], Form, Made),
    /// Block, word, and value.
    Load(u64, u64, u64, u64),
    Store(u64, u64, u64, u64),
    Print(u64, u64),
    Fault(u64, Fault),
    Shutdown(u64),
    /// Want of events for an entry that weighs 1: legal exactly where one could come, so nowhere at
    /// a quiet end.
    Light,
}

/// The entries that lines stand for.
pub fn entries_of(alloc: Global, lines: &[Line]) -> Result<Vec<Entry>, Fail> {
    let mut entries = Vec::new(alloc);
    for line in lines {
        let entry = entry_of(alloc, *line)?;
        entries.reserve(1)?;
        entries.push_reserved(entry);
    }
    Ok(entries)
}

/// The entry that a line stands for.
pub fn entry_of(alloc: Global, line: Line) -> Result<Entry, Fail> {
    match line {
        Line::Acquire(edt, block) => Ok(Entry::Acquire {
            edt: Guid(edt),
            block: Guid(block),
        }),
        Line::Wait(edt, block) => Ok(Entry::Wait {
            edt: Guid(edt),
            block: Guid(block),
        }),
        Line::Stale(edt, block) => Ok(Entry::StaleAcquire {
            edt: Guid(edt),
            block: Guid(block),
        }),
        Line::Start(edt) => Ok(Entry::Start { edt: Guid(edt) }),
        Line::Free(edt, block, words) => Ok(Entry::Free {
            edt: Guid(edt),
            block: Guid(block),
            writes: writes(alloc, words)?,
        }),
        Line::End(edt) => Ok(ended(edt, 0)),
        Line::Returns(edt, returned) => Ok(ended(edt, returned)),
        Line::Fault(edt, fault) => Ok(Entry::Stop(Stop::Fault {
            edt: Guid(edt),
            fault,
        })),
        Line::Shutdown(edt) => Ok(Entry::Stop(Stop::Shutdown { edt: Guid(edt) })),
        Line::Light => Ok(Entry::Stop(Stop::Events {
            worker: 1,
            weight: 1,
        })),
        other => delivery_of(alloc, other),
    }
}

fn ended(edt: u64, returned: u64) -> Entry {
    Entry::End {
        edt: Guid(edt),
        returned: Guid(returned),
    }
}

// The entry of a message that arrives, or of a call.
fn delivery_of(alloc: Global, line: Line) -> Result<Entry, Fail> {
    match line {
        Line::Set(place, index, edt, slot, payload) => {
            let what = What::Set {
                edt: Guid(edt),
                slot,
                payload: Guid(payload),
            };
            Ok(delivered(place, index, what, Code::Done))
        }
        Line::Satisfy(place, index, event, slot, payload, code) => {
            let what = What::Satisfy {
                event: Guid(event),
                slot,
                payload: Guid(payload),
            };
            Ok(delivered(place, index, what, code))
        }
        Line::Leave(place, index, scope) => {
            let what = What::Leave { scope: Guid(scope) };
            Ok(delivered(place, index, what, Code::Done))
        }
        call => call_of(alloc, call),
    }
}

fn delivered(place: u64, index: u32, what: What, code: Code) -> Entry {
    Entry::Deliver {
        message: Message { place, index, what },
        code,
    }
}

fn writes(alloc: Global, words: Words) -> Result<Writes, Fail> {
    Ok(Writes::from_vec(words.to_vec(alloc)?))
}

// The entry of a call.
fn call_of(alloc: Global, line: Line) -> Result<Entry, Fail> {
    match line {
        Line::Release(edt, block, code, words) => {
            let call = Call::DbRelease { block };
            Ok(answered(edt, call, code, code.number(), writes(alloc, words)?))
        }
        Line::Destroy(edt, block, code, words) => {
            let call = Call::DbDestroy { block };
            Ok(answered(edt, call, code, code.number(), writes(alloc, words)?))
        }
        Line::Untemplate(edt, template, code) => {
            let call = Call::TemplateDestroy { template };
            Ok(coded(alloc, edt, call, code))
        }
        Line::Load(edt, block, word, value) => {
            let call = Call::Load { block, word };
            Ok(answered(edt, call, Code::Done, value, Writes::none(alloc)))
        }
        Line::Store(edt, block, word, value) => {
            let call = Call::Store { block, word, value };
            Ok(coded(alloc, edt, call, Code::Done))
        }
        Line::Print(edt, value) => {
            let call = Call::Print { value };
            Ok(coded(alloc, edt, call, Code::Done))
        }
        other => event_call_of(alloc, other),
    }
}

// The entry of a call of an event, or of a dependence.
fn event_call_of(alloc: Global, line: Line) -> Result<Entry, Fail> {
    match line {
        Line::Depends(edt, source, target, slot, mode) => {
            let call = dependence(source, target, slot, mode);
            Ok(coded(alloc, edt, call, Code::Done))
        }
        Line::NoDependence(edt, source, target, slot, mode, code) => {
            let call = dependence(source, target, slot, mode);
            Ok(coded(alloc, edt, call, code))
        }
        Line::Satisfies(edt, event, payload, slot, code) => {
            let call = Call::Satisfy {
                event,
                payload,
                slot,
            };
            Ok(coded(alloc, edt, call, code))
        }
        Line::Unevent(edt, event, code) => {
            let call = Call::EventDestroy { event };
            Ok(coded(alloc, edt, call, code))
        }
        other => creation_of(alloc, other),
    }
}

fn dependence(source: u64, target: u64, slot: u64, mode: u64) -> Call {
    Call::AddDependence {
        source,
        target,
        slot,
        mode,
    }
}

// The entry of a creation.
fn creation_of(alloc: Global, line: Line) -> Result<Entry, Fail> {
    match line {
        Line::Block(edt, length, flags, value) => {
            let call = Call::DbCreate { length, flags };
            Ok(made(alloc, edt, call, Code::Done, value))
        }
        Line::NoBlock(edt, length, flags, code) => {
            let call = Call::DbCreate { length, flags };
            Ok(made(alloc, edt, call, code, 0))
        }
        Line::Event(edt, kind, flags, value) => {
            let call = Call::EventCreate { kind, flags };
            Ok(made(alloc, edt, call, Code::Done, value))
        }
        Line::Channel(edt, flags, max_gen, value) => {
            let call = Call::EventCreateParams {
                kind: CHANNEL,
                flags,
                max_gen,
                nb_sat: 1,
                nb_deps: 1,
            };
            Ok(made(alloc, edt, call, Code::Done, value))
        }
        other => edt_of(alloc, other),
    }
}

// The entry of a creation of a template or an EDT.
fn edt_of(alloc: Global, line: Line) -> Result<Entry, Fail> {
    match line {
        Line::Template(edt, function, paramc, depc, value) => {
            let call = template(function, paramc, depc);
            Ok(made(alloc, edt, call, Code::Done, value))
        }
        Line::NoTemplate(edt, function, paramc, depc, code) => {
            let call = template(function, paramc, depc);
            Ok(made(alloc, edt, call, code, 0))
        }
        Line::Edt(edt, template, params, deps, code, value) => {
            let call = task(alloc, template, params, deps, PLAIN)?;
            Ok(made(alloc, edt, call, code, value))
        }
        Line::Task(edt, home, template, params, deps, form, (code, value, scope, output)) => {
            let answer = Answer {
                code,
                value,
                scope: Guid(scope),
                output: Guid(output),
            };
            Ok(Entry::Call {
                edt: Guid(edt),
                home: Guid(home),
                call: task(alloc, template, params, deps, form)?,
                answer,
                writes: Writes::none(alloc),
            })
        }
        _ => Err(Fail::new("an entry of another kind")),
    }
}

fn task(
    alloc: Global,
    template: u64,
    params: &[u64],
    deps: &[u64],
    (flags, output): Form,
) -> Result<Call, Fail> {
    Ok(Call::EdtCreate {
        template,
        paramc: DEFAULT,
        params: Seq::from_vec(params.to_vec(alloc)?),
        depc: DEFAULT,
        deps: Seq::from_vec(deps.to_vec(alloc)?),
        flags,
        output,
    })
}

fn template(function: u32, paramc: u64, depc: u64) -> Call {
    Call::TemplateCreate {
        function,
        paramc,
        depc,
    }
}

// A call that answers its code's number.
fn coded(alloc: Global, edt: u64, call: Call, code: Code) -> Entry {
    answered(edt, call, code, code.number(), Writes::none(alloc))
}

// A creation that answers this.
fn made(alloc: Global, edt: u64, call: Call, code: Code, value: u64) -> Entry {
    answered(edt, call, code, value, Writes::none(alloc))
}

fn answered(edt: u64, call: Call, code: Code, value: u64, writes: Writes) -> Entry {
    Entry::Call {
        edt: Guid(edt),
        home: Guid::NULL,
        call,
        answer: Answer {
            code,
            value,
            scope: Guid::NULL,
            output: Guid::NULL,
        },
        writes,
    }
}
