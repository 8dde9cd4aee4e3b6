// Journals with each kind of line, their texts written by hand.
use ocr_base::Seq;
use ocr_body_meaning::{Answer, Call};
use ocr_guid::{Code, Guid};
use ocr_journal::{entry_text, journal_text};
use ocr_machine_history::{Entry, Fault, Journal, Message, Stop, What, Writes};
use ocr_program_tree::{Function, Name, Program};
use std::alloc::Global;
use std::test::Fail;

fn program(alloc: Global) -> Result<Program, Fail> {
    let mut functions = Vec::new(alloc);
    for name in ["mainEdt", "work"] {
        functions.push(Function {
            name: Name::from_vec(Vec::from_slice(alloc, name.as_bytes())?),
            body: Vec::new(alloc),
        })?;
    }
    Ok(Program { functions })
}

// A call of EDT 2 without private writes, which made no scope and no output event.
fn called(alloc: Global, call: Call, code: Code, value: u64) -> Entry {
    Entry::Call {
        edt: Guid(2),
        home: Guid::NULL,
        call,
        answer: Answer {
            code,
            value,
            scope: Guid::NULL,
            output: Guid::NULL,
        },
        writes: Writes::none(alloc),
    }
}

fn written(alloc: Global, writes: &[(u32, u64)]) -> Result<Writes, Fail> {
    Ok(Writes::from_vec(Vec::from_slice(alloc, writes)?))
}

fn created(alloc: Global, params: &[u64], deps: &[u64]) -> Result<Entry, Fail> {
    Ok(Entry::Call {
        edt: Guid(4),
        home: Guid(7),
        call: Call::EdtCreate {
            template: 5,
            paramc: 2,
            params: Seq::from_vec(Vec::from_slice(alloc, params)?),
            depc: 4294967294,
            deps: Seq::from_vec(Vec::from_slice(alloc, deps)?),
            flags: 1,
            output: true,
        },
        answer: Answer {
            code: Code::Done,
            value: 9,
            scope: Guid(10),
            output: Guid(11),
        },
        writes: Writes::none(alloc),
    })
}

fn delivered(what: What, code: Code) -> Entry {
    Entry::Deliver {
        message: Message {
            place: 30,
            index: 1,
            what,
        },
        code,
    }
}

fn satisfaction() -> What {
    What::Satisfy {
        event: Guid(3),
        slot: 0,
        payload: Guid(0),
    }
}

fn text_of(alloc: Global, entries: Vec<Entry>) -> Result<Vec<u8>, Fail> {
    Ok(journal_text(alloc, &Journal::from_vec(entries), &program(alloc)?)?)
}

#[test]
fn objects_are_made_and_destroyed_by_calls(rt: HostRuntime) -> Result<(), Fail> {
    let alloc = rt.alloc();
    let by = |call, code, value| called(alloc, call, code, value);
    let block = Call::DbCreate {
        length: 12,
        flags: 0,
    };
    let event = Call::EventCreate { kind: 3, flags: 1 };
    let channel = Call::EventCreateParams {
        kind: 5,
        flags: 1,
        max_gen: 2,
        nb_sat: 3,
        nb_deps: 4,
    };
    let template = Call::TemplateCreate {
        function: 2,
        paramc: 4294967295,
        depc: 33,
    };
    let entries = vec![in alloc;
        by(block, Code::Einval, 0),
        by(Call::DbRelease { block: 1 }, Code::Eperm, 1),
        by(
            Call::DbDestroy {
                block: 18446744073709551615
            },
            Code::Enoent,
            2
        ),
        by(event, Code::Done, 3),
        by(channel, Code::Done, 4),
        by(Call::EventDestroy { event: 3 }, Code::Done, 0),
        by(template, Code::Einval, 0),
        by(Call::TemplateDestroy { template: 5 }, Code::Stale, 200),
    ]?;
    let text = text_of(alloc, entries)?;
    assert_eq!(rt;
        text.as_slice(),
        b"journal 8
0 call 2 ocrDbCreate 12 0 -> 22 0
1 call 2 ocrDbRelease 1 -> 1 1
2 call 2 ocrDbDestroy 18446744073709551615 -> 2 2
3 call 2 ocrEventCreate 3 1 -> 0 3
4 call 2 ocrEventCreateParams 5 1 2 3 4 -> 0 4
5 call 2 ocrEventDestroy 3 -> 0 0
6 call 2 ocrEdtTemplateCreate work 4294967295 33 -> 22 0
7 call 2 ocrEdtTemplateDestroy 5 -> 200 200
"
            .as_slice()
    );
    Ok(())
}

#[test]
fn edts_are_made_with_two_lists(rt: HostRuntime) -> Result<(), Fail> {
    let alloc = rt.alloc();
    let entries = vec![in alloc;
        created(alloc, &[7, 8], &[18446744073709551615])?,
        created(alloc, &[], &[0, 3, 1])?,
        created(alloc, &[1], &[])?,
    ]?;
    let text = text_of(alloc, entries)?;
    assert_eq!(rt;
        text.as_slice(),
        b"journal 3
0 call 4 ocrEdtCreate 5 2 [7 8] 4294967294 [18446744073709551615] 1 -> 0 9 10 11
1 call 4 ocrEdtCreate 5 2 [] 4294967294 [0 3 1] 1 -> 0 9 10 11
2 call 4 ocrEdtCreate 5 2 [1] 4294967294 [] 1 -> 0 9 10 11
"
            .as_slice()
    );
    Ok(())
}

#[test]
fn the_other_calls_have_their_answers(rt: HostRuntime) -> Result<(), Fail> {
    let alloc = rt.alloc();
    let by = |call, code, value| called(alloc, call, code, value);
    let satisfy = Call::Satisfy {
        event: 3,
        payload: 0,
        slot: 1,
    };
    let depend = Call::AddDependence {
        source: 1,
        target: 4,
        slot: 31,
        mode: 5,
    };
    let load = Call::Load { block: 1, word: 2 };
    let store = Call::Store {
        block: 1,
        word: 3,
        value: 4,
    };
    let entries = vec![in alloc;
        by(satisfy, Code::Ebusy, 16),
        by(depend, Code::Einval, 22),
        by(load, Code::Done, 55),
        by(store, Code::Done, 0),
        by(Call::Print { value: 42 }, Code::Done, 0),
        by(Call::Shutdown, Code::Done, 0),
        by(Call::Abort { code: 6 }, Code::Done, 0),
    ]?;
    let text = text_of(alloc, entries)?;
    assert_eq!(rt;
        text.as_slice(),
        b"journal 7
0 call 2 ocrEventSatisfySlot 3 0 1 -> 16 16
1 call 2 ocrAddDependence 1 4 31 5 -> 22 22
2 call 2 load 1 2 -> 55
3 call 2 store 1 3 4
4 call 2 print 42
5 call 2 ocrShutdown -> 0 0
6 call 2 ocrAbort 6 -> 0 0
"
            .as_slice()
    );
    Ok(())
}

#[test]
fn an_edt_acquires_starts_gives_back_and_ends(rt: HostRuntime) -> Result<(), Fail> {
    let alloc = rt.alloc();
    let (edt, block) = (Guid(2), Guid(1));
    let entries = vec![in alloc;
        Entry::Wait { edt, block },
        Entry::Acquire { edt, block },
        Entry::StaleAcquire { edt, block },
        Entry::Start { edt },
        Entry::Free {
            edt,
            block,
            writes: Writes::none(alloc)
        },
        Entry::Free {
            edt,
            block,
            writes: written(alloc, &[(0, 5), (65535, 0)])?
        },
        Entry::End {
            edt,
            returned: Guid(18446744073709551615)
        },
    ]?;
    let text = text_of(alloc, entries)?;
    assert_eq!(rt;
        text.as_slice(),
        b"journal 7
0 wait 2 1
1 acquire 2 1
2 stale 2 1
3 start 2
4 free 2 1
5 free 2 1 writes 0=5 65535=0
6 end 2 18446744073709551615
"
            .as_slice()
    );
    Ok(())
}

#[test]
fn deliveries_name_their_messages(rt: HostRuntime) -> Result<(), Fail> {
    let alloc = rt.alloc();
    let set = What::Set {
        edt: Guid(4),
        slot: 31,
        payload: Guid(1),
    };
    let leave = What::Leave { scope: Guid(7) };
    let entries = vec![in alloc;
        delivered(set, Code::Done),
        delivered(satisfaction(), Code::Done),
        delivered(satisfaction(), Code::Eperm),
        delivered(leave, Code::Done),
    ]?;
    let text = text_of(alloc, entries)?;
    assert_eq!(rt;
        text.as_slice(),
        b"journal 4
0 deliver 30.1 set 4 31 1
1 deliver 30.1 satisfy 3 0 0 -> 0
2 deliver 30.1 satisfy 3 0 0 -> 1
3 deliver 30.1 leave 7
"
            .as_slice()
    );
    Ok(())
}

#[test]
fn stops_have_their_reasons(rt: HostRuntime) -> Result<(), Fail> {
    let alloc = rt.alloc();
    let edt = Guid(2);
    let fault = |fault| Entry::Stop(Stop::Fault {
        edt: Guid(2),
        fault,
    });
    let entries = vec![in alloc;
        Entry::Stop(Stop::Shutdown { edt }),
        Entry::Stop(Stop::Abort { edt, code: 3 }),
        fault(Fault::ZeroDivisor),
        fault(Fault::BadIndex),
        fault(Fault::NotHeld),
        fault(Fault::NotWritable),
        fault(Fault::Fuel),
        Entry::Stop(Stop::Objects),
        Entry::Stop(Stop::Events {
            worker: 1,
            weight: 4096
        }),
        Entry::Stop(Stop::Memory),
    ]?;
    let text = text_of(alloc, entries)?;
    assert_eq!(rt;
        text.as_slice(),
        b"journal 10
0 stop shutdown 2
1 stop abort 2 3
2 stop fault 2 zero divisor
3 stop fault 2 bad index
4 stop fault 2 not held
5 stop fault 2 not writable
6 stop fault 2 fuel
7 stop objects
8 stop events 1 4096
9 stop memory
"
            .as_slice()
    );
    Ok(())
}

#[test]
fn a_release_carries_its_writes_after_all_else(rt: HostRuntime) -> Result<(), Fail> {
    let alloc = rt.alloc();
    let release = Entry::Call {
        edt: Guid(2),
        home: Guid::NULL,
        call: Call::DbRelease { block: 1 },
        answer: Answer {
            code: Code::Done,
            value: 0,
            scope: Guid::NULL,
            output: Guid::NULL,
        },
        writes: written(alloc, &[(3, 8)])?,
    };
    let journal = Journal::from_vec(vec![in alloc; Entry::Start { edt: Guid(2) }, release]?);
    let text = entry_text(alloc, &journal, 1, &program(alloc)?)?;
    assert_eq!(rt;
        text.as_slice(),
        b"call 2 ocrDbRelease 1 -> 0 0 writes 3=8".as_slice()
    );
    let whole = text_of(alloc, Vec::new(alloc))?;
    assert_eq!(rt; whole.as_slice(), b"journal 0\n".as_slice());
    Ok(())
}
