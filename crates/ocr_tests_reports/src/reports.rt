// A journal with each kind of line of each report, which were written by hand.
use ocr_base::Seq;
use ocr_body_meaning::{Answer, Call};
use ocr_guid::{Code, Guid};
use ocr_machine_history::{Entry, Journal, Message, Stop, What, Writes};
use ocr_report::{left_text, refused_text, stale_text, summary_text};
use std::alloc::Global;
use std::test::Fail;

const UNINITIALIZED: u64 = 18446744073709551615;

// A call of EDT 2.
fn called(alloc: Global, call: Call, code: Code, value: u64) -> Entry {
    Entry::Call {
        edt: Guid(2),
        home: Guid::NULL,
        call,
        answer: Answer {
            code,
            value,
            scope: Guid::NULL,
            output: Guid::NULL,
        },
        writes: Writes::none(alloc),
    }
}

fn template(depc: u64) -> Call {
    Call::TemplateCreate {
        function: 1,
        paramc: 0,
        depc,
    }
}

fn creation(alloc: Global, template: u64, deps: &[u64]) -> Result<Call, Fail> {
    Ok(Call::EdtCreate {
        template,
        paramc: 0,
        params: Seq::new(alloc),
        depc: 4294967294,
        deps: Seq::from_vec(Vec::from_slice(alloc, deps)?),
        flags: 0,
        output: false,
    })
}

fn delivered(what: What, code: Code) -> Entry {
    let message = Message {
        place: 7,
        index: 0,
        what,
    };
    Entry::Deliver { message, code }
}

fn satisfied(event: u64, code: Code) -> Entry {
    let satisfaction = What::Satisfy {
        event: Guid(event),
        slot: 0,
        payload: Guid::NULL,
    };
    delivered(satisfaction, code)
}

// Blocks 4 and 5 and EDT 7 are made after those with greater numbers.
fn makings(alloc: Global) -> Result<Vec<Entry>, Fail> {
    let by = |call, value| called(alloc, call, Code::Done, value);
    let set = What::Set {
        edt: Guid(7),
        slot: 1,
        payload: Guid::NULL,
    };
    Ok(vec![in alloc;
        Entry::Acquire {
            edt: Guid(2),
            block: Guid(1)
        },
        Entry::Start { edt: Guid(2) },
        by(template(2), 3),
        by(
            Call::DbCreate {
                length: 8,
                flags: 1
            },
            6
        ),
        by(
            Call::DbCreate {
                length: 16,
                flags: 0
            },
            4
        ),
        by(
            Call::DbCreate {
                length: 524288,
                flags: 1
            },
            5
        ),
        by(creation(alloc, 3, &[])?, 8),
        by(creation(alloc, 3, &[UNINITIALIZED, 0])?, 7),
        delivered(set, Code::Done),
        by(template(0), 10),
        by(creation(alloc, 10, &[])?, 9),
        Entry::Acquire {
            edt: Guid(8),
            block: Guid(5)
        },
    ]?)
}

fn destructions(alloc: Global, entries: &mut Vec<Entry>) -> Result<(), Fail> {
    let by = |call, code, value| called(alloc, call, code, value);
    entries.push(by(Call::DbDestroy { block: 4 }, Code::Done, 0))?;
    entries.push(by(Call::DbRelease { block: 4 }, Code::Stale, 200))?;
    entries.push(by(Call::DbDestroy { block: 6 }, Code::Done, 0))?;
    entries.push(by(Call::DbDestroy { block: 5 }, Code::Done, 0))?;
    entries.push(by(creation(alloc, 3, &[1, 6, 4])?, Code::Stale, 0))?;
    entries.push(by(Call::TemplateDestroy { template: 3 }, Code::Done, 0))?;
    entries.push(by(creation(alloc, 3, &[4])?, Code::Stale, 0))?;
    Ok(())
}

fn uses(alloc: Global, entries: &mut Vec<Entry>) -> Result<(), Fail> {
    let by = |call| called(alloc, call, Code::Stale, 200);
    let satisfy = Call::Satisfy {
        event: 20,
        payload: 4,
        slot: 0,
    };
    let depend = Call::AddDependence {
        source: 6,
        target: 8,
        slot: 0,
        mode: 3,
    };
    entries.push(by(satisfy))?;
    entries.push(by(depend))?;
    entries.push(satisfied(20, Code::Stale))?;
    entries.push(satisfied(21, Code::Eperm))?;
    entries.push(satisfied(22, Code::Einval))?;
    entries.push(satisfied(23, Code::Done))?;
    entries.push(Entry::StaleAcquire {
        edt: Guid(7),
        block: Guid(6),
    })?;
    entries.push(Entry::Stop(Stop::Shutdown { edt: Guid(2) }))?;
    Ok(())
}

fn journal(alloc: Global) -> Result<Journal, Fail> {
    let mut entries = makings(alloc)?;
    destructions(alloc, &mut entries)?;
    uses(alloc, &mut entries)?;
    Ok(Journal::from_vec(entries))
}

#[test]
fn a_summary_counts_edts_and_stale_uses(rt: HostRuntime) -> Result<(), Fail> {
    let text = summary_text(rt.alloc(), &journal(rt.alloc())?)?;
    assert_eq!(rt;
        text.as_slice(),
        b"edts 4 started 1 left 3 stale 7\n".as_slice()
    );
    Ok(())
}

#[test]
fn edts_that_are_left_have_their_open_slots(rt: HostRuntime) -> Result<(), Fail> {
    let text = left_text(rt.alloc(), &journal(rt.alloc())?)?;
    assert_eq!(rt;
        text.as_slice(),
        b"left 3
edt 7 open 0
edt 8 open 0 1
edt 9 open
"
            .as_slice()
    );
    Ok(())
}

#[test]
fn stale_uses_name_the_first_destroyed_object(rt: HostRuntime) -> Result<(), Fail> {
    let text = stale_text(rt.alloc(), &journal(rt.alloc())?)?;
    assert_eq!(rt;
        text.as_slice(),
        b"stale 7
call 2 4
call 2 6
call 2 3
call 2 4
call 2 6
delivery 20
acquire 7 6
"
            .as_slice()
    );
    Ok(())
}

// Firing destroys the ONCE events 30 and 32 and the latch 31, and not the STICKY event 33.
fn firings(alloc: Global) -> Result<Vec<Entry>, Fail> {
    let by = |call, value| called(alloc, call, Code::Done, value);
    let made = |kind| Call::EventCreate { kind, flags: 0 };
    let satisfy = |event, slot| Call::Satisfy {
        event,
        payload: 0,
        slot,
    };
    let stale = |source, target| {
        let call = Call::AddDependence {
            source,
            target,
            slot: 0,
            mode: 0,
        };
        called(alloc, call, Code::Stale, 200)
    };
    Ok(vec![in alloc;
        by(made(1), 30),
        by(made(4), 31),
        by(made(1), 32),
        by(made(3), 33),
        by(satisfy(33, 0), 0),
        by(satisfy(30, 0), 0),
        by(satisfy(31, 1), 0),
        satisfied(32, Code::Einval),
        stale(32, 30),
        stale(31, 30),
        satisfied(31, Code::Done),
        stale(31, 30),
        satisfied(32, Code::Done),
        stale(33, 32),
    ]?)
}

#[test]
fn firing_destroys_once_events_and_latches(rt: HostRuntime) -> Result<(), Fail> {
    let alloc = rt.alloc();
    let text = stale_text(alloc, &Journal::from_vec(firings(alloc)?))?;
    assert_eq!(rt;
        text.as_slice(),
        b"stale 4
call 2 30
call 2 30
call 2 31
call 2 32
"
            .as_slice()
    );
    Ok(())
}

// An EDT with a scope, 0 for none, and an output event.
fn with_output(alloc: Global, edt: u64, scope: u64, output: u64) -> Entry {
    Entry::Call {
        edt: Guid(2),
        home: Guid::NULL,
        call: Call::EdtCreate {
            template: 3,
            paramc: 0,
            params: Seq::new(alloc),
            depc: 4294967294,
            deps: Seq::new(alloc),
            flags: if scope == 0 { 0 } else { 1 },
            output: true,
        },
        answer: Answer {
            code: Code::Done,
            value: edt,
            scope: Guid(scope),
            output: Guid(output),
        },
        writes: Writes::none(alloc),
    }
}

// Output event 44 is destroyed before it is satisfied, and 42 by its satisfaction.
fn outputs(alloc: Global) -> Result<Vec<Entry>, Fail> {
    let by = |call, code, value| called(alloc, call, code, value);
    let depend = |source| Call::AddDependence {
        source,
        target: 43,
        slot: 0,
        mode: 0,
    };
    let leave = What::Leave { scope: Guid(41) };
    Ok(vec![in alloc;
        by(template(1), Code::Done, 3),
        with_output(alloc, 40, 41, 42),
        with_output(alloc, 43, 0, 44),
        by(depend(42), Code::Done, 0),
        by(Call::EventDestroy { event: 44 }, Code::Done, 0),
        satisfied(44, Code::Stale),
        delivered(leave, Code::Done),
        satisfied(42, Code::Done),
        by(depend(42), Code::Stale, 200),
        by(depend(44), Code::Stale, 200),
    ]?)
}

#[test]
fn output_events_are_destroyed_once_satisfied(rt: HostRuntime) -> Result<(), Fail> {
    let alloc = rt.alloc();
    let journal = Journal::from_vec(outputs(alloc)?);
    let summary = summary_text(alloc, &journal)?;
    assert_eq!(rt;
        summary.as_slice(),
        b"edts 3 started 0 left 3 stale 3\n".as_slice()
    );
    let stale = stale_text(alloc, &journal)?;
    assert_eq!(rt;
        stale.as_slice(),
        b"stale 3\ndelivery 44\ncall 2 42\ncall 2 44\n".as_slice()
    );
    let left = left_text(alloc, &journal)?;
    assert_eq!(rt;
        left.as_slice(),
        b"left 3\nedt 2 open\nedt 40 open 0\nedt 43 open 0\n".as_slice()
    );
    let refused = refused_text(alloc, &journal)?;
    assert_eq!(rt; refused.as_slice(), b"refused 0\n".as_slice());
    Ok(())
}

#[test]
fn satisfactions_that_were_refused_have_their_codes(rt: HostRuntime) -> Result<(), Fail> {
    let text = refused_text(rt.alloc(), &journal(rt.alloc())?)?;
    assert_eq!(rt;
        text.as_slice(),
        b"refused 2
delivery 21 1
delivery 22 22
"
            .as_slice()
    );
    Ok(())
}

#[test]
fn no_entry_is_the_opening_alone(rt: HostRuntime) -> Result<(), Fail> {
    let alloc = rt.alloc();
    let journal = Journal::from_vec(Vec::new(alloc));
    let summary = summary_text(alloc, &journal)?;
    assert_eq!(rt;
        summary.as_slice(),
        b"edts 1 started 0 left 1 stale 0\n".as_slice()
    );
    let left = left_text(alloc, &journal)?;
    assert_eq!(rt; left.as_slice(), b"left 1\nedt 2 open\n".as_slice());
    let stale = stale_text(alloc, &journal)?;
    assert_eq!(rt; stale.as_slice(), b"stale 0\n".as_slice());
    let refused = refused_text(alloc, &journal)?;
    assert_eq!(rt; refused.as_slice(), b"refused 0\n".as_slice());
    Ok(())
}
