// Stops where a run comes to them, and where it does not.
use crate::edits::add;
use crate::journals::CREATIONS;
use crate::runs::{Recording, are_runs, recording_of, verdict, wanted};
use ocr_guid::Guid;
use ocr_machine_history::{Entry, Fault, Stop};
use std::alloc::Global;
use std::test::Fail;

// A place, the Stop that ends the entries there, and the first illegal place then, if any.
type StopRow = (usize, Stop, Option<usize>);

// Which of the rows is the first that replay answers otherwise.
fn first_wrong_stop(
    alloc: Global,
    recording: &Recording,
    rows: &[StopRow],
) -> Result<Option<usize>, Fail> {
    for i in 0..rows.len() {
        let (place, stop, illegal) = rows[i];
        let entries = stopped(alloc, &recording.entries, place, stop)?;
        if verdict(alloc, recording, &entries) != wanted(illegal) {
            return Ok(Some(i));
        }
    }
    Ok(None)
}

// The entries before this place, and the Stop.
fn stopped(alloc: Global, entries: &[Entry], place: usize, stop: Stop) -> Result<Vec<Entry>, Fail> {
    let mut stopped = Vec::new(alloc);
    for i in 0..place.min(entries.len()) {
        add(alloc, &mut stopped, &entries[i], None)?;
    }
    add(alloc, &mut stopped, &Entry::Stop(stop), None)?;
    Ok(stopped)
}

const EDT: Guid = Guid(2);

// Want of events for an entry that weighs 1, as each does that makes no block.
const LIGHT: Stop = Stop::Events {
    worker: 1,
    weight: 1,
};

const SHUT_DOWN: &[u8] = b"fn mainEdt { print 1; ocrShutdown(); }";

const SHUT_DOWN_ROWS: [StopRow; 9] = [
    (3, Stop::Shutdown { edt: EDT }, None),
    (2, Stop::Shutdown { edt: EDT }, Some(2)),
    (1, Stop::Shutdown { edt: EDT }, Some(1)),
    (3, Stop::Shutdown { edt: Guid(3) }, Some(3)),
    (3, Stop::Abort { edt: EDT, code: 0 }, Some(3)),
    (
        3,
        Stop::Fault {
            edt: EDT,
            fault: Fault::Fuel,
        },
        Some(3),
    ),
    (0, Stop::Memory, None),
    (3, Stop::Memory, None),
    // The whole run, and one Stop more.
    (4, Stop::Memory, Some(4)),
];

const ABORT: &[u8] = b"fn mainEdt { ocrAbort(9); }";

const ABORT_ROWS: [StopRow; 3] = [
    (2, Stop::Abort { edt: EDT, code: 9 }, None),
    (2, Stop::Abort { edt: EDT, code: 8 }, Some(2)),
    (2, Stop::Shutdown { edt: EDT }, Some(2)),
];

const FAULT: &[u8] = b"fn mainEdt { print 1 / 0; }";

const FAULT_ROWS: [StopRow; 5] = [
    (
        2,
        Stop::Fault {
            edt: EDT,
            fault: Fault::ZeroDivisor,
        },
        None,
    ),
    (
        2,
        Stop::Fault {
            edt: EDT,
            fault: Fault::BadIndex,
        },
        Some(2),
    ),
    (
        1,
        Stop::Fault {
            edt: EDT,
            fault: Fault::ZeroDivisor,
        },
        Some(1),
    ),
    // The body has stopped, and nothing else could come.
    (2, LIGHT, Some(2)),
    (2, Stop::Objects, Some(2)),
];

#[test]
fn stops_of_bodies_are_replayed(rt: HostRuntime) -> Result<(), Fail> {
    let alloc = rt.alloc();
    let programs: [(&[u8], &[StopRow]); 3] = [
        (SHUT_DOWN, &SHUT_DOWN_ROWS),
        (ABORT, &ABORT_ROWS),
        (FAULT, &FAULT_ROWS),
    ];
    for (text, rows) in programs {
        let recording = recording_of(&rt, alloc, text)?;
        assert!(rt; are_runs(alloc, &recording));
        assert_eq!(rt; first_wrong_stop(alloc, &recording, rows)?, None);
    }
    Ok(())
}

// Stops in the run of CREATIONS.
const LIMIT_ROWS: [StopRow; 16] = [
    (2, Stop::Objects, None),
    (5, Stop::Objects, None),
    (0, Stop::Objects, Some(0)),
    (1, Stop::Objects, Some(1)),
    // EDT 2 prints, its body has ended, EDT 5 prints, and all have ended.
    (6, Stop::Objects, Some(6)),
    (7, Stop::Objects, Some(7)),
    (10, Stop::Objects, Some(10)),
    (15, Stop::Objects, Some(15)),
    // EDT 2 could acquire, make something, and free; EDT 5 could start, and EDT 6 end; all have
    // ended.
    (0, LIGHT, None),
    (4, LIGHT, None),
    (7, LIGHT, None),
    (9, LIGHT, None),
    (14, LIGHT, None),
    (15, LIGHT, Some(15)),
    (
        4,
        Stop::Events {
            worker: 1,
            weight: 2,
        },
        Some(4),
    ),
    (
        4,
        Stop::Events {
            worker: 1,
            weight: 0,
        },
        Some(4),
    ),
];

const REFUSED: &[u8] = b"fn mainEdt { ocrEdtCreate(NULL_GUID, 0, [], 0, [], 0); }";

// A creation that is refused wants no object.
const REFUSED_ROWS: [StopRow; 2] = [(2, Stop::Objects, Some(2)), (2, LIGHT, None)];

#[test]
fn stops_by_limits_are_replayed(rt: HostRuntime) -> Result<(), Fail> {
    let alloc = rt.alloc();
    let programs: [(&[u8], &[StopRow]); 2] = [(CREATIONS, &LIMIT_ROWS), (REFUSED, &REFUSED_ROWS)];
    for (text, rows) in programs {
        let recording = recording_of(&rt, alloc, text)?;
        assert_eq!(rt; first_wrong_stop(alloc, &recording, rows)?, None);
    }
    Ok(())
}

// Each EDT makes another, until no object is left.
const OBJECTS: &[u8] =
    b"fn a { ocrEdtCreate(ocrEdtTemplateCreate(a, 0, 0), EDT_PARAM_DEF, [], EDT_PARAM_DEF, [], 0); }
fn mainEdt { ocrEdtCreate(ocrEdtTemplateCreate(a, 0, 0), EDT_PARAM_DEF, [], EDT_PARAM_DEF, [], 0); }";

// Each EDT makes another, until the entries weigh too much.
const EVENTS: &[u8] =
    b"fn a { let i = 0; while i < 90000 { print 1; i = i + 1; } ocrEdtCreate(paramv[0], 1, [paramv[0]], 0, [], 0); }
fn mainEdt { let t = ocrEdtTemplateCreate(a, 1, 0); ocrEdtCreate(t, 1, [t], 0, [], 0); }";

// What a limit stopped: the whole is a run, and the Stop by the other limit ends none. With no
// object left nothing could come in OBJECTS; in EVENTS a print comes next.
#[test]
fn runs_that_come_to_a_limit_are_replayed(rt: HostRuntime) -> Result<(), Fail> {
    let alloc = rt.alloc();
    for (text, other) in [(OBJECTS, LIGHT), (EVENTS, Stop::Objects)] {
        let recording = recording_of(&rt, alloc, text)?;
        assert_eq!(rt; verdict(alloc, &recording, &recording.entries), Ok(()));
        let last = recording.entries.len().saturating_sub(1);
        let rows = [(last, other, Some(last))];
        assert_eq!(rt; first_wrong_stop(alloc, &recording, &rows)?, None);
    }
    Ok(())
}
