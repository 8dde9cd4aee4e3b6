// Runs that a limit stops, at each number of events and of objects.
use crate::replays::{COUNTED, PIPELINE};
use crate::scopes::FAMILY;
use ocr_body_code::Checked;
use ocr_guid::{Code, Guid};
use ocr_machine_codes::weight;
use ocr_machine_history::{Entry, Stop};
use ocr_tests_journals::{program_of, replay};
use ocr_tests_run::{ADDERS, FIBONACCI, Outcome, WHOLE, outcome_of};
use std::alloc::Global;
use std::sync::Wait;
use std::test::Fail;
use std::thread::Threads;

/// A program with its argument, and what it prints where no limit stops it.
#[derive(Clone, Copy)]
struct Case {
    text: &'static [u8],
    argument: u64,
    out: &'static [u8],
}

fn cases() -> [Case; 5] {
    [
        Case {
            text: FIBONACCI,
            argument: 5,
            out: b"5\n",
        },
        Case {
            text: ADDERS,
            argument: 0,
            out: b"8\n",
        },
        Case {
            text: FAMILY,
            argument: 0,
            out: b"1\n2\n3\n4\n",
        },
        Case {
            text: PIPELINE,
            argument: 0,
            out: b"178\n278\n378\n478\n",
        },
        Case {
            text: COUNTED,
            argument: 0,
            out: b"0\n",
        },
    ]
}

const CREWS: [u32; 3] = [1, 2, 4];

/// How far a run may go.
#[derive(Clone, Copy)]
struct Bounds {
    workers: u32,
    objects: u64,
    events: u64,
}

/// More objects and more events than a run of a case takes.
const AMPLE: Bounds = Bounds {
    workers: 1,
    objects: 256,
    events: 200_000,
};

/// How many events runs are given at most, one by one.
const MOST_EVENTS: u64 = 300;

/// Up to so many objects a call makes: an EDT, its scope and its output event.
const MOST_MADE: u64 = 3;

/// The objects of the opening: the argument block and the EDT of `mainEdt`.
const OPENING: u64 = 2;

/// What a run came to.
#[derive(Clone, Copy)]
struct Came {
    status: u8,
    stop: Option<Stop>,
    /// what its entries weigh
    weight: u64,
    /// how many objects there are
    objects: u64,
    /// its entries are a run
    is_run: bool,
    /// the output is what the program prints, or what stands before a limit stopped it
    is_output: bool,
    /// the line tells how it ended
    is_line: bool,
}

// The run of a case within these bounds.
fn run_within<R: Threads + Wait + Sync>(
    rt: &R,
    alloc: Global,
    case: &Case,
    bounds: Bounds,
) -> Result<Outcome, Fail> {
    let workers = format!(in alloc; "{}", bounds.workers)?;
    let objects = format!(in alloc; "{}", bounds.objects)?;
    let events = format!(in alloc; "{}", bounds.events)?;
    let argument = format!(in alloc; "{}", case.argument)?;
    let words = [
        "run",
        "--workers",
        workers.as_str(),
        "--objects",
        objects.as_str(),
        "--events",
        events.as_str(),
        argument.as_str(),
    ];
    outcome_of(rt, alloc, &words, case.text.to_vec(alloc)?, 1000, WHOLE)
}

fn stop_of(entries: &[Entry]) -> Option<Stop> {
    match entries.last() {
        Some(Entry::Stop(stop)) => Some(*stop),
        _ => None,
    }
}

fn weight_of(entries: &[Entry]) -> u64 {
    let mut sum: u64 = 0;
    for entry in entries {
        sum = sum.saturating_add(weight(entry));
    }
    sum
}

fn objects_of(entries: &[Entry]) -> u64 {
    let mut objects = OPENING;
    for entry in entries {
        objects = objects.saturating_add(made_by(entry));
    }
    objects
}

fn made_by(entry: &Entry) -> u64 {
    let Entry::Call { call, answer, .. } = entry else {
        return 0;
    };
    if !call.is_creation() || answer.code != Code::Done {
        return 0;
    }
    1 + (answer.scope != Guid::NULL) as u64 + (answer.output != Guid::NULL) as u64
}

// The line that tells how a run ended.
fn line_of(alloc: Global, stop: Option<Stop>) -> Result<String, Fail> {
    match stop {
        Some(Stop::Objects) => Ok(format!(in alloc; "limit: objects\n")?),
        Some(Stop::Events { worker, .. }) => {
            Ok(format!(in alloc; "limit: events of worker {worker}\n")?)
        }
        _ => Ok(String::new(alloc)),
    }
}

fn is_limit(stop: Option<Stop>) -> bool {
    matches!(stop, Some(Stop::Objects | Stop::Events { .. }))
}

fn is_output(case: &Case, stop: Option<Stop>, out: &[u8]) -> bool {
    if is_limit(stop) {
        case.out.starts_with(out)
    } else {
        out == case.out
    }
}

fn is_run(
    alloc: Global,
    program: &Checked,
    case: &Case,
    objects: u64,
    entries: &[Entry],
) -> Result<bool, Fail> {
    if objects < 2 || objects > 65_536 {
        return Err(Fail::from("a limit of objects"));
    }
    let args = [case.argument];
    Ok(replay(alloc, program, &args, objects, entries).is_ok())
}

fn came_to(
    alloc: Global,
    program: &Checked,
    case: &Case,
    objects: u64,
    done: &Outcome,
) -> Result<Came, Fail> {
    let journal = done.ended.journal.as_ref().ok_or("a journal")?;
    let entries = journal.journal().entries();
    let stop = stop_of(entries);
    Ok(Came {
        status: done.ended.status,
        stop,
        weight: weight_of(entries),
        objects: objects_of(entries),
        is_run: is_run(alloc, program, case, objects, entries)?,
        is_output: is_output(case, stop, done.out.bytes()),
        is_line: done.err.bytes() == line_of(alloc, stop)?.as_bytes(),
    })
}

// What comes of a case within these bounds.
fn come_within<R: Threads + Wait + Sync>(
    rt: &R,
    alloc: Global,
    program: &Checked,
    case: &Case,
    bounds: Bounds,
) -> Result<Came, Fail> {
    let done = run_within(rt, alloc, case, bounds)?;
    came_to(alloc, program, case, bounds.objects, &done)
}

// So many numbers the other workers may have drawn for nothing.
fn held_back(workers: u32) -> u64 {
    (workers as u64).saturating_sub(1).saturating_mul(MOST_MADE)
}

// Whether the Stop has its cause: an entry that a share has no room for, or a creation that too few
// numbers are left for.
fn has_cause(bounds: Bounds, came: &Came) -> bool {
    match came.stop {
        Some(Stop::Events { worker, weight }) => {
            1 <= worker
                && worker <= bounds.workers
                && came.weight.saturating_add(weight) > bounds.events
        }
        Some(Stop::Objects) => {
            let free = bounds.objects.saturating_sub(came.objects);
            free < held_back(bounds.workers).saturating_add(MOST_MADE)
        }
        Some(Stop::Shutdown { .. }) | None => true,
        Some(_) => false,
    }
}

fn is_within(bounds: Bounds, came: &Came) -> bool {
    let most = bounds
        .events
        .saturating_mul((bounds.workers as u64).saturating_add(1));
    came.weight <= most && came.objects <= bounds.objects
}

// Whether a run is one of the case, within its bounds, and has the status that its end says.
fn is_sound(bounds: Bounds, came: &Came) -> bool {
    let status = if is_limit(came.stop) { 10 } else { 0 };
    came.status == status
        && came.is_run
        && came.is_output
        && came.is_line
        && has_cause(bounds, came)
        && is_within(bounds, came)
}

// Whether a limit has to stop a run, since what the whole run makes passes it.
fn is_short(bounds: Bounds, whole: &Came) -> bool {
    bounds.objects < whole.objects || bounds.workers == 1 && bounds.events < whole.weight
}

// Whether no limit can stop a run: what the whole run makes, with what others may hold back, is
// within it.
fn is_ample(bounds: Bounds, whole: &Came) -> bool {
    let objects = whole.objects.saturating_add(held_back(bounds.workers));
    bounds.objects >= objects
        && (bounds.events == AMPLE.events || bounds.workers == 1 && bounds.events >= whole.weight)
}

// Whether a run within these bounds may come to this, where the whole run is known.
fn is_due(bounds: Bounds, whole: &Came, came: &Came) -> bool {
    is_sound(bounds, came)
        && (!is_short(bounds, whole) || came.status == 10)
        && (!is_ample(bounds, whole) || came.status == 0)
}

// The first number of events of a worker with which a run of the case comes to something else.
fn first_wrong_events<R: Threads + Wait + Sync>(
    rt: &R,
    alloc: Global,
    case: &Case,
    workers: u32,
) -> Result<Option<u64>, Fail> {
    let program = program_of(alloc, case.text)?;
    let whole = come_within(rt, alloc, &program, case, AMPLE)?;
    for events in 1..MOST_EVENTS + 1 {
        let bounds = Bounds {
            workers,
            events,
            ..AMPLE
        };
        let came = come_within(rt, alloc, &program, case, bounds)?;
        if !is_due(bounds, &whole, &came) {
            return Ok(Some(events));
        }
    }
    Ok(None)
}

// The first number of objects with which a run of the case comes to something else.
fn first_wrong_objects<R: Threads + Wait + Sync>(
    rt: &R,
    alloc: Global,
    case: &Case,
    workers: u32,
) -> Result<Option<u64>, Fail> {
    let program = program_of(alloc, case.text)?;
    let whole = come_within(rt, alloc, &program, case, AMPLE)?;
    let most = whole.objects.saturating_add(held_back(workers));
    for objects in OPENING..most.saturating_add(1) {
        let bounds = Bounds {
            workers,
            objects,
            ..AMPLE
        };
        let came = come_within(rt, alloc, &program, case, bounds)?;
        if !is_due(bounds, &whole, &came) {
            return Ok(Some(objects));
        }
    }
    Ok(None)
}

// The first case, by so many workers, with the number of events or of objects at which something
// else comes.
fn first_wrong_case<R: Threads + Wait + Sync>(
    rt: &R,
    alloc: Global,
    workers: u32,
) -> Result<Option<(usize, u64)>, Fail> {
    for (number, case) in cases().iter().enumerate() {
        if let Some(events) = first_wrong_events(rt, alloc, case, workers)? {
            return Ok(Some((number, events)));
        }
        if let Some(objects) = first_wrong_objects(rt, alloc, case, workers)? {
            return Ok(Some((number, objects)));
        }
    }
    Ok(None)
}

#[test]
fn a_limit_stops_one_worker_at_each_number(rt: HostRuntime) -> Result<(), Fail> {
    assert_eq!(rt; first_wrong_case(&rt, rt.alloc(), 1)?, None);
    Ok(())
}

#[test]
fn a_limit_stops_two_workers_at_each_number(rt: HostRuntime) -> Result<(), Fail> {
    assert_eq!(rt; first_wrong_case(&rt, rt.alloc(), 2)?, None);
    Ok(())
}

#[test]
fn a_limit_stops_four_workers_at_each_number(rt: HostRuntime) -> Result<(), Fail> {
    assert_eq!(rt; first_wrong_case(&rt, rt.alloc(), 4)?, None);
    Ok(())
}

const TENTH: Case = Case {
    text: FIBONACCI,
    argument: 10,
    out: b"55\n",
};

// Whether a long run by so many workers comes to its end.
fn ends_long<R: Threads + Wait + Sync>(rt: &R, alloc: Global, workers: u32) -> Result<bool, Fail> {
    let program = program_of(alloc, TENTH.text)?;
    let bounds = Bounds {
        workers,
        objects: 4096,
        ..AMPLE
    };
    let came = come_within(rt, alloc, &program, &TENTH, bounds)?;
    Ok(is_sound(bounds, &came) && came.status == 0)
}

#[test]
fn long_runs_with_many_events_are_replayed(rt: HostRuntime) -> Result<(), Fail> {
    for workers in CREWS {
        assert!(rt; ends_long(&rt, rt.alloc(), workers)?);
    }
    Ok(())
}
