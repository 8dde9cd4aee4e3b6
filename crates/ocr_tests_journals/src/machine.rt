// The machine's calls by themselves, on rows worked out by hand: of 10 objects, so that the core of
// EDT 2 has the number 12.
use crate::lines::Line::{
    Block, Depends, Destroy, Free, Leave, NoDependence, Print, Release, Satisfies, Satisfy, Task,
};
use crate::lines::{BOTH, Form, Line, OUTPUT, entry_of};
use ocr_acquire::Mode;
use ocr_body_meaning::Call;
use ocr_event_any::{LATCH, event_of};
use ocr_finish::Scope;
use ocr_guid::Code::{Done, Einval, Enoent, Eperm};
use ocr_guid::Guid;
use ocr_machine::{home_of, opening};
use ocr_machine_codes::{decide, delivery_code, footprint, weight};
use ocr_machine_history::Entry;
use ocr_machine_parts::{BoxedEvent, Part};
use ocr_machine_state::State;
use ocr_template::Template;
use std::alloc::Global;
use std::test::Fail;

const OBJECTS: u64 = 10;

const EDT: Guid = Guid(2);

const LATCH_EVENT: Guid = Guid(3);

const SCOPE: Guid = Guid(5);

/// Flags that no creation has.
const NO_FORM: Form = (2, true);

/// An entry, the parts that it names, and what it weighs.
type Named = (Line, &'static [u64], u64);

const NAMED: [Named; 6] = [
    // The block has 128 words.
    (Block(2, 1024, 0, 3), &[3, 12], 9),
    (Depends(2, 3, 5, 0, 4), &[3, 5, 12], 1),
    (Free(2, 3, &[(0, 7), (1, 8)]), &[3, 12], 3),
    (Satisfy(1, 0, 3, 0, 1, Done), &[3], 1),
    (Leave(1, 0, 8), &[8], 1),
    // A finish EDT with its scope, its output event, and the home of its maker.
    (
        Task(2, 5, 3, &[], &[], BOTH, (Done, 7, 8, 9)),
        &[3, 5, 7, 8, 9, 12, 17],
        1,
    ),
];

// Which of the rows is the first that does not hold.
fn first_unnamed(alloc: Global, rows: &[Named]) -> Result<Option<usize>, Fail> {
    for i in 0..rows.len() {
        let (line, numbers, weighs) = rows[i];
        let entry = entry_of(alloc, line)?;
        let named = footprint(alloc, &entry, OBJECTS)?;
        if named.as_slice() != numbers || weight(&entry) != weighs {
            return Ok(Some(i));
        }
    }
    Ok(None)
}

#[test]
fn entries_name_parts_and_weigh(rt: HostRuntime) -> Result<(), Fail> {
    assert_eq!(rt; first_unnamed(rt.alloc(), &NAMED)?, None);
    Ok(())
}

// Calls of EDT 2 with their codes, at the opening, with event 3, a latch that takes no block, and
// template 4.
const DECIDED: [Line; 18] = [
    Print(2, 4),
    Release(2, 1, Eperm, &[]),
    Release(2, 2, Einval, &[]),
    Release(2, 9, Enoent, &[]),
    Destroy(2, 1, Done, &[]),
    Satisfies(2, 3, 0, 1, Done),
    Satisfies(2, 3, 0, 2, Einval),
    Satisfies(2, 3, 1, 0, Einval),
    Satisfies(2, 1, 0, 0, Einval),
    Satisfies(2, 1, 9, 0, Enoent),
    Depends(2, 0, 3, 1, 2),
    NoDependence(2, 0, 3, 2, 2, Einval),
    NoDependence(2, 1, 3, 0, 2, Einval),
    NoDependence(2, 3, 3, 0, 2, Einval),
    NoDependence(2, 3, 2, 0, 2, Eperm),
    Task(2, 0, 4, &[], &[], OUTPUT, (Done, 7, 0, 8)),
    Task(2, 0, 4, &[], &[], BOTH, (Done, 7, 8, 9)),
    Task(2, 0, 4, &[], &[], NO_FORM, (Einval, 0, 0, 0)),
];

// The parts of the opening, for one argument.
fn parts_at_hand(alloc: Global) -> Result<Vec<(u64, Part)>, Fail> {
    Ok(opening(alloc, 1, &[7], OBJECTS)?)
}

// These parts, with the latch and the template.
fn more_parts(alloc: Global) -> Result<Vec<(u64, Part)>, Fail> {
    let mut parts = parts_at_hand(alloc)?;
    parts.reserve(2)?;
    parts.push_reserved((
        3,
        Part::Event(BoxedEvent::new(alloc, event_of(alloc, LATCH, 0, 0))?),
    ));
    parts.push_reserved((
        4,
        Part::Template(Template {
            function: 4,
            paramc: 0,
            depc: 0,
            destroyed: false,
        }),
    ));
    Ok(parts)
}

// Which of the lines is the first that has another code on these parts.
fn first_undecided(
    alloc: Global,
    parts: &[(u64, Part)],
    lines: &[Line],
) -> Result<Option<usize>, Fail> {
    for i in 0..lines.len() {
        let entry = entry_of(alloc, lines[i])?;
        if !is_decided(&entry, parts) {
            return Ok(Some(i));
        }
    }
    Ok(None)
}

// Whether the code of a call is the one that it answers.
fn is_decided(entry: &Entry, parts: &[(u64, Part)]) -> bool {
    match entry {
        Entry::Call {
            edt,
            home: _,
            call,
            answer,
            writes: _,
        } => decide(OBJECTS, *edt, call, parts) == answer.code,
        _ => false,
    }
}

#[test]
fn calls_are_decided(rt: HostRuntime) -> Result<(), Fail> {
    let parts = more_parts(rt.alloc())?;
    assert_eq!(rt; first_undecided(rt.alloc(), &parts, &DECIDED)?, None);
    assert_eq!(rt;
        delivery_code(OBJECTS, LATCH_EVENT, Guid::NULL, &parts),
        Done
    );
    assert_eq!(rt;
        delivery_code(OBJECTS, LATCH_EVENT, Guid(1), &parts),
        Einval
    );
    Ok(())
}

// The number of a part, and the words of a block.
fn number_and_words((number, part): &(u64, Part)) -> (u64, u32) {
    match part {
        Part::Block(block) => (*number, block.get().words()),
        _ => (*number, 0),
    }
}

#[test]
fn the_opening_has_three_parts(rt: HostRuntime) -> Result<(), Fail> {
    let parts = parts_at_hand(rt.alloc())?;
    assert_eq!(rt; parts.len(), 3);
    let wanted = [(1, 2), (2, 0), (12, 0)];
    for i in 0..wanted.len().min(parts.len()) {
        assert_eq!(rt; number_and_words(&parts[i]), wanted[i]);
    }
    Ok(())
}

// A table of the latch, and of a scope whose output event is 4.
fn table_at_hand(alloc: Global) -> Result<State, Fail> {
    let mut table = State::new(alloc, 10)?;
    let latch = BoxedEvent::new(alloc, event_of(alloc, LATCH, 0, 0))?;
    table.give(vec![in alloc; (3, Part::Event(latch))]?);
    let scope = Scope::new(Guid::NULL, Guid(4));
    table.give(vec![in alloc; (5, Part::Scope(scope))]?);
    Ok(table)
}

// What the table says of the latch's slots and of scopes.
fn facts_of(table: &State) -> [bool; 6] {
    [
        table.is_satisfiable(LATCH_EVENT, 1),
        table.is_satisfiable(LATCH_EVENT, 2),
        table.has_member(SCOPE),
        table.is_joinable(SCOPE),
        table.has_member(EDT),
        table.is_joinable(EDT),
    ]
}

#[test]
fn a_table_tells_of_events_and_scopes(rt: HostRuntime) -> Result<(), Fail> {
    let table = table_at_hand(rt.alloc())?;
    assert_eq!(rt; facts_of(&table), [true, false, true, true, false, false]);
    assert_eq!(rt; table.delivery_code(LATCH_EVENT, Guid(1)), Einval);
    Ok(())
}

#[test]
fn a_table_opens_with_the_first_edt(rt: HostRuntime) -> Result<(), Fail> {
    let alloc = rt.alloc();
    let table = State::opened(alloc, 1, &[7], OBJECTS)?;
    let first = (Guid(1), Mode::Rw);
    assert!(rt; table.is_full(Guid(2)));
    assert_eq!(rt; table.plan(alloc, Guid(2))?.as_slice(), [first].as_slice());
    assert_eq!(rt; table.next(alloc, Guid(2))?, Some(first));
    assert_eq!(rt;
        table.payloads(alloc, Guid(2))?.as_slice(),
        [Guid(1)].as_slice()
    );
    Ok(())
}

fn first_home(table: &State) -> Option<Guid> {
    table.core(Guid(2)).map(|core| home_of(core))
}

#[test]
fn the_first_edt_has_no_home(rt: HostRuntime) -> Result<(), Fail> {
    let table = State::opened(rt.alloc(), 1, &[7], OBJECTS)?;
    assert_eq!(rt; table.home(EDT), Guid::NULL);
    assert_eq!(rt; first_home(&table), Some(Guid::NULL));
    let released = Call::DbRelease { block: 3 };
    assert_eq!(rt; table.decide(EDT, &released), Enoent);
    assert!(rt; table.face(11).is_none());
    Ok(())
}
