// Races after a destruction, of journals that replay takes as runs. They are written by hand, since
// by one worker no EDT waits for a block.
use Line::{
    Acquire, Block, Depends, Destroy, Edt, End, Event, Free, Load, Satisfies, Set, Start, Store,
    Template, Wait,
};
use ocr_guid::Code::Done;
use ocr_machine_history::Journal;
use ocr_report::races_text;
use ocr_tests_journals::{Line, Words, entries_of, program_of, replay};
use ocr_worker_machine::Setting;
use std::alloc::Global;
use std::test::Fail;

const LIMIT: u64 = 4096;

const NULL: u64 = 0;

const RO: u64 = 1;

const CONST: u64 = 2;

const RW: u64 = 3;

const EW: u64 = 4;

const STICKY: u64 = 3;

const NONE: Words = &[];

// The report after a run of this program that has these entries.
fn races_after(alloc: Global, text: &[u8], args: &[u64], lines: &[Line]) -> Result<Vec<u8>, Fail> {
    if args.len() > 32 {
        return Err(Fail::new("at most 32 arguments"));
    }
    let entries = entries_of(alloc, lines)?;
    let setting = Setting {
        program: program_of(alloc, text)?,
        args: Vec::from_slice(alloc, args)?,
    };
    replay(
        alloc,
        &setting.program,
        setting.args.as_slice(),
        LIMIT,
        &entries,
    )?;
    Ok(races_text(alloc, &setting, LIMIT, &Journal::from_vec(entries))?)
}

// EDT 9 stores a word of block 4, which EDT 13 reads, and destroys block 3, in the order that the
// first argument names. EDT 11, which lets EDT 13 start, was let go on before, and acquires block 3
// after that. The other arguments are the modes of EDTs 9 and 11 on block 3.
const DESTROYED: &[u8] = b"fn hold { }
fn kill {
  if paramv[0] { store(depv[1], 0, 7); ocrDbDestroy(depv[0]); }
  else { ocrDbDestroy(depv[0]); store(depv[1], 0, 7); }
}
fn tell { ocrEventSatisfy(paramv[0], NULL_GUID); }
fn read { let x = load(depv[0], 0); }
fn mainEdt {
  let d = ocrDbCreate(8, DB_PROP_NO_ACQUIRE); let c = ocrDbCreate(8, DB_PROP_NO_ACQUIRE);
  let e = ocrEventCreate(OCR_EVENT_STICKY_T, 0);
  let h = ocrEdtCreate(ocrEdtTemplateCreate(hold, 0, 1), EDT_PARAM_DEF, [], EDT_PARAM_DEF, [], 0);
  let k = ocrEdtCreate(ocrEdtTemplateCreate(kill, 1, 2), EDT_PARAM_DEF, [load(depv[0], 1)],
    EDT_PARAM_DEF, [], 0);
  let t = ocrEdtCreate(ocrEdtTemplateCreate(tell, 1, 1), EDT_PARAM_DEF, [e], EDT_PARAM_DEF, [], 0);
  let r = ocrEdtCreate(ocrEdtTemplateCreate(read, 0, 2), EDT_PARAM_DEF, [], EDT_PARAM_DEF, [], 0);
  ocrAddDependence(d, h, 0, DB_MODE_EW); ocrAddDependence(d, k, 0, load(depv[0], 2));
  ocrAddDependence(c, k, 1, DB_MODE_RW); ocrAddDependence(d, t, 0, load(depv[0], 3));
  ocrAddDependence(c, r, 0, DB_MODE_RO); ocrAddDependence(e, r, 1, DB_MODE_NULL);
}";

/// The three arguments: 1 where the store comes first, else 0, and the two modes.
type Case = (u64, u64, u64);

const STORES_FIRST: &[u64] = &[1];

const DESTROYS_FIRST: &[u64] = &[0];

// What EDT 2 does.
fn made(alloc: Global, case: Case) -> Result<Vec<Line>, Fail> {
    let (first, held, asked) = case;
    let params = if first == 1 {
        STORES_FIRST
    } else {
        DESTROYS_FIRST
    };
    Ok(vec![in alloc;
        Acquire(2, 1),
        Start(2),
        Block(2, 8, 1, 3),
        Block(2, 8, 1, 4),
        Event(2, STICKY, 0, 5),
        Template(2, 1, 0, 1, 6),
        Edt(2, 6, &[], &[], Done, 7),
        Template(2, 2, 1, 2, 8),
        Load(2, 1, 1, first),
        Edt(2, 8, params, &[], Done, 9),
        Template(2, 3, 1, 1, 10), // 10
        Edt(2, 10, &[5], &[], Done, 11),
        Template(2, 4, 0, 2, 12),
        Edt(2, 12, &[], &[], Done, 13),
        Depends(2, 3, 7, 0, EW),
        Load(2, 1, 2, held),
        Depends(2, 3, 9, 0, held),
        Depends(2, 4, 9, 1, RW),
        Load(2, 1, 3, asked),
        Depends(2, 3, 11, 0, asked),
        Depends(2, 4, 13, 0, RO), // 20
        Depends(2, 5, 13, 1, NULL),
        Free(2, 1, NONE),
        End(2),
    ]?)
}

// Every slot is set but one of EDT 13, and EDT 11 waits for block 3, which EDT 7 gives back.
const GIVEN: [Line; 10] = [
    Set(14, 0, 7, 0, 3),
    Set(16, 0, 9, 0, 3),
    Set(17, 0, 9, 1, 4),
    Set(19, 0, 11, 0, 3),
    Set(20, 0, 13, 0, 4),
    Acquire(7, 3),
    Wait(11, 3),
    Start(7),
    Free(7, 3, NONE),
    End(7),
];

// EDT 9 has acquired what it wants of block 3.
fn killing(first: u64) -> [Line; 4] {
    let store = Store(9, 4, 0, 7);
    let destroy = Destroy(9, 3, Done, NONE);
    if first == 1 {
        [Acquire(9, 4), Start(9), store, destroy]
    } else {
        [Acquire(9, 4), Start(9), destroy, store]
    }
}

// EDT 11 satisfies event 5 by the entry of this place, and EDT 13 reads while EDT 9 still runs.
fn told(place: u64) -> [Line; 13] {
    [
        Acquire(11, 3),
        Start(11),
        Satisfies(11, 5, 0, 0, Done),
        Set(place, 0, 13, 1, 0),
        Acquire(13, 4),
        Start(13),
        Load(13, 4, 0, 7),
        Free(9, 4, NONE),
        End(9),
        Free(11, 3, NONE),
        End(11),
        Free(13, 4, NONE),
        End(13),
    ]
}

// The whole journal. In NULL EDT 9 does not hold the block that it destroys.
fn lines_of(alloc: Global, case: Case) -> Result<Vec<Line>, Fail> {
    let (first, held, _) = case;
    let mut lines = made(alloc, case)?;
    lines.extend_from_slice(&GIVEN)?;
    if held != NULL {
        lines.push(Acquire(9, 3))?;
    }
    lines.extend_from_slice(&killing(first))?;
    let place = if held == NULL { 40 } else { 41 };
    lines.extend_from_slice(&told(place))?;
    Ok(lines)
}

fn races_of(alloc: Global, case: Case) -> Result<Vec<u8>, Fail> {
    let lines = lines_of(alloc, case)?;
    let (first, held, asked) = case;
    races_after(alloc, DESTROYED, &[first, held, asked], &lines)
}

const ORDERED: &[u8] = b"races 0\n";

const RACING: &[u8] = b"races 1\nblock 4 word 0 edts 9 13\n";

#[test]
fn a_destruction_that_ends_a_hold_comes_before_a_later_acquire(
    rt: HostRuntime,
) -> Result<(), Fail> {
    let rows: [(Case, &[u8]); 6] = [
        ((1, RO, CONST), ORDERED),
        ((0, RO, CONST), RACING),
        ((1, CONST, RO), ORDERED),
        ((0, CONST, RO), RACING),
        ((1, CONST, CONST), ORDERED),
        ((0, CONST, CONST), RACING),
    ];
    for (case, wanted) in rows {
        let text = races_of(rt.alloc(), case)?;
        assert_eq!(rt; text.as_slice(), wanted);
    }
    Ok(())
}

#[test]
fn no_other_destruction_comes_before_a_later_acquire(rt: HostRuntime) -> Result<(), Fail> {
    let rows: [(Case, &[u8]); 6] = [
        ((1, RO, RO), RACING),
        ((1, RO, RW), RACING),
        ((1, RW, RO), RACING),
        ((1, RW, RW), RACING),
        ((1, NULL, CONST), RACING),
        ((1, NULL, EW), RACING),
    ];
    for (case, wanted) in rows {
        let text = races_of(rt.alloc(), case)?;
        assert_eq!(rt; text.as_slice(), wanted);
    }
    Ok(())
}
