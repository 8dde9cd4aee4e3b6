// The report on blocks, of journals that replay takes as runs.
use Line::{
    Acquire, Block, Depends, Destroy, Edt, End, Free, Print, Release, Set, Shutdown, Stale, Start,
    Template, Wait,
};
use ocr_guid::Code::Done;
use ocr_machine_history::Journal;
use ocr_report::blocks_text;
use ocr_tests_journals::{Line, Words, entries_of, program_of, replay};
use ocr_worker_machine::Setting;
use std::alloc::Global;
use std::test::Fail;

const LIMIT: u64 = 4096;

const EW: u64 = 4;

const NONE: Words = &[];

// The report after a run of this program that has these entries.
fn blocks_after(alloc: Global, text: &[u8], args: &[u64], lines: &[Line]) -> Result<Vec<u8>, Fail> {
    if args.len() > 32 {
        return Err(Fail::new("at most 32 arguments"));
    }
    let entries = entries_of(alloc, lines)?;
    let setting = Setting {
        program: program_of(alloc, text)?,
        args: Vec::from_slice(alloc, args)?,
    };
    replay(
        alloc,
        &setting.program,
        setting.args.as_slice(),
        LIMIT,
        &entries,
    )?;
    Ok(blocks_text(alloc, &setting, LIMIT, &Journal::from_vec(entries))?)
}

// EDT 7 waits for the block that EDT 5 holds, and holds it from its release on, before its own
// entry comes.
const HANDED: &[u8] = b"fn give { ocrDbRelease(depv[0]); ocrDbDestroy(depv[0]); ocrShutdown(); }
fn take { print depv[0]; }
fn mainEdt {
  let d = ocrDbCreate(16, DB_PROP_NO_ACQUIRE);
  ocrEdtCreate(ocrEdtTemplateCreate(give, 0, 1), EDT_PARAM_DEF, [], EDT_PARAM_DEF, [d], 0);
  let w = ocrEdtCreate(ocrEdtTemplateCreate(take, 0, 1), EDT_PARAM_DEF, [], EDT_PARAM_DEF, [], 0);
  ocrAddDependence(d, w, 0, DB_MODE_EW);
}";

const HANDED_LINES: [Line; 22] = [
    Acquire(2, 1),
    Start(2),
    Block(2, 16, 1, 3),
    Template(2, 1, 0, 1, 4),
    Edt(2, 4, &[], &[3], Done, 5),
    Template(2, 2, 0, 1, 6),
    Edt(2, 6, &[], &[], Done, 7),
    Depends(2, 3, 7, 0, EW),
    Free(2, 1, NONE),
    End(2),
    Set(4, 0, 5, 0, 3), // 10
    Set(7, 0, 7, 0, 3),
    Acquire(5, 3),
    Start(5),
    Wait(7, 3),
    Release(5, 3, Done, NONE),
    Destroy(5, 3, Done, NONE),
    Acquire(7, 3),
    Start(7),
    Print(7, 3),
    Free(7, 3, NONE), // 20
    Shutdown(5),
];

#[test]
fn a_block_is_destroyed_until_its_last_holder_gives_it_back(rt: HostRuntime) -> Result<(), Fail> {
    let alloc = rt.alloc();
    let rows: [(usize, &[u8]); 6] = [
        (0, b"blocks 1\nblock 1 words 3 live\n"),
        (3, b"blocks 2\nblock 1 words 3 live\nblock 3 words 2 live\n"),
        (
            16,
            b"blocks 2\nblock 1 words 3 live\nblock 3 words 2 live\n",
        ),
        (
            17,
            b"blocks 2\nblock 1 words 3 live\nblock 3 words 2 destroyed\n",
        ),
        (
            20,
            b"blocks 2\nblock 1 words 3 live\nblock 3 words 2 destroyed\n",
        ),
        (
            22,
            b"blocks 2\nblock 1 words 3 live\nblock 3 words 2 gone\n",
        ),
    ];
    for (end, wanted) in rows {
        let text = blocks_after(alloc, HANDED, &[7, 8], &HANDED_LINES[..end])?;
        assert_eq!(rt; text.as_slice(), wanted);
    }
    Ok(())
}

// The creator destroys its block while EDT 5 waits for it, which holds nothing.
const LATE: &[u8] = b"fn late { print depv[0]; }
fn mainEdt {
  let d = ocrDbCreate(8, 0);
  let w = ocrEdtCreate(ocrEdtTemplateCreate(late, 0, 1), EDT_PARAM_DEF, [], EDT_PARAM_DEF, [], 0);
  ocrAddDependence(d, w, 0, DB_MODE_EW);
  ocrDbDestroy(d);
}";

const LATE_LINES: [Line; 11] = [
    Acquire(2, 1),
    Start(2),
    Block(2, 8, 0, 3),
    Template(2, 1, 0, 1, 4),
    Edt(2, 4, &[], &[], Done, 5),
    Depends(2, 3, 5, 0, EW),
    Set(5, 0, 5, 0, 3),
    Wait(5, 3),
    Destroy(2, 3, Done, NONE),
    Stale(5, 3),
    Start(5), // 10
];

#[test]
fn who_waits_for_a_block_does_not_hold_it(rt: HostRuntime) -> Result<(), Fail> {
    let alloc = rt.alloc();
    let rows: [(usize, &[u8]); 3] = [
        (8, b"blocks 2\nblock 1 words 1 live\nblock 3 words 1 live\n"),
        (9, b"blocks 2\nblock 1 words 1 live\nblock 3 words 1 gone\n"),
        (
            11,
            b"blocks 2\nblock 1 words 1 live\nblock 3 words 1 gone\n",
        ),
    ];
    for (end, wanted) in rows {
        let text = blocks_after(alloc, LATE, &[], &LATE_LINES[..end])?;
        assert_eq!(rt; text.as_slice(), wanted);
    }
    Ok(())
}
