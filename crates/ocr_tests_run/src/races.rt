// The report on races, from the words in to the bytes out.
use crate::outcomes::{CREWS, outcome_of};
use crate::programs::ADDERS;
use crate::streams::WHOLE;
use std::alloc::Global;
use std::sync::Wait;
use std::test::Fail;
use std::thread::Threads;

const ADDING_IN_RW: &[u8] = b"fn add { store(depv[0], 0, load(depv[0], 0) + 1); }
fn show { print load(depv[8], 0); }
fn mainEdt {
  let d = ocrDbCreate(8, DB_PROP_NO_ACQUIRE);
  let t = ocrEdtTemplateCreate(add, 0, 1);
  let s = ocrEdtCreate(ocrEdtTemplateCreate(show, 0, 9), EDT_PARAM_DEF, [], EDT_PARAM_DEF, [], 0);
  ocrAddDependence(d, s, 8, DB_MODE_RO);
  let i = 0;
  while i < 8 {
    let o = 0;
    let a = ocrEdtCreate(t, EDT_PARAM_DEF, [], EDT_PARAM_DEF, [], 0, &o);
    ocrAddDependence(o, s, i, DB_MODE_NULL);
    ocrAddDependence(d, a, 0, DB_MODE_RW);
    i = i + 1;
  }
}";

// Three EDTs: 6 stores two words and loads one of them, 7 loads both, and 8 loads another.
const MIXED: &[u8] = b"fn first { store(depv[0], 1, 5); store(depv[0], 0, load(depv[0], 1)); }
fn second { let x = load(depv[0], 1) + load(depv[0], 0); }
fn third { let x = load(depv[0], 2); }
fn mainEdt {
  let d = ocrDbCreate(24, DB_PROP_NO_ACQUIRE);
  let t = ocrEdtTemplateCreate(second, 0, 1);
  let u = ocrEdtTemplateCreate(first, 0, 1);
  let a = ocrEdtCreate(u, EDT_PARAM_DEF, [], EDT_PARAM_DEF, [], 0);
  let b = ocrEdtCreate(t, EDT_PARAM_DEF, [], EDT_PARAM_DEF, [], 0);
  ocrAddDependence(d, b, 0, DB_MODE_RO);
  ocrAddDependence(d, a, 0, DB_MODE_RW);
  let c = ocrEdtCreate(ocrEdtTemplateCreate(third, 0, 1), EDT_PARAM_DEF, [], EDT_PARAM_DEF, [], 0);
  ocrAddDependence(d, c, 0, DB_MODE_RO);
}";

// What a run by so many workers writes that is asked for its races.
fn told<R: Threads + Wait + Sync>(
    rt: &R,
    alloc: Global,
    workers: &str,
    text: &[u8],
) -> Result<Vec<u8>, Fail> {
    let words = ["run", "--workers", workers, "--races"];
    let done = outcome_of(rt, alloc, &words, text.to_vec(alloc)?, 60_000, WHOLE)?;
    if done.ended.status != 0 {
        return Err(Fail::new("the run did not end well"));
    }
    Ok(done.out.bytes().to_vec(alloc)?)
}

#[test]
fn stores_in_ew_do_not_race(rt: HostRuntime) -> Result<(), Fail> {
    for workers in CREWS {
        let out = told(&rt, rt.alloc(), workers, ADDERS)?;
        assert_eq!(rt; out.as_slice(), b"8\nraces 0\n".as_slice());
    }
    Ok(())
}

#[test]
fn stores_in_rw_race_two_by_two(rt: HostRuntime) -> Result<(), Fail> {
    let alloc = rt.alloc();
    let mut races = String::from_str(alloc, "\nraces 28\n")?;
    for lesser in 0u64..8 {
        for greater in lesser + 1..8 {
            let line = format!(in alloc;
                "block 3 word 0 edts {} {}\n",
                7 + 2 * lesser,
                7 + 2 * greater
            )?;
            races.push_str(&line)?;
        }
    }
    for workers in CREWS {
        let out = told(&rt, alloc, workers, ADDING_IN_RW)?;
        assert!(rt; matches!(out.first(), Some(b'1'..=b'8')));
        assert_eq!(rt; &out[1.min(out.len())..], races.as_bytes());
    }
    Ok(())
}

#[test]
fn words_rise_and_loads_alone_do_not_race(rt: HostRuntime) -> Result<(), Fail> {
    for workers in CREWS {
        let out = told(&rt, rt.alloc(), workers, MIXED)?;
        assert_eq!(rt;
            out.as_slice(),
            b"races 2\nblock 3 word 0 edts 6 7\nblock 3 word 1 edts 6 7\n".as_slice()
        );
    }
    Ok(())
}

#[test]
fn races_of_a_long_journal_are_not_told(rt: HostRuntime) -> Result<(), Fail> {
    let alloc = rt.alloc();
    let rows: [(&[u8], &[u8]); 2] = [
        (
            b"fn mainEdt { let i = 0; while i < 19997 { print 7; i = i + 1; } ocrShutdown(); }",
            b"7\nraces 0\n",
        ),
        (
            b"fn mainEdt { let i = 0; while i < 19998 { print 7; i = i + 1; } ocrShutdown(); }",
            b"7\nraces unknown: 20001 entries\n",
        ),
    ];
    for (text, end) in rows {
        let out = told(&rt, alloc, "1", text)?;
        assert!(rt; out.ends_with(end));
    }
    Ok(())
}
