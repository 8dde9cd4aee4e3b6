// A gate's clerk ends a run of two workers at each of its passes, or lets it come to its end.
use crate::{Plan, Played, play};
use ocr_body_code::Checked;
use ocr_machine_history::{Entry, Stop};
use ocr_tests_journals::{program_of, replay};
use ocr_worker_machine::Setting;
use std::alloc::Global;
use std::sync::Wait;
use std::test::Fail;
use std::thread::Threads;

const THREE: &[u8] = b"fn one { print 1; }
fn mainEdt {
  let t = ocrEdtTemplateCreate(one, 0, 0); let i = 0;
  while i < 3 { ocrEdtCreate(t, EDT_PARAM_DEF, [], EDT_PARAM_DEF, [], 0); i = i + 1; }
}";

/// The entries of the whole run: an Acquire, a Start, four calls, a Free and an End of `mainEdt`, and
/// a Start, a print and an End of each of the three.
const ENTRIES: usize = 17;

/// At how many passes the clerk acts, one after the other.
const PASSES: u64 = 60;

/// The objects that the table has at most.
const OBJECTS: u64 = 64;

/// The commit word from which on a run has ended.
const ENDED: u64 = 1 << 48;

fn stops_in(entries: &[Entry]) -> usize {
    let mut stops: usize = 0;
    for entry in entries {
        if matches!(entry, Entry::Stop(_)) {
            stops = stops.saturating_add(1);
        }
    }
    stops
}

fn is_memory(entry: Option<&Entry>) -> bool {
    matches!(entry, Some(Entry::Stop(Stop::Memory)))
}

// Whether the clerk ended the run, by its last entry, and saw so.
fn has_ended(played: &Played) -> bool {
    let entries = played.merged.journal().entries();
    let (Some(number), Some(seen)) = (played.told.number, played.told.seen) else {
        return false;
    };
    seen >= ENDED
        && number.saturating_add(1) == entries.len() as u64
        && stops_in(entries) == 1
        && is_memory(entries.last())
}

// Whether the run came to its end, which no Stop is.
fn is_quiet(played: &Played) -> bool {
    let entries = played.merged.journal().entries();
    played.told.number.is_none()
        && played.told.seen.is_none()
        && stops_in(entries) == 0
        && entries.len() == ENTRIES
}

fn is_run(alloc: Global, program: &Checked, played: &Played) -> bool {
    replay(
        alloc,
        program,
        &[],
        OBJECTS,
        played.merged.journal().entries(),
    )
    .is_ok()
}

// The first pass at which something else comes where the clerk acts there.
fn first_wrong<R: Threads + Wait + Sync>(
    rt: &R,
    alloc: Global,
    ends: bool,
) -> Result<Option<u64>, Fail> {
    let setting = Setting {
        program: program_of(alloc, THREE)?,
        args: Vec::new(alloc),
    };
    for pass in 1..PASSES + 1 {
        let played = play(rt, alloc, &setting, Plan { pass, ends })?;
        let is_so = if ends {
            has_ended(&played)
        } else {
            is_quiet(&played)
        };
        if !is_so || !is_run(alloc, &setting.program, &played) {
            return Ok(Some(pass));
        }
    }
    Ok(None)
}

#[test]
fn a_stop_at_each_pass_ends_the_run(rt: HostRuntime) -> Result<(), Fail> {
    assert_eq!(rt; first_wrong(&rt, rt.alloc(), true)?, None);
    Ok(())
}

#[test]
fn a_run_goes_on_until_the_last_unit_is_given_up(rt: HostRuntime) -> Result<(), Fail> {
    assert_eq!(rt; first_wrong(&rt, rt.alloc(), false)?, None);
    Ok(())
}
