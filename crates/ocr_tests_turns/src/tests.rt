ghost use Rattle.std.specs.Prelude.{◌<◌};

use crate::play::PLACES;
use crate::{Entry, Plan, Ran, deliver_many, run};
use ocr_base::NoMemory;
use ocr_turns::Log;
use std::alloc::Global;
use std::sync::Wait;
use std::test::Fail;
use std::thread::Threads;

// Puts each entry at its number. False where one stands there, or the number is too great.
fn place_entries(history: &mut Vec<Option<Entry>>, mut log: Log<Entry>) -> bool {
    for _ in 0..log.len() {
        let Some((number, entry)) = log.pop() else {
            return false;
        };
        let Some(slot) = history.get_mut(number as usize) else {
            return false;
        };
        if slot.is_some() {
            return false;
        }
        drop(slot.replace(entry));
    }
    true
}

// The entries by number, each once. None where the logs have other numbers.
fn history_of(
    alloc: Global,
    logs: Vec<Log<Entry>>,
    entries: u64,
) -> Result<Option<Vec<Entry>>, NoMemory> {
    let mut slots = Vec::new(alloc);
    for _ in 0..entries {
        slots.push(None)?;
    }
    for log in logs {
        if !place_entries(&mut slots, log) {
            return Ok(None);
        }
    }
    let mut history = Vec::new(alloc);
    for slot in slots {
        let Some(entry) = slot else {
            return Ok(None);
        };
        history.push(entry)?;
    }
    Ok(Some(history))
}

// The counters by place, with one more for the place 0, which no entry has.
const COUNTERS: usize = PLACES as usize + 1;

// The counters so far, and of which entries a message is undelivered.
#[derive(Drop)]
struct Replay {
    counters: [u64; COUNTERS],
    is_owed: Vec<bool>,
}

impl Replay {
    // Adds to the counter that the entry found. False where it stands otherwise.
    fn add(&mut self, place: u64, found: u64, count: u64) -> bool {
        let Some(counter) = self.counters.get_mut(place as usize) else {
            return false;
        };
        let is_so = *counter == found;
        *counter = found.wrapping_add(count);
        is_so
    }

    // Delivers a message. False where it is not owed.
    fn deliver(&mut self, number: u64, index: u32) -> bool {
        let Some(is_owed) = self.is_owed.get_mut(number as usize) else {
            return false;
        };
        let was_owed = *is_owed && index == 0;
        *is_owed = false;
        was_owed
    }

    fn enter(&mut self, entry: &Entry) -> Result<bool, NoMemory> {
        match entry {
            Entry::Add {
                place,
                found,
                count,
                delivered,
            } => {
                let is_so = self.add(*place, *found, *count);
                let is_owed = match delivered {
                    Some((number, index)) => self.deliver(*number, *index),
                    None => true,
                };
                self.is_owed.push(true)?;
                Ok(is_so && is_owed)
            }
            Entry::Stop => {
                self.is_owed.push(false)?;
                Ok(true)
            }
        }
    }
}

// Whether each entry found its counter at the sum of those before it, and delivered a message that
// was sent before and not delivered; as many are undelivered at the end as the root owes.
fn is_run(alloc: Global, history: &[Entry], owed: usize) -> Result<bool, NoMemory> {
    let mut replay = Replay {
        counters: [0; COUNTERS],
        is_owed: Vec::new(alloc),
    };
    for entry in history {
        if !replay.enter(entry)? {
            return Ok(false);
        }
    }
    let mut left = owed;
    for is_owed in &replay.is_owed {
        if *is_owed {
            let Some(fewer) = left.checked_sub(1) else {
                return Ok(false);
            };
            left = fewer;
        }
    }
    Ok(left == 0)
}

// Whether an entry ends the run.
fn has_stop(history: &[Entry]) -> bool {
    for entry in history {
        if matches!(entry, Entry::Stop) {
            return true;
        }
    }
    false
}

// The entries of a run, where they are one history.
fn entered(alloc: Global, ran: Ran) -> Result<Option<Vec<Entry>>, NoMemory> {
    let Ran {
        logs,
        entries,
        owed,
        is_whole: _,
    } = ran;
    let Some(history) = history_of(alloc, logs, entries)? else {
        return Ok(None);
    };
    if !is_run(alloc, history.as_slice(), owed)? {
        return Ok(None);
    }
    Ok(Some(history))
}

// Whether so many threads make a run of ten thousand entries.
fn is_run_of_ten_thousand<R: Threads + Wait + Sync>(
    rt: &R,
    alloc: Global,
    threads: u32,
    each: u64,
) -> Result<bool, NoMemory>
    requires { threads < 128 }
{
    let plan = Plan {
        threads,
        visits: 0,
        turns: each,
        stop_after: None,
    };
    let ran = run(rt, alloc, &plan)?;
    let is_whole = ran.is_whole;
    let Some(history) = entered(alloc, ran)? else {
        return Ok(false);
    };
    Ok(is_whole && history.len() == 10_000 && !has_stop(history.as_slice()))
}

#[test]
fn entries_of_one_thread_are_a_run(rt: HostRuntime) -> Result<(), Fail> {
    assert!(rt; matches!(is_run_of_ten_thousand(&rt, rt.alloc(), 1, 10_000), Ok(true)));
    Ok(())
}

#[test]
fn entries_of_two_threads_are_a_run(rt: HostRuntime) -> Result<(), Fail> {
    assert!(rt; matches!(is_run_of_ten_thousand(&rt, rt.alloc(), 2, 5_000), Ok(true)));
    Ok(())
}

#[test]
fn entries_of_four_threads_are_a_run(rt: HostRuntime) -> Result<(), Fail> {
    assert!(rt; matches!(is_run_of_ten_thousand(&rt, rt.alloc(), 4, 2_500), Ok(true)));
    Ok(())
}

// The seventh entry comes to the third place again, and delivers the sixth's message.
#[test]
fn eight_entries_of_one_clerk(rt: HostRuntime) -> Result<(), Fail> {
    let plan = Plan {
        threads: 1,
        visits: 2,
        turns: 0,
        stop_after: Some(7),
    };
    let Ok(ran) = run(&rt, rt.alloc(), &plan) else {
        assert!(rt; false);
        return Ok(())
    };
    assert!(rt; ran.is_whole);
    assert_eq!(rt; ran.entries, 8);
    assert_eq!(rt; ran.owed, 1);
    let Ok(Some(mut history)) = entered(rt.alloc(), ran) else {
        assert!(rt; false);
        return Ok(())
    };
    assert!(rt; matches!(history.pop(), Some(Entry::Stop)));
    let last = history.pop();
    assert!(rt;
        matches!(
            last,
            Some(Entry::Add {
                place: 3,
                found: 2,
                count: 6,
                ..
            })
        )
    );
    let Some(Entry::Add { delivered, .. }) = last else {
        assert!(rt; false);
        return Ok(())
    };
    assert_eq!(rt; delivered, Some((5, 0)));
    Ok(())
}

#[test]
fn ten_thousand_owed_messages_are_delivered(rt: HostRuntime) -> Result<(), Fail> {
    assert!(rt; matches!(deliver_many(&rt, rt.alloc()), Ok(true)));
    Ok(())
}

// The other threads work on until they learn that the run has ended.
#[test]
fn nothing_is_entered_once_a_clerk_ended_the_run(rt: HostRuntime) -> Result<(), Fail> {
    let plan = Plan {
        threads: 4,
        visits: 0,
        turns: 1_000_000,
        stop_after: Some(500),
    };
    let Ok(ran) = run(&rt, rt.alloc(), &plan) else {
        assert!(rt; false);
        return Ok(())
    };
    let Ok(Some(mut history)) = entered(rt.alloc(), ran) else {
        assert!(rt; false);
        return Ok(())
    };
    assert!(rt; history.len() > 500);
    assert!(rt; matches!(history.pop(), Some(Entry::Stop)));
    assert!(rt; !has_stop(history.as_slice()));
    Ok(())
}
