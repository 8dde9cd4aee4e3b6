// Goes through a journal, entry by entry.
ghost use Rattle.std.specs.Prelude.{◌≡◌, ◌≤◌, ◌<◌, ◌+◌, ℕ, length, take, slice_index_or, true, false, IfOk, IfErr};
ghost use Rattle.ocr_body_code.specs.Checked.{checked_tree};
ghost use Rattle.ocr_machine_history.specs.History.{Setting, history_of, setting_of};
ghost use Rattle.ocr_machine_parts.specs.Legal.{is_stop, IsRun};
ghost use Rattle.ocr_replay.specs.Replay.{entry_at, IsReplaying, IsAtEnd};
ghost use Rattle.ocr_replay.specs.Stopped.{IsStoppedAt};

use crate::state::Replay;
use crate::stops::may_stop;
use ocr_base::NoMemory;
use ocr_body::Checked;
use ocr_machine_history::{Entry, Stop};
use ocr_machine_laws::standing_laws;
use ocr_machine_parts::machine_laws;
use ocr_replay_body::link;
use std::alloc::Global;
use std::error::Error;
use std::fmt;

/// Where a replay ends before the journal's end.
#[derive(Clone, Copy, PartialEq, Eq, Debug)]
pub enum ReplayStop {
    /// The first entry that is not legal stands at this place.
    Illegal(usize),
    /// Memory was refused.
    NoMemory,
}

impl fmt::Display for ReplayStop {
    ghost use Rattle.std.specs.Prelude.{Some};
    ghost use Rattle.ocr_replay.specs.Messages.{stop_text};

    ghost output = { λ stop. Some (stop_text stop) };

    fn fmt<W: fmt::Write>(&self, f: &mut fmt::Formatter<W>) -> fmt::Result {
        match self {
            ReplayStop::Illegal(place) => write!(f, "entry {place} is not legal"),
            ReplayStop::NoMemory => NoMemory.fmt(f),
        }
    }
}

impl Error for ReplayStop {}

/// The place of the first Stop, or the number of the entries.
fn first_stop(entries: &[Entry]) -> usize
    ensures within { result ≤ length entries.now }
    ensures before { (n : ℕ) → n < result → is_stop (entry_at entries.now n) ≡ false }
    ensures stop { result < length entries.now → is_stop (entry_at entries.now result) ≡ true }
{
    for place in 0..entries.len() {
        if is_stop(&entries[place]) {
            return place;
        }
    }
    entries.len()
}

fn is_stop(entry: &Entry) -> bool
    ensures { result ≡ is_stop entry.now }
{
    matches!(entry, Entry::Stop(_))
}

/// Goes through entries of which none is a Stop.
fn pass(
    alloc: Global,
    program: &Checked,
    args: &[u64],
    limit: u64,
    front: &[Entry],
) -> Result<Replay, ReplayStop>
    requires args { length args.now ≤ 32 }
    requires some { 2 ≤ limit }
    requires limit_fits { limit ≤ 65536 }
    requires no_stop { (n : ℕ) → n < length front.now → is_stop (entry_at front.now n) ≡ false }
    ensures ok { IfOk result (λ replay. IsAtEnd
        (setting_of (checked_tree program.now) args.now limit) front.now replay) }
    ensures stop { IfErr result (λ stop. IsStoppedAt
        (setting_of (checked_tree program.now) args.now limit) front.now stop) }
{
    let Ok(mut replay) = Replay::opened(alloc, program, args, limit) else {
        return Err(ReplayStop::NoMemory);
    };
    let Ok(links) = link(alloc, front, limit) else {
        return Err(ReplayStop::NoMemory);
    };
    for place in 0..front.len() {
        match replay.go_on(alloc, program, args, front, &links, place) {
            Ok(true) => (),
            Ok(false) => return Err(ReplayStop::Illegal(place)),
            Err(NoMemory) => return Err(ReplayStop::NoMemory),
        }
    }
    Ok(replay)
}

/// A Stop at this place, after entries that are a run, ends the replay.
fn ended_by(
    alloc: Global,
    replay: &Replay,
    entries: &[Entry],
    end: usize,
    stop: Stop,
) -> Result<(), ReplayStop>
    requires within { end < length entries.now }
    requires is { Entry.Stop stop ≡ slice_index_or entries.now end (Entry.Stop stop) }
    ensures ok { IfOk result (λ _. (s : Setting) → IsAtEnd s (take end entries.now) replay.now
        → IsRun s (history_of entries.now)) }
    ensures stop { IfErr result (λ stop. (s : Setting)
        → IsAtEnd s (take end entries.now) replay.now → IsStoppedAt s entries.now stop) }
{
    standing_laws(); // only for the proof: who runs was made
    machine_laws();
    match may_stop(alloc, &replay.table, &replay.mail, &replay.verdicts, stop) {
        Ok(true) => (),
        Ok(false) => return Err(ReplayStop::Illegal(end)),
        Err(NoMemory) => return Err(ReplayStop::NoMemory),
    }
    if end + 1 < entries.len() {
        return Err(ReplayStop::Illegal(end + 1));
    }
    Ok(())
}

/// Whether the list of entries is a run of the program on these arguments, with so many objects at
/// most: Ok only where it is, `Illegal` only with the first place whose entry is not legal.
pub fn replay(
    alloc: Global,
    program: &Checked,
    args: &[u64],
    limit: u64,
    entries: &[Entry],
) -> Result<(), ReplayStop>
    requires args { length args.now ≤ 32 }
    requires some { 2 ≤ limit }
    requires limit_fits { limit ≤ 65536 }
    ensures ok { IfOk result (λ _. IsRun (setting_of (checked_tree program.now) args.now limit)
        (history_of entries.now)) }
    ensures stop { IfErr result (λ stop. IsStoppedAt
        (setting_of (checked_tree program.now) args.now limit) entries.now stop) }
{
    let end = first_stop(entries);
    let front = &entries[..end];
    let replay = match pass(alloc, program, args, limit, front) {
        Ok(replay) => replay,
        Err(stop) => return Err(stop),
    };
    if end >= entries.len() {
        return Ok(());
    }
    let Entry::Stop(stop) = &entries[end] else {
        unreachable!()
    };
    ended_by(alloc, &replay, entries, end, *stop)
}
