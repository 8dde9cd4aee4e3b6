// How far a replay has come.
ghost use Rattle.std.specs.Prelude.{◌≡◌, ◌≤◌, ◌<◌, ◌+◌, ◌-◌, ◌^◌, List, length, take, not, ◌==◌, true, false, slice_set, IfOk};
ghost use Rattle.ocr_body_code.specs.Checked.{checked_tree};
ghost use Rattle.ocr_machine_history.specs.History.{Setting, history_of};
ghost use Rattle.ocr_machine_history.specs.declared.entry.Entry as entries;
ghost use Rattle.ocr_replay_body.specs.Links.{IsLinked};
ghost use Rattle.ocr_replay_body.specs.Tests.{Whether};
ghost use Rattle.ocr_machine_state.specs.State.{core_on};
ghost use Rattle.ocr_machine_parts.specs.Kinds.{is_running};
ghost use Rattle.ocr_machine_parts.specs.Legal.{is_stop, IsSaid};

use crate::mails::deliver;
use ocr_base::NoMemory;
use ocr_body::Checked;
use ocr_body_meaning::BodyStop;
use ocr_guid::Guid;
use ocr_machine_history::Entry;
use ocr_machine_laws::{holding_laws, lasting_laws, standing_laws};
use ocr_machine_parts::{Part, event_laws, machine_laws};
use ocr_machine_state::State;
use ocr_replay_body::{Links, Mail, Told, Verdict, verdict_on};
use ocr_replay_legality::is_legal;
use std::alloc::Global;

/// The state of a run so far, the messages that were not delivered, and the verdict on each EDT
/// that has started, by its number.
#[derive(Drop)]
pub(crate) struct Replay {
    pub table: State,
    pub mail: Mail,
    pub verdicts: Vec<Verdict>,
}

fn no_verdicts(alloc: Global, count: usize) -> Result<Vec<Verdict>, NoMemory>
    ensures { IfOk result (λ verdicts. length verdicts.items ≡ count) }
{
    let mut verdicts = Vec::new(alloc);
    for _ in 0..count {
        verdicts.push(Verdict {
            at: 0,
            told: Told::Stopped(BodyStop::NoMemory),
        })?;
    }
    Ok(verdicts)
}

fn set_verdict(verdicts: &mut Vec<Verdict>, edt: Guid, verdict: Verdict)
    requires { edt < length verdicts.old.items }
    ensures { verdicts.new.items ≡ slice_set verdicts.old.items edt verdict }
{
    verdicts[edt.0 as usize] = verdict;
}

impl Replay {
    ghost use Rattle.ocr_machine_history.specs.History.{setting_of};
    ghost use Rattle.ocr_replay.specs.Replay.{entry_at, verdict_at, IsReplaying, IsFirstIllegal, IsNext, IsComing, IsEntered, IsStarted, IsJudged};

    /// Before the first entry.
    pub fn opened(
        alloc: Global,
        program: &Checked,
        args: &[u64],
        limit: u64,
    ) -> Result<Replay, NoMemory>
        requires args { length args.now ≤ 32 }
        requires some { 2 ≤ limit }
        requires limit_fits { limit ≤ 65536 }
        ensures limit { IfOk result (λ replay. replay.table.limit ≡ limit) }
        ensures room { IfOk result (λ replay. length replay.verdicts.items ≡ limit + 1) }
        ensures begun { IfOk result (λ replay. (xs : List entries.Entry)
            → IsReplaying (setting_of (checked_tree program.now) args.now limit) xs 0 replay) }
    {
        let table = State::opened(alloc, program.main_function(), args, limit)?;
        Ok(Replay {
            table,
            mail: Mail::new(alloc),
            verdicts: no_verdicts(alloc, limit as usize + 1)?,
        })
    }

    /// The place that the verdict on an EDT names.
    fn verdict(&self, edt: Guid) -> usize
        ensures { result ≡ (verdict_at self.now.verdicts.items edt).at }
    {
        if edt.0 < self.verdicts.len() as u64 {
            return self.verdicts[edt.0 as usize].at;
        }
        0
    }

    /// Whether the verdict on an EDT names another place.
    fn agrees(&self, edt: Guid, place: usize) -> bool
        ensures { result ≡ not ((verdict_at self.now.verdicts.items edt).at == place) }
    {
        self.verdict(edt) != place
    }

    /// Whether an entry that may come at this place is one that its EDT's body makes, or delivers a
    /// message that was sent and not delivered.
    fn is_said(&self, entry: &Entry, place: usize) -> bool
        ensures { (s : Setting) (xs : List entries.Entry) → IsNext s xs place entry.now self.now
            → Whether result (IsSaid s (history_of (take place xs)) entry.now) }
    {
        standing_laws(); // only for the proof: who runs has started
        match entry {
            Entry::Call {
                edt,
                home: _,
                call: _,
                answer: _,
                writes: _,
            } => self.agrees(*edt, place),
            Entry::Free {
                edt,
                block: _,
                writes: _,
            } => self.agrees(*edt, place),
            Entry::End { edt, returned: _ } => self.agrees(*edt, place),
            Entry::Deliver { message, code: _ } => self.mail.has(message),
            Entry::Acquire { .. } | Entry::Wait { .. } | Entry::StaleAcquire { .. } => true,
            Entry::Start { .. } | Entry::Stop(_) => true,
        }
    }

    /// Enters the entry at this place, which is no Stop, where it is legal after those before it.
    pub fn go_on(
        &mut self,
        alloc: Global,
        program: &Checked,
        args: &[u64],
        front: &[Entry],
        links: &Links,
        place: usize,
    ) -> Result<bool, NoMemory>
        requires linked { IsLinked self.old.table.limit front.now links.now }
        requires within { place < length front.now }
        requires few { place < 2 ^ 64 - 1 }
        requires no_stop { is_stop (entry_at front.now place) ≡ false }
        requires room { length self.old.verdicts.items ≡ self.old.table.limit + 1 }
        requires so_far { IsReplaying
            (setting_of (checked_tree program.now) args.now self.old.table.limit)
            front.now place self.old }
        ensures limit { self.new.table.limit ≡ self.old.table.limit }
        ensures room { length self.new.verdicts.items ≡ length self.old.verdicts.items }
        ensures legal { IfOk result (λ answer. answer ≡ true → IsReplaying
            (setting_of (checked_tree program.now) args.now self.old.table.limit)
            front.now (place + 1) self.new) }
        ensures illegal { IfOk result (λ answer. answer ≡ false → IsFirstIllegal
            (setting_of (checked_tree program.now) args.now self.old.table.limit)
            front.now place) }
    {
        let entry = &front[place];
        if !is_legal(alloc, &self.table, entry)? {
            return Ok(false);
        }
        if !self.is_said(entry, place) {
            return Ok(false);
        }
        standing_laws(); // only for the proof: what lasts in a run
        lasting_laws();
        machine_laws();
        self.enter(alloc, entry, place)?;
        if let Entry::Start { edt } = entry {
            self.judge(alloc, program, front, links, place, *edt)?;
        }
        Ok(true)
    }

    /// Enters an entry that comes at this place, and its messages.
    fn enter(&mut self, alloc: Global, entry: &Entry, place: usize) -> Result<(), NoMemory>
        requires comes { (s : Setting) × (xs : List entries.Entry)
            × IsComing s xs place entry.now self.old }
        requires few { place < 2 ^ 64 - 1 }
        ensures limit { self.new.table.limit ≡ self.old.table.limit }
        ensures verdicts { self.new.verdicts ≡ self.old.verdicts }
        ensures entered { IfOk result (λ _. (s : Setting) (xs : List entries.Entry)
            → IsComing s xs place entry.now self.old
            → IsEntered s xs (place + 1) self.new.table self.new.mail) }
    {
        let _place = place;
        event_laws(); // only for the proof: a latch counts no more than the entries so far
        let entered = self.table.enter(alloc, entry)?;
        deliver(&mut self.mail, entry);
        self.mail.push(alloc, &entered.messages)?;
        Ok(())
    }

    /// Judges an EDT that started at this place.
    fn judge(
        &mut self,
        alloc: Global,
        program: &Checked,
        front: &[Entry],
        links: &Links,
        place: usize,
        edt: Guid,
    ) -> Result<(), NoMemory>
        requires linked { IsLinked self.old.table.limit front.now links.now }
        requires room { length self.old.verdicts.items ≡ self.old.table.limit + 1 }
        requires started { (s : Setting) × IsStarted s front.now place edt self.old }
        requires running { is_running (core_on self.old.table edt) ≡ true }
        ensures table { self.new.table ≡ self.old.table }
        ensures mail { self.new.mail ≡ self.old.mail }
        ensures len { length self.new.verdicts.items ≡ length self.old.verdicts.items }
        ensures verdict { IfOk result (λ _. (s : Setting) → s.program ≡ checked_tree program.now
            → IsStarted s front.now place edt self.old
            → IsJudged s front.now place edt self.old.verdicts.items self.new.verdicts.items) }
    {
        holding_laws(); // only for the proof: what is kept fits the holds
        lasting_laws();
        let next = links.next(place);
        let deps = self.table.depv(alloc, edt)?;
        let Some(Part::Core(core)) = self.table.core(edt) else {
            unreachable!()
        };
        let verdict = verdict_on(
            alloc,
            program,
            core.get(),
            &deps,
            front,
            links,
            edt,
            place + 1,
            next,
        )?;
        set_verdict(&mut self.verdicts, edt, verdict);
        Ok(())
    }
}
