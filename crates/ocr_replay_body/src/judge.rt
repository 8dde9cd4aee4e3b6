// Runs the body of one EDT against its entries in a journal.
ghost use Rattle.std.specs.Prelude.{◌≡◌, ◌≤◌, ◌<◌, ◌∷◌, length, take, true, false, [], IfSome, IfNone, IfOk, IfErr, OnErr, OnOk};
ghost use Rattle.ocr_base.specs.Count.{Rose};
ghost use Rattle.ocr_body_code.specs.Checked.{checked_tree};
ghost use Rattle.ocr_body_steps.specs.Api.{IsRefusal, answer_with};
ghost use Rattle.ocr_machine_history.specs.History.{own, history_of};
ghost use Rattle.ocr_body_meaning.specs.Behaviour.{IsNextWith, Asked};
ghost use Rattle.ocr_body_meaning.specs.Body.{Body, says};
ghost use Rattle.ocr_body_meaning.specs.Holds.{private_of, after_call};
ghost use Rattle.ocr_machine_parts.specs.Legal.{faulted};
ghost use Rattle.ocr_replay_body.specs.Cases.{judged_body, core_holds, case_body, log_of, IsGoing, IsFitCore, KeepsJudge};
ghost use Rattle.ocr_replay_body.specs.Holds.{held_in, counts_of};
ghost use Rattle.ocr_replay_body.specs.Judge.{runs, ended_as, at_place, IsMadeBy, IsSaidIn, IsUnsaid, IsVerdict, IsToldAs, IsFormed, IsPlain, IsEntryOf, IsAnswerOf};
ghost use Rattle.ocr_replay_body.specs.Links.{IsFollowing};
ghost use Rattle.ocr_replay_body.specs.Tests.{Whether};

use crate::holds::{Found, Holding, begun};
use crate::links::Links;
use ocr_base::NoMemory;
use ocr_body::{Checked, FUEL, walk};
use ocr_body_meaning::{Answer, BodyStop, Call};
use ocr_body_steps::Api;
use ocr_guid::{Code, Guid};
use ocr_machine_history::{Entry, Fault, Journal, Stop};
use ocr_machine_parts::Core;
use std::alloc::Global;

/// Whether the entry is one of this EDT's body.
pub(crate) fn is_run_by(entry: &Entry, edt: Guid) -> bool
    ensures { result ≡ runs edt entry.now }
{
    match entry {
        Entry::Call { edt: by, .. } => *by == edt,
        Entry::Free { edt: by, .. } => *by == edt,
        Entry::End { edt: by, .. } => *by == edt,
        Entry::Stop(Stop::Shutdown { edt: by }) => *by == edt,
        Entry::Stop(Stop::Abort { edt: by, .. }) => *by == edt,
        Entry::Stop(Stop::Fault { edt: by, .. }) => *by == edt,
        _ => false,
    }
}

/// How a body ended.
#[derive(Clone, Copy)]
pub(crate) enum Ending {
    Ended(Guid),
    Stopped(BodyStop),
}

/// What a body says next.
#[derive(Drop)]
pub enum Told {
    /// It has come to its end, with so many private writes of each hold.
    Ended(Vec<(Guid, usize)>),
    /// It makes this call. The hold that it ends, where it is accepted, has so many private writes.
    Asks(Call, usize),
    /// It stops, for this.
    Stopped(BodyStop),
}

/// The verdict on an EDT: the first place of an entry that its body does not make, or the journal's
/// length, and then what the body says next.
#[derive(Drop)]
pub struct Verdict {
    pub at: usize,
    pub told: Told,
}

/// The machine, as the entries of a journal answer for it.
pub(crate) struct Judge<'a> {
    pub alloc: Global,
    pub program: &'a Checked,
    pub core: &'a Core,
    pub deps: &'a [Guid],
    pub entries: &'a [Entry],
    pub links: &'a Links,
    pub edt: Guid,
    pub start: usize,
    pub place: usize,
    pub next: usize,
    pub holding: Holding,
    pub refusals: u64,
    pub told: Told,
}

impl<'a> Judge<'a> {
    /// What the journal answers to the call that the body makes next.
    fn ask(&mut self, call: &Call) -> Result<Answer, BodyStop>
        requires ready { IsGoing self.old }
        requires next { IsNextWith call.now (private_of call.now (held_in self.old.holding))
            (says (judged_body self.old) (log_of self.old)) }
        ensures keeps { KeepsJudge self.old self.new }
        ensures ok { IfOk result (λ a.
            log_of self.new ≡ record { call = call.now; answer = a } ∷ log_of self.old) }
        ensures formed { IfOk result (λ a. IsFormed call.now a) }
        ensures holds { IfOk result (λ a. held_in self.new.holding
            ≡ after_call call.now a (held_in self.old.holding)) }
        ensures err { OnErr result (log_of self.new ≡ log_of self.old) }
        ensures refused { IfErr result (IsRefusal (Rose self.old.refusals self.new.refusals)) }
    {
        let at = self.next;
        let entries = self.entries;
        if at >= entries.len() {
            return Err(self.left(call));
        }
        let Some(answer) = answer_in(&self.holding, call, &entries[at]) else {
            self.refusals = self.refusals.saturating_add(1);
            return Err(BodyStop::Closed);
        };
        match self.holding.answered(self.alloc, call, &answer) {
            Ok(()) => (),
            Err(NoMemory) => return Err(BodyStop::NoMemory),
        }
        self.place = at + 1;
        self.next = self.links.nexts[at];
        Ok(answer)
    }

    /// The journal has no entry more of the EDT: the call is what the body says next.
    fn left(&mut self, call: &Call) -> BodyStop
        requires ready { IsGoing self.old }
        requires past { length self.old.entries.now ≤ self.old.next }
        requires next { IsNextWith call.now (private_of call.now (held_in self.old.holding))
            (says (judged_body self.old) (log_of self.old)) }
        ensures keeps { KeepsJudge self.old self.new }
        ensures log { log_of self.new ≡ log_of self.old }
        ensures refused { IsRefusal (Rose self.old.refusals self.new.refusals) result }
    {
        let count = self.holding.count_for(call);
        match copied(call) {
            Ok(call) => {
                self.told = Told::Asks(call, count);
                self.refusals = self.refusals.saturating_add(1);
                BodyStop::Closed
            }
            Err(NoMemory) => BodyStop::NoMemory,
        }
    }

    /// What the journal answers to a load.
    fn ask_load(&mut self, block: u64, word: u64) -> Result<u64, BodyStop>
        requires ready { IsGoing self.old }
        requires next { IsNextWith (Call.Load block word) []
            (says (judged_body self.old) (log_of self.old)) }
        ensures keeps { KeepsJudge self.old self.new }
        ensures ok { IfOk result (λ v. log_of self.new
            ≡ record { call = Call.Load block word; answer = answer_with v } ∷ log_of self.old) }
        ensures holds { OnOk result (held_in self.new.holding ≡ held_in self.old.holding) }
        ensures err { OnErr result (log_of self.new ≡ log_of self.old) }
        ensures refused { IfErr result (IsRefusal (Rose self.old.refusals self.new.refusals)) }
    {
        let call = Call::Load { block, word };
        match self.ask(&call) {
            Ok(answer) => Ok(answer.value),
            Err(stop) => Err(stop),
        }
    }

    /// What the journal answers to a store.
    fn ask_store(&mut self, block: u64, word: u64, value: u64) -> Result<(), BodyStop>
        requires ready { IsGoing self.old }
        requires next { IsNextWith (Call.Store block word value) []
            (says (judged_body self.old) (log_of self.old)) }
        ensures keeps { KeepsJudge self.old self.new }
        ensures ok { OnOk result (log_of self.new
            ≡ record { call = Call.Store block word value; answer = answer_with 0 }
            ∷ log_of self.old) }
        ensures holds { OnOk result (held_in self.new.holding ≡ held_in self.old.holding) }
        ensures err { OnErr result (log_of self.new ≡ log_of self.old) }
        ensures refused { IfErr result (IsRefusal (Rose self.old.refusals self.new.refusals)) }
    {
        let call = Call::Store { block, word, value };
        match self.ask(&call) {
            Ok(_) => Ok(()),
            Err(stop) => Err(stop),
        }
    }
}

/// What an entry answers to this call; None where it is another entry.
fn answer_in(holding: &Holding, call: &Call, entry: &Entry) -> Option<Answer>
    ensures some { IfSome result (λ a.
        IsAnswerOf call.now (private_of call.now (held_in holding.now)) a entry.now) }
    ensures none { IfNone result (IsEntryOf call.now (private_of call.now (held_in holding.now))
        entry.now → ⊥) }
{
    match entry {
        Entry::Call {
            edt: _,
            home: _,
            call: made,
            answer,
            writes,
        } => {
            if made.is_same(call)
                && is_formed(made, answer)
                && holding.carries(call, answer, writes.as_slice())
            {
                Some(*answer)
            } else {
                None
            }
        }
        _ => None,
    }
}

fn copied(call: &Call) -> Result<Call, NoMemory>
    ensures { IfOk result (λ copy. copy ≡ call.now) }
{
    Ok(call.clone()?)
}

fn is_plain(answer: &Answer) -> bool
    ensures { Whether result (IsPlain answer.now) }
{
    answer.code == Code::Done && answer.scope == Guid::NULL && answer.output == Guid::NULL
}

fn is_formed(call: &Call, answer: &Answer) -> bool
    ensures { Whether result (IsFormed call.now answer.now) }
{
    match call {
        Call::Load { .. } => is_plain(answer),
        Call::Store { .. } => is_plain(answer) && answer.value == 0,
        _ => true,
    }
}

impl<'a> Api for Judge<'a> {
    ghost use Rattle.ocr_replay_body.specs.Cases.{judged_body, log_of, IsGoing};
    ghost use Rattle.ocr_replay_body.specs.Holds.{held_in};

    type Kept = (Journal, Guid, usize, Links);

    ghost kept = { λ j. (j.entries.now, j.edt, j.start, j.links.now) };

    ghost serves = { λ j. judged_body j };

    ghost log = { λ j. log_of j };

    ghost holds = { λ j. held_in j.holding };

    ghost is_ready = { λ j. IsGoing j };

    ghost closed = { λ j. j.refusals };

    fn call(&mut self, call: &Call) -> Result<Answer, BodyStop> {
        self.ask(call)
    }

    fn load(&mut self, block: Guid, word: u64) -> Result<u64, BodyStop> {
        match self.holding.load(block, word) {
            Found::Refused(stop) => Err(stop),
            Found::Silent(value) => Ok(value),
            Found::Entered => self.ask_load(block.0, word),
        }
    }

    fn store(&mut self, block: Guid, word: u64, value: u64) -> Result<(), BodyStop> {
        match self.holding.storing(block, word) {
            Found::Refused(stop) => Err(stop),
            Found::Silent(_) => match self.holding.store(block, word, value) {
                Ok(()) => Ok(()),
                Err(NoMemory) => Err(BodyStop::NoMemory),
            },
            Found::Entered => self.ask_store(block.0, word, value),
        }
    }

    fn closings(&self) -> u64 {
        self.refusals
    }
}

fn is_same_guid(left: Guid, right: Guid) -> bool
    ensures { Whether result (left ≡ right) }
{
    left == right
}

fn is_shutdown(stop: BodyStop) -> bool
    ensures { Whether result (stop ≡ BodyStop.Shutdown) }
{
    matches!(stop, BodyStop::Shutdown)
}

fn is_abort(stop: BodyStop, code: u64) -> bool
    ensures { Whether result (stop ≡ BodyStop.Abort code) }
{
    match stop {
        BodyStop::Abort(other) => other == code,
        _ => false,
    }
}

fn is_fault(stop: BodyStop, fault: Fault) -> bool
    ensures { Whether result (stop ≡ faulted fault) }
{
    match fault {
        Fault::ZeroDivisor => matches!(stop, BodyStop::ZeroDivisor),
        Fault::BadIndex => matches!(stop, BodyStop::BadIndex),
        Fault::NotHeld => matches!(stop, BodyStop::NotHeld),
        Fault::NotWritable => matches!(stop, BodyStop::NotWritable),
        Fault::Fuel => matches!(stop, BodyStop::Fuel),
    }
}

/// Whether a body that ended like this, with these holds, makes this entry of its EDT.
fn makes(ending: &Ending, holding: &Holding, entry: &Entry) -> bool
    ensures { Whether result (IsMadeBy (ended_as ending.now holding.now) entry.now) }
{
    match ending {
        Ending::Ended(guid) => match entry {
            Entry::End { edt: _, returned } => is_same_guid(*returned, *guid),
            Entry::Free {
                edt: _,
                block,
                writes,
            } => holding.has_stored(*block, writes.as_slice()),
            Entry::Call { .. } => false,
            Entry::Deliver { .. } => false,
            Entry::Stop(Stop::Shutdown { .. }) => false,
            Entry::Stop(Stop::Abort { .. }) => false,
            Entry::Stop(Stop::Fault { .. }) => false,
            _ => true,
        },
        Ending::Stopped(stop) => match entry {
            Entry::End { .. } => false,
            Entry::Free { .. } => false,
            Entry::Call { .. } => false,
            Entry::Deliver { .. } => false,
            Entry::Stop(Stop::Shutdown { edt: _ }) => is_shutdown(*stop),
            Entry::Stop(Stop::Abort { edt: _, code }) => is_abort(*stop, *code),
            Entry::Stop(Stop::Fault { edt: _, fault }) => is_fault(*stop, *fault),
            _ => true,
        },
    }
}

/// The first place from its next entry on of an entry that a body that ended does not make.
fn unsaid_after(
    entries: &[Entry],
    links: &Links,
    edt: Guid,
    next: usize,
    ending: &Ending,
    holding: &Holding,
) -> Option<usize>
    requires following { IsFollowing edt entries.now links.now next next }
    ensures some { (b : Body) → at_place b edt entries.now next ≡ ended_as ending.now holding.now
        → IfSome result (λ at. (next ≤ at) × (at < length entries.now)
        × IsSaidIn b edt entries.now next at × IsUnsaid b edt entries.now at) }
    ensures none { (b : Body) → at_place b edt entries.now next ≡ ended_as ending.now holding.now
        → IfNone result (IsSaidIn b edt entries.now next (length entries.now)
        × (at_place b edt entries.now (length entries.now)
        ≡ ended_as ending.now holding.now)) }
{
    let mut at = next;
    while at < entries.len() {
        if !makes(ending, holding, &entries[at]) {
            return Some(at);
        }
        at = links.nexts[at];
    }
    None
}

/// The verdict on a body that ended, from its next entry on.
fn conclude(
    alloc: Global,
    entries: &[Entry],
    links: &Links,
    edt: Guid,
    next: usize,
    ending: &Ending,
    holding: &Holding,
) -> Result<Verdict, NoMemory>
    requires following { IsFollowing edt entries.now links.now next next }
    ensures { IfOk result (λ v. (b : Body)
        → at_place b edt entries.now next ≡ ended_as ending.now holding.now
        → IsVerdict b edt entries.now next v.at v.told) }
{
    let told = told_of(alloc, ending, holding)?;
    let unsaid = unsaid_after(entries, links, edt, next, ending, holding);
    let at = place_or_end(unsaid, entries.len());
    Ok(Verdict { at, told })
}

fn place_or_end(place: Option<usize>, end: usize) -> usize
    ensures some { IfSome place (λ at. result ≡ at) }
    ensures none { IfNone place (result ≡ end) }
{
    match place {
        Some(at) => at,
        None => end,
    }
}

/// What a body says that ended like this.
fn told_of(alloc: Global, ending: &Ending, holding: &Holding) -> Result<Told, NoMemory>
    ensures { IfOk result (λ told. IsToldAs (ended_as ending.now holding.now) told) }
{
    match ending {
        Ending::Ended(_) => Ok(Told::Ended(holding.counts(alloc)?)),
        Ending::Stopped(stop) => Ok(Told::Stopped(*stop)),
    }
}

/// The verdict on an EDT that has just started: its core is as it is then, the payloads are those
/// that its body gets, and its first entry from `start` on stands at `next`.
pub fn verdict_on(
    alloc: Global,
    program: &Checked,
    core: &Core,
    deps: &[Guid],
    entries: &[Entry],
    links: &Links,
    edt: Guid,
    start: usize,
    next: usize,
) -> Result<Verdict, NoMemory>
    requires following { IsFollowing edt entries.now links.now start next }
    requires fresh { own (history_of (take start entries.now)) edt ≡ [] }
    requires fit { IsFitCore core.now }
    ensures { IfOk result (λ v. IsVerdict (case_body (checked_tree program.now) core.now deps.now)
        edt entries.now start v.at v.told) }
{
    let holding = begun(alloc, core)?;
    let function = core.function;
    if function == 0 || function as usize > program.count() {
        let ending = Ending::Ended(Guid::NULL);
        return conclude(alloc, entries, links, edt, next, &ending, &holding);
    }
    let mut judge = Judge {
        alloc,
        program,
        core,
        deps,
        entries,
        links,
        edt,
        start,
        place: start,
        next,
        holding,
        refusals: 0,
        told: Told::Stopped(BodyStop::NoMemory),
    };
    let params = core.params.as_slice();
    let ending = walk(alloc, program, function, params, deps, FUEL, &mut judge);
    let Judge {
        alloc: _,
        program: _,
        core: _,
        deps: _,
        entries: _,
        links: _,
        edt: _,
        start: _,
        place: _,
        next,
        holding,
        refusals,
        told,
    } = judge;
    match ending {
        Ok(returned) => {
            let ending = Ending::Ended(returned);
            conclude(alloc, entries, links, edt, next, &ending, &holding)
        }
        Err(stop) => match stop {
            BodyStop::NoMemory => Err(NoMemory),
            _ => {
                if refusals == 0 {
                    let ending = Ending::Stopped(stop);
                    return conclude(alloc, entries, links, edt, next, &ending, &holding);
                }
                Ok(Verdict { at: next, told })
            }
        },
    }
}
