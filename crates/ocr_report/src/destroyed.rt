// The objects that are destroyed: by a call, or by firing.
ghost use Rattle.std.specs.Prelude.{◌≡◌, ◌||◌, ◌==◌, [], ◌∷◌, ℕ, OnOk, IfOk};
ghost use Rattle.std.specs.Ordering.{nat_cmp};
ghost use Rattle.std.specs.BTreeMap as map;
ghost use Rattle.std.specs.BTreeSet as set;
ghost use Rattle.ocr_machine_history.specs.History as history;
ghost use Rattle.ocr_machine_history.specs.History.{history_of};
ghost use Rattle.ocr_machine_rules.specs.Blocks as rules;
ghost use Rattle.ocr_report.specs.Destroyed as spec;
ghost use Rattle.ocr_report.specs.Ends as end;
ghost use Rattle.ocr_report.specs.Tallies as tally;

use crate::edts::add;
use crate::tallies::{Kinds, Tallies, is_fired, note_kind, note_satisfaction};
use ocr_base::NoMemory;
use ocr_body_meaning::{Answer, Call};
use ocr_guid::Code;
use ocr_machine_history::Entry;
use std::alloc::Global;
use std::collections::{BTreeMap, BTreeSet};

// The object that a call is to destroy.
fn victim_of(call: &Call) -> Option<u64>
    ensures { (g : ℕ) → spec.is_victim result g ≡ rules.destroys call.now g }
{
    match call {
        Call::DbDestroy { block } => Some(*block),
        Call::EventDestroy { event } => Some(*event),
        Call::TemplateDestroy { template } => Some(*template),
        _ => None,
    }
}

// The object that an entry destroys.
fn victim_in(entry: &Entry) -> Option<u64>
    ensures { (past : history.History) (g : ℕ) → (spec.is_victim result g
        || rules.was_destroyed past g) ≡ rules.was_destroyed (entry.now ∷ past) g }
{
    match entry {
        Entry::Call {
            call,
            answer: Answer {
                code: Code::Done,
                ..
            },
            ..
        } => victim_of(call),
        _ => None,
    }
}

// Adds what a call destroys.
fn destroy(victims: &mut BTreeSet<u64>, entry: &Entry) -> Result<(), NoMemory>
    ensures { OnOk result ((past : history.History) (g : ℕ)
        → set.contains nat_cmp victims.old g ≡ rules.was_destroyed past g
        → set.contains nat_cmp victims.new g ≡ rules.was_destroyed (entry.now ∷ past) g) }
{
    if let Some(victim) = victim_in(entry) {
        add(victims, victim)?;
    }
    Ok(())
}

/// What tells which objects are destroyed.
#[derive(Drop)]
pub struct Ends {
    victims: BTreeSet<u64>,
    kinds: Kinds,
    tallies: Tallies,
}

impl Ends {
    /// Before all entries.
    pub fn new(alloc: Global) -> Self
        ensures { end.AreEnds [] result }
    {
        Ends {
            victims: BTreeSet::new(alloc),
            kinds: BTreeMap::new(alloc),
            tallies: BTreeMap::new(alloc),
        }
    }

    /// Whether an object is destroyed.
    pub fn has(&self, number: u64) -> bool
        ensures { result ≡ end.is_ended self.now number }
    {
        self.victims.contains(&number) || is_fired(&self.kinds, &self.tallies, number)
    }

    /// After one entry more.
    pub fn note(&mut self, entry: &Entry) -> Result<(), NoMemory>
        requires countable { (g : ℕ) →
            tally.IsCountable (tally.tally_in (map.get nat_cmp self.old.tallies g)) }
        ensures { OnOk result ((past : history.History) →
            end.AreEnds past self.old → end.AreEnds (entry.now ∷ past) self.new) }
    {
        destroy(&mut self.victims, entry)?;
        note_kind(&mut self.kinds, entry)?;
        note_satisfaction(&mut self.tallies, entry)
    }
}
