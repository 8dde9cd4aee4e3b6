// What is kept of the entries so far, for the row of the next one.
ghost use Rattle.std.specs.Prelude.{◌≡◌, ◌<◌, ◌^◌, vec_len, length, ◌∷◌, ◌++◌, [], ℕ, List, OnOk, IfOk, Option};
ghost use Rattle.ocr_machine_history.specs.History.{Setting, History, history_of};
ghost use Rattle.ocr_memory_model_rows.specs.Order.{IsNextRow};
ghost use Rattle.ocr_memory_model_order.specs.Causes.{last_of, causes, starting, ended_for, graph_of};
ghost use Rattle.ocr_acquire.specs.Mode.{is_isolated};
ghost use Rattle.ocr_memory_model.specs.Kept.{AreLast, AreStarting, AreSatisfactions};
ghost use Rattle.std.specs.List.{All};
ghost use Rattle.ocr_memory_model_order.specs.Makers.{satisfies, oldest, makers};
ghost use Rattle.ocr_memory_model.specs.SetOff.{set_off_on};
ghost use Rattle.ocr_memory_model_order.specs.Places.{places};

use crate::keys::{edt_of, ended_key, isolated_key, left_in, satisfied_in, starting_in};
use crate::links::{Links, links_of, matches, note_links};
use crate::lists::{Lists, append, list_of, put_last};
use crate::modes::next_mode;
use crate::sources::source_at;
use ocr_acquire::Mode;
use ocr_base::NoMemory;
use ocr_event_any::AnyEvent;
use ocr_machine_history::{Entry, Message};
use ocr_machine_parts::Part;
use ocr_machine_state::State;
use ocr_memory_model_rows::{Bundles, Row, Rows};
use std::alloc::Global;
use std::collections::BTreeMap;

fn note_last(last: &mut BTreeMap<u64, u64>, entry: &Entry, place: u64) -> Result<(), NoMemory>
    ensures { OnOk result ((past : History) → length past ≡ place → AreLast past last.old
        → AreLast (entry.now ∷ past) last.new) }
{
    let edt = edt_of(entry);
    if edt == 0 {
        return Ok(());
    }
    put_last(last, edt, place)?;
    Ok(())
}

fn note_starting(
    alloc: Global,
    starting: &mut Lists,
    entry: &Entry,
    place: u64,
) -> Result<(), NoMemory>
    ensures { OnOk result ((past : History) → length past ≡ place → AreStarting past starting.old
        → AreStarting (entry.now ∷ past) starting.new) }
{
    match starting_in(entry) {
        Some(edt) => append(alloc, starting, edt, place),
        None => Ok(()),
    }
}

fn note_satisfaction(
    alloc: Global,
    satisfactions: &mut Lists,
    entry: &Entry,
    place: u64,
) -> Result<(), NoMemory>
    ensures { OnOk result ((past : History) → length past ≡ place
        → AreSatisfactions past satisfactions.old
        → AreSatisfactions (entry.now ∷ past) satisfactions.new) }
{
    match satisfied_in(entry) {
        Some(event) => append(alloc, satisfactions, event, place),
        None => Ok(()),
    }
}

/// The rows of the entries so far, and the places that come before a later entry: of each EDT the
/// last one, and those before its Start; of each event its satisfactions and its links; and as rows
/// of each event and scope what satisfied it or left it, of each block the ends of holds, and those
/// of holds in EW or CONST.
#[derive(Drop)]
pub(crate) struct Past {
    rows: Rows,
    last: BTreeMap<u64, u64>,
    starting: Lists,
    satisfactions: Lists,
    links: Links,
    satisfied: Bundles,
    left: Bundles,
    ended: Bundles,
    isolated: Bundles,
}

impl Past {
    ghost use Rattle.ocr_memory_model.specs.Past.{IsPast, IsEndedIn, IsNext};
    ghost use Rattle.ocr_machine_state.specs.State.{IsStateOf, face_on};

    /// Before the first entry.
    pub(crate) fn new(alloc: Global) -> Self
        ensures { (s : Setting) → IsPast s [] result }
    {
        Past {
            rows: Rows::new(alloc),
            last: BTreeMap::new(alloc),
            starting: BTreeMap::new(alloc),
            satisfactions: BTreeMap::new(alloc),
            links: BTreeMap::new(alloc),
            satisfied: Bundles::new(alloc),
            left: Bundles::new(alloc),
            ended: Bundles::new(alloc),
            isolated: Bundles::new(alloc),
        }
    }

    /// The row of the next entry, where it is of this EDT and nothing else comes before it.
    fn own_row(&self, alloc: Global, edt: u64) -> Result<Row, NoMemory>
        requires few { vec_len self.now.rows.rows < 2 ^ 32 }
        requires kept { (s : Setting) × (past : History) × IsPast s past self.now }
        ensures { IfOk result (λ row. (s : Setting) (past : History) → IsPast s past self.now
            → IsNextRow (graph_of s past) (last_of past edt) row) }
    {
        let mut row = self.rows.next(alloc)?;
        match self.last.get(&edt) {
            Some(place) => {
                self.rows.join(&mut row, *place as usize)?;
                Ok(row)
            }
            None => Ok(row),
        }
    }

    /// The row of the next entry, where it starts the EDT.
    fn start_row(&self, alloc: Global, edt: u64) -> Result<Row, NoMemory>
        requires few { vec_len self.now.rows.rows < 2 ^ 32 }
        requires kept { (s : Setting) × (past : History) × IsPast s past self.now }
        ensures { IfOk result (λ row. (s : Setting) (past : History) → IsPast s past self.now
            → IsNextRow (graph_of s past) (last_of past edt ++ places (starting edt) past) row) }
    {
        let mut row = self.own_row(alloc, edt)?;
        self.rows.join_all(&mut row, list_of(&self.starting, edt))?;
        Ok(row)
    }

    /// The row of the next entry, where by it the EDT acquires the block in this mode.
    fn acquire_row(
        &self,
        alloc: Global,
        edt: u64,
        block: u64,
        mode: Option<Mode>,
    ) -> Result<Row, NoMemory>
        requires few { vec_len self.now.rows.rows < 2 ^ 32 }
        requires kept { (s : Setting) × (past : History) × IsPast s past self.now }
        ensures { IfOk result (λ row. (s : Setting) (past : History) → IsPast s past self.now
            → IsNextRow (graph_of s past) (last_of past edt ++ ended_for s past block mode) row) }
    {
        let mut row = self.own_row(alloc, edt)?;
        let Some(mode) = mode else {
            return Ok(row);
        };
        if mode.is_isolated() {
            self.ended.join(&mut row, block)?;
            return Ok(row);
        }
        self.isolated.join(&mut row, block)?;
        Ok(row)
    }

    /// The row of the next entry, where it delivers this message. The entries are those so far.
    fn deliver_row(
        &self,
        alloc: Global,
        table: &State,
        entries: &[Entry],
        message: &Message,
    ) -> Result<Row, NoMemory>
        requires few { vec_len self.now.rows.rows < 2 ^ 32 }
        requires kept { (s : Setting) × IsPast s (history_of entries.now) self.now }
        requires place { message.now.place < length entries.now }
        ensures { IfOk result (λ row. (s : Setting) → IsStateOf s (history_of entries.now) table.now
            → IsPast s (history_of entries.now) self.now
            → IsNextRow (graph_of s (history_of entries.now))
            (makers s (history_of entries.now) message.now) row) }
    {
        let source = source_at(entries, message);
        let satisfactions = list_of(&self.satisfactions, source);
        let found = matches(alloc, satisfactions, links_of(&self.links, source), message)?;
        let mut row = self.rows.next(alloc)?;
        self.join_source(&mut row, table, source, found.as_slice())?;
        self.rows.join(&mut row, message.place as usize)?;
        Ok(row)
    }

    /// Puts before the next entry what set off a message that this event or scope sent, and for a
    /// channel these places.
    fn join_source(
        &self,
        row: &mut Row,
        table: &State,
        source: u64,
        matches: &[u64],
    ) -> Result<(), NoMemory>
        requires kept { (s : Setting) × (past : History) × IsPast s past self.now }
        requires matched { All (λ c. c < vec_len self.now.rows.rows) matches.now }
        ensures { OnOk result ((s : Setting) (past : History) (causes : List ℕ)
            → IsPast s past self.now → IsNextRow (graph_of s past) causes row.old
            → IsNextRow (graph_of s past)
            (set_off_on past source matches.now (face_on table.now source) ++ causes) row.new) }
    {
        match table.face(source) {
            Some(face) => {
                self.join_set_off(row, source, face, matches)?;
                Ok(())
            }
            None => Ok(()),
        }
    }

    /// The same, where this is the face of the event or scope.
    fn join_set_off(
        &self,
        row: &mut Row,
        source: u64,
        face: &Part,
        matches: &[u64],
    ) -> Result<(), NoMemory>
        requires kept { (s : Setting) × (past : History) × IsPast s past self.now }
        requires matched { All (λ c. c < vec_len self.now.rows.rows) matches.now }
        ensures { OnOk result ((s : Setting) (past : History) (causes : List ℕ)
            → IsPast s past self.now → IsNextRow (graph_of s past) causes row.old
            → IsNextRow (graph_of s past)
            (set_off_on past source matches.now face.now ++ causes) row.new) }
    {
        match face {
            Part::Event(event) => match event.get() {
                AnyEvent::Plain(_) => {
                    self.join_first(row, source)?;
                    Ok(())
                }
                AnyEvent::Latch(_) => {
                    self.satisfied.join(row, source)?;
                    Ok(())
                }
                AnyEvent::Channel(_) => {
                    self.rows.join_all(row, matches)?;
                    Ok(())
                }
            },
            Part::Scope(_) => {
                self.left.join(row, source)?;
                Ok(())
            }
            Part::Vacant | Part::Edt(_) | Part::Block(_) => Ok(()),
            Part::Template(_) | Part::Core(_) => Ok(()),
        }
    }

    fn join_first(&self, row: &mut Row, event: u64) -> Result<(), NoMemory>
        requires kept { (s : Setting) × (past : History) × IsPast s past self.now }
        ensures { OnOk result ((s : Setting) (past : History) (causes : List ℕ)
            → IsPast s past self.now → IsNextRow (graph_of s past) causes row.old
            → IsNextRow (graph_of s past)
            (oldest (places (satisfies event) past) ++ causes) row.new) }
    {
        match list_of(&self.satisfactions, event).first() {
            Some(place) => {
                self.rows.join(row, *place as usize)?;
                Ok(())
            }
            None => Ok(()),
        }
    }

    /// The row of the next entry. The entries are those so far, and this is the table of them.
    pub(crate) fn next_row(
        &self,
        alloc: Global,
        table: &State,
        entries: &[Entry],
        entry: &Entry,
    ) -> Result<Row, NoMemory>
        requires few { vec_len self.now.rows.rows < 2 ^ 32 }
        requires next { (s : Setting)
            × IsNext s (history_of entries.now) entry.now table.now self.now }
        ensures { IfOk result (λ row. (s : Setting)
            → IsNext s (history_of entries.now) entry.now table.now self.now
            → IsNextRow (graph_of s (history_of entries.now))
            (causes s (history_of entries.now) entry.now) row) }
    {
        match entry {
            Entry::Deliver { message, .. } => self.deliver_row(alloc, table, entries, message),
            Entry::Start { edt } => self.start_row(alloc, edt.0),
            Entry::Acquire { edt, block } => {
                let mode = next_mode(alloc, table, *edt)?;
                self.acquire_row(alloc, edt.0, block.0, mode)
            }
            _ => self.own_row(alloc, edt_of(entry)),
        }
    }

    /// Notes the next entry, whose row this is, with the mode of the hold that it ends.
    pub(crate) fn note(
        &mut self,
        alloc: Global,
        entry: &Entry,
        mode: Option<Mode>,
        row: Row,
    ) -> Result<(), NoMemory>
        ensures { OnOk result ((s : Setting) (past : History) → IsPast s past self.old
            → IsNextRow (graph_of s past) (causes s past entry.now) row
            → IsEndedIn s past entry.now mode → IsPast s (entry.now ∷ past) self.new) }
    {
        let place = self.rows.len() as u64;
        self.satisfied.note(alloc, satisfied_in(entry), &row)?;
        self.left.note(alloc, left_in(entry), &row)?;
        self.ended.note(alloc, ended_key(entry, mode), &row)?;
        self.isolated.note(alloc, isolated_key(entry, mode), &row)?;
        note_last(&mut self.last, entry, place)?;
        note_starting(alloc, &mut self.starting, entry, place)?;
        note_satisfaction(alloc, &mut self.satisfactions, entry, place)?;
        note_links(alloc, &mut self.links, entry, place)?;
        self.rows.push(row)?;
        Ok(())
    }

    /// The rows of all entries.
    pub(crate) fn into_rows(self) -> Rows
        ensures { result ≡ self.rows }
    {
        self.rows
    }
}
