// The messages of a journal's entries, and which of them were not delivered yet.
ghost use Rattle.std.specs.Prelude.{◌≡◌, ◌≢◌, ◌++◌, ◌∷◌, ℕ, [], ◌<◌, length, map, slice_set, slice_index_or, true, Some, None, IfOk, IfSome, IfNone};
ghost use Rattle.std.specs.List.{Contains};
ghost use Rattle.ocr_machine_history.specs.declared.entry.What as what;
ghost use Rattle.ocr_replay_body.specs.Mail.{left_from, message_at, delivered_at, sent_row};
ghost use Rattle.ocr_replay_body.specs.Tests.{Whether};

use ocr_base::NoMemory;
use ocr_machine_history::{Message, What};
use std::alloc::Global;
use std::marker::Model;

/// The messages of one entry by their indices, but for those that were delivered.
#[derive(Drop)]
struct Row {
    messages: Vec<Option<What>>,
}

impl Model for Row {
    ghost use Rattle.std.specs.Prelude.{List, Option};
    ghost use Rattle.ocr_machine_history.specs.declared.entry.What.{What};

    ghost Value = { List (Option What) };

    ghost view = { λ r. r.messages.items };
}

impl Row {
    fn sent(alloc: Global, messages: &[What]) -> Result<Row, NoMemory>
        ensures { IfOk result (λ r. r ≡ sent_row messages.now) }
    {
        Ok(Row {
            messages: somes(alloc, messages)?,
        })
    }

    fn at(&self, index: u32) -> Option<What>
        ensures { result ≡ slice_index_or self.now index None }
    {
        if index as usize >= self.messages.len() {
            return None;
        }
        self.messages[index as usize]
    }

    fn drop_at(&mut self, index: u32)
        requires { slice_index_or self.old index None ≢ None }
        ensures { self.new ≡ slice_set self.old index None }
    {
        if (index as usize) < self.messages.len() {
            self.messages[index as usize] = None;
        }
    }
}

fn somes(alloc: Global, messages: &[What]) -> Result<Vec<Option<What>>, NoMemory>
    ensures { IfOk result (λ v. v.items ≡ sent_row messages.now) }
{
    let mut somes = Vec::new(alloc);
    for message in messages {
        somes.push(Some(*message))?;
    }
    Ok(somes)
}

/// The messages of a journal's entries by the entries' places, but for those that were delivered.
#[derive(Drop)]
pub struct Mail {
    rows: Vec<Row>,
}

impl Model for Mail {
    ghost use Rattle.std.specs.Prelude.{List, Option};
    ghost use Rattle.ocr_machine_history.specs.declared.entry.What.{What};

    ghost Value = { List (List (Option What)) };

    ghost view = { λ m. m.rows.items };
}

impl Mail {
    /// Nothing was sent.
    pub fn new(alloc: Global) -> Mail
        ensures { result ≡ [] }
    {
        Mail {
            rows: Vec::new(alloc),
        }
    }

    /// An entry more, with its messages.
    pub fn push(&mut self, alloc: Global, messages: &[What]) -> Result<(), NoMemory>
        ensures { IfOk result (λ _. self.new ≡ self.old ++ sent_row messages.now ∷ []) }
    {
        let row = Row::sent(alloc, messages)?;
        self.rows.push(row)?;
        Ok(())
    }

    /// How many entries there are.
    pub fn entries(&self) -> usize
        ensures { result ≡ length self.now }
    {
        self.rows.len()
    }

    /// The messages of the entry at this place by their indices, but for those that were delivered.
    pub fn row(&self, place: usize) -> &[Option<What>]
        requires { place < length self.now }
        ensures { result.now ≡ slice_index_or self.now place [] }
    {
        self.rows[place].messages.as_slice()
    }

    /// The message of this name; None where it was not sent, or was delivered.
    pub fn message(&self, place: u64, index: u32) -> Option<What>
        ensures { result ≡ message_at self.now place index }
    {
        if place >= self.rows.len() as u64 {
            return None;
        }
        self.rows[place as usize].at(index)
    }

    /// The message of this name is delivered.
    pub fn deliver(&mut self, place: u64, index: u32)
        requires { message_at self.old place index ≢ None }
        ensures { self.new ≡ delivered_at self.old place index }
    {
        if place < self.rows.len() as u64 {
            self.rows[place as usize].drop_at(index);
        }
    }

    /// Whether this message was sent and not delivered.
    pub fn has(&self, message: &Message) -> bool
        ensures { Whether result (Contains (left_from 0 self.now)
            (message.now.place, message.now.index, message.now.what)) }
    {
        match self.message(message.place, message.index) {
            Some(what) => is_same(what, message.what),
            None => false,
        }
    }
}

fn is_same(left: What, right: What) -> bool
    ensures { Whether result (left ≡ right) }
{
    left == right
}
