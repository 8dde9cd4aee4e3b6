// The end: the logs of all clerks.
ghost use Rattle.std.specs.Prelude.{◌≡◌, ◌<◌, ◌≤◌, ◌+◌, ◌^◌, map, length, IfOk};
ghost use Rattle.std.specs.Slots.{IsFull};
ghost use Rattle.ocr_turns_rule.specs.Sums.{weigh_all};
ghost use Rattle.ocr_turns_rule.specs.Contract.{Finished, IsOfTable};

use crate::clerk::Clerk;
use crate::log::Log;
use crate::turns::Turns;
use atomic_table::Closed;
use ocr_base::NoMemory;
use ocr_turns_rule::Machine;
use std::alloc::Global;
use std::marker::Model;

/// The logs of a table whose clerks have all come home: by number they are one run of the machine.
#[derive(Drop)]
pub struct Closing<M: Machine> {
    logs: Vec<Log<M::Entry>>,
    entries: u64,
    remains: Remains<M::Part>,
}

/// What is left of a table that is closed: its memory, and the parts in its slots. To drop it frees
/// them, one by one.
pub struct Remains<P: Drop> {
    closed: Closed<Option<P>, Global>,
    // So each slot may be emptied.
    ghost full: { IsFull closed.slots },
}

impl<P: Drop> Drop for Remains<P> {
    fn drop(self) {
        let Remains { closed } = self;
        free_slots(closed);
    }
}

impl<M: Machine> Model for Closing<M> {
    ghost use Rattle.std.specs.Prelude.{List, ℕ, map};

    ghost Value = { List (List (ℕ × M.Entry)) × ℕ };

    ghost view = { λ c. (map (λ l. l.items) c.logs.items, c.entries) };
}

impl<M: Machine> Closing<M> {
    /// The logs, the root's first and then those of the clerks in the order in which they were
    /// joined; and what is left of the table.
    pub fn into_parts(self) -> (Vec<Log<M::Entry>>, Remains<M::Part>)
        ensures { map (λ l. l.items) result.0.items ≡ self.0 }
    {
        (self.logs, self.remains)
    }

    /// How many entries the run has.
    pub fn entries(&self) -> u64
        ensures { result ≡ self.now.1 }
    {
        self.entries
    }
}

impl<M: Machine> Turns<M> {
    /// All logs, once every other clerk has come home.
    pub fn finish(self, _alloc: Global, root: Clerk<M>) -> Result<Closing<M>, NoMemory>
        requires table { IsOfTable self root }
        requires root { (root.view.root ≡ 1) × (root.view.out ≡ 0) }
        ensures { IfOk result (λ c. (f : Finished M.meaning self.1 root.view c.0)
            × (c.1 ≡ length f.history)) }
    {
        let Turns {
            table,
            limit: _,
            share: _,
        } = self;
        let Clerk {
            seat,
            log,
            joined: mut logs,
            parts: _,
            emptied: _,
            owed: _,
            weight: _,
            units: _,
            closed: _,
            full: _,
        } = root;
        logs.insert(0, log)?;
        let closed = table.close_with(seat);
        let entries = count_entries(logs.as_slice());
        Ok(Closing {
            logs,
            entries,
            remains: Remains { closed },
        })
    }
}

// How many entries the logs have in all.
fn count_entries<E>(logs: &[Log<E>]) -> u64
    requires { weigh_all (λ _. 1) (map (λ l. l.items) logs.now) < 2 ^ 48 }
    ensures { result ≡ weigh_all (λ _. 1) (map (λ l. l.items) logs.now) }
{
    let mut count = 0;
    for i in 0..logs.len() {
        count += logs[i].len() as u64;
    }
    count
}

// Drops the parts in their slots, and frees the table's memory.
fn free_slots<P: Drop>(mut closed: Closed<Option<P>, Global>)
    requires { IsFull closed.slots }
{
    let mut i = closed.slot_count();
    while i > 0 {
        i -= 1;
        drop(closed.take(i));
    }
    closed.free();
}
