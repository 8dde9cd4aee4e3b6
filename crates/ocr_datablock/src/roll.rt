// A row that is made when the first one comes.
ghost use Rattle.std.specs.Prelude.{◌≡◌, ◌≤◌, ◌<◌, ◌^◌, ℕ, List, [], ◌∷◌, ◌++◌, None, IfOk, OnErr, length, drop};
ghost use Rattle.ocr_acquire.specs.declared.Mode.{Mode as ModeOf};
ghost use Rattle.ocr_acquire.specs.Mode.{mode_in};
ghost use Rattle.ocr_datablock.specs.Block.{is_empty, names, without, front_that_fits};
ghost use Rattle.ocr_datablock.specs.Tally.{IsTally, IsBounded};

use crate::row::Row;
use crate::tally::Tally;
use ocr_acquire::Mode;
use ocr_base::NoMemory;
use ocr_guid::Guid;
use std::alloc::Global;
use std::marker::Model;

/// A row that takes no memory until the first one comes.
#[derive(Drop)]
pub struct Roll {
    row: Option<Box<Row>>,
}

impl Model for Roll {
    ghost use Rattle.std.specs.Prelude.{ℕ, List, []};
    ghost use Rattle.std.specs.Option.{option_map_or};
    ghost use Rattle.ocr_acquire.specs.declared.Mode.{Mode};

    ghost Value = { List (ℕ × Mode) };

    ghost view = { λ roll. option_map_or (λ row. row.value) roll.row [] };
}

impl Roll {
    /// Nobody.
    pub fn new() -> Roll
        ensures { result ≡ [] }
    {
        Roll { row: None }
    }

    /// Whether nobody is there.
    pub fn is_empty(&self) -> bool
        ensures { result ≡ is_empty self.now }
    {
        match &self.row {
            Some(row) => row.is_empty(),
            None => true,
        }
    }

    /// The mode of an EDT; None where it is not there.
    pub fn mode_of(&self, edt: Guid) -> Option<Mode>
        ensures { result ≡ mode_in edt self.now }
    {
        match &self.row {
            Some(row) => row.mode_of(edt),
            None => None,
        }
    }

    /// How many each mode does not go with.
    pub fn tally(&self) -> Tally
        ensures tells { IsTally result self.now }
        ensures bounded { IsBounded result }
        ensures all { result.all < 2 ^ 63 }
    {
        match &self.row {
            Some(row) => row.tally(),
            None => Tally::new(),
        }
    }

    /// How many but for one each mode does not go with.
    pub fn tally_without(&self, edt: Guid) -> Tally
        ensures tells { IsTally result (without edt self.now) }
        ensures bounded { IsBounded result }
        ensures all { result.all < 2 ^ 63 }
    {
        match &self.row {
            Some(row) => row.tally_without(edt),
            None => Tally::new(),
        }
    }

    /// Adds one who is not there. After an error all are as before.
    pub fn push(&mut self, alloc: Global, edt: Guid, mode: Mode) -> Result<(), NoMemory>
        requires { mode_in edt self.old ≡ None }
        ensures state { IfOk result (λ _. self.new ≡ self.old ++ (edt, mode) ∷ []) }
        ensures err { OnErr result (self.new ≡ self.old) }
    {
        if let Some(row) = &mut self.row {
            return row.push(edt, mode);
        }
        let mut row = Row::new(alloc)?;
        row.push(edt, mode)?;
        self.row = Some(Box::new(alloc, row)?);
        Ok(())
    }

    /// Takes one out, if it is there.
    pub fn remove(&mut self, edt: Guid)
        ensures { self.new ≡ without edt self.old }
    {
        if let Some(row) = &mut self.row {
            row.remove(edt);
        }
    }

    /// Takes out as many as this of those who came first.
    pub fn drop_first(&mut self, count: usize)
        ensures { self.new ≡ drop count self.old }
    {
        if let Some(row) = &mut self.row {
            row.drop_first(count);
        }
    }

    /// All names.
    pub fn names(&self, alloc: Global) -> Result<Vec<Guid>, NoMemory>
        ensures { IfOk result (λ all. all.items ≡ names self.now) }
    {
        match &self.row {
            Some(row) => row.names(alloc),
            None => Ok(Vec::new(alloc)),
        }
    }

    /// The longest front that fits step by step beside the holders whose tally this is.
    pub fn front(&self, alloc: Global, held: Tally) -> Result<Vec<(Guid, Mode)>, NoMemory>
        requires bounded { IsBounded held }
        requires room { held.all ≤ 2 ^ 63 }
        ensures { IfOk result (λ front. (holders : List (ℕ × ModeOf)) → IsTally held holders
            → front.items ≡ front_that_fits holders self.now) }
    {
        match &self.row {
            Some(row) => row.front(alloc, held),
            None => Ok(Vec::new(alloc)),
        }
    }
}
