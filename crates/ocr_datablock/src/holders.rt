// Who holds a block.
ghost use Rattle.std.specs.Prelude.{◌≡◌, ◌≤◌, ◌<◌, ◌^◌, ℕ, List, [], ◌∷◌, ◌++◌, None, Some, IfOk, OnErr, length, is_some, if◌then◌else◌, ◌==◌};
ghost use Rattle.ocr_acquire.specs.declared.Mode.{Mode as ModeOf};
ghost use Rattle.ocr_acquire.specs.declared.Mode.TheVariants.{Rw};
ghost use Rattle.ocr_acquire.specs.Mode.{fits_all, mode_in};
ghost use Rattle.ocr_datablock.specs.Block.{is_empty, names, without, first_holders};
ghost use Rattle.ocr_datablock.specs.Steps.{StandOnce};
ghost use Rattle.ocr_datablock.specs.Tally.{IsTally, IsBounded};

use crate::roll::Roll;
use crate::tally::Tally;
use ocr_acquire::{Mode, fits};
use ocr_base::NoMemory;
use ocr_guid::Guid;
use std::alloc::Global;
use std::marker::Model;

/// The EDTs that hold a block, in the order in which they were granted.
#[derive(Drop)]
pub struct Holders {
    // one who came before all others, so that a block with one holder takes no memory for it
    first: Option<(Guid, Mode)>,
    others: Roll,
}

impl Model for Holders {
    ghost use Rattle.std.specs.Prelude.{ℕ, List, [], ◌∷◌, ◌++◌};
    ghost use Rattle.std.specs.Option.{option_map_or};
    ghost use Rattle.ocr_acquire.specs.declared.Mode.{Mode};

    ghost Value = { List (ℕ × Mode) };

    ghost view = { λ holders. option_map_or (λ one. one ∷ holders.others) holders.first
        holders.others };
}

impl Holders {
    /// The creator of a block in `Rw`, or nobody where it is `Guid::NULL`.
    pub fn new(creator: Guid) -> Holders
        ensures { result ≡ first_holders creator }
    {
        let first = if creator == Guid::NULL {
            None
        } else {
            Some((creator, Mode::Rw))
        };
        Holders {
            first,
            others: Roll::new(),
        }
    }

    /// Whether nobody holds the block.
    pub fn is_empty(&self) -> bool
        ensures { result ≡ is_empty self.now }
    {
        self.first.is_none() && self.others.is_empty()
    }

    /// The mode in which an EDT holds the block; None where it does not.
    pub fn mode_of(&self, edt: Guid) -> Option<Mode>
        ensures { result ≡ mode_in edt self.now }
    {
        if let Some((holder, mode)) = self.first {
            if holder == edt {
                return Some(mode);
            }
        }
        self.others.mode_of(edt)
    }

    /// Whether a mode goes with that of every holder.
    pub fn fits(&self, mode: Mode) -> bool
        ensures { result ≡ fits_all mode self.now }
    {
        if let Some(one) = self.first {
            if !fits(mode, &[one]) {
                return false;
            }
        }
        self.others.tally().fits(mode)
    }

    /// How many of the holders but for one each mode does not go with.
    pub fn tally_without(&self, edt: Guid) -> Tally
        ensures tells { IsTally result (without edt self.now) }
        ensures bounded { IsBounded result }
        ensures all { result.all ≤ 2 ^ 63 }
    {
        let others = self.others.tally_without(edt);
        match self.first {
            Some((holder, mode)) if holder != edt => others.plus(holder, mode),
            _ => others,
        }
    }

    /// Adds one who is no holder. After an error all are as before.
    pub fn push(&mut self, alloc: Global, edt: Guid, mode: Mode) -> Result<(), NoMemory>
        requires { mode_in edt self.old ≡ None }
        ensures state { IfOk result (λ _. self.new ≡ self.old ++ (edt, mode) ∷ []) }
        ensures err { OnErr result (self.new ≡ self.old) }
    {
        if self.is_empty() {
            self.first = Some((edt, mode));
            return Ok(());
        }
        self.others.push(alloc, edt, mode)
    }

    /// Ends the hold of one, if there is one.
    pub fn remove(&mut self, edt: Guid)
        requires { StandOnce self.old }
        ensures { self.new ≡ without edt self.old }
    {
        if let Some((holder, _)) = self.first {
            if holder == edt {
                self.first = None;
                return;
            }
        }
        self.others.remove(edt);
    }

    /// Adds these in their order. After an error all are as before.
    fn push_all(&mut self, alloc: Global, front: &[(Guid, Mode)]) -> Result<(), NoMemory>
        requires { StandOnce (self.old ++ front.now) }
        ensures state { IfOk result (λ _. self.new ≡ self.old ++ front.now) }
        ensures err { OnErr result (self.new ≡ self.old) }
    {
        for i in 0..front.len() {
            let (edt, mode) = front[i];
            if let Err(error) = self.push(alloc, edt, mode) {
                self.take_off(&front[..i]);
                return Err(error);
            }
        }
        Ok(())
    }

    /// Ends the hold of one, if there is one, and adds these in their order. After an error all are
    /// as before.
    pub fn replace(
        &mut self,
        alloc: Global,
        edt: Guid,
        front: &[(Guid, Mode)],
    ) -> Result<(), NoMemory>
        requires once { StandOnce (self.old ++ front.now) }
        requires apart { mode_in edt front.now ≡ None }
        ensures state { IfOk result (λ _. self.new ≡ without edt self.old ++ front.now) }
        ensures err { OnErr result (self.new ≡ self.old) }
    {
        // One who follows one alone takes its place, and no memory.
        if front.len() == 1 && self.tally_without(edt).is_empty() {
            self.others.remove(edt);
            self.first = Some(front[0]);
            return Ok(());
        }
        self.push_all(alloc, front)?;
        self.remove(edt);
        Ok(())
    }

    /// Ends the holds of the last, who are these.
    fn take_off(&mut self, last: &[(Guid, Mode)])
        requires { StandOnce self.old }
        ensures { (holders : List (ℕ × ModeOf)) → self.old ≡ holders ++ last.now
            → self.new ≡ holders }
    {
        for (edt, _) in last {
            self.remove(*edt);
        }
    }
}
