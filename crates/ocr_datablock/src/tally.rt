// How many of the holders of a block each mode does not go with.
ghost use Rattle.std.specs.Prelude.{◌≡◌, ◌<◌, ◌+◌, ◌^◌, ℕ, List, [], ◌∷◌, ◌++◌, ◌==◌, Some};
ghost use Rattle.ocr_acquire.specs.declared.Mode.{Mode as ModeOf};
ghost use Rattle.ocr_acquire.specs.Mode.{fits_all, mode_in};
ghost use Rattle.ocr_datablock.specs.Block.{without};
ghost use Rattle.ocr_datablock.specs.Steps.{StandOnce};
ghost use Rattle.ocr_datablock.specs.Tally.{clash, IsTally, IsBounded, CountsOne};

use ocr_acquire::{Mode, fits};
use ocr_guid::Guid;

/// For each mode that EDTs share a block in, how many do not go with it, and how many there are.
#[derive(Clone, Copy)]
pub struct Tally {
    ro: usize,
    constant: usize,
    rw: usize,
    // none goes with `Ew`, nor with `Null`
    all: usize,
}

impl Tally {
    /// Of nobody.
    pub fn new() -> Tally
        ensures tells { IsTally result [] }
        ensures bounded { IsBounded result }
        ensures all { result.all ≡ 0 }
    {
        Tally {
            ro: 0,
            constant: 0,
            rw: 0,
            all: 0,
        }
    }

    /// Whether nobody is counted.
    pub fn is_empty(self) -> bool
        ensures { result ≡ (self.all == 0) }
    {
        self.all == 0
    }

    /// Whether a mode goes with that of everybody who is counted.
    pub fn fits(self, mode: Mode) -> bool
        ensures { (holders : List (ℕ × ModeOf)) → IsTally self holders
            → result ≡ fits_all mode holders }
    {
        match mode {
            Mode::Ro => self.ro == 0,
            Mode::Const => self.constant == 0,
            Mode::Rw => self.rw == 0,
            Mode::Ew => self.all == 0,
            Mode::Null => self.all == 0,
        }
    }

    /// With one more.
    pub fn plus(self, edt: Guid, mode: Mode) -> Tally
        requires bounded { IsBounded self }
        requires room { self.all + 1 < 2 ^ 64 }
        ensures first { (holders : List (ℕ × ModeOf)) → IsTally self holders
            → IsTally result ((edt, mode) ∷ holders) }
        ensures last { (holders : List (ℕ × ModeOf)) → IsTally self holders
            → IsTally result (holders ++ (edt, mode) ∷ []) }
        ensures bounded { IsBounded result }
        ensures all { result.all ≡ self.all + 1 }
    {
        Tally {
            ro: self.ro + clashes(Mode::Ro, edt, mode),
            constant: self.constant + clashes(Mode::Const, edt, mode),
            rw: self.rw + clashes(Mode::Rw, edt, mode),
            all: self.all + 1,
        }
    }

    /// Without one of those who are counted.
    pub fn minus(self, edt: Guid, mode: Mode) -> Tally
        requires { CountsOne self mode }
        ensures tells { (holders : List (ℕ × ModeOf)) → IsTally self holders
            → StandOnce holders → mode_in edt holders ≡ Some mode
            → IsTally result (without edt holders) }
        ensures all { result.all + 1 ≡ self.all }
    {
        Tally {
            ro: self.ro - clashes(Mode::Ro, edt, mode),
            constant: self.constant - clashes(Mode::Const, edt, mode),
            rw: self.rw - clashes(Mode::Rw, edt, mode),
            all: self.all - 1,
        }
    }
}

/// 1 where an EDT may not hold a block in the one mode beside one who holds it in the other.
fn clashes(one: Mode, edt: Guid, other: Mode) -> usize
    ensures { result ≡ clash one other }
{
    usize::from(!fits(one, &[(edt, other)]))
}
