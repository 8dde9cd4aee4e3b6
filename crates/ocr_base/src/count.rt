// Counts, which stand still at their last value.
ghost use Rattle.std.specs.Prelude.{◌≡◌, ◌≤◌};
ghost use Rattle.ocr_base.specs.Count.{count_on, Rose, RoseBy};

use std::marker::Model;

/// A number that counts up from 0, and stands still at its last value, 2^64 - 1.
#[derive(Clone, Copy, PartialEq, Eq, Debug)]
pub struct Count(u64);

// Contracts see a count as its number.
impl Model for Count {
    ghost use Rattle.std.specs.Prelude.{ℕ};

    ghost Value = { ℕ };

    ghost view = { λ c. c.0 };

    ghost inverse = { λ n. record { 0 = n } };
}

impl Count {
    /// Nothing was counted yet.
    pub fn new() -> Count
        ensures { result ≡ 0 }
    {
        Count(0)
    }

    /// What was counted.
    pub fn number(self) -> u64
        ensures { result ≡ self }
    {
        self.0
    }

    /// Counts one more.
    pub fn raise(&mut self)
        ensures state { self.new ≡ count_on self.old 1 }
        ensures rose { Rose self.old self.new }
        ensures later { self.old ≤ self.new }
    {
        self.raise_by(1);
    }

    /// Counts `more`, as far as the last value.
    pub fn raise_by(&mut self, more: u64)
        ensures state { self.new ≡ count_on self.old more }
        ensures rose { RoseBy self.old self.new more }
        ensures later { self.old ≤ self.new }
    {
        self.0 = self.0.saturating_add(more);
    }
}
