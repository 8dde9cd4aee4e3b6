// What is known of a deque, and the rule that every step on it keeps.
ghost use Rattle.std.specs.Prelude.{◌≡◌, []};

use crossbeam_deque::protocol::{Join, Lesson, Outcome, Protocol, Split};
use crossbeam_deque::{Pass, Stealer, Worker};
use ocr_guid::Guid;
use std::alloc::Global;
use std::collections::LinkedList;

/// What one pass of a deque knows. It exists in proofs alone: no value of it is made.
pub struct Account {
    /// Its parts of the right to know all that happened. All passes together have 2^32 of them.
    pub parts: u64,
    /// What was pushed by it, in order. The deque's owner alone pushes.
    pub pushed: LinkedList<Guid>,
    /// What was taken by it, in order, each with its place among all that was pushed.
    pub taken: LinkedList<(u64, Guid)>,
}

/// The rule of a deque.
pub struct Deque;

impl Protocol<Guid, Account> for Deque {
    ghost use Rattle.ocr_steal.specs.Deque.{all_parts, newcomer, IsDequeState};

    ghost holds = { IsDequeState };

    ghost first = { newcomer all_parts };

    ghost guest = { newcomer 0 };
}

/// A part is cut off for a new pass.
pub struct OnePart;

impl Split<Account> for OnePart {
    ghost use Rattle.std.specs.Prelude.{◌-◌};
    ghost use Rattle.ocr_steal.specs.Deque.{newcomer};

    ghost left = { λ v. record v { parts = v.parts - 1 } };

    ghost right = { λ _. newcomer 1 };
}

/// What another pass took, and its parts, come to the owner.
pub struct Together;

impl Join<Account> for Together {
    ghost use Rattle.ocr_steal.specs.Deque.{joined, newcomer};

    ghost both = { joined };

    ghost spent = { newcomer 0 };
}

/// The owner pushes.
pub struct Pushes;

impl Outcome<Guid, Account> for Pushes {
    ghost use Rattle.std.specs.Prelude.{◌++◌};

    ghost then = { λ v xs w. w ≡ record v { pushed = v.pushed ++ xs } };
}

/// The owner takes.
pub struct Takes;

impl Outcome<Guid, Account> for Takes {
    ghost use Rattle.ocr_steal.specs.Deque.{TakesFirst, IsFound};

    ghost then = { TakesFirst 0 };

    ghost empty = { IsFound 0 [] };
}

/// Another hand steals.
pub struct Steals;

impl Outcome<Guid, Account> for Steals {
    ghost use Rattle.std.specs.Prelude.{ℕ};
    ghost use Rattle.ocr_steal.specs.Deque.{TakesFirst, IsFound};

    ghost then = { λ v xs w. (port : ℕ) × TakesFirst port v xs w };

    ghost empty = { λ v. (port : ℕ) × IsFound port [] v };
}

/// The owner looks at the deque, and learns nothing for sure.
pub struct Looks;

impl Lesson<Guid, Account> for Looks {
    ghost fact = { λ _ _. Unit {0} };
}

/// A deque, for its owner.
pub type Own = Worker<Guid, Global, Account, Deque>;

/// A deque, for the other hands.
pub type Theirs = Stealer<Guid, Global, Account, Deque>;

/// What a hand has of another's deque.
pub type Known = Pass<Guid, Account, Global>;
