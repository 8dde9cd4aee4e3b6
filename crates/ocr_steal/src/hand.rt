// What a worker has of a pool: its own deque, and what it needs to steal from the others.
ghost use Rattle.ocr_steal.specs.Parts.{OwnsItsDeque, ArePasses, IsCounted};

use crate::account::{Known, Own};
use ocr_guid::Guid;

/// What a steal answers.
#[derive(Clone, Copy, PartialEq, Eq, Debug)]
pub enum Steal {
    /// This EDT was the first in the victim's deque, and left it.
    Got(Guid),
    /// Nothing was taken: the rule of the victim's deque has a state in which it is empty.
    Empty,
    /// Nothing was taken: another hand took an EDT first, or as for `Empty`.
    Again,
}

/// One worker's hand. It has a deque, first-in first-out, to which it alone pushes.
#[derive(Drop)]
pub struct Hand {
    pub(crate) number: u32,
    pub(crate) own: Own,
    // A pass for each hand's deque, by number. That for its own deque is never used.
    pub(crate) passes: Vec<Known>,
    // For each hand, the steals that got nothing since this hand last got an EDT.
    pub(crate) misses: Vec<u64>,
    // Whether one of them is not 0.
    pub(crate) has_missed: bool,
    ghost owns: { OwnsItsDeque number own passes.items },
    ghost passes_are: { ArePasses passes.items },
    ghost counted: { IsCounted passes.items misses.items has_missed },
}
