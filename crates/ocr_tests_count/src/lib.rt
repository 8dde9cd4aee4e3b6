//! Tests of the words that count, over a toy machine.
#![tactic(auto)]

mod life;
mod play;
mod solo;
mod toy;

pub use life::{FIRST, destroy, open_solo, run_whole, stop, take_on};
pub use play::{
    EDT, Setter, claim_and_read, fill, make, open, race, rest, set, set_all, wait, wake,
};
pub use solo::{Act, CORE, Solo, state_after};
pub use toy::{Entry, FILLED, OPEN, SLOTS, Toy, UNMADE, WAITING, WAITS};

#[cfg(test)]
mod live_tests;
#[cfg(test)]
mod tests;
