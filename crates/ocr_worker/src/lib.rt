//! Workers: each delivers what its clerk owes, takes ready EDTs from its deque, steals from those
//! of the others, and advances each EDT as far as it goes, until nothing can come any more. A
//! worker that is alone can drain the run as well.
#![tactic(auto)]

mod closed_word;
mod debts;
mod drained;
mod leave;
mod pause;
mod progress;
mod rounds;
mod steal;

pub use drained::{Drained, drain};
pub use leave::{Leave, Worked};
pub use progress::{Advanced, advance, advance_found};
pub use rounds::work;
