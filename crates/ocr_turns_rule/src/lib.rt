//! The rule of the table of turns: the machine that it is over, what a clerk knows of the history,
//! and what each kind of step tells.
#![tactic(auto)]

mod answers;
mod debts;
mod laws;
mod machine;
pub mod rule;
mod view;
mod words;

pub use answers::{Change, Committed, Drawn, Taken};
pub use debts::Debts;
pub use laws::sole_laws;
pub use machine::Machine;
pub use view::{Terms, View};
pub use words::{LiveStep, WordStep};
