//! A shared table of turns: each part of a machine's state stands at a place with a turn, and all
//! entries that clerks make, in however many threads, are one history.
#![tactic(auto)]

mod clerk;
mod closing;
mod ending;
mod entry;
mod entry_at_hand;
mod give;
mod live;
mod log;
mod opening;
mod owed;
mod seats;
mod take;
mod turns;
mod words;

pub use clerk::Clerk;
pub use closing::{Closing, Remains};
pub use log::Log;
pub use ocr_turns_rule::{
    Change, Committed, Debts, Drawn, LiveStep, Machine, Taken, Terms, View, WordStep, sole_laws,
};
pub use owed::Owed;
pub use turns::Turns;
