//! The text of a journal.
#![tactic(auto)]

mod calls;
mod entries;
mod text;
mod words;

pub use text::{entry_text, journal_text};
pub use words::phrase;
