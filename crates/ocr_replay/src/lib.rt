//! The replay of a journal: how many of its entries, in order, are the entries of a run.
#![tactic(auto)]

mod mail_delivery;
mod mails;
mod replay_stop;
mod state;
mod stops;
mod verdict;

pub use replay_stop::{ReplayStop, replay};
