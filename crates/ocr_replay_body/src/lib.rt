//! What a journal tells of the body of one EDT, and of messages.
#![tactic(auto)]

mod holds;
mod judge;
mod links;
mod mail;

pub use judge::{Told, Verdict, verdict_on};
pub use links::{Links, link};
pub use mail::Mail;
