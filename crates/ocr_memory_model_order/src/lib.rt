//! Happens before: which entries of a run come before which, what a race is, and the laws of both.
#![tactic(auto)]

mod laws;

pub use laws::order_laws;
