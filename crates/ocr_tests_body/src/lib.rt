//! Tests of loads and stores: an Api over one hold, in each mode, at each edge; and of calls by
//! themselves.
#![tactic(auto)]

mod hold;

pub use hold::{Access, Hold, OneHold, load_lent, raised, store_lent};

#[cfg(test)]
mod calls;
#[cfg(test)]
mod tests;
