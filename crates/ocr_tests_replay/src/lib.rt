//! Journals with output events and scopes that are written out by hand, and what replay says of
//! them, as they are and changed; what a run shows after the first entries of one.
#![tactic(auto)]

#[cfg(test)]
mod outputs;
#[cfg(test)]
mod scopes;
#[cfg(test)]
mod snapshots;
