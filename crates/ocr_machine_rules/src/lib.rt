//! The rules of a run, told by its entries alone: what each object is, which entry may come after a
//! history, what a run is, and when it is quiet. The machine's parts are tied to them by laws.
#![tactic(auto)]

mod laws;

pub use laws::rule_laws;
