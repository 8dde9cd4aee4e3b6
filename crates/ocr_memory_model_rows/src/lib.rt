//! The order of places that is built place by place: a row of bits a place, with the places that
//! come before it.
#![tactic(auto)]

mod bundles;
mod laws;
mod row;
mod rows;

pub use bundles::Bundles;
pub use laws::reach_laws;
pub use row::Row;
pub use rows::Rows;
