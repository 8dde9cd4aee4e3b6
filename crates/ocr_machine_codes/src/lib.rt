//! What is asked of an entry before it is entered: the code of a call, the parts that it names, and
//! what it weighs.
#![tactic(auto)]

mod codes;
mod footprints;
mod lookup;

pub use codes::{code_at, decide, delivery_code, is_object};
pub use footprints::{Numbers, call_faces, footprint, weight};
pub use lookup::{Faces, find};
