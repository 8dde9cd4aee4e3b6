//! The reports on a run, told from its journal.
#![tactic(auto)]

mod after;
mod beside;
mod blocks;
mod destroyed;
mod edts;
mod headed;
mod laws;
mod left;
mod lists;
mod races;
mod refused;
mod slots;
mod stale;
mod started;
mod summary;
mod tallies;

pub use blocks::blocks_text;
pub use edts::left as left_edts;
pub use laws::races_text_laws;
pub use left::left_text;
pub use ocr_memory_model::order_laws;
pub use races::{push_races, races_text};
pub use refused::refused_text;
pub use stale::stale_text;
pub use summary::summary_text;
