//! A worker's clerk at the table of turns, under the OCR machine: taking parts and giving them
//! back, entering an entry, and ending the run.
#![tactic(auto)]

mod entry;
mod entry_at_hand;
mod gate;
mod give;
mod idle;
mod job;
mod lift;
mod number;
mod ocr;
mod over;
mod payment;
mod preparation;
mod readiness;
mod ready;
mod stop;
mod take;

pub use entry::enter_at_work;
pub use entry_at_hand::enter_at_hand;
pub use gate::{Gate, NoGate};
pub use give::{give_all, give_faces};
pub use idle::read_idle;
pub use job::Job;
pub use lift::{enter_kept, lift_parts};
pub use number::draw_number;
pub use ocr::Ocr;
pub use ocr_machine::opening;
pub use over::Over;
pub use readiness::{put_ready, put_started};
pub use ready::push_ready;
pub use stop::{close, close_heavy, close_memory};
pub use take::{take_part, take_parts};
