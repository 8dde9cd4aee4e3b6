//! Runs the program that a text is: from its bytes to the journal, what is printed, the status and
//! the line; or tells the first thing that is wrong with them.
#![tactic(auto)]

mod ending;
mod executed;
mod lines;
mod output;
mod text;

pub use executed::{Executed, execute};
pub use lines::line_of_fault;
pub use ocr_machine_laws::{
    entering_laws, found_laws, going_laws, holding_laws, kept_laws, lasting_laws, memory_laws,
    output_laws, quiet_laws, scope_laws, sent_laws, standing_laws, working_laws,
};
pub use ocr_machine_parts::{block_laws, event_laws, machine_laws, run_laws, settled_laws};
pub use ocr_machine_rules::rule_laws;
pub use ocr_program_load::{load_laws, load_text};
pub use ocr_report::order_laws;
pub use ocr_run_crew::{Gate, Merged, NoGate};
pub use text::{TextFault, TextStop, canonical_of, text_laws};
