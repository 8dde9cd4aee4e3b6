//! Runs a task program by workers: from the words and the bytes in to the bytes out.
#![tactic(auto)]

mod top;

pub use ocr_run_command::{Options, Reports, Wanted, WordsStop, command, words_law};
pub use ocr_run_execution::{
    Gate, Merged, NoGate, TextFault, block_laws, entering_laws, event_laws, found_laws, going_laws,
    holding_laws, kept_laws, lasting_laws, load_laws, load_text, machine_laws, memory_laws,
    order_laws, output_laws, quiet_laws, rule_laws, run_laws, scope_laws, sent_laws, settled_laws,
    standing_laws, text_laws, working_laws,
};
pub use top::{Ended, ocr_main};
