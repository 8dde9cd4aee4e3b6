//! The program that `load` runs: its text, which is a program for every number of layers.
#![tactic(auto)]

mod text;

pub use text::{load_laws, load_text};
