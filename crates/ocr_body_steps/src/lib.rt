//! The steps of a body: variables, operators and expressions without calls, and those that make one
//! call each, with the trait that answers calls.
#![tactic(auto)]

mod api;
mod arguments;
mod calls;
mod given;
mod local;
mod operators;
pub mod plain;
mod steps;

pub use api::Api;
pub use arguments::plain_all;
pub use calls::make;
pub use given::Given;
pub use local::{Flow, Frame, Halt, Local, pay, read, stopped};
pub use operators::{apply, operate};
pub use steps::{assign, load, print, store};
