//! The code of task programs: their trees with each variable by its place, ready to be walked.
#![tactic(auto)]

mod checked;
mod code;
mod numbers;
mod places;
mod resolver;

pub use checked::Checked;
pub use code::{ArgCode, CallCode, ExprCode, FunctionCode, Named, StmtCode};
