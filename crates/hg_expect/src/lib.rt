//! Answers that the lines of a trace state, beside those that a core gives.
#![tactic(auto)]

mod found;
mod judge;
mod run;
mod source;
mod words;

pub use run::{Tests, run_tests};
pub use source::Source;
