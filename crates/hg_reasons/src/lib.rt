//! Why the lines of a trace are answered as they are, in the policy's words.
#![tactic(auto)]

mod as_json;
mod as_text;
mod counts;
mod explain;
mod form;
mod past;
mod reason;
mod run;
mod wording;

pub use form::Form;
pub use run::run_explained;
