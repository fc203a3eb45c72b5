//! Calls of workers with their answers: as lines of a log, and read from one.
#![tactic(auto)]

mod answers;
mod call;
mod commands;
mod names;
mod reading;
mod text;

pub use call::Call;
pub use names::Names;
pub use reading::{LogFault, read_log};
pub use text::{AnswerText, CallText, EventText};
