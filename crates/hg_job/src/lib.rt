//! What the words of a command line ask the program `heapguard` to do: a command with its operands,
//! or the text that refuses them.
#![tactic(auto)]

mod command;
mod job;
pub mod laws;
mod matches;

pub use job::{Job, JobFault, Task, task_of};
