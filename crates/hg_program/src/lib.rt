//! What the program `heapguard` does, over any files, input and outputs.
#![tactic(auto)]

mod context;
mod entry;
mod files;
mod host;
mod joined;
pub mod laws;
mod refusal;
mod showing;
mod why;

pub use entry::{program, start};
pub use host::Host;
pub use why::{Unwritten, Why};
