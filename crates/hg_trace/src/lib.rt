//! Traces: what their bytes mean.
#![tactic(auto)]

mod blocks;
mod commands;
mod fault;
mod faulty;
mod handles;
mod joined;
mod labels;
pub mod laws;
mod line;
mod lines;
mod name;
mod numbering;
mod numbers;
mod operands;
mod read;
mod spans;
mod stored;
mod trace;
mod wanted;
mod words;

pub use fault::{LineFault, TraceFault};
pub use faulty::{FaultyWord, faulty_word};
pub use joined::split_joined;
pub use line::{BlockName, Command, Line};
pub use name::Name;
pub use read::read_trace;
pub use stored::{StoredBlock, StoredCommand, StoredLine};
pub use trace::Trace;
pub use wanted::Wanted;
