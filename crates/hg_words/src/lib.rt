//! The words of one segment, as many as a segment has.
#![tactic(auto)]

mod memory;

pub use memory::WordMemory;
