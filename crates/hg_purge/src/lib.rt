//! Runs whose workers and arenas are parted into sides: each side is answered as if the others did
//! nothing.
#![tactic(auto)]

pub mod laws;
