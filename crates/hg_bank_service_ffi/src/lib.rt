//! What a host in C, C++ or Rust keeps of a bank of services and of its workers, 16 bytes of its own each,
//! and what a call of it does there. The exports are hg_c's.
#![tactic(auto)]

pub mod bank_part_opening;
pub mod bank_part_serving;
pub mod host_bank_part;
pub mod laws;
