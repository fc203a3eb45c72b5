//! What a host in C, C++ or Rust keeps of a core, of a bank and of a service, 16 bytes of its own each, and
//! what a call of it does there. The exports are hg_c's.
#![tactic(auto)]

pub mod asking;
pub mod at_once;
pub mod bank_at_once;
pub mod bank_bytes;
pub mod bank_opening;
pub mod bank_serving;
pub mod box_pointer;
pub mod bytes;
pub mod holding;
pub mod host_bank;
pub mod host_core;
pub mod host_part;
pub mod lent_bank;
pub mod lent_core;
pub mod naming;
pub mod opening;
pub mod part_bytes;
pub mod part_opening;
pub mod part_serving;
pub mod part_words;
pub mod serving;
