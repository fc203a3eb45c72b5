//! A bank: many cores under one policy, as one service. Each call is a step of the bank's written
//! machine, and the bank stays sound.
#![tactic(auto)]

mod allocating;
mod at_once;
mod bank;
pub mod laws;
mod naming;
mod opening;
mod parts;
mod refilling;
mod sums;

pub use bank::{Bank, BankHandle, BankSegment, MAX_CORES};
pub use parts::BankParts;
