//! A bank of services: many services under one policy, for workers in threads. A bank worker has a
//! worker of each service and calls it; a tenant's limit counts over all of them.
#![tactic(auto)]

mod allocating;
mod asking;
mod calling;
mod closing;
pub mod laws;
mod leaving;
mod listing;
mod naming;
mod opening;
mod order;
mod refilling;
mod service;
mod sums;
mod unleft;
mod worker;

pub use closing::{BankUnclosed, LostCore};
pub use service::BankService;
pub use unleft::{Leaving, Unleft};
pub use worker::BankWorker;
