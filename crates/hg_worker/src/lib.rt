//! Workers of one service, each with a heap, a seat and a hand of its own. No call here takes a
//! lock or waits.
#![tactic(auto)]

mod allocating;
mod caller_locked;
mod freeing;
mod kept_pool;
pub mod laws;
mod listing;
mod meeting;
mod name;
mod reading;
mod state;
mod worker;

pub use kept_pool::KeptPool;
pub use name::ServiceName;
pub use state::WorkerState;
pub use worker::Worker;
