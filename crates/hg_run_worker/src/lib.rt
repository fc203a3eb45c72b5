//! A worker over a table that keeps one run of all calls: each call logs its event and its answer.
#![tactic(auto)]

mod abandoning;
mod allocating;
mod away;
mod beginning;
mod closing;
mod collecting;
mod deciding;
mod delivering;
mod ending;
mod freeing;
pub mod laws;
mod lending;
mod list;
mod pool;
mod reading;
mod refilling;
mod taking;
mod worker;

pub use closing::{NotEnded, end_service};
pub use ending::RunEnd;
pub use list::RunList;
pub use pool::RunPool;
pub use worker::RunWorker;
