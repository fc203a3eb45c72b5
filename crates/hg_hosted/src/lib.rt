//! A service whose parts have no name in their types, for a host that can't keep a type that names
//! one: hosts in other languages, and many services in one list. Each of its workers is for one
//! thread; what they share stands parked between calls, where a call takes it and puts it back. No
//! call waits for another.
#![tactic(auto)]

mod charging;
mod closing;
mod leaving;
mod of_service;
mod opening;
mod parked;
mod parts;
mod service;
mod serving;
mod shared;
mod sharing;
mod stepping;
mod worker;

pub use closing::HostedUnclosed;
pub use leaving::Departed;
pub use service::HostedService;
pub use worker::HostedWorker;
