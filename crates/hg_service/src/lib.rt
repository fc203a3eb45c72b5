//! A service of workers in threads of their caller: what they share stands behind locks, each of
//! which a call holds for as long as it moves one block, list or segment, and no other under it;
//! closing takes the others under the pool's.
#![tactic(auto)]

mod caller_locked;
mod closing_parts;
mod closing_service;
mod kept_list;
mod left;
mod opening;
mod service;
mod shared;
mod unclosed;
mod worker;

pub use caller_locked::CallerLocked;
pub use kept_list::KeptList;
pub use service::Service;
pub use unclosed::{Unclosed, UnclosedParts};
pub use worker::Worker;
