//! Closing a service: room that is asked for before anything is given up, into which its remote
//! lists and its segments come, and the core that an audit makes of what has come.
#![tactic(auto)]

mod fault;
mod filling;
mod opening;
mod room;

pub use fault::CloseFault;
pub use room::CloseRoom;
