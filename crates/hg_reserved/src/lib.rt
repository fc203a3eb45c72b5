//! Rows of values whose memory is reserved when they are made, and touched when it is first
//! written.
#![tactic(auto)]

mod blank;
mod reserved;

pub use blank::Blank;
pub use reserved::Reserved;
