//! The heap of a worker: the segments that it holds, their places given out by a queue of pages for
//! each arena and size class.
#![tactic(auto)]

mod adopting;
mod allocating;
mod answers;
mod collecting;
mod freeing;
mod heap;
mod how_far;
pub mod laws;
mod lending;
mod many;
mod meeting;
mod parting;
mod reading;
mod refused;
mod releasing;
mod requeue;
mod taking;
mod writing;

pub use answers::{
    alloc_answer, denied_or_elsewhere, done_answer, look_answer, read_answer, refused_answer,
    unlisted,
};
pub use heap::Heap;
pub use how_far::HowFar;
pub use refused::Refused;
