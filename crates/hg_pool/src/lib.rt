//! The pool of the segments that nobody holds: orphans, oldest first, and fresh ones.
#![tactic(auto)]

pub mod laws;
mod moving;
mod numbers;
mod parting;
mod pool;

pub use pool::Pool;
