//! Pieces of text, appended to a list of bytes.
#![tactic(auto)]

mod pieces;

pub use pieces::{push, push_count};
