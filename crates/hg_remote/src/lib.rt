//! Remote lists: the places of a segment that workers freed which don't hold it, on their way home.
#![tactic(auto)]

pub mod laws;
mod remote_list;

pub use remote_list::{RemoteList, Twice};
