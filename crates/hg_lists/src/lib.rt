//! Lists of numbered entries, linked by number: a list for each key, each entry in one at most.
#![tactic(auto)]

mod index_lists;
pub mod laws;
mod links;

pub use index_lists::IndexLists;
