//! A segment over slot words of any kind: pages of blocks, their words, what tenants are charged.
#![tactic(auto)]

mod begins;
mod blocks;
mod charges;
mod classes;
mod copying;
mod lists;
mod lives;
mod page_classes;
mod plain;
mod segment;
mod slots;

pub use charges::{Charges, TENANTS};
pub use segment::Segment;
