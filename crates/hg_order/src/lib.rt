//! Calls of workers, explained by one order: an interleaving of the workers' own orders in which a
//! core gives the same answers. An order that is found is a run of the machine; that there is none
//! is only what a search says.
#![tactic(auto)]

mod choice;
mod cores;
mod explaining;
mod found;
mod fronts;
mod histories;
mod left;
mod logs;
mod orders;
mod search;
mod seen;
mod segments;
mod spots;
mod standing;
mod step;

pub use explaining::explain;
pub use found::Found;
