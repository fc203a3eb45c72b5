//! What stands after a trace: a line for each fact, or a picture.
#![tactic(auto)]

mod after;
mod blocks;
mod cell;
mod costs;
mod form;
pub mod laws;
mod orphans;
mod pages;
mod picture;
mod pieces;
mod run;
mod sent;
mod shapes;
mod standing;
mod workers;

pub use costs::{Granted, note_granted};
pub use form::View;
pub use orphans::note_orphans;
pub use run::run_state;
pub use sent::sent_in;
pub use standing::stands;
