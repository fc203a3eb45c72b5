//! Names in the order in which they came, each once. A look-up takes a few steps, whatever the
//! names are.
#![tactic(auto)]

mod hash;
mod index;
mod names;
mod slot;

pub use names::Names;
