//! Pages: the lists of the free blocks of one size, linked through the blocks' own first words.
#![tactic(auto)]

pub mod laws;
mod page;
mod worn;

pub use page::Page;
pub use worn::Worn;
