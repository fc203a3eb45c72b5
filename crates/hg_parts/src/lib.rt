//! The invariant of a core over its parts, `IsTidy`: what follows from it, and that each change of
//! the core keeps it. The definitions are in `specs/`.
#![tactic(auto)]

pub mod laws;
