//! What the events of a core are to its parts: each is a step of the written machine, and leaves
//! tidy parts tidy. The definitions are in `specs/`.
#![tactic(auto)]

pub mod laws;
