//! What the calls of a core's parts choose and leave is what runs with their choices say. The
//! definitions are in `specs/`.
#![tactic(auto)]

pub mod laws;
