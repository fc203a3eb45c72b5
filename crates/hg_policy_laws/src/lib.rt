//! Laws of the documents of policies and of the faults of reading them, said apart from the reading
//! itself, which nothing here is part of.
#![tactic(auto)]

pub mod laws;
