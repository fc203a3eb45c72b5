//! Worked calls on a worker's heap, and thousands of seeded calls beside plain models of it.
#![tactic(auto)]

#[cfg(test)]
mod tests;
