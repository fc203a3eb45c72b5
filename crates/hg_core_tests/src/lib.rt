//! Calls of the core that no command of the program makes.
#![tactic(auto)]

#[cfg(test)]
mod tests;
