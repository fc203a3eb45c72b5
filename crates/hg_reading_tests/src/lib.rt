//! What is read of policies and traces, where no command of the program shows it.
#![tactic(auto)]

#[cfg(test)]
mod tests;
