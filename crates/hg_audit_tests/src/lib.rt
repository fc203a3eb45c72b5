//! Cores that are taken apart and made again after each event, and parts that were damaged.
#![tactic(auto)]

#[cfg(test)]
mod tests;
