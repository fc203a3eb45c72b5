//! Tests of what is made below a heap, of the words of slots and handles, and of slot words that
//! threads share.
#![tactic(auto)]

#[cfg(test)]
mod tests;
