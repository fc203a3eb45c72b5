//! A race: two workers of a service free the same block at once, round by round, and what both are
//! answered is counted.
#![tactic(auto)]

mod counts;
mod fault;
mod fit;
mod hint;
mod race;
mod racers;

pub use hint::race_hint;
pub use race::run_race;
