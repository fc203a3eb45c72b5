//! Runs of the machine with their choices: the place that each allocation takes, and what each
//! event leaves of lists and queues. What is written shows in them only in permitted reads.
#![tactic(auto)]

pub mod laws;
