//! A check of a policy and a trace, which tells the names that the trace says and the policy lacks.
#![tactic(auto)]

mod lacked;
mod mention;
mod run;
mod text;

pub use run::run_check_trace;
