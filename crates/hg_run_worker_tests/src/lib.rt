//! A worker over a table that keeps one run of all calls: what its calls are answered.
#![tactic(auto)]

#[cfg(test)]
mod calls;
#[cfg(test)]
mod ends;
#[cfg(test)]
mod frees;
#[cfg(test)]
mod policies;
#[cfg(test)]
mod refused;
