//! A table that keeps one run of all calls: made, opened, cut, joined and closed.
#![tactic(auto)]

#[cfg(test)]
mod parts;
#[cfg(test)]
mod policies;
#[cfg(test)]
mod refused;
#[cfg(test)]
mod seats;
#[cfg(test)]
mod segments;
