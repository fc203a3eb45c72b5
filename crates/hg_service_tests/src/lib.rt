//! A service of workers in threads, and its parts: what its calls answer, and how it closes.
#![tactic(auto)]

#[cfg(test)]
mod after;
#[cfg(test)]
mod asked;
#[cfg(test)]
mod calls;
#[cfg(test)]
mod closing;
#[cfg(test)]
mod in_turn;
#[cfg(test)]
mod lost;
#[cfg(test)]
mod meanwhile;
#[cfg(test)]
mod refused;
#[cfg(test)]
mod runs;
#[cfg(test)]
mod steps;
#[cfg(test)]
mod tried;
#[cfg(test)]
mod used_up;
