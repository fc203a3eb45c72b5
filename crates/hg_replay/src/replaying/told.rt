//! What a line of a trace came to.

use hg_machine::{Answer, Event};

/// What a line came to where it was answered.
#[derive(Clone, Copy, Debug, PartialEq, Eq)]
pub enum Told {
    /// Its event, and what that was answered.
    One(Event, Answer),
    Listing,
    /// Nothing, since the allocation of its label wasn't served.
    Unbound,
}
