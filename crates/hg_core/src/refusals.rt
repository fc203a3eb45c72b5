//! What a free did, and why an event isn't served.

use hg_machine::Rule;

/// What became of a block that was freed.
#[derive(Clone, Copy, Debug, PartialEq, Eq)]
pub enum Freed {
    /// Its place is home.
    Here,
    /// The worker doesn't hold its segment, and has the place in hand.
    InHand,
}

/// Why a block isn't freed.
#[derive(Clone, Copy, Debug, PartialEq, Eq)]
pub enum NotFreed {
    /// By this rule of the policy.
    Denied(Rule),
    /// The worker doesn't hold its segment, and has another place in hand.
    Busy,
}

/// The worker has no place in hand.
#[derive(Clone, Copy, Debug, PartialEq, Eq)]
pub struct NothingInHand;

/// The worker doesn't hold the segment.
#[derive(Clone, Copy, Debug, PartialEq, Eq)]
pub struct NotHeld;

/// No segment of the arena is left that nobody holds.
#[derive(Clone, Copy, Debug, PartialEq, Eq)]
pub struct NoSegment;
