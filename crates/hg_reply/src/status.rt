//! The statuses that are no answer of the machine, and those that a host is told most.

/// Done, which is also what an opening is answered.
pub const DONE: u16 = 2;

/// A number is told, or a word.
pub const VALUE: u16 = 4;

/// The worker has another place in hand.
pub const BUSY: u16 = 20;

/// The worker has nothing in hand.
pub const NOTHING_IN_HAND: u16 = 21;

/// Nobody holds the segment.
pub const NOT_HELD: u16 = 22;

/// All cores of a bank are open that there may be.
pub const FULL: u16 = 24;

/// Another call has what this one needs, and nothing was done.
pub const AGAIN: u16 = 25;

/// A worker hasn't left.
pub const STILL_OUT: u16 = 26;

/// A worker holds a segment.
pub const STILL_HELD: u16 = 27;

/// A place isn't accounted for.
pub const LOST: u16 = 28;

/// Memory was refused.
pub const NO_MEMORY: u16 = 57;

/// What is asked isn't open.
pub const CLOSED: u16 = 64;

/// The policy has no such worker.
pub const NO_WORKER: u16 = 65;

/// The number is no handle's, or no place's.
pub const NO_BLOCK: u16 = 66;

/// What was to be opened is open.
pub const HELD: u16 = 67;

/// No tenant, or no arena, has the name; or no tenant the number.
pub const NO_NAME: u16 = 68;

/// A bank has at least one core, and at most 16,384.
pub const NO_COUNT: u16 = 69;
