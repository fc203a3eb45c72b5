//! What a worker has left of its calls at a spot.

use crate::step::{Change, Step};

/// What a worker has left of the calls that meet others at a spot.
#[derive(Clone, Copy, Debug, PartialEq, Eq)]
pub(crate) struct Left {
    /// The spot, by number.
    pub spot: u32,
    pub worker: usize,
    /// The least states, `low` and `high`, that one of them found; the greatest number where none
    /// found any.
    pub least: (u64, u64),
    /// How many use the block, send to the segment or deal with the pool.
    many: usize,
    /// How many take in what was sent to the segment.
    takes: usize,
}

impl Left {
    /// No call.
    pub fn none(spot: u32, worker: usize) -> Left {
        Left {
            spot,
            worker,
            least: (u64::MAX, u64::MAX),
            many: 0,
            takes: 0,
        }
    }

    /// A call comes before those that are left.
    pub fn put(&mut self, step: &Step) {
        if let Some(seen) = step.seen {
            let (low, high) = self.least;
            self.least = (low.min(seen.low), high.min(seen.high));
        }
        if step.counts() {
            self.many = self.many.wrapping_add(1);
        }
        if step.taken_from().is_some() {
            self.takes = self.takes.wrapping_add(1);
        }
    }

    /// The first call of those that were left is gone, and the later ones found these states.
    pub fn take(&mut self, step: &Step, later: (u64, u64)) {
        self.least = later;
        if step.counts() {
            self.many = self.many.wrapping_sub(1);
        }
        if step.taken_from().is_some() {
            self.takes = self.takes.wrapping_sub(1);
        }
    }

    /// Whether one of them may be answered otherwise, or do something else, where a call of another
    /// worker at this spot comes before it.
    pub fn is_spoilt_by(&self, change: Change) -> bool {
        match change {
            Change::Nothing | Change::Own => false,
            Change::Word(_, state) => self.least.0 < state,
            Change::Sends(_) => self.many != 0 || self.takes != 0,
            Change::Block(_) | Change::Takes(_) | Change::Pool => self.many != 0,
        }
    }

    /// Whether one of them can't come behind a call of another worker at this spot.
    pub fn goes_before(&self, change: Change) -> bool {
        match change {
            Change::Word(_, state) => self.least.1 < state,
            _ => false,
        }
    }
}
