//! What a worker did, counted call by call.

use crate::counts::{Counts, more};
use crate::shared::Shared;
use hg_machine::{Answer, Event, Rule};
use hg_place::{Handle, Place};

/// What a worker did so far.
#[derive(Drop)]
pub struct Tally {
    pub counts: Counts,
    /// Where the call before has shown a live block.
    seen: Option<Place>,
}

impl Tally {
    pub fn new() -> Tally {
        Tally {
            counts: Counts::none(),
            seen: None,
        }
    }

    /// Counts a call. Of a free it is asked whether the worker holds the block's segment.
    pub fn note(&mut self, shared: &Shared, event: Event, answer: Answer, is_held: bool) {
        more(&mut self.counts.events);
        let seen = self.seen.take();
        match (event, answer) {
            (Event::Alloc { .. }, Answer::Block(handle)) => self.note_begin(shared, handle),
            (Event::Free { handle, .. }, _) => {
                let is_seen = seen == Some(handle.place);
                self.note_free(shared, handle, answer, is_seen, is_held);
            }
            (Event::Look { place, .. }, Answer::Listed(_) | Answer::Elsewhere) => {
                self.seen = Some(place);
            }
            (Event::Take { .. }, Answer::Taken(count)) => {
                self.counts.taken = self.counts.taken.wrapping_add(u64::from(count));
            }
            (Event::Refill { .. }, Answer::Refilled(segment)) => self.note_refill(shared, segment),
            _ => {}
        }
    }

    fn note_begin(&mut self, shared: &Shared, handle: Handle) {
        more(&mut self.counts.allocated);
        if !shared.lives.begin(handle) {
            more(&mut self.counts.broken);
        }
    }

    fn note_end(&mut self, shared: &Shared, handle: Handle) {
        if !shared.lives.end(handle) {
            more(&mut self.counts.broken);
        }
    }

    fn note_free(
        &mut self,
        shared: &Shared,
        handle: Handle,
        answer: Answer,
        is_seen: bool,
        is_held: bool,
    ) {
        if is_seen {
            more(&mut self.counts.seen);
        }
        match answer {
            Answer::Done => {
                more(&mut self.counts.freed);
                self.note_end(shared, handle);
            }
            Answer::Parted => {
                more(&mut self.counts.parted);
                self.note_end(shared, handle);
            }
            Answer::Busy => more(&mut self.counts.busy),
            Answer::Denied(Rule::AlreadyFreed) if is_seen => {
                more(&mut self.counts.newer);
                if is_held {
                    more(&mut self.counts.lost);
                }
            }
            _ => {}
        }
    }

    fn note_refill(&mut self, shared: &Shared, segment: u8) {
        more(&mut self.counts.refilled);
        if shared.has_come(segment) {
            more(&mut self.counts.orphans);
        }
    }
}
