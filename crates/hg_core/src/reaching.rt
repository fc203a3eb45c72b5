//! Blocks of segments that the worker doesn't hold: their slot words, and why they are out of
//! reach.

ghost use Rattle.std.specs.Prelude.{◌≡◌};
ghost use Rattle.hg_heap.specs.Answers.{refused_answer, away_answer};
ghost use Rattle.hg_heap.specs.Reading.{use_denial};
ghost use Rattle.hg_events.specs.Elsewhere.{word_at};

use crate::stores::Stores;
use hg_heap::{Refused, denied_or_elsewhere};
use hg_place::{Actor, Handle, Place, Right};

impl Stores {
    /// The slot word of a place, wherever its segment stands; 0 where the policy has no such
    /// segment.
    pub(crate) fn word(&self, place: Place) -> u64
        ensures { result ≡ word_at self.now place }
    {
        if let Some(holder) = self.holder_of(place.segment) {
            return self.heaps[usize::from(holder)].word(place);
        }
        if self.pool.has(place.segment) {
            return self.pool.word(place);
        }
        0
    }

    /// Why a block is out of a worker's reach that doesn't hold its segment.
    pub(crate) fn out_of_reach(&self, actor: Actor, right: Right, handle: Handle) -> Refused
        ensures { refused_answer result ≡ away_answer
            (use_denial self.now.policy actor.0 right handle (word_at self.now handle.place)) }
    {
        let word = self.word(handle.place);
        denied_or_elsewhere(&self.policy, actor, right, handle, word)
    }
}
