//! The word of a place, as a worker's slot words and others see it together.

ghost use Rattle.std.specs.Prelude.{◌≡◌, true, Some};
ghost use Rattle.hg_segment.specs.Kept.{Kept};
ghost use Rattle.hg_heap.specs.Held.{is_held, segment_in, KeepsLists};
ghost use Rattle.hg_heap.specs.Met.{Met};

use crate::Heap;
use hg_place::{Place, SlotWords};

impl<S: SlotWords> Heap<S> {
    /// The word of a place of a held segment, as its slot words and the other see it together. It
    /// changes what these two know, and nothing else.
    pub fn meet(&mut self, other: &mut S::Other, place: Place) -> u64
        requires held { is_held S.number self.old.segments place.segment ≡ true }
        requires may_meet { (one : Kept S)
            → segment_in S.number self.old.segments place.segment ≡ Some one
            → S.may_meet one.slots other.old }
        ensures met { Met S.number S.records S.shows S.meets place result
            self.old.segments other.old self.new.segments other.new }
        ensures lists { KeepsLists S.number self.old.segments self.new.segments }
        ensures queues { self.new.queues ≡ self.old.queues }
    {
        let Some(found) = self.found(place.segment) else {
            unreachable!()
        };
        let segment = &mut self.segments[found as usize];
        let word = segment.meet(other, place.page, place.index);
        segment.settled();
        word
    }
}
