//! A held segment's slot words are lent what their steps need.

ghost use Rattle.std.specs.Prelude.{◌≡◌, true, Some};
ghost use Rattle.hg_segment.specs.Kept.{Kept};
ghost use Rattle.hg_heap.specs.Held.{is_held, segment_in, KeepsLists};
ghost use Rattle.hg_heap.specs.SlotsChanged.{SlotsChanged};

use crate::Heap;
use hg_place::SlotWords;

impl<S: SlotWords> Heap<S> {
    /// Lends the slot words of a held segment what their next steps need: over a table that keeps one
    /// run of all calls, the seat of the worker that calls. It changes nothing else.
    pub fn lend(&mut self, segment: u8, what: S::Lent)
        requires held { is_held S.number self.old.segments segment ≡ true }
        requires may_lend { (one : Kept S)
            → segment_in S.number self.old.segments segment ≡ Some one
            → S.may_lend one.slots what }
        ensures lent { SlotsChanged S.number S.records S.shows segment
            (λ slots after. S.lends slots what after) self.old.segments self.new.segments }
        ensures lists { KeepsLists S.number self.old.segments self.new.segments }
        ensures queues { self.new.queues ≡ self.old.queues }
    {
        let Some(found) = self.found(segment) else {
            unreachable!()
        };
        let held = &mut self.segments[found as usize];
        held.lend(what);
        held.settled();
    }

    /// What was lent to the slot words of a held segment comes back. It changes nothing else.
    pub fn give_back(&mut self, segment: u8) -> S::Lent
        requires held { is_held S.number self.old.segments segment ≡ true }
        requires may_give_back { (one : Kept S)
            → segment_in S.number self.old.segments segment ≡ Some one
            → S.may_give_back one.slots }
        ensures given { SlotsChanged S.number S.records S.shows segment
            (λ slots after. S.gives_back slots result after) self.old.segments self.new.segments }
        ensures lists { KeepsLists S.number self.old.segments self.new.segments }
        ensures queues { self.new.queues ≡ self.old.queues }
    {
        let Some(found) = self.found(segment) else {
            unreachable!()
        };
        let held = &mut self.segments[found as usize];
        let what = held.give_back();
        held.settled();
        what
    }
}
