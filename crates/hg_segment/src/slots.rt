//! The slot words of a segment meet others, are lent what their steps need, and are handed back.

ghost use Rattle.std.specs.Prelude.{◌≡◌, ◌<◌, ◌↔◌, ℕ};
ghost use Rattle.hg_place.specs.declared.geometry.TheConstants.{SEGMENT_PAGES, PAGE_PLACES};
ghost use Rattle.hg_segment.specs.Kept.{slot};

use crate::Segment;
use hg_place::{Place, SlotWords};

impl<S: SlotWords> Segment<S> {
    /// The word of a place, as the slot words and the other see it together.
    pub fn meet(&mut self, other: &mut S::Other, page: u8, index: u16) -> u64
        requires page { page < SEGMENT_PAGES }
        requires index { index < PAGE_PLACES }
        requires may_meet { S.may_meet self.old.slots other.old }
        ensures shown { S.shows self.old.slots (slot page index) result }
        ensures met { S.meets self.old.slots other.old (slot page index) result
            self.new.slots other.new }
        ensures number { S.number self.new.slots ≡ S.number self.old.slots }
        ensures records { S.records self.new.slots ≡ S.records self.old.slots }
        ensures others { self.new ≡ record self.old { slots = self.new.slots } }
    {
        let place = Place {
            segment: self.slots.segment(),
            page,
            index,
        };
        self.slots.meet(other, place)
    }

    /// Lends the slot words what their next steps need. Records stay, and so do the words that a step
    /// may find.
    pub fn lend(&mut self, what: S::Lent)
        requires { S.may_lend self.old.slots what }
        ensures lent { S.lends self.old.slots what self.new.slots }
        ensures shows { (at word : ℕ) → S.shows self.old.slots at word ↔ S.shows self.new.slots at word }
        ensures number { S.number self.new.slots ≡ S.number self.old.slots }
        ensures records { S.records self.new.slots ≡ S.records self.old.slots }
        ensures others { self.new ≡ record self.old { slots = self.new.slots } }
    {
        self.slots.lend(what);
    }

    /// What was lent to the slot words comes back. Records stay, and so do the words that a step may
    /// find.
    pub fn give_back(&mut self) -> S::Lent
        requires { S.may_give_back self.old.slots }
        ensures given { S.gives_back self.old.slots result self.new.slots }
        ensures shows { (at word : ℕ) → S.shows self.old.slots at word ↔ S.shows self.new.slots at word }
        ensures number { S.number self.new.slots ≡ S.number self.old.slots }
        ensures records { S.records self.new.slots ≡ S.records self.old.slots }
        ensures others { self.new ≡ record self.old { slots = self.new.slots } }
    {
        self.slots.give_back()
    }

    /// The slot words. The words of the blocks are given up.
    pub fn into_slots(self) -> S
        ensures { result ≡ self.slots }
    {
        let Segment {
            arena: _,
            greatest: _,
            slots: kept,
            memory: _,
            pages: _,
            classes: _,
            charges: _,
        } = self;
        kept
    }
}
