//! Places are given out, and come home.

ghost use Rattle.std.specs.Prelude.{◌≡◌, ◌≢◌, ◌<◌, ◌+◌, ◌-◌, ◌*◌, ◌==◌, ℕ, true, false, [], Some};
ghost use Rattle.std.specs.Prelude.{slice_set, IfSome, IfNone, OnOk, IfErr, IsTrue, IsFalse};
ghost use Rattle.std.specs.Prelude.{replicate};
ghost use Rattle.hg_place.specs.declared.geometry.TheConstants.{SEGMENT_PAGES, PAGE_PLACES};
ghost use Rattle.hg_place.specs.Lives.{IsLiveWord, live_word, word_generation};
ghost use Rattle.hg_place.specs.Standings.{standing_at, slot_of, standing_generation};
ghost use Rattle.hg_place.specs.declared.standing.Standing.TheVariants.{Home, Open};
ghost use Rattle.hg_page.specs.PageLists.{PageLists, listed, Pops};
ghost use Rattle.hg_segment.specs.declared.charges.TheConstants.{TENANTS};
ghost use Rattle.hg_segment.specs.Kept.{slot, class_at, lists_at, refilled, returned, IsFixed};
ghost use Rattle.hg_segment.specs.Takes.{Took, Passed};
ghost use Rattle.hg_segment.specs.Right.{is_vacant};
ghost use Rattle.hg_segment.specs.Blocks.{block_at, KeepsBlocks, KeepsOtherBlocks};

use crate::Segment;
use crate::blocks::{block_bytes, start};
use crate::lists::{pop_refilled, put_back};
use hg_place::{Handle, Place, SlotWords, Standing, word_generation, word_owner};
use hg_size::block_words;

impl<S: SlotWords> Segment<S> {
    /// The word of a place.
    pub fn look(&mut self, page: u8, index: u16) -> u64
        requires page { page < SEGMENT_PAGES }
        requires index { index < PAGE_PLACES }
        requires allowed { (word : ℕ) → S.shows self.old.slots (slot page index) word
            → S.allows self.old.slots (slot page index) word word }
        ensures shown { S.shows self.old.slots (slot page index) result }
        ensures step { S.steps self.old.slots (slot page index) result result self.new.slots }
        ensures number { S.number self.new.slots ≡ S.number self.old.slots }
        ensures records { S.records self.new.slots ≡ S.records self.old.slots }
        ensures others { self.new ≡ record self.old { slots = self.new.slots } }
    {
        let place = Place {
            segment: self.slots.segment(),
            page,
            index,
        };
        self.slots.look(place)
    }

    /// Gives out the place at the head of the page's `free`, which is refilled from `local_free`
    /// where it is empty. None where the page has no place to give out.
    pub fn open_in(&mut self, page: u8, owner: u8) -> Option<Handle>
        requires page { page < SEGMENT_PAGES }
        requires owner { owner < TENANTS }
        requires allowed { (index word : ℕ) (after : PageLists) → index < PAGE_PLACES
            → Pops index (refilled (lists_at self.old.lists page)) after
            → S.shows self.old.slots (slot page index) word
            → S.allows self.old.slots (slot page index) word (live_word (standing_generation
            (standing_at (S.records self.old.slots) (slot page index)) + 1) owner) }
        ensures none { IfNone result ((listed (lists_at self.old.lists page) ≡ [])
            × (self.new ≡ self.old)) }
        ensures number { S.number self.new.slots ≡ S.number self.old.slots }
        ensures fixed { IsFixed self.old self.new }
        ensures segment { IfSome result (λ h. h.place.segment ≡ S.number self.old.slots) }
        ensures page { IfSome result (λ h. h.place.page ≡ page) }
        ensures vacant { IfSome result (λ h. is_vacant self.old.greatest
            (standing_at (S.records self.old.slots) (slot page h.place.index)) ≡ true) }
        ensures generation { IfSome result (λ h. h.generation ≡ standing_generation
            (standing_at (S.records self.old.slots) (slot page h.place.index)) + 1) }
        ensures step { IfSome result (λ h. (word : ℕ)
            × S.shows self.old.slots (slot page h.place.index) word
            × S.steps self.old.slots (slot page h.place.index) word (live_word h.generation owner)
            self.new.slots) }
        ensures records { IfSome result (λ h. S.records self.new.slots ≡ slice_set
            (S.records self.old.slots) (slot page h.place.index) (Open h.generation owner)) }
        ensures popped { IfSome result (λ h. Pops h.place.index
            (refilled (lists_at self.old.lists page)) (lists_at self.new.lists page)) }
        ensures lists { IfSome result (λ h. self.new.lists
            ≡ slice_set self.old.lists page (lists_at self.new.lists page)) }
        ensures zero { IfSome result (λ h. (size : ℕ) → class_at self.old.classes page ≡ Some size
            → block_at self.new.words self.old.classes page h.place.index ≡ replicate size 0) }
        ensures others { IfSome result (λ h. KeepsOtherBlocks (S.records self.new.slots)
            self.old.classes page h.place.index self.old.words self.new.words) }
    {
        if self.pages[page as usize].is_full(&self.memory) {
            return None;
        }
        let Some(class) = self.classes.get(page) else {
            unreachable!()
        };
        let lists = &mut self.pages[page as usize];
        let Some(index) = pop_refilled(lists, &mut self.memory) else {
            unreachable!()
        };
        let place = Place {
            segment: self.slots.segment(),
            page,
            index,
        };
        let handle = self.slots.open(place, owner);
        self.memory
            .zero(start(class, page, index), block_words(class) as usize);
        self.charges.raise(owner, block_bytes(class));
        Some(handle)
    }

    /// Ends the life of a place of this segment, which goes home.
    pub fn close_here(&mut self, place: Place, expected: u64) -> Result<(), u64>
        requires segment { place.segment ≡ S.number self.old.slots }
        requires live { IsLiveWord expected }
        requires hit { S.shows self.old.slots (slot_of place) expected
            → S.allows self.old.slots (slot_of place) expected (expected - 1) }
        requires miss { (word : ℕ) → word ≢ expected → S.shows self.old.slots (slot_of place) word
            → S.allows self.old.slots (slot_of place) word word }
        ensures number { S.number self.new.slots ≡ S.number self.old.slots }
        ensures fixed { IsFixed self.old self.new }
        ensures ok { OnOk result (S.shows self.old.slots (slot_of place) expected
            × S.steps self.old.slots (slot_of place) expected (expected - 1) self.new.slots
            × (S.records self.new.slots ≡ slice_set (S.records self.old.slots) (slot_of place)
            (Home (word_generation expected)))) }
        ensures lists { OnOk result (self.new.lists ≡ slice_set self.old.lists place.page
            (returned (word_generation expected == self.old.greatest)
            (lists_at self.old.lists place.page) place.index)) }
        ensures blocks { KeepsBlocks (S.records self.new.slots) self.old.classes
            self.old.words self.new.words }
        ensures err { IfErr result (λ word. (word ≢ expected)
            × S.shows self.old.slots (slot_of place) word
            × S.steps self.old.slots (slot_of place) word word self.new.slots
            × (S.records self.new.slots ≡ S.records self.old.slots)
            × (self.new ≡ record self.old { slots = self.new.slots })) }
    {
        match self.slots.close(place, expected) {
            Err(word) => Err(word),
            Ok(()) => {
                let Some(class) = self.classes.get(place.page) else {
                    unreachable!()
                };
                let worn = word_generation(expected) == self.greatest;
                let page = &mut self.pages[place.page as usize];
                put_back(page, &mut self.memory, place.index, worn);
                self.charges.lower(word_owner(expected), block_bytes(class));
                Ok(())
            }
        }
    }

    /// Takes home a place of an open block whose life has ended; otherwise false.
    pub fn take_back(&mut self, page: u8, index: u16) -> bool
        requires page { page < SEGMENT_PAGES }
        requires index { index < PAGE_PLACES }
        requires quiet { S.quiet self.old.slots }
        ensures number { S.number self.new.slots ≡ S.number self.old.slots }
        ensures fixed { IsFixed self.old self.new }
        ensures quiet { S.quiet self.new.slots }
        ensures taken { IsTrue result
            → Took S.records S.shows S.steps (slot page index) self.old.slots self.new.slots }
        ensures lists { IsTrue result → self.new.lists ≡ slice_set self.old.lists page
            (returned (standing_generation
            (standing_at (S.records self.old.slots) (slot page index)) == self.old.greatest)
            (lists_at self.old.lists page) index) }
        ensures blocks { KeepsBlocks (S.records self.new.slots) self.old.classes
            self.old.words self.new.words }
        ensures passed { IsFalse result
            → Passed S.records S.shows S.steps (slot page index) self.old.slots self.new.slots }
        ensures others { IsFalse result → self.new ≡ record self.old { slots = self.new.slots } }
    {
        let place = Place {
            segment: self.slots.segment(),
            page,
            index,
        };
        let Standing::Open(generation, owner) = self.slots.standing(place) else {
            return false;
        };
        match self.slots.take(place) {
            Err(_) => false,
            Ok(()) => {
                let Some(class) = self.classes.get(page) else {
                    unreachable!()
                };
                let lists = &mut self.pages[page as usize];
                put_back(lists, &mut self.memory, index, generation == self.greatest);
                self.charges.lower(owner, block_bytes(class));
                true
            }
        }
    }
}
