//! The slot words of a segment's places, as steps on them.

ghost use Rattle.std.specs.Prelude.{◌≡◌, ◌≢◌, ◌↔◌, ℕ, ◌+◌, ◌-◌, ◌<◌, true, false, List, length};
ghost use Rattle.std.specs.Prelude.{slice_set, OnOk, IfErr};
ghost use Rattle.hg_place.specs.declared.geometry.TheConstants.{MAX_SEGMENTS, SEGMENT_PLACES};
ghost use Rattle.hg_place.specs.Lives.{IsLiveWord, IsSlotWord, live_word};
ghost use Rattle.hg_place.specs.Lives.{word_generation, word_life};
ghost use Rattle.hg_place.specs.Standings.{standing_at, slot_of, is_home, standing_generation};
ghost use Rattle.hg_place.specs.Standings.{Fits, IsSane};
ghost use Rattle.hg_place.specs.declared.standing.Standing.{Standing};
ghost use Rattle.hg_place.specs.declared.standing.Standing.TheVariants.{Home, Open};

use crate::{Handle, Place, Standing};

/// The slot words of the places of one segment, each place recorded as home or open (given out and
/// not taken back). A call at a place makes one step on its word, and says which word the step found
/// and which it left; what a step may find, and which steps are allowed, is the implementation's to
/// say. No call takes memory.
pub trait SlotWords {
    /// What a `meet` is with.
    type Other;
    /// What a caller lends them, so that their steps are allowed.
    type Lent;

    // the number of the segment
    ghost number: { Self → ℕ };
    // the record of each place
    ghost records: { Self → List Standing };
    // the words that a step at a place may find
    ghost shows: { Self → ℕ → ℕ → Type 0 };
    // a step at a place found the one word and left the other
    ghost steps: { Self → ℕ → ℕ → ℕ → Self → Type 0 };
    // a step at a place that finds the one word and leaves the other is allowed
    ghost allows: { Self → ℕ → ℕ → ℕ → Type 0 };
    // each step that leaves the word that it finds is, now and after any such steps
    ghost quiet: { Self → Type 0 };
    // the two may meet
    ghost may_meet: { Self → Self.Other → Type 0 };
    // a meeting at a place showed the word to both
    ghost meets: { Self → Self.Other → ℕ → ℕ → Self → Self.Other → Type 0 };

    // this may be lent
    ghost may_lend: { Self → Self.Lent → Type 0 };
    // it was lent
    ghost lends: { Self → Self.Lent → Self → Type 0 };
    // something is lent
    ghost may_give_back: { Self → Type 0 };
    // it was given back
    ghost gives_back: { Self → Self.Lent → Self → Type 0 };

    /// The number of the segment.
    fn segment(&self) -> u8
        ensures { result ≡ number self.now };

    /// The record of a place.
    fn standing(&self, place: Place) -> Standing
        requires { place.segment ≡ number self.now }
        ensures { result ≡ standing_at (records self.now) (slot_of place) };

    /// The word of a place.
    fn look(&mut self, place: Place) -> u64
        requires segment { place.segment ≡ number self.old }
        requires allowed { (word : ℕ) → shows self.old (slot_of place) word
            → allows self.old (slot_of place) word word }
        ensures shown { shows self.old (slot_of place) result }
        ensures step { steps self.old (slot_of place) result result self.new }
        ensures number { number self.new ≡ number self.old }
        ensures records { records self.new ≡ records self.old };

    /// Begins the next life of a place that is home, one generation up, for an owner: the place is
    /// open from then on. Its generation isn't the greatest that a word has.
    fn open(&mut self, place: Place, owner: u8) -> Handle
        requires segment { place.segment ≡ number self.old }
        requires home { is_home (standing_at (records self.old) (slot_of place)) ≡ true }
        requires unworn { standing_generation (standing_at (records self.old) (slot_of place))
            < u32.MAX }
        requires owner { owner < 64 }
        requires allowed { (word : ℕ) → shows self.old (slot_of place) word
            → allows self.old (slot_of place) word
            (live_word (standing_generation (standing_at (records self.old) (slot_of place)) + 1) owner) }
        ensures place { result.place ≡ place }
        ensures generation { result.generation
            ≡ standing_generation (standing_at (records self.old) (slot_of place)) + 1 }
        ensures step { (word : ℕ) × shows self.old (slot_of place) word
            × steps self.old (slot_of place) word (live_word result.generation owner) self.new }
        ensures number { number self.new ≡ number self.old }
        ensures records { records self.new
            ≡ slice_set (records self.old) (slot_of place) (Open result.generation owner) };

    /// Ends the life of the live word that is expected, by one exchange: the place is home from then
    /// on. An error has the word that was found, which is another, and leaves it and the record.
    fn close(&mut self, place: Place, expected: u64) -> Result<(), u64>
        requires segment { place.segment ≡ number self.old }
        requires live { IsLiveWord expected }
        requires hit { shows self.old (slot_of place) expected
            → allows self.old (slot_of place) expected (expected - 1) }
        requires miss { (word : ℕ) → word ≢ expected → shows self.old (slot_of place) word
            → allows self.old (slot_of place) word word }
        ensures number { number self.new ≡ number self.old }
        ensures ok { OnOk result (shows self.old (slot_of place) expected
            × steps self.old (slot_of place) expected (expected - 1) self.new
            × (records self.new
            ≡ slice_set (records self.old) (slot_of place) (Home (word_generation expected)))) }
        ensures err { IfErr result (λ word. (word ≢ expected) × shows self.old (slot_of place) word
            × steps self.old (slot_of place) word word self.new
            × (records self.new ≡ records self.old)) };

    /// Takes home an open place whose life has ended. An error has the live word that was found, and
    /// leaves it and the record.
    fn take(&mut self, place: Place) -> Result<(), u64>
        requires segment { place.segment ≡ number self.old }
        requires open { is_home (standing_at (records self.old) (slot_of place)) ≡ false }
        requires quiet { quiet self.old }
        ensures number { number self.new ≡ number self.old }
        ensures ok { OnOk result ((word : ℕ) × (word_life word ≡ 0)
            × shows self.old (slot_of place) word
            × steps self.old (slot_of place) word word self.new
            × (records self.new
            ≡ slice_set (records self.old) (slot_of place) (Home (word_generation word)))) }
        ensures err { IfErr result (λ word. (word_life word ≡ 1) × shows self.old (slot_of place) word
            × steps self.old (slot_of place) word word self.new
            × (records self.new ≡ records self.old)) };

    /// The word of a place, as this one and the other see it together: each has seen from then on
    /// what either had.
    fn meet(&mut self, other: &mut Self::Other, place: Place) -> u64
        requires segment { place.segment ≡ number self.old }
        requires may_meet { may_meet self.old other.old }
        ensures shown { shows self.old (slot_of place) result }
        ensures met { meets self.old other.old (slot_of place) result self.new other.new }
        ensures number { number self.new ≡ number self.old }
        ensures records { records self.new ≡ records self.old };

    /// Lends them what their next steps need: over a table that keeps one run of all calls, the seat
    /// of the worker whose call the next step answers. Records stay, and so do the words that a step
    /// may find.
    fn lend(&mut self, what: Self::Lent)
        requires { may_lend self.old what }
        ensures lent { lends self.old what self.new }
        ensures shows { (at word : ℕ) → shows self.old at word ↔ shows self.new at word }
        ensures number { number self.new ≡ number self.old }
        ensures records { records self.new ≡ records self.old };

    /// Gives back what was lent. Records stay, and so do the words that a step may find.
    fn give_back(&mut self) -> Self::Lent
        requires { may_give_back self.old }
        ensures given { gives_back self.old result self.new }
        ensures shows { (at word : ℕ) → shows self.old at word ↔ shows self.new at word }
        ensures number { number self.new ≡ number self.old }
        ensures records { records self.new ≡ records self.old };

    // the segment is one of those that there may be
    ghost numbered: { (s : Self) → number s < MAX_SEGMENTS };
    // there is a record for each place
    ghost sized: { (s : Self) → length (records s) ≡ SEGMENT_PLACES };
    // each record is one that a place can have
    ghost sane: { (s : Self) (at : ℕ) → at < SEGMENT_PLACES → IsSane (standing_at (records s) at) };
    // a word that may be found is a slot's and fits the record
    ghost fits: { (s : Self) (at word : ℕ) → at < SEGMENT_PLACES → shows s at word
        → IsSlotWord word × Fits (standing_at (records s) at) word };

    // what is quiet allows a step that leaves the word, and is so after it
    ghost quiet_allows: { (s : Self) (at word : ℕ) → quiet s → allows s at word word };

    ghost stays_quiet: { (s t : Self) (at word : ℕ) → steps s at word word t → quiet s → quiet t };
    // a step keeps who may be met, and so does a meeting, and what is lent and given back
    ghost still_meets: { (s t : Self) (other : Self.Other) (at found left : ℕ)
        → steps s at found left t → may_meet s other → may_meet t other };

    ghost meets_again: { (s t : Self) (other after : Self.Other) (at word : ℕ)
        → meets s other at word t after → may_meet s other → may_meet t after };

    ghost meets_lent: { (s t : Self) (other : Self.Other) (what : Self.Lent)
        → lends s what t → may_meet s other → may_meet t other };

    ghost meets_given_back: { (s t : Self) (other : Self.Other) (what : Self.Lent)
        → gives_back s what t → may_meet s other → may_meet t other };
}
