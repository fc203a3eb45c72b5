ghost use Rattle.std.specs.Prelude.{◌≡◌, ◌≢◌, ℕ, ◌-◌, ◌<◌, false, length, slice_set, slice_index};
ghost use Rattle.std.specs.Prelude.{OnOk, IfErr, IfOk};
ghost use Rattle.hg_place.specs.declared.geometry.TheConstants.{MAX_SEGMENTS, SEGMENT_PLACES};
ghost use Rattle.hg_place.specs.declared.geometry.TheConstants.{PAGE_PLACES};
ghost use Rattle.hg_place.specs.Lives.{IsLiveWord, IsSlotWord};
ghost use Rattle.hg_place.specs.Cells.{word_in, standing_in, seen, spot_of};
ghost use Rattle.hg_place.specs.Standings.{standing_at, slot_of, is_home, Fits};
ghost use Rattle.hg_place.specs.declared.standing.Standing.TheVariants.{Home};

use crate::cells::{cell_of, standing_in, word_in};
use crate::geometry::{PAGE_PLACES, SEGMENT_PAGES, SEGMENT_PLACES};
use crate::{Handle, Place, SlotWords, Standing, pack, word_generation};
use hg_reserved::Reserved;
use std::alloc::{AllocError, Global};

/// How many of a page's cells stand beside the first ones of the other pages.
const FIRST: usize = 64;

/// The slot words of a segment for one thread alone: a step finds the word that stands. A place's
/// word and its record take 8 bytes, those of the first places of all pages side by side, in memory
/// that is touched when the place, or one whose cell stands behind its own, is first given out.
#[derive(Drop)]
pub struct PlainWords {
    segment: u8,
    // of each place its word and its record in one, at the place's spot
    cells: Reserved<u64>,
    ghost segment_below: { segment < MAX_SEGMENTS },
    ghost all_cells: { length cells ≡ SEGMENT_PLACES },
    ghost all_words: { length (seen word_in cells) ≡ SEGMENT_PLACES },
    ghost all_records: { length (seen standing_in cells) ≡ SEGMENT_PLACES },
    ghost fit: { (at : ℕ) → at < SEGMENT_PLACES
        → IsSlotWord (slice_index (seen word_in cells) at)
        × Fits (standing_at (seen standing_in cells) at) (slice_index (seen word_in cells) at) },
}

impl SlotWords for PlainWords {
    ghost use Rattle.hg_place.specs.Plain.{plain_words, plain_records};

    type Other = ();

    type Lent = ();

    ghost number = { λ s. s.segment };

    ghost records = { λ s. plain_records s };

    ghost shows = { λ s at word. word ≡ slice_index (plain_words s) at };

    ghost steps = { λ s at found left t. plain_words t ≡ slice_set (plain_words s) at left };

    ghost allows = { λ s at found left. Unit {0} };

    ghost quiet = { λ s. Unit {0} };

    ghost quiet_allows = { λ s at word quiet. tt };

    ghost stays_quiet = { λ s t at word step quiet. tt };

    ghost may_meet = { λ s other. Unit {0} };

    ghost meets = { λ s other at word t after. plain_words t ≡ plain_words s };

    ghost may_lend = { λ s what. Unit {0} };

    ghost lends = { λ s what t. t ≡ s };

    ghost may_give_back = { λ s. Unit {0} };

    ghost gives_back = { λ s what t. t ≡ s };

    ghost numbered = { λ s. s.segment_below };

    ghost sized = { λ s. s.all_records };

    ghost use Rattle.std.proofs.Common.{subst, sym};
    ghost use Rattle.hg_place.specs.Sane.{sane};

    ghost sane = { λ s at below. sane (standing_at (plain_records s) at)
        (slice_index (plain_words s) at) (s.fit at below).0 (s.fit at below).1 };

    ghost fits = { λ s at word below is. subst
        (λ w. IsSlotWord w × Fits (standing_at (plain_records s) at) w) (sym is) (s.fit at below) };

    ghost still_meets = { λ s t other at found left step may. tt };

    ghost meets_again = { λ s t other after at word met may. tt };

    ghost meets_lent = { λ s t other what lent may. tt };

    ghost meets_given_back = { λ s t other what given may. tt };

    fn segment(&self) -> u8 {
        self.segment
    }

    fn standing(&self, place: Place) -> Standing {
        standing_in(self.cells.get(spot(place)))
    }

    fn look(&mut self, place: Place) -> u64 {
        PlainWords::word(self, place)
    }

    fn open(&mut self, place: Place, owner: u8) -> Handle {
        let Standing::Home(before) = self.standing(place) else {
            unreachable!()
        };
        let generation = before + 1;
        let word = pack(generation, owner, true);
        self.put(place, Standing::Open(generation, owner), word);
        Handle { place, generation }
    }

    fn close(&mut self, place: Place, expected: u64) -> Result<(), u64> {
        let word = self.word(place);
        if word != expected {
            return Err(word);
        }
        self.put(place, Standing::Home(word_generation(word)), word - 1);
        Ok(())
    }

    fn take(&mut self, place: Place) -> Result<(), u64> {
        let word = self.word(place);
        if word % 2 == 1 {
            return Err(word);
        }
        self.put(place, Standing::Home(word_generation(word)), word);
        Ok(())
    }

    fn meet(&mut self, _other: &mut (), place: Place) -> u64 {
        self.look(place)
    }

    fn lend(&mut self, _what: ()) {}

    fn give_back(&mut self) {}
}

impl PlainWords {
    ghost use Rattle.hg_place.specs.Plain.{plain_words, plain_records};

    /// The words of a segment of whose places none was ever given out.
    pub fn new(alloc: Global, segment: u8) -> Result<PlainWords, AllocError>
        requires { segment < MAX_SEGMENTS }
        ensures number { IfOk result (λ s. s.segment ≡ segment) }
        ensures words { IfOk result (λ s. (at : ℕ) → slice_index (plain_words s) at ≡ 0) }
        ensures home { IfOk result (λ s. (at : ℕ) → standing_at (plain_records s) at ≡ Home 0) }
    {
        let cells = Reserved::new(alloc, SEGMENT_PLACES)?;
        Ok(PlainWords { segment, cells })
    }

    /// The word of a place.
    pub fn word(&self, place: Place) -> u64
        requires { place.segment ≡ self.now.segment }
        ensures { result ≡ slice_index (plain_words self.now) (slot_of place) }
    {
        word_in(self.cells.get(spot(place)))
    }

    /// The record and the word of a place, by one look at its cell.
    pub fn told(&self, place: Place) -> (Standing, u64)
        requires { place.segment ≡ self.now.segment }
        ensures record { result.0 ≡ standing_at (plain_records self.now) (slot_of place) }
        ensures word { result.1 ≡ slice_index (plain_words self.now) (slot_of place) }
    {
        let cell = self.cells.get(spot(place));
        (standing_in(cell), word_in(cell))
    }

    /// Ends the life of the live word that is expected, and leaves the place open. An error has the
    /// word that stands, which is another, and nothing changes.
    pub fn part(&mut self, place: Place, expected: u64) -> Result<(), u64>
        requires segment { place.segment ≡ self.old.segment }
        requires live { IsLiveWord expected }
        ensures number { self.new.segment ≡ self.old.segment }
        ensures records { plain_records self.new ≡ plain_records self.old }
        ensures ok { OnOk result ((slice_index (plain_words self.old) (slot_of place) ≡ expected)
            × (plain_words self.new
            ≡ slice_set (plain_words self.old) (slot_of place) (expected - 1))) }
        ensures open { OnOk result
            (is_home (standing_at (plain_records self.new) (slot_of place)) ≡ false) }
        ensures err { IfErr result (λ word. (word ≢ expected)
            × (slice_index (plain_words self.old) (slot_of place) ≡ word)
            × (self.new ≡ self.old)) }
    {
        let found = self.word(place);
        if found != expected {
            return Err(found);
        }
        let standing = self.standing(place);
        self.put(place, standing, found - 1);
        Ok(())
    }

    /// Sets the record of a place and its word, which has to be one that a place so recorded may
    /// have, whatever stood there: for words that are copied from another segment's. Nothing else
    /// changes.
    pub fn put(&mut self, place: Place, standing: Standing, word: u64)
        requires word { IsSlotWord word }
        requires fits { Fits standing word }
        ensures number { self.new.segment ≡ self.old.segment }
        ensures words { plain_words self.new
            ≡ slice_set (plain_words self.old) (slot_of place) word }
        ensures records { plain_records self.new
            ≡ slice_set (plain_records self.old) (slot_of place) standing }
    {
        self.cells.set(spot(place), cell_of(standing, word));
    }
}

/// Where the cell of a place stands: the first 64 of each page stand beside those of the other
/// pages, so that few pages of memory serve pages that have few places; the others of a page stand
/// behind them, page by page.
fn spot(place: Place) -> usize
    ensures value { result ≡ spot_of (slot_of place) }
    ensures below { result < SEGMENT_PLACES }
{
    let page = usize::from(place.page);
    let index = usize::from(place.index);
    if index < FIRST {
        page * FIRST + index
    } else {
        SEGMENT_PAGES * FIRST + page * (PAGE_PLACES - FIRST) + (index - FIRST)
    }
}
