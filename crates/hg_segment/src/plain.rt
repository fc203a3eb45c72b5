//! A segment for one thread alone.

ghost use Rattle.std.specs.Prelude.{◌≡◌, slice_index, OnOk, IfErr};
ghost use Rattle.hg_place.specs.Lives.{IsLiveWord};
ghost use Rattle.hg_place.specs.Standings.{slot_of, standing_at};
ghost use Rattle.hg_place.specs.Plain.{plain_words, plain_records};
ghost use Rattle.hg_segment.specs.Parted.{Parted, NotParted};

use crate::Segment;
use hg_place::{Place, PlainWords, Standing};

impl Segment<PlainWords> {
    /// The word of a place.
    pub fn word(&self, place: Place) -> u64
        requires { place.segment ≡ self.now.slots.segment }
        ensures { result ≡ slice_index (plain_words self.now.slots) (slot_of place) }
    {
        self.slots.word(place)
    }

    /// The record and the word of a place, by one look.
    pub fn told(&self, place: Place) -> (Standing, u64)
        requires { place.segment ≡ self.now.slots.segment }
        ensures record { result.0 ≡ standing_at (plain_records self.now.slots) (slot_of place) }
        ensures word { result.1 ≡ slice_index (plain_words self.now.slots) (slot_of place) }
    {
        self.slots.told(place)
    }

    /// Ends the life of the live word that is expected, for a worker that doesn't hold the segment:
    /// the place stays open until it is taken back. An error has the word that stands, which is
    /// another, and nothing changes.
    pub fn part(&mut self, place: Place, expected: u64) -> Result<(), u64>
        requires segment { place.segment ≡ self.old.slots.segment }
        requires live { IsLiveWord expected }
        ensures parted { OnOk result (Parted place expected self.old self.new) }
        ensures other { IfErr result (λ word. NotParted place expected word self.old self.new) }
    {
        self.slots.part(place, expected)
    }
}
