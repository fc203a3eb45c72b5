//! Blocks of segments that nobody holds.

ghost use Rattle.std.specs.Prelude.{◌≡◌, ◌≢◌, slice_index, OnOk, IfErr};
ghost use Rattle.hg_place.specs.Lives.{IsLiveWord};
ghost use Rattle.hg_place.specs.Plain.{plain_records, plain_words};
ghost use Rattle.hg_place.specs.Standings.{slot_of, standing_at};
ghost use Rattle.hg_segment.specs.Parted.{plain_number};
ghost use Rattle.hg_pool.specs.Pooled.{IsRight, IsPooled, IsOf};
ghost use Rattle.hg_pool.specs.Parting.{PartedIn};

use crate::Pool;
use hg_place::{Place, PlainWords, Standing};

impl Pool<PlainWords> {
    /// The word of a place of a segment that is there.
    pub fn word(&self, place: Place) -> u64
        requires { IsPooled plain_number self.now place.segment }
        ensures { IsOf plain_number self.now place.segment
            (λ one. result ≡ slice_index (plain_words one.slots) (slot_of place)) }
    {
        self.at(place.segment).word(place)
    }

    /// The record and the word of a place of a segment that is there, by one look.
    pub fn told(&self, place: Place) -> (Standing, u64)
        requires { IsPooled plain_number self.now place.segment }
        ensures { IsOf plain_number self.now place.segment
            (λ one. (result.0 ≡ standing_at (plain_records one.slots) (slot_of place))
            × (result.1 ≡ slice_index (plain_words one.slots) (slot_of place))) }
    {
        self.at(place.segment).told(place)
    }

    /// Ends the life of the live word that is expected: the place stays open, and its owner charged,
    /// until it is taken back. An error has the word that stands, which is another, and nothing
    /// changes.
    pub fn part(&mut self, place: Place, expected: u64) -> Result<(), u64>
        requires pooled { IsPooled plain_number self.old place.segment }
        requires live { IsLiveWord expected }
        ensures parted { OnOk result (PartedIn place expected self.old self.new) }
        ensures err { IfErr result (λ word. (word ≢ expected)
            × IsOf plain_number self.old place.segment
            (λ one. slice_index (plain_words one.slots) (slot_of place) ≡ word)) }
        ensures same { IfErr result (λ word. self.new ≡ self.old) }
        ensures right { IsRight plain_number self.new }
    {
        let Some(found) = &mut self.segments[place.segment as usize] else {
            unreachable!()
        };
        found.part(place, expected)
    }
}
