//! Blocks that another worker frees than the one that has the heap.

ghost use Rattle.std.specs.Prelude.{◌≡◌, ◌≢◌, true, Some, OnOk, IfErr};
ghost use Rattle.hg_place.specs.Lives.{IsLiveWord};
ghost use Rattle.hg_segment.specs.Parted.{plain_number};
ghost use Rattle.hg_heap.specs.Held.{is_held, KeepsLists};
ghost use Rattle.hg_heap.specs.Parting.{record_in, word_in, PartedIn};

use crate::Heap;
use hg_place::{Place, PlainWords, Standing};

impl Heap<PlainWords> {
    /// The word of a place of a segment that is held.
    pub fn word(&self, place: Place) -> u64
        requires { is_held plain_number self.now.segments place.segment ≡ true }
        ensures { word_in self.now.segments place ≡ Some result }
    {
        let Some(found) = self.found(place.segment) else {
            unreachable!()
        };
        self.segments[found as usize].word(place)
    }

    /// The record and the word of a place of a segment that is held, by one look.
    pub fn told(&self, place: Place) -> (Standing, u64)
        requires { is_held plain_number self.now.segments place.segment ≡ true }
        ensures record { record_in self.now.segments place ≡ Some result.0 }
        ensures word { word_in self.now.segments place ≡ Some result.1 }
    {
        let Some(found) = self.found(place.segment) else {
            unreachable!()
        };
        self.segments[found as usize].told(place)
    }

    /// Ends the life of the live word that is expected, for a worker that doesn't hold the segment:
    /// the place stays open, and its owner charged, until it is taken back. An error has the word
    /// that stands, which is another, and nothing changes.
    pub fn part(&mut self, place: Place, expected: u64) -> Result<(), u64>
        requires held { is_held plain_number self.old.segments place.segment ≡ true }
        requires live { IsLiveWord expected }
        ensures parted { OnOk result
            (PartedIn place expected self.old.segments self.new.segments) }
        ensures err { IfErr result (λ word. (word ≢ expected)
            × (word_in self.old.segments place ≡ Some word)) }
        ensures same { IfErr result (λ word. self.new ≡ self.old) }
        ensures lists { KeepsLists plain_number self.old.segments self.new.segments }
        ensures queues { self.new.queues ≡ self.old.queues }
    {
        let Some(found) = self.found(place.segment) else {
            unreachable!()
        };
        let segment = &mut self.segments[found as usize];
        let parted = segment.part(place, expected);
        segment.settled();
        parted
    }
}
