//! Handles as words of 64 bits.

ghost use Rattle.std.specs.Prelude.{◌≡◌, ◌≤◌, true, false, MatchOption};
ghost use Rattle.hg_place.specs.HandleWords.{handle_word, is_handle, ReadsWord};

use crate::geometry::{MAX_SEGMENTS, SEGMENT_PLACES};
use crate::{Handle, place_at};

impl Handle {
    /// The word of the handle, never 0: the number of its place in the upper half, its generation
    /// in the lower.
    pub fn to_u64(self) -> u64
        ensures word { result ≡ handle_word self }
        ensures some { 1 ≤ result }
    {
        self.place.number() as u64 * 0x1_0000_0000 + u64::from(self.generation)
    }

    /// The handle of a word, if it is the word of one.
    pub fn from_u64(word: u64) -> Option<Handle>
        ensures read { ReadsWord word result }
        ensures handle { MatchOption result (is_handle word ≡ false)
            (λ handle. (is_handle word ≡ true) × (word ≡ handle_word handle)) }
    {
        let number = (word / 0x1_0000_0000) as usize;
        let generation = (word % 0x1_0000_0000) as u32;
        if number >= MAX_SEGMENTS * SEGMENT_PLACES || generation == 0 {
            return None;
        }
        let place = place_at(number);
        Some(Handle { place, generation })
    }
}
