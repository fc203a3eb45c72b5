ghost use Rattle.std.specs.Prelude.{◌≡◌, ℕ, ◌+◌, ◌<◌, ◌≤◌, ◌⊎◌};
ghost use Rattle.std.specs.Prelude.{length, slice_index, slice_set, slice_range, IfOk};
ghost use Rattle.hg_place.specs.declared.geometry.TheConstants.{SEGMENT_WORDS};
ghost use Rattle.hg_reserved.specs.Overlaid.{overlaid};

use hg_place::SEGMENT_WORDS;
use hg_reserved::Reserved;
use std::alloc::{AllocError, Global};
use std::marker::Model;

/// The words of one segment, seen as their list.
#[derive(Drop)]
pub struct WordMemory {
    words: Reserved<u64>,
}

impl Model for WordMemory {
    ghost use Rattle.std.specs.Prelude.{◌≡◌, List, ℕ, length};
    ghost use Rattle.hg_place.specs.declared.geometry.TheConstants.{SEGMENT_WORDS};

    ghost Value = { List ℕ };

    ghost view = { λ m. m.words };

    ghost invariant = { λ m. length m.words ≡ SEGMENT_WORDS };
}

impl WordMemory {
    /// Words that are all zero. Their memory is touched when it is first written.
    pub fn new(alloc: Global) -> Result<WordMemory, AllocError>
        ensures all { IfOk result (λ m. length m ≡ SEGMENT_WORDS) }
        ensures zero { IfOk result (λ m. (at : ℕ) → slice_index m at ≡ 0) }
    {
        let words = Reserved::new(alloc, SEGMENT_WORDS)?;
        Ok(WordMemory { words })
    }

    /// The word at `at`.
    pub fn get(&self, at: usize) -> u64
        requires { at < SEGMENT_WORDS }
        ensures { result ≡ slice_index self.now at }
    {
        self.words.get(at)
    }

    /// Makes the word at `at` the value.
    pub fn set(&mut self, at: usize, value: u64)
        requires { at < SEGMENT_WORDS }
        ensures words { self.new ≡ slice_set self.old at value }
        ensures all { length self.new ≡ SEGMENT_WORDS }
    {
        self.words.set(at, value);
    }

    /// Makes `count` words from `from` on zero.
    pub fn zero(&mut self, from: usize, count: usize)
        requires { from + count ≤ SEGMENT_WORDS }
        ensures zero { (at : ℕ) → from ≤ at → at < from + count → slice_index self.new at ≡ 0 }
        ensures others { (at : ℕ) → (at < from) ⊎ (from + count ≤ at)
            → slice_index self.new at ≡ slice_index self.old at }
        ensures all { length self.new ≡ SEGMENT_WORDS }
    {
        self.words.clear(from, count);
    }

    /// Copies as many words as `into` holds from `from` on.
    pub fn copy_out(&self, from: usize, into: &mut [u64])
        requires { from + length into.old ≤ SEGMENT_WORDS }
        ensures { into.new ≡ slice_range self.now from (from + length into.old) }
    {
        self.words.copy_out(from, into);
    }

    /// Makes the words from `from` on the values, as many as there are.
    pub fn copy_in(&mut self, from: usize, values: &[u64])
        requires { from + length values.now ≤ SEGMENT_WORDS }
        ensures words { self.new ≡ overlaid self.old from values.now }
        ensures all { length self.new ≡ SEGMENT_WORDS }
    {
        self.words.copy_in(from, values);
    }
}
