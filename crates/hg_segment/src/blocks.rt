//! The words of blocks.

ghost use Rattle.std.specs.Prelude.{◌≡◌, ◌<◌, ◌≤◌, ◌+◌, ◌*◌, ℕ, false, Some, length};
ghost use Rattle.std.specs.Prelude.{slice_index, slice_set};
ghost use Rattle.hg_place.specs.declared.geometry.TheConstants.{SEGMENT_PAGES, PAGE_PLACES};
ghost use Rattle.hg_place.specs.declared.geometry.TheConstants.{PAGE_WORDS, WORD_BYTES};
ghost use Rattle.hg_place.specs.Standings.{standing_at, is_home};
ghost use Rattle.hg_reserved.specs.Overlaid.{overlaid};
ghost use Rattle.hg_segment.specs.Kept.{slot, class_at};
ghost use Rattle.hg_segment.specs.Blocks.{block_start, block_at, KeepsOtherBlocks};
ghost use Rattle.hg_segment.specs.WordWrites.{AreWordsWritten};

use crate::Segment;
use hg_place::{PAGE_WORDS, SlotWords, WORD_BYTES};
use hg_size::{Class, block_words};

impl<S: SlotWords> Segment<S> {
    /// A word of an open block.
    pub fn read(&self, page: u8, index: u16, at: u16) -> u64
        requires page { page < SEGMENT_PAGES }
        requires index { index < PAGE_PLACES }
        requires open { is_home (standing_at (S.records self.now.slots) (slot page index))
            ≡ false }
        requires inside { (size : ℕ) → class_at self.now.classes page ≡ Some size → at < size }
        ensures { result ≡ slice_index (block_at self.now.words self.now.classes page index) at }
    {
        let Some(class) = self.classes.get(page) else {
            unreachable!()
        };
        self.memory.get(start(class, page, index) + at as usize)
    }

    /// Copies as many words of an open block as `into` holds, from the word at `at` on.
    pub fn read_words(&self, page: u8, index: u16, at: u16, into: &mut [u64])
        requires page { page < SEGMENT_PAGES }
        requires index { index < PAGE_PLACES }
        requires open { is_home (standing_at (S.records self.now.slots) (slot page index))
            ≡ false }
        requires inside { (size : ℕ) → class_at self.now.classes page ≡ Some size
            → at + length into.old ≤ size }
        ensures { (k : ℕ) → k < length into.old → slice_index into.new k
            ≡ slice_index (block_at self.now.words self.now.classes page index) (at + k) }
    {
        let Some(class) = self.classes.get(page) else {
            unreachable!()
        };
        self.memory
            .copy_out(start(class, page, index) + at as usize, into);
    }

    /// Writes a word of an open block.
    pub fn write(&mut self, page: u8, index: u16, at: u16, value: u64)
        requires page { page < SEGMENT_PAGES }
        requires index { index < PAGE_PLACES }
        requires open { is_home (standing_at (S.records self.old.slots) (slot page index))
            ≡ false }
        requires inside { (size : ℕ) → class_at self.old.classes page ≡ Some size → at < size }
        ensures written { block_at self.new.words self.old.classes page index
            ≡ slice_set (block_at self.old.words self.old.classes page index) at value }
        ensures others { KeepsOtherBlocks (S.records self.old.slots) self.old.classes page index
            self.old.words self.new.words }
        ensures rest { self.new ≡ record self.old { words = self.new.words } }
    {
        let Some(class) = self.classes.get(page) else {
            unreachable!()
        };
        let from = start(class, page, index);
        self.memory.set(from + at as usize, value);
    }

    /// Writes words of an open block, as many as `from` has, from the word at `at` on. They are as
    /// after so many calls of `write` (`run`).
    pub fn write_words(&mut self, page: u8, index: u16, at: u16, from: &[u64])
        requires page { page < SEGMENT_PAGES }
        requires index { index < PAGE_PLACES }
        requires open { is_home (standing_at (S.records self.old.slots) (slot page index))
            ≡ false }
        requires inside { (size : ℕ) → class_at self.old.classes page ≡ Some size
            → at + length from.now ≤ size }
        ensures written { block_at self.new.words self.old.classes page index
            ≡ overlaid (block_at self.old.words self.old.classes page index) at from.now }
        ensures others { KeepsOtherBlocks (S.records self.old.slots) self.old.classes page index
            self.old.words self.new.words }
        ensures rest { self.new ≡ record self.old { words = self.new.words } }
        ensures words { (size : ℕ) → class_at self.old.classes page ≡ Some size → self.new.words
            ≡ overlaid self.old.words (block_start page size index + at) from.now }
        ensures run { AreWordsWritten (S.records self.old.slots) self.old.classes page index at
            from.now self.old.words self.new.words }
    {
        let Some(class) = self.classes.get(page) else {
            unreachable!()
        };
        self.memory
            .copy_in(start(class, page, index) + at as usize, from);
    }
}

/// How many bytes a block of the class has.
pub(crate) fn block_bytes(class: Class) -> u64
    ensures { result ≡ WORD_BYTES * class }
{
    WORD_BYTES as u64 * u64::from(block_words(class))
}

/// The word at which a block begins.
pub(crate) fn start(class: Class, page: u8, index: u16) -> usize
    ensures { result ≡ page * PAGE_WORDS + class * index }
{
    page as usize * PAGE_WORDS + block_words(class) as usize * index as usize
}
