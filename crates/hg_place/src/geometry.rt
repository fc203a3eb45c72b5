//! The geometry of the modelled memory. A clause cites these, and no other crate has numbers of its
//! own for them.

/// Bytes of a word.
pub const WORD_BYTES: usize = 8;

/// Words of a page.
pub const PAGE_WORDS: usize = 512;

/// Pages of a segment.
pub const SEGMENT_PAGES: usize = 16;

/// Words of a segment, 8,192: those of its pages.
pub const SEGMENT_WORDS: usize = SEGMENT_PAGES * PAGE_WORDS;

/// Places of a page: as many as words, since a block has one word at least.
pub const PAGE_PLACES: usize = PAGE_WORDS;

/// Places of a segment, 8,192: those of its pages.
pub const SEGMENT_PLACES: usize = SEGMENT_PAGES * PAGE_PLACES;

/// The most segments that a policy may have.
pub const MAX_SEGMENTS: usize = 64;
