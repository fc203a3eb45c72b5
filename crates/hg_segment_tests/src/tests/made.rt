//! What asks for memory, made one after another, and what is handed on by value.

use hg_lists::IndexLists;
use hg_place::{MAX_SEGMENTS, PlainWords, SEGMENT_PLACES, filled};
use hg_pool::Pool;
use hg_queue::PageQueues;
use hg_remote::RemoteList;
use hg_segment::Segment;
use hg_words::WordMemory;
use std::alloc::{AllocError, Global};
use std::mem::size_of;

/// The number of the last segment.
const LAST: u8 = MAX_SEGMENTS as u8 - 1;

/// Whether something was made, which goes again.
fn is_made<T: Drop>(made: Result<T, AllocError>) -> bool {
    match made {
        Ok(it) => {
            drop(it);
            true
        }
        Err(AllocError) => false,
    }
}

/// The last segment.
fn segment(alloc: Global) -> Result<Segment<PlainWords>, AllocError> {
    let slots = PlainWords::new(alloc, LAST)?;
    Segment::new(alloc, LAST, 15, u32::MAX, slots)
}

/// Whether there was memory for each of all that asks for some: lists with as many entries and keys
/// as there may be, and the last segment's words.
fn are_made(alloc: Global) -> bool {
    is_made(WordMemory::new(alloc))
        & is_made(IndexLists::new(alloc, u16::MAX, u16::MAX))
        & is_made(PageQueues::new(alloc))
        & is_made(RemoteList::new(alloc))
        & is_made(Pool::<PlainWords>::new(alloc))
        & is_made(filled(alloc, 7u64, SEGMENT_PLACES))
        & is_made(PlainWords::new(alloc, LAST))
        & is_made(segment(alloc))
}

#[test]
fn all_is_made(rt: HostRuntime) {
    assert!(&rt; are_made(rt.alloc()));
}

// Each is made, or memory was refused: for a run in which requests are refused in turn.
#[test]
fn made_refused_in_turn(rt: HostRuntime) {
    let _ = are_made(rt.alloc());
}

// What is handed on by value is small.
#[test]
fn small_to_move(rt: HostRuntime) {
    assert!(&rt; size_of::<Segment<PlainWords>>() <= 128);
}
