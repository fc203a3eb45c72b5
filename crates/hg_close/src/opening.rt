//! What room for closing is made of.

ghost use Rattle.std.specs.Prelude.{◌≡◌, ◌<◌, ◌≤◌, ℕ, [], IfOk, length, replicate};
ghost use Rattle.std.specs.List.{AllByRecursion};
ghost use Rattle.hg_place.specs.declared.geometry.TheConstants.{MAX_SEGMENTS};
ghost use Rattle.hg_remote.specs.Remote.{nothing_sent};
ghost use Rattle.hg_close.specs.Rooms.{HasWords};

use hg_heap::Heap;
use hg_place::PlainWords;
use hg_remote::RemoteList;
use std::alloc::{AllocError, Global};

/// A heap without segments for each worker.
pub(crate) fn no_heaps(alloc: Global, workers: u8) -> Result<Vec<Heap<PlainWords>>, AllocError>
    ensures all { IfOk result (λ heaps. length heaps.items ≡ workers) }
    ensures none { IfOk result
        (λ heaps. AllByRecursion (λ heap. heap.segments ≡ []) heaps.items) }
{
    let mut heaps = Vec::with_capacity(alloc, usize::from(workers))?;
    for _ in 0..workers {
        heaps.push(Heap::new(alloc)?)?;
    }
    Ok(heaps)
}

/// A remote list to which nothing was sent for each segment.
pub(crate) fn unsent_lists(alloc: Global, segments: u8) -> Result<Vec<RemoteList>, AllocError>
    ensures { IfOk result (λ lists. lists.items ≡ replicate segments nothing_sent) }
{
    let mut lists = Vec::with_capacity(alloc, usize::from(segments))?;
    for _ in 0..segments {
        lists.push(RemoteList::new(alloc)?)?;
    }
    Ok(lists)
}

/// By number, slot words for each segment.
pub(crate) fn unused_words(
    alloc: Global,
    segments: u8,
) -> Result<Vec<Option<PlainWords>>, AllocError>
    requires { segments ≤ MAX_SEGMENTS }
    ensures { IfOk result (λ words. (segment : ℕ) → segment < segments
        → HasWords words.items segment) }
{
    let mut words = Vec::with_capacity(alloc, usize::from(segments))?;
    for segment in 0..segments {
        words.push(Some(PlainWords::new(alloc, segment)?))?;
    }
    Ok(words)
}
