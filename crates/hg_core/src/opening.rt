//! What a core opens with.

ghost use Rattle.std.specs.Prelude.{◌≡◌, ◌<◌, [], None, IfOk, length, replicate, vec_capacity};
ghost use Rattle.std.specs.Box.{boxed_slice_items};
ghost use Rattle.std.specs.List.{AllByRecursion};
ghost use Rattle.hg_remote.specs.Remote.{nothing_sent};
ghost use Rattle.hg_segment.specs.Parted.{plain_number};
ghost use Rattle.hg_core.specs.Opened.{IsUnusedOne, IsFreshPool};
ghost use Rattle.hg_core.specs.Opening.{empty_queues};

use hg_heap::Heap;
use hg_place::{MAX_SEGMENTS, PlainWords};
use hg_policy::Policy;
use hg_pool::Pool;
use hg_remote::RemoteList;
use hg_segment::Segment;
use std::alloc::{AllocError, Global};
use std::boxed::BoxedSlice;

/// A heap without segments, and with no page in a queue.
fn empty_heap(alloc: Global) -> Result<Heap<PlainWords>, AllocError>
    ensures segments { IfOk result (λ heap. heap.segments ≡ []) }
    ensures queues { IfOk result (λ heap. heap.queues ≡ empty_queues) }
{
    let heap = Heap::new(alloc)?;
    heap.settled();
    Ok(heap)
}

/// A heap without segments for each worker, with no page in a queue, in room for no more.
fn heaps_for(alloc: Global, workers: u8) -> Result<Vec<Heap<PlainWords>>, AllocError>
    ensures all { IfOk result (λ heaps. length heaps.items ≡ workers) }
    ensures none { IfOk result
        (λ heaps. AllByRecursion (λ heap. heap.segments ≡ []) heaps.items) }
    ensures queues { IfOk result
        (λ heaps. AllByRecursion (λ heap. heap.queues ≡ empty_queues) heaps.items) }
    ensures room { IfOk result (λ heaps. vec_capacity heaps ≡ workers) }
{
    let mut heaps = Vec::with_capacity(alloc, usize::from(workers))?;
    for _ in 0..workers {
        heaps.push_reserved(empty_heap(alloc)?);
    }
    Ok(heaps)
}

/// A heap without segments for each worker, with no page in a queue.
pub(crate) fn empty_heaps(
    alloc: Global,
    workers: u8,
) -> Result<BoxedSlice<Heap<PlainWords>>, AllocError>
    ensures all { IfOk result (λ heaps. length (boxed_slice_items heaps) ≡ workers) }
    ensures none { IfOk result
        (λ heaps. AllByRecursion (λ heap. heap.segments ≡ []) (boxed_slice_items heaps)) }
    ensures queues { IfOk result (λ heaps.
        AllByRecursion (λ heap. heap.queues ≡ empty_queues) (boxed_slice_items heaps)) }
{
    let heaps = heaps_for(alloc, workers)?;
    Ok(heaps.into_boxed_slice())
}

/// A remote list to which nothing was sent for each segment, in room for no more.
fn remotes_for(alloc: Global, segments: u8) -> Result<Vec<RemoteList>, AllocError>
    ensures unsent { IfOk result
        (λ remotes. remotes.items ≡ replicate segments nothing_sent) }
    ensures room { IfOk result (λ remotes. vec_capacity remotes ≡ segments) }
{
    let mut remotes = Vec::with_capacity(alloc, usize::from(segments))?;
    for _ in 0..segments {
        remotes.push_reserved(RemoteList::new(alloc)?);
    }
    Ok(remotes)
}

/// A remote list to which nothing was sent for each segment.
pub(crate) fn empty_remotes(
    alloc: Global,
    segments: u8,
) -> Result<BoxedSlice<RemoteList>, AllocError>
    ensures { IfOk result
        (λ remotes. boxed_slice_items remotes ≡ replicate segments nothing_sent) }
{
    let remotes = remotes_for(alloc, segments)?;
    Ok(remotes.into_boxed_slice())
}

/// No segment held.
pub(crate) fn no_holders() -> [Option<u8>; MAX_SEGMENTS]
    ensures { result ≡ replicate MAX_SEGMENTS None }
{
    [None; MAX_SEGMENTS]
}

/// A pool of all segments of the policy, each fresh.
pub(crate) fn fresh_pool(alloc: Global, policy: &Policy) -> Result<Pool<PlainWords>, AllocError>
    ensures { IfOk result (IsFreshPool policy.now (length policy.now.segments)) }
{
    let mut pool = Pool::new(alloc)?;
    for number in 0..policy.segments() {
        pool.put_fresh(fresh_segment(alloc, policy, number)?);
    }
    Ok(pool)
}

/// A segment of the policy of whose places none was ever given out.
fn fresh_segment(
    alloc: Global,
    policy: &Policy,
    number: u8,
) -> Result<Segment<PlainWords>, AllocError>
    requires { number < length policy.now.segments }
    ensures number { IfOk result (λ one. plain_number one.slots ≡ number) }
    ensures unused { IfOk result (IsUnusedOne policy.now) }
{
    let Some(arena) = policy.arena_of(number) else {
        unreachable!()
    };
    let _few = policy.segments(); // hands out that the policy is sound
    let slots = PlainWords::new(alloc, number)?;
    let segment = Segment::new(alloc, number, arena, policy.max_generation(), slots)?;
    segment.settled();
    Ok(segment)
}
