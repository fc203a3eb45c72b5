//! What a service opens with.

ghost use Rattle.std.specs.Prelude.{◌≡◌, ◌<◌, ◌*◌, ◌+◌, ℕ, length, All, IfOk};
ghost use Rattle.std.specs.Box.{boxed_slice_items};
ghost use Rattle.hg_place.specs.declared.geometry.TheConstants.{SEGMENT_PLACES};
ghost use Rattle.hg_table.specs.Named.{table_of, table_of_segment};
ghost use Rattle.hg_table.specs.Seats.{AreHome, KnowsNothing, part_in, part_on};
ghost use Rattle.hg_worker.specs.Seats.{number_in};
ghost use Rattle.hg_service.specs.New.{AreAtNumbers, AreFresh, AreNew, AreUnsent, IsNew, IsUnused};

use crate::caller_locked::CallerLocked;
use crate::kept_list::KeptList;
use hg_place::SlotWords;
use hg_policy::Policy;
use hg_segment::Segment;
use hg_table::{LifeTable, Seats, SegmentSeat, UnnamedSegment, WorkerSeat};
use hg_worker::{KeptPool, ServiceName, Worker};
use std::alloc::{AllocError, Global};

/// The parts of a new service.
pub(crate) fn opened<N: ServiceName>(
    alloc: Global,
    policy: Policy,
    table: LifeTable,
) -> Result<CallerLocked<N>, AllocError>
    requires policy { policy ≡ N.policy }
    requires table { table_of table ≡ N.table }
    requires segments { table.segments ≡ length policy.segments }
    requires workers { table.workers ≡ policy.workers }
    ensures policy { IfOk result (λ parts. parts.policy ≡ policy) }
    ensures workers { IfOk result (λ parts. AreNew policy.workers parts.workers.items) }
    ensures lists { IfOk result (λ parts.
        AreUnsent (length policy.segments) parts.lists.items) }
    ensures pool { IfOk result (λ parts.
        AreFresh policy 0 (length policy.segments) parts.pool.pool) }
{
    let Seats { segments, workers } = table.open::<N>(alloc)?;
    let pool = fresh_pool(alloc, &policy, segments)?;
    let lists = unsent_lists(alloc, &policy)?;
    let workers = new_workers(alloc, &policy, workers)?;
    Ok(CallerLocked {
        policy,
        workers,
        lists,
        pool,
    })
}

/// A worker for each of these seats.
fn new_workers<N: ServiceName>(
    alloc: Global,
    policy: &Policy,
    seats: Vec<WorkerSeat<N>>,
) -> Result<Vec<Worker<N>>, AllocError>
    requires policy { policy.now ≡ N.policy }
    requires words { N.table.words ≡ length policy.now.segments * SEGMENT_PLACES + 1 }
    requires all { length seats.items ≡ policy.now.workers }
    requires nothing { All (λ seat. KnowsNothing (part_on seat.inner.badge)) seats.items }
    ensures { IfOk result (λ workers. AreNew policy.now.workers workers.items) }
{
    let mut seats = seats;
    let mut workers = Vec::new(alloc);
    for number in 0..policy.workers() {
        let Some(seat) = seats.pop() else {
            unreachable!()
        };
        workers.push(new_worker(alloc, policy, number, seat)?)?;
    }
    drop(seats);
    Ok(workers)
}

/// The worker of a number, with a copy of the policy.
fn new_worker<N: ServiceName>(
    alloc: Global,
    policy: &Policy,
    number: u8,
    seat: WorkerSeat<N>,
) -> Result<Worker<N>, AllocError>
    requires policy { policy.now ≡ N.policy }
    requires words { N.table.words ≡ length policy.now.segments * SEGMENT_PLACES + 1 }
    requires below { number < policy.now.workers }
    requires nothing { KnowsNothing (part_on seat.inner.badge) }
    ensures { IfOk result (IsNew number) }
{
    let copy = policy.copy(alloc)?;
    Worker::new(alloc, copy, number, seat)
}

/// A list for each segment, to which nothing was sent.
fn unsent_lists<N: ServiceName>(
    alloc: Global,
    policy: &Policy,
) -> Result<Vec<KeptList<N>>, AllocError>
    ensures { IfOk result (λ lists. AreUnsent (length policy.now.segments) lists.items) }
{
    let mut lists = Vec::new(alloc);
    for segment in 0..policy.segments() {
        lists.push(KeptList::new(alloc, segment)?)?;
    }
    Ok(lists)
}

/// A pool of the segments of these seats, all fresh.
fn fresh_pool<N: ServiceName>(
    alloc: Global,
    policy: &Policy,
    seats: Vec<SegmentSeat<N>>,
) -> Result<KeptPool<N>, AllocError>
    requires policy { policy.now ≡ N.policy }
    requires all { length seats.items ≡ length policy.now.segments }
    requires numbers { AreAtNumbers seats.items }
    requires home { All (λ seat. AreHome (boxed_slice_items seat.inner.records)
        × KnowsNothing (part_in seat.inner.seat)) seats.items }
    ensures { IfOk result (λ kept.
        AreFresh policy.now 0 (length policy.now.segments) kept.pool) }
{
    let mut seats = seats;
    let mut kept = KeptPool::new(alloc)?;
    while let Some(seat) = seats.pop() {
        kept.put_fresh(fresh_segment(alloc, policy, seat)?);
    }
    drop(seats);
    Ok(kept)
}

/// The segment of a seat, as the policy has it.
fn fresh_segment<N: ServiceName>(
    alloc: Global,
    policy: &Policy,
    seat: SegmentSeat<N>,
) -> Result<Segment<UnnamedSegment>, AllocError>
    requires below { number_in seat.inner < length policy.now.segments }
    requires home { AreHome (boxed_slice_items seat.inner.records) }
    requires nothing { KnowsNothing (part_in seat.inner.seat) }
    ensures number { IfOk result (λ one. number_in one.slots ≡ number_in seat.inner) }
    ensures named { IfOk result (λ one. table_of_segment one.slots ≡ N.table) }
    ensures unused { IfOk result (IsUnused policy.now) }
{
    let number = seat.segment();
    let Some(arena) = policy.arena_of(number) else {
        unreachable!()
    };
    let slots = seat.without_name();
    Segment::new(alloc, number, arena, policy.max_generation(), slots)
}
