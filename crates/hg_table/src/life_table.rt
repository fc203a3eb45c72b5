//! The table of the slot words, and the seats that it is opened for.

ghost use Rattle.std.specs.Prelude.{◌≡◌, ℕ, ◌+◌, ◌*◌, ◌<◌, ◌≤◌, [], ◌∷◌, length, slice_index_or};
ghost use Rattle.std.specs.Prelude.{IfOk, All};
ghost use Rattle.std.specs.Arc.{arc_value};
ghost use Rattle.std.specs.Box.{boxed_slice_items};
ghost use Rattle.hg_place.specs.declared.geometry.TheConstants.{MAX_SEGMENTS, SEGMENT_PLACES};
ghost use Rattle.hg_table.specs.Ids.{TableId-set};
ghost use Rattle.hg_table.specs.Seats.{IsInitial, AreHome, KnowsNothing, part_in, part_on};
ghost use Rattle.hg_table.specs.View.{SEATS_TO_GIVE};

use crate::name::TableName;
use crate::plays::{NextSegment, NextWorker};
use crate::rule::Words;
use crate::segment::{SegmentSeat, UnnamedSegment};
use crate::view::View;
use crate::worker::{UnnamedWorker, WorkerSeat};
use atomic_table::{Seat, Table};
use hg_place::{PackedStanding, SEGMENT_PLACES, Standing, filled};
use hg_policy::Policy;
use std::alloc::{AllocError, Global};
use std::sync::Arc;

/// The words of all places, and the initial seat, which records all places as home.
#[derive(Drop)]
pub struct LifeTable {
    table: Words,
    initial: Seat<(), View>,
    segments: u8,
    workers: u8,
    ghost same: { table.shared.table_id ≡ initial.table_id } by { TableId-set _ _ },
    ghost wide: { table.shared.table_id.words ≡ table.shared.key + 1 },
    ghost long: { table.shared.key ≡ segments * SEGMENT_PLACES },
    ghost few: { segments ≤ MAX_SEGMENTS },
    ghost few_workers: { MAX_SEGMENTS + workers ≤ SEATS_TO_GIVE },
    ghost bare: { initial.me.1 ≡ [] },
    ghost home: { IsInitial 0 (segments * SEGMENT_PLACES) initial.me.0 },
}

/// The seats of one table, in the order of the numbers of their segments and workers.
#[derive(Drop)]
pub struct Seats<N: TableName> {
    pub segments: Vec<SegmentSeat<N>>,
    pub workers: Vec<WorkerSeat<N>>,
}

impl LifeTable {
    /// The spare word and a word for each place of the policy's segments, all of them 0: no place
    /// was ever given out. Asks for 8 bytes a word twice, and keeps one of the two.
    pub fn new(alloc: Global, policy: &Policy) -> Result<LifeTable, AllocError>
        ensures segments { IfOk result (λ table. table.segments ≡ length policy.now.segments) }
        ensures workers { IfOk result (λ table. table.workers ≡ policy.now.workers) }
    {
        let segments = policy.segments();
        let workers = policy.workers();
        let places = usize::from(segments) * SEGMENT_PLACES;
        let words = filled(alloc, 0, places + 1)?;
        let (table, initial) = Table::of_words(alloc, &words, &(places as u64))?;
        Ok(LifeTable {
            table,
            initial,
            segments,
            workers,
        })
    }

    /// A seat for each segment, and one for each worker. The seat of a segment takes at most 8
    /// bytes for the record of a place. Where memory was refused the table is given up.
    pub fn open<N: TableName>(self, alloc: Global) -> Result<Seats<N>, AllocError>
        requires { self.initial.table_id ≡ N.table }
        ensures words { N.table.words ≡ self.segments * SEGMENT_PLACES + 1 }
        ensures segments { IfOk result (λ seats. length seats.segments.items ≡ self.segments) }
        ensures numbers { IfOk result (λ seats. (k : ℕ) (d : _)
            → k < length seats.segments.items
            → (slice_index_or seats.segments.items k d).inner.segment ≡ k) }
        ensures home { IfOk result (λ seats. All (λ seat.
            AreHome (boxed_slice_items seat.inner.records)
            × KnowsNothing (part_in seat.inner.seat)) seats.segments.items) }
        ensures workers { IfOk result (λ seats. length seats.workers.items ≡ self.workers) }
        ensures nothing { IfOk result (λ seats. All (λ seat.
            KnowsNothing (part_on seat.inner.badge)) seats.workers.items) }
        ensures give_none { IfOk result (λ seats.
            All (λ seat. (part_in seat.inner.seat).may_give ≡ 0) seats.segments.items
            × All (λ seat. (part_on seat.inner.badge).may_give ≡ 0) seats.workers.items) }
    {
        let LifeTable {
            table,
            initial: mut giver,
            segments: segment_count,
            workers: worker_count,
        } = self;
        let table = Arc::new(alloc, table)?;
        let mut segments = Vec::with_capacity(alloc, usize::from(segment_count))?;
        for segment in 0..segment_count {
            let left = segment_count - segment - 1;
            let seat = segment_seat(alloc, &table, &mut giver, segment, left)?;
            segments.push(seat.with_name::<N>())?;
        }
        let mut workers = Vec::with_capacity(alloc, usize::from(worker_count))?;
        for _ in 0..worker_count {
            let seat = worker_seat(&table, &mut giver)?;
            workers.push(seat.with_name::<N>())?;
        }
        Ok(Seats { segments, workers })
    }
}

/// The seat of the next segment, cut from the initial one. So many segments are left after it.
fn segment_seat(
    alloc: Global,
    table: &Arc<Words, Global>,
    initial: &mut Seat<(), View>,
    segment: u8,
    left: u8,
) -> Result<UnnamedSegment, AllocError>
    requires table { (arc_value table.now).shared.table_id ≡ initial.old.table_id }
    requires wide { (arc_value table.now).shared.table_id.words
        ≡ (arc_value table.now).shared.key + 1 }
    requires within { segment * SEGMENT_PLACES + SEGMENT_PLACES
        ≤ (arc_value table.now).shared.key }
    requires segment { segment < MAX_SEGMENTS }
    requires home { IsInitial segment (left * SEGMENT_PLACES + SEGMENT_PLACES) initial.old.me.0 }
    requires bare { initial.old.me.1 ≡ [] }
    ensures same { initial.new.table_id ≡ initial.old.table_id }
    ensures bare { initial.new.me.1 ≡ [] }
    ensures rest { IfOk result (λ _.
        IsInitial (segment + 1) (left * SEGMENT_PLACES) initial.new.me.0) }
    ensures named { IfOk result (λ seat. seat.seat.table_id ≡ initial.old.table_id) }
    ensures number { IfOk result (λ seat. seat.segment ≡ segment) }
    ensures home { IfOk result (λ seat. AreHome (boxed_slice_items seat.records)) }
    ensures nothing { IfOk result (λ seat. KnowsNothing (part_in seat.seat)) }
{
    let home = PackedStanding::of(Standing::Home(0));
    let records = filled(alloc, home, SEGMENT_PLACES)?;
    let table = Arc::try_clone(table)?;
    let shared = &table.shared;
    let seat = shared.split_seat::<NextSegment>(initial);
    Ok(UnnamedSegment {
        table,
        seat,
        segment,
        records,
    })
}

/// The seat of the next worker, cut from the initial one.
fn worker_seat(
    table: &Arc<Words, Global>,
    initial: &mut Seat<(), View>,
) -> Result<UnnamedWorker, AllocError>
    requires table { (arc_value table.now).shared.table_id ≡ initial.old.table_id }
    requires wide { (arc_value table.now).shared.table_id.words
        ≡ (arc_value table.now).shared.key + 1 }
    requires one { initial.old.me.0 ≡ part_in initial.old ∷ [] }
    requires left { 1 ≤ (part_in initial.old).may_give }
    ensures same { initial.new.table_id ≡ initial.old.table_id }
    ensures one { initial.new.me.0 ≡ part_in initial.new ∷ [] }
    ensures rest { IfOk result (λ _.
        (part_in initial.new).may_give + 1 ≡ (part_in initial.old).may_give) }
    ensures named { IfOk result (λ seat. seat.badge.table_id ≡ initial.old.table_id) }
    ensures nothing { IfOk result (λ seat. KnowsNothing (part_on seat.badge)) }
{
    let table = Arc::try_clone(table)?;
    let shared = &table.shared;
    let seat = shared.split_seat::<NextWorker>(initial);
    Ok(UnnamedWorker {
        table,
        badge: seat.into_badge(),
    })
}
