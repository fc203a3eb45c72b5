//! The segments that no worker holds.

ghost use Rattle.std.specs.Prelude.{◌≡◌, ◌<◌, ℕ, [], length, slice_get, Some, IfOk};
ghost use Rattle.std.specs.List.{range_with_len};
ghost use Rattle.std.specs.Arc.{arc_value};
ghost use Rattle.hg_roles.specs.FirstParts.{full};
ghost use Rattle.hg_roles.specs.Roles.{of_pool};
ghost use Rattle.hg_run_table.specs.NewSeats.{IsNewOther, IsNewSegment};
ghost use Rattle.hg_run_worker.specs.AtWork.{number_in};
ghost use Rattle.hg_run_worker.specs.NewPools.{IsUnused};
ghost use Rattle.hg_pool.specs.Pooled.{numbers};
ghost use Rattle.hg_run_worker.specs.Pools.{IsPoolOf};

use hg_policy::Policy;
use hg_pool::Pool;
use hg_run_table::{RunSeat, RunSegment, RunTable};
use hg_segment::Segment;
use std::alloc::{AllocError, Global};
use std::sync::Arc;

/// The segments of a service that no worker holds, and the pool's part of the run of all calls. Dropped,
/// its part and its segments are lost, and the table can be closed as one run no more.
#[derive(Drop)]
pub struct RunPool {
    pub(crate) pool: Pool<RunSegment>,
    pub(crate) call: RunSeat,
}

impl RunPool {
    /// The pool of a new table, by the pool's seat and those of the segments: all segments of the
    /// policy are there, fresh. Where memory was refused the seats are given up.
    pub fn new(
        alloc: Global,
        table: &Arc<RunTable, Global>,
        policy: &Policy,
        call: RunSeat,
        seats: Vec<RunSeat>,
    ) -> Result<RunPool, AllocError>
        requires key { (arc_value table.now).table.shared.key ≡ policy.now }
        requires part { IsNewOther (arc_value table.now).table.shared.table_id (of_pool full) call }
        requires all { length seats.items ≡ length policy.now.segments }
        requires each { (k : ℕ) (seat : RunSeat) → slice_get seats.items k ≡ Some seat
            → IsNewSegment (arc_value table.now).table.shared.table_id k seat }
        ensures ready { IfOk result (λ pool.
            IsPoolOf (arc_value table.now).table.shared.table_id policy.now pool) }
        ensures orphans { IfOk result (λ pool. pool.pool.orphans ≡ []) }
        ensures fresh { IfOk result (λ pool. numbers number_in pool.pool.fresh
            ≡ range_with_len 0 (length policy.now.segments)) }
    {
        let mut seats = seats;
        let mut pool = Pool::new(alloc)?;
        let mut number = policy.segments();
        while let Some(seat) = seats.pop() {
            number -= 1;
            pool.put_fresh(fresh_segment(alloc, table, policy, seat, number)?);
        }
        drop(seats);
        Ok(RunPool { pool, call })
    }
}

/// The segment of this seat, as the policy has it, of which no place was ever given out.
fn fresh_segment(
    alloc: Global,
    table: &Arc<RunTable, Global>,
    policy: &Policy,
    seat: RunSeat,
    number: u8,
) -> Result<Segment<RunSegment>, AllocError>
    requires key { (arc_value table.now).table.shared.key ≡ policy.now }
    requires there { number < length policy.now.segments }
    requires new { IsNewSegment (arc_value table.now).table.shared.table_id number seat }
    ensures number { IfOk result (λ one. number_in one.slots ≡ number) }
    ensures seat { IfOk result (λ one. one.slots.seat ≡ seat) }
    ensures unused { IfOk result
        (IsUnused (arc_value table.now).table.shared.table_id policy.now) }
{
    let Some(arena) = policy.arena_of(number) else {
        unreachable!()
    };
    let greatest = policy.max_generation();
    let slots = RunSegment::new(alloc, table, seat, number)?;
    Segment::new(alloc, number, arena, greatest, slots)
}
