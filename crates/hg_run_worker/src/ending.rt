//! The end of a service: the seats of all its parts are joined again, and who has all of them closes
//! the table and knows one run of all calls.

ghost use Rattle.std.specs.Prelude.{◌≡◌, ◌≢◌, ℕ, ◌+◌, List, ◌∷◌, [], ◌++◌, length, slice_get, Some, Contains};
ghost use Rattle.std.specs.Prelude.{IfErr, IfOk};
ghost use Rattle.std.specs.Arc.{arc_value};
ghost use Rattle.atomic_table.specs.Seated.{TableId};
ghost use Rattle.core.specs.Mem.Slots.{IsFull, slots_items, slots_len};
ghost use Rattle.hg_segment.specs.Kept.{Kept};
ghost use Rattle.hg_roles.specs.Histories.{IsRunOfAll};
ghost use Rattle.hg_roles.specs.Roles.{Role};
ghost use Rattle.hg_roles.specs.Served.{places_of_policy, running};
ghost use Rattle.hg_run_table.specs.declared.segment.RunSegment.{RunSegment};
ghost use Rattle.hg_run_table.specs.JoinedCalls.{IsOthers};
ghost use Rattle.hg_run_worker.specs.AtWork.{IsReady, IsSeated};
ghost use Rattle.hg_run_worker.specs.Ending.{HasGathered, parts_of_pool, parts_of_segments};
ghost use Rattle.hg_run_worker.specs.Ending.{parts_of_worker};
ghost use Rattle.hg_run_worker.specs.Pools.{IsPoolOf, pooled_in};

use crate::{RunPool, RunWorker};
use atomic_table::Closed;
use hg_heap::Heap;
use hg_place::MAX_SEGMENTS;
use hg_policy::Policy;
use hg_pool::Pool;
use hg_run_table::{RunSeat, RunSegment, RunTable};
use std::alloc::Global;
use std::sync::Arc;

/// As far as parts are counted: no service has as many.
pub(crate) const MANY: u16 = 1024;

/// The parts of a service that were given back, to end it: in one seat.
#[derive(Drop)]
pub struct RunEnd {
    seat: RunSeat,
    /// How many parts the seat has, or `MANY` where it has more.
    count: u16,
}

impl RunEnd {
    /// Begins with the pool's part, and those of the segments that are in the pool.
    pub fn new(table: &Arc<RunTable, Global>, pool: RunPool) -> RunEnd
        requires pool { IsPoolOf (arc_value table.now).table.shared.table_id
            (arc_value table.now).table.shared.key pool }
        ensures gathered { HasGathered (arc_value table.now).table.shared.table_id
            (parts_of_pool (arc_value table.now).table.shared.key pool) result }
    {
        let RunPool { pool: kept, call } = pool;
        let mut end = RunEnd {
            seat: call,
            count: 1,
        };
        end.pooled(table, kept);
        end
    }

    /// A worker leaves: its own part is given back, and those of the segments that it holds. What it has in hand
    /// stays parted in the run's last state.
    pub fn worker(&mut self, table: &Arc<RunTable, Global>, worker: RunWorker)
        requires same { self.old.seat.seat.table_id
            ≡ (arc_value table.now).table.shared.table_id }
        requires ready { IsReady worker }
        requires of_it { (arc_value worker.table).table.shared.table_id
            ≡ (arc_value table.now).table.shared.table_id }
        ensures same { self.new.seat.seat.table_id ≡ self.old.seat.seat.table_id }
        ensures gathered { (id : TableId) (roles : List Role) → HasGathered id roles self.old
            → HasGathered id (roles ++ parts_of_worker worker) self.new }
    {
        let RunWorker {
            table: _,
            policy: _,
            number: _,
            heap,
            call,
            own: _,
            hand: _,
        } = worker;
        self.part(table, call);
        self.held(table, heap);
    }

    /// The one part that a seat has is given back, as that of a remote list.
    pub fn part(&mut self, table: &Arc<RunTable, Global>, seat: RunSeat)
        requires same { self.old.seat.seat.table_id
            ≡ (arc_value table.now).table.shared.table_id }
        requires of_it { seat.seat.table_id ≡ (arc_value table.now).table.shared.table_id }
        ensures same { self.new.seat.seat.table_id ≡ self.old.seat.seat.table_id }
        ensures gathered { (id : TableId) (roles : List Role) (role : Role)
            → HasGathered id roles self.old → IsOthers seat role
            → HasGathered id (roles ++ role ∷ []) self.new }
    {
        table.join(&mut self.seat, seat);
        if self.count < MANY {
            self.count += 1;
        }
    }

    /// Ends the table, of which this is the policy, where all parts were given back; else nothing
    /// changes, and both are given back. All calls that were logged are one run of the policy's
    /// machine then, from its opening to a state that the words show.
    pub fn close(
        self,
        table: RunTable,
        policy: &Policy,
    ) -> Result<Closed<(), Global>, (RunTable, RunEnd)>
        requires same { self.seat.seat.table_id ≡ table.table.shared.table_id }
        requires key { table.table.shared.key ≡ policy.now }
        ensures run { IfOk result (λ closed. (roles : List Role)
            → HasGathered table.table.shared.table_id roles self
            → IsRunOfAll policy.now (slots_items closed.words) roles) }
        ensures all { IfOk result (λ _. (roles : List Role)
            → HasGathered table.table.shared.table_id roles self
            → length roles ≡ (running policy.now).count) }
        ensures words { IfOk result (λ closed.
            slots_len closed.words ≡ places_of_policy policy.now + 1) }
        ensures full { IfOk result (λ closed. IsFull closed.words) }
        ensures no_slot { IfOk result (λ closed. slots_len closed.slots ≡ 0) }
        ensures missing { IfErr result (λ _. (roles : List Role)
            → HasGathered table.table.shared.table_id roles self
            → length roles ≢ (running policy.now).count) }
        ensures unchanged { IfErr result (λ back. back ≡ (table, self)) }
    {
        let segments = u16::from(policy.segments());
        let all = u16::from(policy.workers()) + segments + 1 + segments;
        if self.count != all {
            return Err((table, self));
        }
        Ok(table.close(self.seat))
    }

    /// The parts of the segments that a heap holds.
    fn held(&mut self, table: &Arc<RunTable, Global>, heap: Heap<RunSegment>)
        requires same { self.old.seat.seat.table_id
            ≡ (arc_value table.now).table.shared.table_id }
        requires seated { (at : ℕ) (k : Kept RunSegment) → slice_get heap.segments at ≡ Some k
            → IsSeated (arc_value table.now).table.shared.table_id k.slots }
        ensures same { self.new.seat.seat.table_id ≡ self.old.seat.seat.table_id }
        ensures gathered { (id : TableId) (roles : List Role) → HasGathered id roles self.old
            → HasGathered id (roles ++ parts_of_segments heap.segments) self.new }
    {
        let mut heap = heap;
        for segment in 0..MAX_SEGMENTS as u8 {
            if let Some(one) = heap.release(segment) {
                self.part(table, one.into_slots().into_seat());
            }
        }
    }

    /// And of those that are in a pool.
    fn pooled(&mut self, table: &Arc<RunTable, Global>, pool: Pool<RunSegment>)
        requires same { self.old.seat.seat.table_id
            ≡ (arc_value table.now).table.shared.table_id }
        requires seated { (k : Kept RunSegment) → Contains (pooled_in pool) k
            → IsSeated (arc_value table.now).table.shared.table_id k.slots }
        ensures same { self.new.seat.seat.table_id ≡ self.old.seat.seat.table_id }
        ensures gathered { (id : TableId) (roles : List Role) → HasGathered id roles self.old
            → HasGathered id (roles ++ parts_of_segments (pooled_in pool)) self.new }
    {
        let mut pool = pool;
        for segment in 0..MAX_SEGMENTS as u8 {
            if let Some(one) = pool.pick(segment) {
                self.part(table, one.into_slots().into_seat());
            }
        }
    }
}
