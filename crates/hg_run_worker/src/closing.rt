//! A whole service ends: the parts of its pool, its remote lists and its workers are given back at
//! once.

ghost use Rattle.std.specs.Prelude.{◌≡◌, ℕ, ◌+◌, List, ◌++◌, slice_get, Some, IfErr, IfOk};
ghost use Rattle.std.specs.Prelude.{length};
ghost use Rattle.std.specs.List.{AllZip};
ghost use Rattle.std.specs.Arc.{arc_value};
ghost use Rattle.atomic_table.specs.Seated.{TableId};
ghost use Rattle.core.specs.Mem.Slots.{IsFull, slots_items, slots_len};
ghost use Rattle.hg_roles.specs.Histories.{IsRunOfAll};
ghost use Rattle.hg_roles.specs.Roles.{Role};
ghost use Rattle.hg_roles.specs.Served.{places_of_policy, running};
ghost use Rattle.hg_run_table.specs.JoinedCalls.{IsOthers};
ghost use Rattle.hg_run_worker.specs.AtWork.{IsReady};
ghost use Rattle.hg_run_worker.specs.Ending.{HasGathered};
ghost use Rattle.hg_run_worker.specs.Pools.{IsPoolOf};
ghost use Rattle.hg_run_worker.specs.Service.{IsLeft, IsRunOfService, all_parts, parts_of_workers};

use crate::{RunEnd, RunPool, RunWorker};
use atomic_table::Closed;
use hg_policy::Policy;
use hg_run_table::{RunSeat, RunTable};
use std::alloc::Global;
use std::sync::Arc;

/// Why a service has not ended, with its table and all parts that were given back: more may be given
/// back, and the end asked for again.
#[derive(Drop)]
pub enum NotEnded {
    /// The table has another owner, as a worker or a segment that wasn't given back.
    Shared(Arc<RunTable, Global>, RunEnd),
    /// The parts are not as many as the policy has.
    Missing(RunTable, RunEnd),
}

/// Ends a service, of which this is the policy, by its pool, the seats of its remote lists, and its
/// workers: then all calls that the workers logged are one run of the policy's machine, from its
/// opening to a state that the words show.
pub fn end_service(
    table: Arc<RunTable, Global>,
    policy: &Policy,
    pool: RunPool,
    lists: Vec<RunSeat>,
    workers: Vec<RunWorker>,
) -> Result<Closed<(), Global>, NotEnded>
    requires key { (arc_value table).table.shared.key ≡ policy.now }
    requires pool { IsPoolOf (arc_value table).table.shared.table_id policy.now pool }
    requires lists { (k : ℕ) (seat : RunSeat) → slice_get lists.items k ≡ Some seat
        → seat.seat.table_id ≡ (arc_value table).table.shared.table_id }
    requires ready { (k : ℕ) (worker : RunWorker) → slice_get workers.items k ≡ Some worker
        → IsReady worker }
    requires of_it { (k : ℕ) (worker : RunWorker) → slice_get workers.items k ≡ Some worker
        → (arc_value worker.table).table.shared.table_id
        ≡ (arc_value table).table.shared.table_id }
    ensures run { IfOk result (λ closed. (roles : List Role)
        → AllZip IsOthers lists.items roles
        → IsRunOfService policy.now (slots_items closed.words) pool roles workers.items) }
    ensures all { IfOk result (λ _. (roles : List Role)
        → AllZip IsOthers lists.items roles
        → length (all_parts policy.now pool roles workers.items) ≡ (running policy.now).count) }
    ensures words { IfOk result (λ closed.
        slots_len closed.words ≡ places_of_policy policy.now + 1) }
    ensures full { IfOk result (λ closed. IsFull closed.words) }
    ensures no_slot { IfOk result (λ closed. slots_len closed.slots ≡ 0) }
    ensures left { IfErr result (λ left. (roles : List Role)
        → AllZip IsOthers lists.items roles
        → IsLeft policy.now (arc_value table) (all_parts policy.now pool roles workers.items)
        left) }
{
    let mut end = RunEnd::new(&table, pool);
    end.parts(&table, lists);
    end.workers(&table, workers);
    end.finish(table, policy)
}

impl RunEnd {
    /// Ends the table, of which this is the policy, where it has no other owner and all parts were
    /// given back; else nothing changes, and both are given back.
    pub fn finish(
        self,
        table: Arc<RunTable, Global>,
        policy: &Policy,
    ) -> Result<Closed<(), Global>, NotEnded>
        requires same { self.seat.seat.table_id ≡ (arc_value table).table.shared.table_id }
        requires key { (arc_value table).table.shared.key ≡ policy.now }
        ensures run { IfOk result (λ closed. (roles : List Role)
            → HasGathered (arc_value table).table.shared.table_id roles self
            → IsRunOfAll policy.now (slots_items closed.words) roles) }
        ensures all { IfOk result (λ _. (roles : List Role)
            → HasGathered (arc_value table).table.shared.table_id roles self
            → length roles ≡ (running policy.now).count) }
        ensures words { IfOk result (λ closed.
            slots_len closed.words ≡ places_of_policy policy.now + 1) }
        ensures full { IfOk result (λ closed. IsFull closed.words) }
        ensures no_slot { IfOk result (λ closed. slots_len closed.slots ≡ 0) }
        ensures left { IfErr result (λ left. (roles : List Role)
            → HasGathered (arc_value table).table.shared.table_id roles self
            → IsLeft policy.now (arc_value table) roles left) }
    {
        match Arc::try_unwrap(table) {
            Ok(table) => match self.close(table, policy) {
                Ok(closed) => Ok(closed),
                Err((table, end)) => Err(NotEnded::Missing(table, end)),
            },
            Err(table) => Err(NotEnded::Shared(table, self)),
        }
    }

    /// The one part that each seat has is given back, as those of remote lists.
    pub fn parts(&mut self, table: &Arc<RunTable, Global>, seats: Vec<RunSeat>)
        requires same { self.old.seat.seat.table_id
            ≡ (arc_value table.now).table.shared.table_id }
        requires of_it { (k : ℕ) (seat : RunSeat) → slice_get seats.items k ≡ Some seat
            → seat.seat.table_id ≡ (arc_value table.now).table.shared.table_id }
        ensures same { self.new.seat.seat.table_id ≡ self.old.seat.seat.table_id }
        ensures gathered { (id : TableId) (roles theirs : List Role)
            → HasGathered id roles self.old → AllZip IsOthers seats.items theirs
            → HasGathered id (roles ++ theirs) self.new }
    {
        for seat in seats {
            self.part(table, seat);
        }
    }

    /// Workers leave, one after the other.
    pub fn workers(&mut self, table: &Arc<RunTable, Global>, workers: Vec<RunWorker>)
        requires same { self.old.seat.seat.table_id
            ≡ (arc_value table.now).table.shared.table_id }
        requires ready { (k : ℕ) (worker : RunWorker) → slice_get workers.items k ≡ Some worker
            → IsReady worker }
        requires of_it { (k : ℕ) (worker : RunWorker) → slice_get workers.items k ≡ Some worker
            → (arc_value worker.table).table.shared.table_id
            ≡ (arc_value table.now).table.shared.table_id }
        ensures same { self.new.seat.seat.table_id ≡ self.old.seat.seat.table_id }
        ensures gathered { (id : TableId) (roles : List Role) → HasGathered id roles self.old
            → HasGathered id (roles ++ parts_of_workers workers.items) self.new }
    {
        for worker in workers {
            self.worker(table, worker);
        }
    }
}
