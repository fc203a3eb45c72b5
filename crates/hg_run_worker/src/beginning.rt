//! A worker that has made no call.

ghost use Rattle.std.specs.Prelude.{◌≡◌, ◌<◌, [], None, IfOk};
ghost use Rattle.std.specs.Arc.{arc_value};
ghost use Rattle.hg_heap.specs.Held.{is_held};
ghost use Rattle.hg_run_table.specs.Calls.{log_in};
ghost use Rattle.hg_run_table.specs.NewSeats.{IsNewWorker};
ghost use Rattle.hg_run_worker.specs.AtWork.{IsReady, number_in};

use crate::RunWorker;
use hg_heap::Heap;
use hg_place::Handle;
use hg_policy::Policy;
use hg_run_table::{RunSeat, RunTable};
use std::alloc::{AllocError, Global};
use std::marker::Brand;
use std::sync::Arc;

impl RunWorker {
    /// The worker of a number, by its seat of a new table: it has made no call and holds nothing. Asks
    /// for a copy of the policy and for a heap without segments. Where memory was refused the seat is
    /// given up.
    pub fn new(
        alloc: Global,
        table: &Arc<RunTable, Global>,
        policy: &Policy,
        number: u8,
        seat: RunSeat,
    ) -> Result<RunWorker, AllocError>
        requires below { number < policy.now.workers }
        requires key { (arc_value table.now).table.shared.key ≡ policy.now }
        requires new { IsNewWorker policy.now (arc_value table.now).table.shared.table_id number
            seat }
        ensures ready { IfOk result IsReady }
        ensures table { IfOk result (λ worker. arc_value worker.table ≡ arc_value table.now) }
        ensures policy { IfOk result (λ worker. worker.policy ≡ policy.now) }
        ensures number { IfOk result (λ worker. worker.number ≡ number) }
        ensures nothing { IfOk result (λ worker. worker.heap.segments ≡ []) }
        ensures hand { IfOk result (λ worker. worker.hand ≡ None) }
        ensures log { IfOk result (λ worker. log_in worker.call ≡ []) }
    {
        let mut seat = seat;
        let call = table.split::<Brand>(&mut seat);
        let table = Arc::try_clone(table)?;
        let policy = policy.copy(alloc)?;
        let heap = Heap::new(alloc)?;
        Ok(RunWorker {
            table,
            policy,
            number,
            heap,
            call,
            own: Some(seat),
            hand: None,
        })
    }

    /// The block that the worker has freed of a segment that it didn't hold, and not delivered yet.
    pub fn hand(&self) -> Option<Handle>
        ensures { result ≡ self.now.hand }
    {
        self.hand
    }

    /// Whether the worker holds the segment of a number.
    pub fn holds(&self, segment: u8) -> bool
        ensures { result ≡ is_held number_in self.now.heap.segments segment }
    {
        self.heap.holds(segment)
    }
}
