ghost use Rattle.std.specs.Prelude.{◌≡◌, ℕ, length, IfOk};
ghost use Rattle.hg_table.specs.Named.{table_of};
ghost use Rattle.hg_service.specs.New.{AreFresh, AreNew, AreUnsent};

use crate::kept_list::KeptList;
use crate::opening::opened;
use hg_policy::Policy;
use hg_table::LifeTable;
use hg_worker::{KeptPool, ServiceName, Worker};
use std::alloc::{AllocError, Global};

/// The parts of the service N, for a host that locks by itself and never waits here: a worker for
/// each of its threads, and what they share. A call is given the one list, or the pool, that the
/// host has locked for it; `Worker::hand` and `Worker::holds` tell which list that is to be. A part
/// that is dropped takes along what stands in it.
#[derive(Drop)]
pub struct CallerLocked<N: ServiceName> {
    /// That of the service.
    pub policy: Policy,
    /// By number.
    pub workers: Vec<Worker<N>>,
    /// By segment.
    pub lists: Vec<KeptList<N>>,
    /// The segments that nobody holds: at first all of them.
    pub pool: KeptPool<N>,
    ghost serves: { policy ≡ N.policy },
}

impl<N: ServiceName> CallerLocked<N> {
    /// The parts of a new service, over a table that was made for this policy. It takes all the
    /// memory that the parts will ever have; where some is refused the table is given up.
    pub fn open(
        alloc: Global,
        policy: Policy,
        table: LifeTable,
    ) -> Result<CallerLocked<N>, AllocError>
        requires policy { policy ≡ N.policy }
        requires table { table_of table ≡ N.table }
        requires segments { table.segments ≡ length policy.segments }
        requires workers { table.workers ≡ policy.workers }
        ensures policy { IfOk result (λ parts. parts.policy ≡ policy) }
        ensures workers { IfOk result (λ parts. AreNew policy.workers parts.workers.items) }
        ensures lists { IfOk result (λ parts.
            AreUnsent (length policy.segments) parts.lists.items) }
        ensures pool { IfOk result (λ parts.
            AreFresh policy 0 (length policy.segments) parts.pool.pool) }
    {
        opened(alloc, policy, table)
    }
}
