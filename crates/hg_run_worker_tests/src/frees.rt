//! What can be proved of two workers by the one run of their calls: of their frees of one block at most
//! one was served.

ghost use Rattle.std.specs.Prelude.{◌≡◌, true, IfOk, IfSome, IsTrue, length};
ghost use Rattle.std.specs.Arc.{arc_value};
ghost use Rattle.hg_place.specs.declared.Handle as place;
ghost use Rattle.hg_run_worker.specs.AtWork.{IsReady, KeepsRest};
ghost use Rattle.hg_run_worker.specs.Pools.{IsPoolOf};
ghost use Rattle.hg_run_worker_tests.specs.Frees.{HasLogged};

use crate::policies::policy;
use hg_place::{Actor, Handle};
use hg_policy::Policy;
use hg_run_table::RunTable;
use hg_run_worker::{RunPool, RunWorker, end_service};
use std::alloc::{AllocError, Global};
use std::sync::Arc;

/// Whether a worker frees a block.
fn frees(worker: &mut RunWorker, handle: Handle) -> bool
    requires ready { IsReady worker.old }
    ensures ready { IsReady worker.new }
    ensures rest { KeepsRest worker.old worker.new }
    ensures logged { IsTrue result → HasLogged handle worker.new }
{
    if !worker.holds(handle.place.segment) {
        return false;
    }
    worker.free_here(Actor(0), handle).is_ok()
}

/// Gives a segment up; what was logged before is logged.
#[tactic(auto, using(crate::proofs::Staying::pool_stays))]
fn gives_up(worker: &mut RunWorker, pool: &mut RunPool, segment: u8)
    requires ready { IsReady worker.old }
    requires pool { IsPoolOf (arc_value worker.old.table).table.shared.table_id worker.old.policy
        pool.old }
    ensures ready { IsReady worker.new }
    ensures rest { KeepsRest worker.old worker.new }
    ensures pool { IsPoolOf (arc_value worker.old.table).table.shared.table_id worker.old.policy
        pool.new }
    ensures logged { (handle : place.Handle) → HasLogged handle worker.old
        → HasLogged handle worker.new }
{
    worker.abandon(segment, pool);
}

/// Whether the one and the other free a block that the one gives out; it gives the segment up between.
/// None where there is no block.
#[tactic(auto, using(crate::proofs::Staying::pool_stays))]
fn free_in_turn(
    one: &mut RunWorker,
    two: &mut RunWorker,
    pool: &mut RunPool,
) -> Option<(bool, bool)>
    requires ready { IsReady one.old }
    requires ready_too { IsReady two.old }
    requires same { (arc_value two.old.table ≡ arc_value one.old.table)
        × (two.old.policy ≡ one.old.policy) }
    requires pool { IsPoolOf (arc_value one.old.table).table.shared.table_id one.old.policy
        pool.old }
    ensures ready { IsReady one.new }
    ensures ready_too { IsReady two.new }
    ensures rest { KeepsRest one.old one.new }
    ensures rest_too { KeepsRest two.old two.new }
    ensures pool { IsPoolOf (arc_value one.old.table).table.shared.table_id one.old.policy
        pool.new }
    ensures logged { IfSome result (λ freed. (handle : place.Handle)
        × (freed.0 ≡ true → HasLogged handle one.new)
        × (freed.1 ≡ true → HasLogged handle two.new)) }
{
    one.refill(0, pool);
    let Ok(handle) = one.alloc(Actor(0), 0, 64) else {
        return None;
    };
    let first = frees(one, handle);
    gives_up(one, pool, handle.place.segment);
    two.refill(0, pool);
    let second = frees(two, handle);
    Some((first, second))
}

/// Which of two workers free one block, in a service that ends as one run; never both. None where it
/// didn't come so far.
fn freed_by(alloc: Global, policy: &Policy) -> Result<Option<(bool, bool)>, AllocError>
    requires segments { length policy.now.segments ≡ 2 }
    requires workers { policy.now.workers ≡ 2 }
    ensures once { IfOk result (λ freed. IfSome freed (λ f. (f.0 ≡ true) × (f.1 ≡ true) → ⊥)) }
{
    let (table, mut seats) = RunTable::open(alloc, policy)?;
    let Some(seat) = seats.workers.pop() else {
        unreachable!()
    };
    let table = Arc::new(alloc, table)?;
    let mut two = RunWorker::new(alloc, &table, policy, 1, seat)?;
    let Some(seat) = seats.workers.pop() else {
        unreachable!()
    };
    let mut one = RunWorker::new(alloc, &table, policy, 0, seat)?;
    let mut pool = RunPool::new(alloc, &table, policy, seats.pool, seats.segments)?;
    let freed = free_in_turn(&mut one, &mut two, &mut pool);
    let mut workers = Vec::with_capacity(alloc, 2)?;
    workers.push(one)?;
    workers.push(two)?;
    match end_service(table, policy, pool, seats.lists, workers) {
        Ok(closed) => {
            closed.free();
            Ok(freed)
        }
        Err(left) => {
            drop(left);
            Ok(None)
        }
    }
}

#[test]
fn one_of_two_frees_is_served(rt: HostRuntime) {
    let alloc = rt.alloc();
    let policy = policy(alloc).ok().expect(&rt, "a policy");
    assert!(&rt; policy.segments() == 2);
    assert!(&rt; policy.workers() == 2);
    let freed = freed_by(alloc, &policy).ok().expect(&rt, "memory");
    assert_eq!(&rt; freed, Some((true, false)));
}
