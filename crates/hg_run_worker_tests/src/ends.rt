//! A service ends: its workers, its pool and its lists are given back.

ghost use Rattle.std.specs.Prelude.{◌≡◌, ℕ, Some, length, slice_get};
ghost use Rattle.std.specs.Arc.{arc_value};
ghost use Rattle.hg_run_table.specs.declared.table.RunSeat.{RunSeat};
ghost use Rattle.hg_run_worker.specs.declared.worker.RunWorker.{RunWorker};
ghost use Rattle.hg_run_worker.specs.AtWork.{IsReady, KeepsRest};
ghost use Rattle.hg_run_worker.specs.Pools.{IsPoolOf};

use crate::policies::policy;
use hg_place::Actor;
use hg_policy::Policy;
use hg_run_table::{RunSeat, RunTable};
use hg_run_worker::{NotEnded, RunPool, RunWorker, end_service};
use std::alloc::{AllocError, Global};
use std::sync::Arc;

/// How it ends, with the spare word and that of the first place.
#[derive(Clone, Copy, Debug, PartialEq)]
enum Ended {
    AsOneRun([u64; 2]),
    /// The table has another owner.
    Shared,
    /// Parts are missing.
    Missing,
}

/// What is given back.
#[derive(Clone, Copy, PartialEq)]
enum Back {
    All,
    /// The second worker isn't.
    OneWorker,
}

/// A worker gives a block out and frees it.
fn use_a_block(worker: &mut RunWorker)
    requires ready { IsReady worker.old }
    ensures ready { IsReady worker.new }
    ensures rest { KeepsRest worker.old worker.new }
{
    let Ok(handle) = worker.alloc(Actor(0), 0, 64) else {
        return;
    };
    if !worker.holds(handle.place.segment) {
        return;
    }
    let _freed = worker.free_here(Actor(0), handle);
}

/// Two workers serve, one after the other: the first uses a block and gives its segment up, which the
/// second takes.
#[tactic(auto, using(crate::proofs::Staying::pool_stays))]
fn serve(one: &mut RunWorker, two: &mut RunWorker, pool: &mut RunPool)
    requires ready { IsReady one.old }
    requires ready_too { IsReady two.old }
    requires same { (arc_value two.old.table ≡ arc_value one.old.table)
        × (two.old.policy ≡ one.old.policy) }
    requires pool { IsPoolOf (arc_value one.old.table).table.shared.table_id one.old.policy
        pool.old }
    ensures ready { IsReady one.new }
    ensures ready_too { IsReady two.new }
    ensures rest { KeepsRest one.old one.new }
    ensures rest_too { KeepsRest two.old two.new }
    ensures pool { IsPoolOf (arc_value one.old.table).table.shared.table_id one.old.policy
        pool.new }
{
    one.refill(0, pool);
    use_a_block(one);
    one.abandon(0, pool);
    two.refill(0, pool);
}

/// Two workers of a new table serve. Then these parts are given back.
fn given_back(alloc: Global, policy: &Policy, back: Back) -> Result<Ended, AllocError>
    requires segments { length policy.now.segments ≡ 2 }
    requires workers { policy.now.workers ≡ 2 }
{
    let (table, mut seats) = RunTable::open(alloc, policy)?;
    let Some(seat) = seats.workers.pop() else {
        unreachable!()
    };
    let table = Arc::new(alloc, table)?;
    let mut two = RunWorker::new(alloc, &table, policy, 1, seat)?;
    let Some(seat) = seats.workers.pop() else {
        unreachable!()
    };
    let mut one = RunWorker::new(alloc, &table, policy, 0, seat)?;
    let mut pool = RunPool::new(alloc, &table, policy, seats.pool, seats.segments)?;
    serve(&mut one, &mut two, &mut pool);
    let mut workers = Vec::with_capacity(alloc, 2)?;
    workers.push(one)?;
    if back == Back::OneWorker {
        drop(two);
        return ends(table, policy, pool, seats.lists, workers);
    }
    workers.push(two)?;
    ends(table, policy, pool, seats.lists, workers)
}

/// How it ends.
fn ends(
    table: Arc<RunTable, Global>,
    policy: &Policy,
    pool: RunPool,
    lists: Vec<RunSeat>,
    workers: Vec<RunWorker>,
) -> Result<Ended, AllocError>
    requires segments { length policy.now.segments ≡ 2 }
    requires key { (arc_value table).table.shared.key ≡ policy.now }
    requires pool { IsPoolOf (arc_value table).table.shared.table_id policy.now pool }
    requires lists { (k : ℕ) (seat : RunSeat) → slice_get lists.items k ≡ Some seat
        → seat.seat.table_id ≡ (arc_value table).table.shared.table_id }
    requires ready { (k : ℕ) (worker : RunWorker) → slice_get workers.items k ≡ Some worker
        → IsReady worker }
    requires of_it { (k : ℕ) (worker : RunWorker) → slice_get workers.items k ≡ Some worker
        → (arc_value worker.table).table.shared.table_id
        ≡ (arc_value table).table.shared.table_id }
{
    match end_service(table, policy, pool, lists, workers) {
        Ok(closed) => {
            let words = [closed.word(0), closed.word(1)];
            closed.free();
            Ok(Ended::AsOneRun(words))
        }
        Err(NotEnded::Shared(table, end)) => {
            drop(table);
            drop(end);
            Ok(Ended::Shared)
        }
        Err(NotEnded::Missing(table, end)) => {
            drop(table);
            drop(end);
            Ok(Ended::Missing)
        }
    }
}

#[test]
fn a_service_ends_as_one_run(rt: HostRuntime) {
    let alloc = rt.alloc();
    let policy = policy(alloc).ok().expect(&rt, "a policy");
    assert!(&rt; policy.segments() == 2);
    assert!(&rt; policy.workers() == 2);
    let all = given_back(alloc, &policy, Back::All)
        .ok()
        .expect(&rt, "memory");
    // the word of the first place is that of its first life, which has ended, of the first tenant
    assert_eq!(&rt; all, Ended::AsOneRun([0, 4_294_967_296]));
    let one = given_back(alloc, &policy, Back::OneWorker)
        .ok()
        .expect(&rt, "memory");
    assert_eq!(&rt; one, Ended::Missing);
}

// The same, where memory may be refused: for a run in which requests are refused in turn.
#[test]
fn end_refused_in_turn(rt: HostRuntime) {
    let alloc = rt.alloc();
    let Ok(policy) = policy(alloc) else {
        return;
    };
    assert!(&rt; policy.segments() == 2);
    assert!(&rt; policy.workers() == 2);
    let Ok(all) = given_back(alloc, &policy, Back::All) else {
        return;
    };
    assert_eq!(&rt; all, Ended::AsOneRun([0, 4_294_967_296]));
}
