//! What each call of a worker is answered.

ghost use Rattle.std.specs.Prelude.{◌≡◌, length, IfOk};
ghost use Rattle.std.specs.Arc.{arc_value};
ghost use Rattle.hg_run_worker.specs.AtWork.{IsReady, KeepsRest};
ghost use Rattle.hg_run_worker.specs.Pools.{IsPoolOf};

use crate::policies::policy;
use hg_heap::{alloc_answer, done_answer, read_answer, refused_answer, unlisted};
use hg_machine::{Answer, Row, Rule};
use hg_place::{Actor, Handle, Place};
use hg_policy::Policy;
use hg_run_table::RunTable;
use hg_run_worker::{RunPool, RunWorker};
use std::alloc::{AllocError, Global};
use std::sync::Arc;

/// A call of a worker.
#[derive(Clone, Copy)]
enum Call {
    /// By whom, of which arena, and how many bytes.
    Alloc(Actor, u8, u64),
    Free(Actor, Handle),
    /// The index of a word.
    Read(Actor, Handle, u32),
    /// The index of a word, and its value.
    Write(Actor, Handle, u32, u64),
    Look(Actor, Place),
    Refill(u8),
    Abandon(u8),
    Collect,
}

/// The tenant, and a stranger.
const ALICE: Actor = Actor(0);

const NOBODY: Actor = Actor(1);

/// The arena, and one that isn't there.
const MAIN: u8 = 0;

const NOWHERE: u8 = 7;

/// The first place of the first segment, and its lives.
const PLACE: Place = Place {
    segment: 0,
    page: 0,
    index: 0,
};

const FIRST: Handle = Handle {
    place: PLACE,
    generation: 1,
};

const SECOND: Handle = Handle {
    place: PLACE,
    generation: 2,
};

const THIRD: Handle = Handle {
    place: PLACE,
    generation: 3,
};

/// The first place of the second segment, in its first life.
const OTHER: Handle = Handle {
    place: Place {
        segment: 1,
        page: 0,
        index: 0,
    },
    generation: 1,
};

/// A place of a segment that the policy lacks.
const NO_SEGMENT: Handle = Handle {
    place: Place {
        segment: 2,
        page: 0,
        index: 0,
    },
    generation: 1,
};

/// How the second life of the first place is listed.
const ROW: Row = Row {
    handle: SECOND,
    owner: 0,
    bytes: 4096,
};

/// Refusals by the rules.
const STRANGER: Answer = Answer::Denied(Rule::Stranger);

const FOREIGN: Answer = Answer::Denied(Rule::ForeignArena);

const OVER: Answer = Answer::Denied(Rule::OverLimit);

const FREED: Answer = Answer::Denied(Rule::AlreadyFreed);

const NEVER_GIVEN_OUT: Answer = Answer::Denied(Rule::Stale(0));

const STALE: Answer = Answer::Denied(Rule::Stale(2));

/// A call, and what it must be answered: `None` where the worker doesn't hold the segment, and so isn't
/// asked.
type Told = (Call, Option<Answer>);

/// Nothing is held, then both segments.
fn refills() -> [Told; 8] {
    [
        (Call::Collect, Some(Answer::Pages(0))),
        (Call::Read(ALICE, FIRST, 0), Some(NEVER_GIVEN_OUT)),
        (Call::Alloc(ALICE, MAIN, 4096), Some(Answer::NoRoom)),
        (Call::Refill(MAIN), Some(Answer::Refilled(0))),
        (Call::Refill(NOWHERE), Some(Answer::NoSegment)),
        (Call::Refill(MAIN), Some(Answer::Refilled(1))),
        (Call::Refill(MAIN), Some(Answer::NoSegment)),
        (Call::Collect, Some(Answer::Pages(0))),
    ]
}

/// A block of a page is used and freed, and its place is given out once more.
fn blocks() -> [Told; 22] {
    [
        (Call::Look(ALICE, PLACE), Some(NEVER_GIVEN_OUT)),
        (Call::Alloc(ALICE, MAIN, 4096), Some(Answer::Block(FIRST))),
        (Call::Write(ALICE, FIRST, 511, 77), Some(Answer::Done)),
        (Call::Read(ALICE, FIRST, 511), Some(Answer::Value(77))),
        (Call::Read(ALICE, FIRST, 512), Some(Answer::OutOfBlock)),
        (Call::Write(NOBODY, FIRST, 511, 78), Some(STRANGER)),
        (Call::Alloc(ALICE, MAIN, 65_537), Some(Answer::TooLarge)),
        (Call::Alloc(ALICE, MAIN, 1), Some(OVER)),
        (Call::Alloc(NOBODY, MAIN, 1), Some(STRANGER)),
        (Call::Alloc(ALICE, NOWHERE, 1), Some(FOREIGN)),
        (Call::Free(ALICE, FIRST), Some(Answer::Done)),
        (Call::Free(ALICE, FIRST), Some(FREED)),
        (Call::Read(ALICE, FIRST, 511), Some(FREED)),
        (Call::Alloc(ALICE, MAIN, 4096), Some(Answer::Block(SECOND))),
        (Call::Read(ALICE, FIRST, 511), Some(STALE)),
        (Call::Read(ALICE, SECOND, 511), Some(Answer::Value(0))),
        (Call::Look(ALICE, PLACE), Some(Answer::Listed(ROW))),
        (Call::Collect, Some(Answer::Pages(0))),
        (Call::Free(ALICE, SECOND), Some(Answer::Done)),
        (Call::Collect, Some(Answer::Pages(1))),
        (Call::Collect, Some(Answer::Pages(0))),
        (Call::Alloc(ALICE, MAIN, 24), Some(Answer::Block(THIRD))),
    ]
}

/// Both segments are given up, with a block, and taken once more, the one that was given up first before
/// the other.
fn orphans() -> [Told; 19] {
    [
        (Call::Write(ALICE, THIRD, 2, 79), Some(Answer::Done)),
        (Call::Abandon(0), Some(Answer::Done)),
        (Call::Abandon(0), Some(Answer::NotHeld)),
        (Call::Abandon(NOWHERE), Some(Answer::NotHeld)),
        (Call::Read(ALICE, THIRD, 2), Some(Answer::Elsewhere)),
        (Call::Write(ALICE, THIRD, 2, 80), Some(Answer::Elsewhere)),
        (Call::Write(NOBODY, THIRD, 2, 80), Some(STRANGER)),
        (
            Call::Read(ALICE, FIRST, 2),
            Some(Answer::Denied(Rule::Stale(3))),
        ),
        (Call::Read(ALICE, NO_SEGMENT, 0), Some(NEVER_GIVEN_OUT)),
        (Call::Free(ALICE, THIRD), None),
        (Call::Look(ALICE, PLACE), Some(Answer::Elsewhere)),
        (Call::Look(NOBODY, PLACE), Some(STRANGER)),
        (Call::Alloc(ALICE, MAIN, 24), Some(Answer::Block(OTHER))),
        (Call::Abandon(1), Some(Answer::Done)),
        (Call::Alloc(ALICE, MAIN, 24), Some(Answer::NoRoom)),
        (Call::Refill(MAIN), Some(Answer::Refilled(0))),
        (Call::Read(ALICE, THIRD, 2), Some(Answer::Value(79))),
        (Call::Refill(MAIN), Some(Answer::Refilled(1))),
        (Call::Free(ALICE, OTHER), Some(Answer::Done)),
    ]
}

/// What a worker is answered of a block; a Free if it holds the segment.
fn told_of_a_block(worker: &mut RunWorker, call: Call) -> Option<Answer>
    requires ready { IsReady worker.old }
    ensures ready { IsReady worker.new }
    ensures rest { KeepsRest worker.old worker.new }
{
    match call {
        Call::Free(actor, handle) => {
            if !worker.holds(handle.place.segment) {
                return None;
            }
            Some(done_answer(worker.free_here(actor, handle)))
        }
        Call::Read(actor, handle, index) => { Some(read_answer(worker.read(actor, handle, index))) }
        Call::Write(actor, handle, index, value) => {
            Some(done_answer(worker.write(actor, handle, index, value)))
        }
        _ => None,
    }
}

/// What it is answered of a place.
fn told_of_a_place(worker: &mut RunWorker, policy: &Policy, actor: Actor, place: Place) -> Answer
    requires ready { IsReady worker.old }
    ensures ready { IsReady worker.new }
    ensures rest { KeepsRest worker.old worker.new }
{
    let mut shown = 0;
    match worker.look(actor, place, &mut shown) {
        Some(row) => Answer::Listed(row),
        None => refused_answer(unlisted(policy, actor, place, shown)),
    }
}

/// What a worker is answered, if it may be asked.
#[tactic(auto, using(crate::proofs::Staying::pool_stays))]
fn told(worker: &mut RunWorker, pool: &mut RunPool, policy: &Policy, call: Call) -> Option<Answer>
    requires ready { IsReady worker.old }
    requires pool { IsPoolOf (arc_value worker.old.table).table.shared.table_id worker.old.policy
        pool.old }
    ensures ready { IsReady worker.new }
    ensures pool { IsPoolOf (arc_value worker.new.table).table.shared.table_id worker.new.policy
        pool.new }
{
    match call {
        Call::Alloc(actor, arena, bytes) => Some(alloc_answer(worker.alloc(actor, arena, bytes))),
        Call::Look(actor, place) => Some(told_of_a_place(worker, policy, actor, place)),
        Call::Refill(arena) => match worker.refill(arena, pool) {
            Some(segment) => Some(Answer::Refilled(segment)),
            None => Some(Answer::NoSegment),
        },
        Call::Abandon(segment) => match worker.abandon(segment, pool) {
            true => Some(Answer::Done),
            false => Some(Answer::NotHeld),
        },
        Call::Collect => Some(Answer::Pages(worker.collect())),
        _ => told_of_a_block(worker, call),
    }
}

/// Which of these calls is the first that is answered otherwise, and what.
fn first_other(
    worker: &mut RunWorker,
    pool: &mut RunPool,
    policy: &Policy,
    calls: &[Told],
) -> Option<(usize, Option<Answer>)>
    requires ready { IsReady worker.old }
    requires pool { IsPoolOf (arc_value worker.old.table).table.shared.table_id worker.old.policy
        pool.old }
    ensures ready { IsReady worker.new }
    ensures pool { IsPoolOf (arc_value worker.new.table).table.shared.table_id worker.new.policy
        pool.new }
{
    for (at, (call, wanted)) in calls.iter().enumerate() {
        let answer = told(worker, pool, policy, *call);
        if answer != *wanted {
            return Some((at, answer));
        }
    }
    None
}

/// The worker of number 1 and the pool, of a new table.
fn opened(alloc: Global, policy: &Policy) -> Result<(RunWorker, RunPool), AllocError>
    requires segments { length policy.now.segments ≡ 2 }
    requires workers { policy.now.workers ≡ 2 }
    ensures ready { IfOk result (λ t. IsReady t.0) }
    ensures pool { IfOk result (λ t.
        IsPoolOf (arc_value t.0.table).table.shared.table_id t.0.policy t.1) }
{
    let (table, mut seats) = RunTable::open(alloc, policy)?;
    let Some(seat) = seats.workers.pop() else {
        unreachable!()
    };
    let table = Arc::new(alloc, table)?;
    let worker = RunWorker::new(alloc, &table, policy, 1, seat)?;
    let pool = RunPool::new(alloc, &table, policy, seats.pool, seats.segments)?;
    Ok((worker, pool))
}

/// Which call is the first that a worker of a new table is answered otherwise, and what.
pub fn served(alloc: Global, policy: &Policy) -> Result<Option<(usize, Option<Answer>)>, AllocError>
    requires segments { length policy.now.segments ≡ 2 }
    requires workers { policy.now.workers ≡ 2 }
{
    let (mut worker, mut pool) = opened(alloc, policy)?;
    let mut other = first_other(&mut worker, &mut pool, policy, &refills());
    if other.is_none() {
        other = first_other(&mut worker, &mut pool, policy, &blocks());
    }
    if other.is_none() {
        other = first_other(&mut worker, &mut pool, policy, &orphans());
    }
    drop(worker);
    drop(pool);
    Ok(other)
}

#[test]
fn a_worker_of_a_run_is_answered(rt: HostRuntime) {
    let alloc = rt.alloc();
    let policy = policy(alloc).ok().expect(&rt, "a policy");
    assert!(&rt; policy.segments() == 2);
    assert!(&rt; policy.workers() == 2);
    let other = served(alloc, &policy).ok().expect(&rt, "memory");
    assert_eq!(&rt; other, None);
}
