//! A service is asked to close, again and again, while one of its workers goes on in a thread.

ghost use Rattle.std.specs.Prelude.{◌≡◌, length};
ghost use Rattle.hg_table.specs.Named.{table_of};

use crate::asked::{ALICE, Asked, Block, MAIN, Told, X};
use crate::calls::{answers, is_told};
use crate::steps::DOCUMENT;
use crate::tried::made;
use hg_close::CloseFault;
use hg_core::Core;
use hg_policy::Policy;
use hg_service::{Service, Unclosed, Worker};
use hg_table::LifeTable;
use hg_worker::ServiceName;
use std::alloc::Global;
use std::marker::Brand;
use std::process::Abort;
use std::sync::Wait;
use std::sync::atomic::{AtomicU64, Ordering};
use std::thread::{Threads, join};

/// How often a service is asked at most.
const TRIES: u32 = 1_000_000;

/// How often the worker takes the segment and gives it up at most.
const ROUNDS: u32 = 1_000_000_000;

/// How often the service is asked while the worker goes on.
const TIMES: u64 = 200;

/// How many blocks are freed, each after the service was asked once more.
const BLOCKS: u16 = 16;

/// A service is asked until it closes; each time that it doesn't is counted.
fn closes_at_last<N: ServiceName, R: Wait + Abort>(
    rt: &R,
    alloc: Global,
    service: Service<N>,
    asked: &AtomicU64,
) -> Core {
    let mut service = service;
    for _ in 0..TRIES {
        match service.close(rt, alloc) {
            Ok(core) => return core,
            Err(Unclosed::Running(same, fault)) => {
                assert!(rt; fault == CloseFault::StillHeld(0) || fault == CloseFault::StillOut(0));
                asked.fetch_add(1, Ordering::SeqCst);
                service = same;
            }
            Err(Unclosed::Lost(_, parts)) => {
                drop(parts);
                panic!(rt; "a block is lost")
            }
        }
    }
    drop(service);
    panic!(rt; "it never closes")
}

/// The block of a number, behind the one that is kept.
fn block(number: u16) -> Block {
    Block(0, 0, number, 1)
}

/// Gives out the block that is kept, with a word, and those that are freed then, and gives the segment
/// up.
fn begins<N: ServiceName, R: Wait + Abort>(rt: &R, worker: &mut Worker<N>) {
    answers(rt, worker, Asked::Refill(MAIN), Told::Refilled(0));
    for number in 0..=BLOCKS {
        let told = Told::Block(block(number));
        answers(rt, worker, Asked::Alloc(ALICE, MAIN, 24), told);
    }
    answers(rt, worker, Asked::Write(ALICE, X, 5), Told::Done);
    answers(rt, worker, Asked::Abandon(0), Told::Done);
}

/// Takes the segment and gives it up, again and again: it is always there.
fn holds_and_gives_up<N: ServiceName, R: Wait + Abort>(rt: &R, worker: &mut Worker<N>) {
    answers(rt, worker, Asked::Refill(MAIN), Told::Refilled(0));
    answers(rt, worker, Asked::Read(ALICE, X), Told::Value(5));
    answers(rt, worker, Asked::Abandon(0), Told::Done);
}

/// Goes on until the service was asked often. Whenever it was asked once more, a block is freed in the
/// segment, which nobody holds then, and sent; and in the end the worker leaves.
fn goes_round<N: ServiceName, R: Wait + Abort>(rt: &R, worker: Worker<N>, asked: &AtomicU64) {
    let mut worker = worker;
    let mut freed = 0u16;
    for _ in 0..ROUNDS {
        holds_and_gives_up(rt, &mut worker);
        let times = asked.load(Ordering::SeqCst);
        if freed < BLOCKS && times > u64::from(freed) {
            freed += 1;
            answers(
                rt,
                &mut worker,
                Asked::Free(ALICE, block(freed)),
                Told::Parted,
            );
            answers(rt, &mut worker, Asked::Deliver, Told::Done);
        }
        if freed == BLOCKS && times >= TIMES {
            break;
        }
    }
    worker.leave(rt);
}

/// A service is asked while its worker goes on, and has in the end what that left.
fn in_two<N: ServiceName + Send + Sync, R: Threads + Wait + Abort + Sync>(
    rt: &R,
    alloc: Global,
    service: Service<N>,
) -> Core {
    let mut service = service;
    let mut worker = service.worker(0).expect(rt, "a worker");
    begins(rt, &mut worker);
    let asked = AtomicU64::new(0);
    let (core, ()) = join(
        rt,
        || closes_at_last(rt, alloc, service, &asked),
        || goes_round(rt, worker, &asked),
    );
    core
}

/// The core that a new service of the name N becomes.
fn asked_meanwhile<N: ServiceName + Send + Sync, R: Threads + Wait + Abort + Sync>(
    rt: &R,
    alloc: Global,
    made: (Policy, LifeTable),
) -> Core
    requires table { table_of made.1 ≡ N.table }
    requires policy { made.0 ≡ N.policy }
    requires segments { made.1.segments ≡ length made.0.segments }
    requires workers { made.1.workers ≡ made.0.workers }
{
    let service = Service::<N>::open(alloc, made.0, made.1).expect(rt, "a service");
    in_two(rt, alloc, service)
}

/// The core that the service of the document becomes.
fn closed_meanwhile<R: Threads + Wait + Abort + Sync>(rt: &R, alloc: Global) -> Core {
    let made = made(alloc, DOCUMENT).expect(rt, "a policy and a table");
    asked_meanwhile::<Brand, R>(rt, alloc, made)
}

/// A service that is asked while its worker takes a segment, gives it up, sends blocks and leaves comes
/// back each time, the worker never meets an empty pool, and it closes with all that was left.
#[test]
fn close_is_asked_meanwhile(rt: HostRuntime) {
    let mut core = closed_meanwhile(&rt, rt.alloc());
    assert!(&rt; is_told(&rt, &mut core, Asked::Refill(MAIN), Told::Refilled(0)));
    assert!(&rt; is_told(&rt, &mut core, Asked::Read(ALICE, X), Told::Value(5)));
    assert!(&rt; is_told(&rt, &mut core, Asked::Take(0), Told::Taken(16)));
    drop(core);
}
