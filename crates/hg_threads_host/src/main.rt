//! A host in Rattle with two threads: a worker of one service serves each. One thread gives a block
//! to the other, which frees it, while the first gives out another. Then both stop, the service
//! closes, and one thread goes on in a core.
#![tactic(auto)]

ghost use Rattle.std.specs.Prelude.{◌≡◌, length};
ghost use Rattle.hg_table.specs.Named.{table_of};

use hg_core::Core;
use hg_machine::Answer;
use hg_place::{Actor, Handle};
use hg_policy::Policy;
use hg_policy_text::read_policy;
use hg_service::{Service, Unclosed, Worker};
use hg_table::LifeTable;
use hg_worker::ServiceName;
use std::alloc::Global;
use std::io;
use std::marker::Brand;
use std::sync::Wait;
use std::thread::{Threads, join};

const POLICY: &str = "version = 1\nworkers = 2\narena = [ {name = \"main\", segments = 2} ]\n\
    tenant = [ {name = \"alice\", limit = 8192}, {name = \"bob\", limit = 8192} ]\n\
    grant = [ {owner = \"alice\", to = \"bob\", rights = [\"free\"]} ]\n";

const ALICE: Actor = Actor(0);

const BOB: Actor = Actor(1);

const MAIN: u8 = 0;

/// A block of 24 bytes of alice's with a number in its first word.
fn kept<N: ServiceName>(worker: &mut Worker<N>, number: u64) -> Option<Handle> {
    let Answer::Block(block) = worker.own.alloc(ALICE, MAIN, 24) else {
        return None;
    };
    match worker.own.write(ALICE, block, 0, number) {
        Answer::Done => Some(block),
        _ => None,
    }
}

/// Frees another's block, and sends it to the worker that holds its segment.
fn given_up<R: Wait, N: ServiceName>(
    rt: &R,
    worker: &mut Worker<N>,
    block: Handle,
) -> (Answer, Answer) {
    let freed = worker.own.free(BOB, block);
    (freed, worker.deliver(rt))
}

/// Two threads, and what each of them did.
fn served<R: Print + Threads + Wait + Sync, N: ServiceName + Send + Sync>(
    rt: &R,
    one: &mut Worker<N>,
    other: &mut Worker<N>,
) -> io::Result<()> {
    println!(rt; "refill: {:?}", one.refill(rt, MAIN))?;
    let Some(block) = kept(one, 42) else {
        return println!(rt; "no block");
    };
    let (next, (freed, sent)) = join(rt, || kept(one, 43), || given_up(rt, other, block));
    println!(rt; "{block} freed by the other: {freed:?}, sent: {sent:?}")?;
    println!(rt; "another given out meanwhile: {}", next.is_some())?;
    println!(rt; "take: {:?}", one.take(rt, 0))
}

/// Two threads, until both workers have left.
fn left<R: Print + Threads + Wait + Sync, N: ServiceName + Send + Sync>(
    rt: &R,
    one: Worker<N>,
    other: Worker<N>,
) -> io::Result<()> {
    let (mut one, mut other) = (one, other);
    let ended = served(rt, &mut one, &mut other);
    one.leave(rt);
    other.leave(rt);
    ended
}

/// The first worker of the core takes up the segment that the pool has.
fn went_on(core: &mut Core) -> Option<u8> {
    if core.policy().workers() == 0 {
        return None;
    }
    core.refill(0, MAIN).ok()
}

/// The service closes, and one thread goes on in its core, in which alice's second block lives.
fn closed<R: Print + Wait, N: ServiceName>(
    rt: &R,
    alloc: Global,
    service: Service<N>,
) -> io::Result<()> {
    match service.close(rt, alloc) {
        Ok(mut core) => {
            let told = went_on(&mut core);
            let bytes = core.charge(0, 0);
            drop(core);
            println!(rt; "closed; refill: {told:?}, then alice has {bytes} bytes")
        }
        Err(Unclosed::Running(service, fault)) => {
            drop(service);
            println!(rt; "it goes on: {fault:?}")
        }
        Err(Unclosed::Lost(place, parts)) => {
            drop(parts);
            println!(rt; "{place:?} is lost")
        }
    }
}

/// Opens the service that N names, and takes its two workers.
fn host<R: Print + Threads + Wait + Sync, N: ServiceName + Send + Sync>(
    rt: &R,
    alloc: Global,
    policy: Policy,
    table: LifeTable,
) -> io::Result<()>
    requires policy { policy ≡ N.policy }
    requires table { table_of table ≡ N.table }
    requires segments { table.segments ≡ length policy.segments }
    requires workers { table.workers ≡ policy.workers }
{
    let mut service = Service::<N>::open(alloc, policy, table)?;
    let ended = match (service.worker(0), service.worker(1)) {
        (Some(one), Some(other)) => left(rt, one, other),
        (one, other) => {
            drop(one);
            drop(other);
            println!(rt; "no such worker")
        }
    };
    match ended {
        Ok(()) => closed(rt, alloc, service),
        Err(fault) => {
            drop(service);
            Err(fault)
        }
    }
}

fn main(rt: HostRuntime) -> io::Result<()> {
    let alloc = rt.alloc();
    let policy = match read_policy(alloc, POLICY.as_bytes()) {
        Ok(policy) => policy,
        Err(fault) => return println!(rt; "{fault}"),
    };
    match LifeTable::new(alloc, &policy) {
        Ok(table) => host::<_, Brand>(&rt, alloc, policy, table),
        Err(error) => {
            drop(policy);
            Err(error.into())
        }
    }
}
