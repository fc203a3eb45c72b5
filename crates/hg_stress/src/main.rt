//! Workers of one service in threads, each with a seeded stream of events on handles that all pass
//! on: `hg_stress POLICY SEED WORKERS EVENTS`. For each worker in turn it prints its calls as lines
//! of a trace, with their answers; then counts, and how the service closed. With `--counts` no call
//! is kept or printed.
#![tactic(auto)]

ghost use Rattle.std.specs.Prelude.{◌≡◌, length};
ghost use Rattle.hg_table.specs.Named.{table_of};

mod asked;
mod counts;
mod draw;
mod ending;
mod fault;
mod gate;
mod lane;
mod lives;
mod numbers;
mod one_line;
mod plan;
mod shared;
mod tally;
mod telling;

use crate::asked::{Request, asked};
use crate::ending::{Ending, end};
use crate::fault::Fault;
use crate::lane::{Done, Lane, add_lanes};
use crate::plan::Plan;
use crate::shared::Shared;
use crate::telling::tell;
use hg_calls::Names;
use hg_policy::Policy;
use hg_policy_text::read_policy;
use hg_replay::{ReadFault, read_limited};
use hg_service::Service;
use hg_table::LifeTable;
use hg_worker::ServiceName;
use std::alloc::{AllocError, Global};
use std::io::BufWriter;
use std::marker::Brand;
use std::process::ExitCode;
use std::sync::Wait;
use std::thread::{Threads, for_each_mut};
use std::{env, fs, io};

/// All streams, each in a thread of its own.
fn run<N: ServiceName + Send + Sync, R: Threads + Wait + Sync>(
    rt: &R,
    lanes: &mut [Lane<N>],
    shared: &Shared,
) {
    let count = lanes.len();
    if count > 0 {
        for_each_mut(
            rt,
            lanes,
            count,
            &|_, lane: &mut Lane<N>| lane.run(rt, shared),
        );
    }
}

/// The workers of a service at once, until each has come to the end of its stream and left; adds what
/// they did.
fn served<N: ServiceName + Send + Sync, R: Threads + Wait + Sync>(
    rt: &R,
    alloc: Global,
    service: &mut Service<N>,
    plan: Plan,
    shared: &Shared,
    done: &mut Vec<Done>,
) -> Result<(), AllocError> {
    let mut lanes = Vec::new(alloc);
    if let Err(error) = add_lanes(alloc, service, plan, &mut lanes) {
        drop(lanes);
        return Err(error);
    }
    run(rt, &mut lanes, shared);
    let mut kept = Ok(());
    for lane in lanes {
        if done.push(lane.leave(rt)).is_err() {
            kept = Err(AllocError);
        }
    }
    kept
}

/// A service from its first event to its close; adds what its workers did.
fn ended<N: ServiceName + Send + Sync, R: Threads + Wait + Sync>(
    rt: &R,
    alloc: Global,
    service: Service<N>,
    plan: Plan,
    shared: &Shared,
    done: &mut Vec<Done>,
) -> Result<Ending, AllocError> {
    let mut service = service;
    match served(rt, alloc, &mut service, plan, shared, done) {
        Ok(()) => end(rt, alloc, service, shared),
        Err(error) => {
            drop(service);
            Err(error)
        }
    }
}

/// Prints what came of a run, and whether that is as it should be.
fn printed<R: Print>(
    rt: &R,
    alloc: Global,
    names: &Names,
    done: &[Done],
    shared: &Shared,
    ending: Ending,
) -> Result<bool, Fault> {
    let mut out = BufWriter::new(alloc, io::writer(rt))?;
    let told = tell(&mut out, names, done, shared, ending);
    drop(out);
    Ok(told?)
}

/// A run of a service, and what came of it printed; whether that is as it should be.
fn told<N: ServiceName + Send + Sync, R: Threads + Wait + Print + Sync>(
    rt: &R,
    alloc: Global,
    service: Service<N>,
    names: &Names,
    plan: Plan,
    shared: &Shared,
) -> Result<bool, Fault> {
    let mut done = Vec::new(alloc);
    let told = match ended(rt, alloc, service, plan, shared, &mut done) {
        Ok(ending) => printed(rt, alloc, names, &done, shared, ending),
        Err(_) => Err(Fault::Memory),
    };
    drop(done);
    told
}

/// A service of the policy, from its opening to its close, told of; whether that is as it should be.
fn stress<N: ServiceName + Send + Sync, R: Threads + Wait + Print + Sync>(
    rt: &R,
    alloc: Global,
    policy: Policy,
    table: LifeTable,
    names: &Names,
    plan: Plan,
) -> Result<bool, Fault>
    requires policy { policy ≡ N.policy }
    requires table { table_of table ≡ N.table }
    requires segments { table.segments ≡ length policy.segments }
    requires workers { table.workers ≡ policy.workers }
{
    let service = Service::<N>::open(alloc, policy, table)?;
    match Shared::new(alloc, plan) {
        Ok(shared) => {
            let told = told(rt, alloc, service, names, plan, &shared);
            drop(shared);
            told
        }
        Err(_) => {
            drop(service);
            Err(Fault::Memory)
        }
    }
}

/// What a file has.
fn document_at(rt: &HostRuntime, path: &str) -> Result<Vec<u8>, ReadFault> {
    match fs::open(rt, path) {
        Ok(mut file) => {
            let document = read_limited(rt.alloc(), &mut file);
            drop(file);
            document
        }
        Err(_) => Err(ReadFault::Failed),
    }
}

/// The policy that is asked for.
fn policy_of(rt: &HostRuntime, request: &Request) -> Result<Policy, Fault> {
    let document = document_at(rt, request.path.as_str())?;
    let read = read_policy(rt.alloc(), &document);
    drop(document);
    let policy = read?;
    let workers = policy.workers();
    if request.workers > workers {
        drop(policy);
        return Err(Fault::ManyWorkers(workers));
    }
    Ok(policy)
}

/// The words of the command.
fn words(rt: &HostRuntime) -> Result<Vec<String>, Fault> {
    let mut words = Vec::new(rt.alloc());
    for word in env::args(rt)? {
        words.push(word)?;
    }
    Ok(words)
}

/// What a run is made of.
#[derive(Drop)]
struct Job {
    policy: Policy,
    names: Names,
    plan: Plan,
}

/// What a request comes to under its policy.
fn job_for(rt: &HostRuntime, request: &Request) -> Result<Job, Fault> {
    let policy = policy_of(rt, request)?;
    let plan = Plan::of(&policy, request);
    match Names::of(rt.alloc(), &policy) {
        Ok(names) => Ok(Job {
            policy,
            names,
            plan,
        }),
        Err(_) => {
            drop(policy);
            Err(Fault::Memory)
        }
    }
}

/// What the words ask for.
fn job_of(rt: &HostRuntime) -> Result<Job, Fault> {
    let words = words(rt)?;
    let asked = asked(rt.alloc(), &words);
    drop(words);
    let request = asked?;
    let job = job_for(rt, &request);
    drop(request);
    job
}

/// A run, and whether it ended as it should.
fn stressed<R: Threads + Wait + Print + Sync>(
    rt: &R,
    alloc: Global,
    job: Job,
) -> Result<bool, Fault> {
    let Job {
        policy,
        names,
        plan,
    } = job;
    match LifeTable::new(alloc, &policy) {
        Ok(table) => {
            let told = stress::<Brand, _>(rt, alloc, policy, table, &names, plan);
            drop(names);
            told
        }
        Err(_) => {
            drop(policy);
            drop(names);
            Err(Fault::Memory)
        }
    }
}

/// Prints help, or tells why there was no run; and the status of that.
fn refused(rt: &HostRuntime, fault: Fault) -> ExitCode {
    let status = fault.status();
    let _ = if status == 0 {
        print!(rt; "{fault}")
    } else {
        eprintln!(rt; "{fault}")
    };
    ExitCode::from(status)
}

fn main(rt: HostRuntime) -> ExitCode {
    let ended = match job_of(&rt) {
        Ok(job) => stressed(&rt, rt.alloc(), job),
        Err(fault) => Err(fault),
    };
    match ended {
        Ok(true) => ExitCode::SUCCESS,
        Ok(false) => ExitCode::from(2),
        Err(fault) => refused(&rt, fault),
    }
}
