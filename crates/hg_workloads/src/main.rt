//! The jobs that the service is timed by: `hg_workloads JOB TURNS SEED` does so many turns of one,
//! or of each where JOB is `all`, on an input that it makes of the seed, and prints a digest of all
//! that it was answered.
#![tactic(auto)]

mod asked;
mod banks;
mod churn;
mod copies;
mod digest;
mod numbers;
mod orders;
mod replays;
mod unloads;

use crate::asked::{Request, asked};
use crate::digest::Digest;
use anyhow::bail;
use std::alloc::Global;

static JOBS: [&str; 6] = ["churn", "copies", "unloads", "replays", "orders", "banks"];

/// Does so many turns of a job.
fn run(
    alloc: Global,
    job: &str,
    turns: u32,
    seed: u32,
    digest: &mut Digest,
) -> Result<(), anyhow::Error> {
    match job {
        "churn" => churn::run(alloc, turns, seed, digest),
        "copies" => copies::run(alloc, turns, seed, digest),
        "unloads" => unloads::run(alloc, turns, seed, digest),
        "replays" => replays::run(alloc, turns, seed, digest),
        "orders" => orders::run(alloc, turns, seed, digest),
        "banks" => banks::run(alloc, turns, seed, digest),
        _ => bail!("no such job"),
    }
}

/// Does a job, and prints its digest.
fn tell<R: Print + AllocGlobal>(
    rt: &R,
    job: &str,
    turns: u32,
    seed: u32,
) -> Result<(), anyhow::Error> {
    let mut digest = Digest::new();
    run(rt.alloc(), job, turns, seed, &mut digest)?;
    let sum = digest.sum();
    println!(rt; "{job} {sum:016x}")?;
    Ok(())
}

fn main(rt: HostRuntime) -> Result<(), anyhow::Error> {
    let Request { job, turns, seed } = asked(&rt)?;
    if job.as_str() == "all" {
        for job in &JOBS {
            tell(&rt, job, turns, seed)?;
        }
        return Ok(());
    }
    tell(&rt, job.as_str(), turns, seed)
}
