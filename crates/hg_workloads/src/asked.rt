//! What the words of the command ask for.

use anyhow::bail;
use std::env;
use std::rt::Env;

/// A job by its name, how many turns of it are done, and the seed of its input.
#[derive(Drop)]
pub struct Request {
    pub job: String,
    pub turns: u32,
    pub seed: u32,
}

/// What is asked for: `JOB TURNS SEED`.
pub fn asked<R: AllocGlobal + Env>(rt: &R) -> Result<Request, anyhow::Error> {
    let mut words = env::args(rt)?;
    let (Some(job), Some(turns), Some(seed)) = (words.nth(1), words.next(), words.next()) else {
        bail!("usage: hg_workloads JOB TURNS SEED");
    };
    let turns = turns.as_str().parse::<u32>()?;
    let seed = seed.as_str().parse::<u32>()?;
    Ok(Request { job, turns, seed })
}
