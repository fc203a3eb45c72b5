//! A race from a policy's bytes to its line.

ghost use Rattle.std.specs.Prelude.{◌≡◌, ◌≤◌, length, IfOk, IfErr};
ghost use Rattle.hg_table.specs.Named.{table_of};
ghost use Rattle.hg_replay.specs.declared.run.status.Status.TheVariants.{BadPolicy};
ghost use Rattle.hg_race.specs.Counts.{AreCounts};
ghost use Rattle.hg_race.specs.Faults.{status_after, status_of};
ghost use Rattle.hg_race.specs.Races.{CanRace, EndsRace, IsUnfit};

use crate::counts::Counts;
use crate::fault::RaceFault;
use crate::fit::is_fit;
use crate::racers::Racers;
use hg_policy::Policy;
use hg_policy_text::read_policy;
use hg_replay::{Sink, Status, put};
use hg_service::Service;
use hg_table::LifeTable;
use hg_worker::ServiceName;
use std::alloc::{AllocError, Global};
use std::io::Write;
use std::marker::Brand;
use std::sync::Wait;
use std::thread::Threads;

/// A race of two workers of the service N.
fn raced<N: ServiceName + Send + Sync + 'static, R: Threads + Wait>(
    rt: &R,
    alloc: Global,
    policy: Policy,
    table: LifeTable,
    most: u32,
) -> Result<Counts, AllocError>
    requires policy { policy ≡ N.policy }
    requires table { table_of table ≡ N.table }
    requires segments { table.segments ≡ length policy.segments }
    requires workers { table.workers ≡ policy.workers }
    requires both { 2 ≤ policy.workers }
    ensures { IfOk result (λ counts. AreCounts most counts.rounds counts.ended counts.freed) }
{
    let mut service = Service::<N>::open(alloc, policy, table)?;
    let Some(holder) = service.worker(0) else {
        unreachable!()
    };
    let Some(other) = service.worker(1) else {
        unreachable!()
    };
    let counts = Racers { holder, other }.race(rt, most);
    drop(service);
    counts
}

/// The counts of a race under the policy of some bytes.
fn counts<R: Threads + Wait>(
    rt: &R,
    alloc: Global,
    policy: &[u8],
    most: u32,
) -> Result<Counts, RaceFault>
    ensures fit { IfOk result (λ _. CanRace policy.now) }
    ensures counts { IfOk result (λ counts.
        AreCounts most counts.rounds counts.ended counts.freed) }
    ensures unfit { IfErr result (λ fault. status_of fault ≡ BadPolicy → IsUnfit policy.now) }
{
    let policy = read_policy(alloc, policy)?;
    if !is_fit(&policy) {
        return Err(RaceFault::Unfit);
    }
    let table = LifeTable::new(alloc, &policy)?;
    let counts = raced::<Brand, R>(rt, alloc, policy, table, most)?;
    Ok(counts)
}

fn race<R: Threads + Wait, W: Sink>(
    rt: &R,
    alloc: Global,
    policy: &[u8],
    most: u32,
    out: &mut W,
) -> Result<(), RaceFault>
    ensures { EndsRace (status_after result) policy.now most (W.seen out.old) (W.seen out.new) }
{
    let counts = counts(rt, alloc, policy, most)?;
    match put(out, counts.line().as_str().as_bytes()) {
        Ok(()) => Ok(()),
        Err(_) => Err(RaceFault::Write),
    }
}

/// Opens a service under a policy and races two of its workers for so many rounds, or fewer where
/// the first arena has no segment any more: worker 0 allocates 8 bytes for the first tenant in the
/// first arena, both workers free that block, each in a thread of its own, worker 1 delivers and
/// worker 0 takes in. Writes the line `rounds R ended E freed F`: the rounds that were run, and of
/// the answers to both frees those that ended the block's life and those that found it freed.
///
/// A policy without a second worker, a tenant, or a segment in the first arena, one whose first
/// arena doesn't admit the first tenant, and one whose limit for that is below 8, is `race unfit`,
/// with the status of a policy's fault. A thread that can't be started is want of memory. What goes
/// wrong is one line on `err`, whose own faults are ignored; where nothing does, `err` isn't
/// touched.
pub fn run_race<R: Threads + Wait, W: Sink, E: Write>(
    rt: &R,
    alloc: Global,
    policy: &[u8],
    rounds: u32,
    out: &mut W,
    err: &mut E,
) -> Status
    ensures ends { EndsRace result policy.now rounds (W.seen out.old) (W.seen out.new) }
    ensures quiet { result ≡ Status.Done → err.new ≡ err.old }
{
    match race(rt, alloc, policy, rounds, out) {
        Ok(()) => Status::Done,
        Err(fault) => {
            let _ = writeln!(err, "{fault}");
            fault.status()
        }
    }
}
