//! A run from bytes to bytes.

ghost use Rattle.std.specs.Prelude.{◌≡◌};
ghost use Rattle.hg_replay.specs.RunFaults.{status_after};
ghost use Rattle.hg_replay.specs.Statuses.{EndsAs, EndsJoined};

pub(crate) mod check;
pub(crate) mod fault;
pub(crate) mod input;
pub(crate) mod status;

use crate::replaying::replay;
use crate::replaying::sink::Sink;
use fault::RunFault;
use hg_policy_text::read_policy;
use hg_trace::{read_trace, split_joined};
use input::read_limited;
use status::Status;
use std::alloc::Global;
use std::io::{Read, Write};

/// How a run ended. What went wrong is one line on `err`, whose own faults are ignored.
fn told<E: Write>(ended: Result<(), RunFault>, err: &mut E) -> Status
    ensures status { result ≡ status_after ended }
    ensures quiet { result ≡ Status.Done → err.new ≡ err.old }
{
    match ended {
        Ok(()) => Status::Done,
        Err(fault) => {
            let _ = writeln!(err, "{fault}");
            fault.status()
        }
    }
}

fn run<W: Sink>(alloc: Global, policy: &[u8], trace: &[u8], out: &mut W) -> Result<(), RunFault>
    ensures { EndsAs (status_after result) policy.now trace.now (W.seen out.old) (W.seen out.new) }
{
    let policy = read_policy(alloc, policy)?;
    let trace = read_trace(alloc, trace)?;
    replay(alloc, policy, &trace, out)?;
    Ok(())
}

fn run_input<R: Read, W: Sink>(alloc: Global, input: &mut R, out: &mut W) -> Result<(), RunFault>
    ensures { EndsJoined (status_after result) (R.remaining input.old)
        (W.seen out.old) (W.seen out.new) }
{
    let bytes = read_limited(alloc, input)?;
    let (policy, trace) = split_joined(&bytes);
    run(alloc, policy, trace, out)
}

/// Reads the policy, then the trace whole, and then writes the answers to the trace. What went
/// wrong is one line on `err`, whose own faults are ignored; where nothing did, `err` isn't
/// touched.
pub fn run_texts<W: Sink, E: Write>(
    alloc: Global,
    policy: &[u8],
    trace: &[u8],
    out: &mut W,
    err: &mut E,
) -> Status
    ensures ends { EndsAs result policy.now trace.now (W.seen out.old) (W.seen out.new) }
    ensures quiet { result ≡ Status.Done → err.new ≡ err.old }
{
    told(run(alloc, policy, trace, out), err)
}

/// The same, on a policy and a trace in one input with a line of three dashes between them. An
/// input that can't be read, or that is longer than `LIMIT`, is a read fault.
pub fn run_joined<R: Read, W: Sink, E: Write>(
    alloc: Global,
    input: &mut R,
    out: &mut W,
    err: &mut E,
) -> Status
    ensures ends { EndsJoined result (R.remaining input.old) (W.seen out.old) (W.seen out.new) }
    ensures quiet { result ≡ Status.Done → err.new ≡ err.old }
{
    told(run_input(alloc, input, out), err)
}
