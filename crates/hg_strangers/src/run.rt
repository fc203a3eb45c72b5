//! A check from the bytes of a policy and a trace to its text.

ghost use Rattle.std.specs.Prelude.{◌≡◌, None, IfErr, IfOk};
ghost use Rattle.hg_trace.specs.Stored.{lines_in};
ghost use Rattle.hg_replay.specs.Events.{unknown_worker};
ghost use Rattle.hg_replay.specs.RunFaults.{status_after, status_of};
ghost use Rattle.hg_strangers.specs.Endings.{EndsChecked, IsChecked, IsFaulty, IsFound};
ghost use Rattle.hg_strangers.specs.Texts.{checked};

use crate::text::checked;
use hg_policy::Policy;
use hg_policy_text::read_policy;
use hg_replay::{ReplayFault, RunFault, Sink, Status, put};
use hg_trace::{Trace, read_trace};
use std::alloc::Global;
use std::io::Write;

/// What a check of a trace under a policy prints, unless some worker is unknown.
fn text_under(alloc: Global, policy: &Policy, trace: &Trace<'_>) -> Result<Vec<u8>, ReplayFault>
    ensures known { IfOk result
        (λ _. unknown_worker policy.now.workers (lines_in trace.now) ≡ None) }
    ensures text { IfOk result (λ text. text.items ≡ checked policy.now (lines_in trace.now)) }
    ensures found { IfErr result (IsFound policy.now (lines_in trace.now)) }
{
    if let Some(line) = trace.first_from(policy.workers()) {
        return Err(ReplayFault::Worker(line));
    }
    match checked(alloc, policy, trace) {
        Ok(text) => Ok(text),
        Err(_) => Err(ReplayFault::Memory),
    }
}

/// What a check of these bytes prints.
#[tactic(auto, using(crate::proofs::Faults::faulty_found))]
fn text_of(alloc: Global, policy: &[u8], trace: &[u8]) -> Result<Vec<u8>, RunFault>
    ensures text { IfOk result (λ text. IsChecked policy.now trace.now text.items) }
    ensures faulty { IfErr result (λ fault. IsFaulty (status_of fault) policy.now trace.now) }
{
    let policy = read_policy(alloc, policy)?;
    let trace = read_trace(alloc, trace)?;
    let text = text_under(alloc, &policy, &trace)?;
    Ok(text)
}

fn check<W: Sink>(alloc: Global, policy: &[u8], trace: &[u8], out: &mut W) -> Result<(), RunFault>
    ensures { EndsChecked (status_after result) policy.now trace.now
        (W.seen out.old) (W.seen out.new) }
{
    let text = text_of(alloc, policy, trace)?;
    match put(out, text.as_slice()) {
        Ok(()) => Ok(()),
        Err(_) => Err(RunFault::Replay(ReplayFault::Write)),
    }
}

/// Reads a policy and a trace, and writes the line `ok workers N tenants N arenas N segments N`,
/// and then a warning for each tenant and each arena that a line of the trace names and the policy
/// lacks, in the order of the first lines that say them: that line, a name of the policy that is
/// like it, if there is one, and how many lines say it. Of more than 64 such names it tells the
/// first 64, and that there are others.
///
/// A fault of the policy, or of the trace under it, is one line on `err`, whose own faults are
/// ignored, as a replay tells it, and nothing is written; where there is none, `err` isn't touched.
pub fn run_check_trace<W: Sink, E: Write>(
    alloc: Global,
    policy: &[u8],
    trace: &[u8],
    out: &mut W,
    err: &mut E,
) -> Status
    ensures ends { EndsChecked result policy.now trace.now (W.seen out.old) (W.seen out.new) }
    ensures quiet { result ≡ Status.Done → err.new ≡ err.old }
{
    match check(alloc, policy, trace, out) {
        Ok(()) => Status::Done,
        Err(fault) => {
            let _ = writeln!(err, "{fault}");
            fault.status()
        }
    }
}
