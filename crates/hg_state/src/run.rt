//! What stands after a trace, from the bytes of a policy and a trace to text.

ghost use Rattle.std.specs.Prelude.{◌≡◌, ◌<◌, None, IfOk, IfErr, All};
ghost use Rattle.hg_trace.specs.Stored.{lines_in};
ghost use Rattle.hg_replay.specs.RunFaults.{status_after, status_of};
ghost use Rattle.hg_replay.specs.Events.{unknown_worker};
ghost use Rattle.hg_state.specs.After.{IsTextAfter, IsWithout, LeavesText};
ghost use Rattle.hg_state.specs.Endings.{EndsState, IsFaulty};

use crate::after::after;
use crate::form::View;
use crate::standing::stands;
use hg_policy::Policy;
use hg_policy_text::read_policy;
use hg_replay::{ReplayFault, RunFault, Sink, Status, put};
use hg_trace::{Trace, read_trace};
use std::alloc::{AllocError, Global};
use std::io::Write;

/// What stands after a trace, from a core of its own that the policy opens.
fn left_by(alloc: Global, view: View, policy: Policy, trace: &Trace) -> Result<Vec<u8>, AllocError>
    requires { All (λ line. line.worker < policy.workers) (lines_in trace.now) }
    ensures { IfOk result (λ text. LeavesText view policy (lines_in trace.now) text.items) }
{
    let left = after(alloc, policy, trace)?;
    stands(alloc, view, &left.core, &left.orphans, &left.blocks)
}

/// The same, unless some worker is unknown.
fn left_as(alloc: Global, view: View, policy: Policy, trace: &Trace) -> Result<Vec<u8>, ReplayFault>
    ensures known { IfOk result
        (λ _. unknown_worker policy.workers (lines_in trace.now) ≡ None) }
    ensures text { IfOk result (λ text. LeavesText view policy (lines_in trace.now) text.items) }
    ensures faulty { IfErr result (IsWithout policy (lines_in trace.now)) }
{
    if let Some(line) = trace.first_from(policy.workers()) {
        return Err(ReplayFault::Worker(line));
    }
    match left_by(alloc, view, policy, trace) {
        Ok(text) => Ok(text),
        Err(_) => Err(ReplayFault::Memory),
    }
}

/// What stands after a trace under a policy.
fn text_after(alloc: Global, view: View, policy: &[u8], trace: &[u8]) -> Result<Vec<u8>, RunFault>
    ensures text { IfOk result (λ text. IsTextAfter view policy.now trace.now text.items) }
    ensures faulty { IfErr result (λ fault. IsFaulty (status_of fault) policy.now trace.now) }
{
    let policy = read_policy(alloc, policy)?;
    let lines = read_trace(alloc, trace)?;
    let text = left_as(alloc, view, policy, &lines)?;
    Ok(text)
}

fn run<W: Sink>(
    alloc: Global,
    view: View,
    policy: &[u8],
    trace: &[u8],
    out: &mut W,
) -> Result<(), RunFault>
    ensures { EndsState view (status_after result) policy.now trace.now
        (W.seen out.old) (W.seen out.new) }
{
    let text = text_after(alloc, view, policy, trace)?;
    match put(out, &text) {
        Ok(()) => Ok(()),
        Err(_) => Err(RunFault::Replay(ReplayFault::Write)),
    }
}

/// Runs a trace under a policy to its end, and writes what stands then. All is written at the end,
/// so a fault, or want of memory, at whatever request, leaves nothing written.
///
/// The policy is read first; the first fault is told on `err`, whose own faults are ignored, as a
/// replay tells it. Where nothing goes wrong, `err` isn't touched.
pub fn run_state<W: Sink, E: Write>(
    alloc: Global,
    view: View,
    policy: &[u8],
    trace: &[u8],
    out: &mut W,
    err: &mut E,
) -> Status
    ensures ends { EndsState view result policy.now trace.now (W.seen out.old) (W.seen out.new) }
    ensures quiet { result ≡ Status.Done → err.new ≡ err.old }
{
    match run(alloc, view, policy, trace, out) {
        Ok(()) => Status::Done,
        Err(fault) => {
            let _ = writeln!(err, "{fault}");
            fault.status()
        }
    }
}
