//! An explanation from the bytes of a policy and a trace to its text.

ghost use Rattle.std.specs.Prelude.{◌≡◌, ◌<◌, IfOk, IfErr, All};
ghost use Rattle.hg_trace.specs.Stored.{lines_in};
ghost use Rattle.hg_reasons.specs.Endings.{ended_by, EndsExplained, IsFaulty};
ghost use Rattle.hg_reasons.specs.Explaining.{ExplainedAs, IsExplained, IsToldOf};
ghost use Rattle.hg_replay.specs.RunFaults.{status_of};

use crate::explain::{Story, explain, texts_of};
use crate::form::Form;
use hg_policy::Policy;
use hg_policy_text::read_policy;
use hg_replay::{ReplayFault, RunFault, Sink, Status, put, start};
use hg_trace::{Trace, read_trace};
use std::alloc::{AllocError, Global};
use std::io::Write;

/// What is told of the lines of a trace, from a core of its own that the policy opens.
fn explain_all(
    alloc: Global,
    form: Form,
    policy: Policy,
    trace: &Trace,
    bytes: &[u8],
) -> Result<Story, AllocError>
    requires { All (λ line. line.worker < policy.workers) (lines_in trace.now) }
    ensures { IfOk result (λ story. IsToldOf form bytes.now policy (lines_in trace.now) story.text) }
{
    let texts = texts_of(alloc, bytes)?;
    let mut story = Story::new(alloc, form, &policy)?;
    let mut ready = start(alloc, policy, trace)?;
    explain(alloc, &mut ready, trace, &texts, &mut story)?;
    story.end(ready.core.policy())?;
    Ok(story)
}

/// The same, unless some worker is unknown.
fn explained(
    alloc: Global,
    form: Form,
    policy: Policy,
    trace: &Trace,
    bytes: &[u8],
) -> Result<Story, ReplayFault>
    ensures { ExplainedAs form bytes.now policy (lines_in trace.now) result }
{
    if let Some(line) = trace.first_from(policy.workers()) {
        return Err(ReplayFault::Worker(line));
    }
    match explain_all(alloc, form, policy, trace, bytes) {
        Ok(story) => Ok(story),
        Err(_) => Err(ReplayFault::Memory),
    }
}

/// What is told of the lines of a trace under a policy.
fn story_of(alloc: Global, form: Form, policy: &[u8], trace: &[u8]) -> Result<Story, RunFault>
    ensures story { IfOk result (λ story. IsExplained form policy.now trace.now story.text) }
    ensures faulty { IfErr result (λ fault. IsFaulty (status_of fault) policy.now trace.now) }
{
    let read = read_policy(alloc, policy)?;
    let lines = read_trace(alloc, trace)?;
    let story = explained(alloc, form, read, &lines, trace)?;
    Ok(story)
}

/// Tells the lines of a trace under a policy.
fn run<W: Sink>(
    alloc: Global,
    form: Form,
    policy: &[u8],
    trace: &[u8],
    out: &mut W,
) -> Result<(), RunFault>
    ensures { EndsExplained form (ended_by result) policy.now trace.now
        (W.seen out.old) (W.seen out.new) }
{
    let story = story_of(alloc, form, policy, trace)?;
    match put(out, story.text()) {
        Ok(()) => Ok(()),
        Err(_) => Err(RunFault::Replay(ReplayFault::Write)),
    }
}

/// Replays a trace, and writes in this form each of its lines that has a command with its number, what
/// a replay prints for it, and behind an answer that serves nothing the reason, in the policy's words;
/// and then how many lines came to what, and how much was denied to whom. All is written at the end, so
/// a fault, or want of memory, at whatever request, leaves nothing written.
///
/// The policy is read first; the first fault is told on `err`, whose own faults are ignored, as a
/// replay tells it. Where nothing goes wrong, `err` isn't touched.
pub fn run_explained<W: Sink, E: Write>(
    alloc: Global,
    form: Form,
    policy: &[u8],
    trace: &[u8],
    out: &mut W,
    err: &mut E,
) -> Status
    ensures ends { EndsExplained form result policy.now trace.now (W.seen out.old) (W.seen out.new) }
    ensures quiet { result ≡ Status.Done → err.new ≡ err.old }
{
    match run(alloc, form, policy, trace, out) {
        Ok(()) => Status::Done,
        Err(fault) => {
            let _ = writeln!(err, "{fault}");
            fault.status()
        }
    }
}
