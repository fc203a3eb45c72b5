//! What is told behind the line of a trace's fault.

ghost use Rattle.std.specs.Prelude.{◌≡◌, ◌≤◌, IfOk, Ok};
ghost use Rattle.hg_policy_text.specs.Document.{document_of};
ghost use Rattle.hg_trace.specs.Stored.{lines_in};
ghost use Rattle.hg_hints.specs.TraceHints.{word_hint, worker_hint, workers_text, IsTraceHint};

use crate::push::{push, push_count};
use crate::word::word_text;
use hg_policy::Policy;
use hg_policy_text::{PolicyFault, read_policy};
use hg_trace::{FaultyWord, Trace, TraceFault, faulty_word, read_trace};
use std::alloc::{AllocError, Global};

/// What is told of the word at fault, if one is known.
fn of_word(alloc: Global, word: Option<FaultyWord<'_>>) -> Result<Vec<u8>, AllocError>
    ensures { IfOk result (λ hint. hint.items ≡ word_hint word.entry) }
{
    match word {
        Some(word) => word_text(alloc, &word),
        None => Ok(Vec::new(alloc)),
    }
}

/// Which workers there are, of so many.
#[tactic(auto, unfolding(crate::specs::TraceHints::workers_text))]
fn workers(alloc: Global, workers: u8) -> Result<Vec<u8>, AllocError>
    requires { 1 ≤ workers }
    ensures { IfOk result (λ text. text.items ≡ workers_text workers) }
{
    let mut out = Vec::new(alloc);
    push_count(
        &mut out,
        "  the policy has workers up to w",
        u64::from(workers - 1),
    )?;
    push(&mut out, "\n")?;
    Ok(out)
}

/// What is told of a worker that a policy lacks, if some line has one.
fn under(alloc: Global, policy: &Policy, trace: &Trace<'_>) -> Result<Vec<u8>, AllocError>
    ensures { IfOk result (λ hint. hint.items
        ≡ worker_hint (Ok policy.now) (lines_in trace.now)) }
{
    match trace.first_from(policy.workers()) {
        Some(_) => workers(alloc, policy.workers()),
        None => Ok(Vec::new(alloc)),
    }
}

/// The same under the policy of some bytes.
fn of_worker(alloc: Global, policy: &[u8], trace: &Trace<'_>) -> Result<Vec<u8>, AllocError>
    ensures { IfOk result (λ hint. hint.items
        ≡ worker_hint (document_of policy.now) (lines_in trace.now)) }
{
    match read_policy(alloc, policy) {
        Ok(policy) => under(alloc, &policy, trace),
        Err(PolicyFault::Memory) => Err(AllocError),
        Err(_) => Ok(Vec::new(alloc)),
    }
}

/// What a user is told behind the line of a trace's fault, in lines behind two blanks: the faulty line with
/// the word at fault, and what is wanted there or which command it is like; of a worker that the policy
/// lacks, which workers that has. No text where the trace has no fault under the policy. Its one error is
/// want of memory.
pub fn trace_hint(alloc: Global, policy: &[u8], trace: &[u8]) -> Result<Vec<u8>, AllocError>
    ensures { IfOk result (λ hint. IsTraceHint policy.now trace.now hint.items) }
{
    match read_trace(alloc, trace) {
        Ok(trace) => of_worker(alloc, policy, &trace),
        Err(TraceFault::Line { line, fault }) => of_word(alloc, faulty_word(trace, line, fault)),
        Err(TraceFault::Memory) => Err(AllocError),
    }
}
