//! Policies and traces from files. A file that can't be read, or that is too long, is a read fault.

ghost use Rattle.std.specs.Prelude.{◌≡◌, ◌≤◌, ℕ, List, IfOk, IfSome, map, vec_len};
ghost use Rattle.hg_replay.specs.declared.run.input.TheConstants.{LIMIT};
ghost use Rattle.hg_program.specs.Ends.{EndsOnChecked, EndsOnExplained, EndsOnFile, EndsOnFiles};
ghost use Rattle.hg_program.specs.Ends.{EndsOnRace, EndsOnState, EndsOnTests, IsOf, IsQuietTest};
ghost use Rattle.hg_program.specs.Ends.{StandOf};

use crate::context::{Context, Hints, Unread, told};
use crate::host::Host;
use hg_expect::{Source, Tests};
use hg_race::run_race;
use hg_reasons::{Form, run_explained};
use hg_replay::{Sink, Status, run_check, run_texts};
use hg_state::{View, run_state};
use hg_strangers::run_check_trace;
use std::io::Write;
use std::sync::Wait;
use std::thread::Threads;

/// Both files, the policy's first.
fn read_files<'a, H: Host>(
    cx: &Context<'_, H>,
    policy: &'a str,
    trace: &'a str,
) -> Result<(Vec<u8>, Vec<u8>), Unread<'a>>
    ensures policy { IfOk result (λ files. IsOf (H.holds cx.now.host.now policy.now) files.0.items) }
    ensures trace { IfOk result (λ files. IsOf (H.holds cx.now.host.now trace.now) files.1.items) }
{
    let policy = cx.read(policy)?;
    let trace = cx.read(trace)?;
    Ok((policy, trace))
}

/// Checks the policy of a file.
pub(crate) fn check_file<H: Host, W: Sink, E: Write>(
    cx: &Context<'_, H>,
    policy: &str,
    out: &mut W,
    err: &mut E,
) -> Status
    ensures ends { EndsOnFile (H.holds cx.now.host.now policy.now) result
        (W.seen out.old) (W.seen out.new) }
    ensures quiet { result ≡ Status.Done → err.new ≡ err.old }
{
    match cx.read(policy) {
        Ok(policy) => cx.explained(run_check(cx.alloc, &policy, out, err), &policy, err),
        Err(unread) => cx.fails(unread, err),
    }
}

/// Checks the policy of a file, and the trace of another under it. Both are read before any fault of
/// either is told.
pub(crate) fn check_files<H: Host, W: Sink, E: Write>(
    cx: &Context<'_, H>,
    policy: &str,
    trace: &str,
    out: &mut W,
    err: &mut E,
) -> Status
    ensures ends { EndsOnChecked (H.holds cx.now.host.now policy.now)
        (H.holds cx.now.host.now trace.now) result (W.seen out.old) (W.seen out.new) }
    ensures quiet { result ≡ Status.Done → err.new ≡ err.old }
{
    match read_files(cx, policy, trace) {
        Ok((policy, trace)) => {
            let ended = run_check_trace(cx.alloc, &policy, &trace, out, err);
            cx.explained_on(ended, &policy, &trace, err)
        }
        Err(unread) => cx.fails(unread, err),
    }
}

/// Replays the trace of a file under the policy of another. Both are read before any fault of
/// either is told.
pub(crate) fn replay_files<H: Host, W: Sink, E: Write>(
    cx: &Context<'_, H>,
    policy: &str,
    trace: &str,
    out: &mut W,
    err: &mut E,
) -> Status
    ensures ends { EndsOnFiles (H.holds cx.now.host.now policy.now)
        (H.holds cx.now.host.now trace.now) result (W.seen out.old) (W.seen out.new) }
    ensures quiet { result ≡ Status.Done → err.new ≡ err.old }
{
    match read_files(cx, policy, trace) {
        Ok((policy, trace)) => run_texts(cx.alloc, &policy, &trace, out, err),
        Err(unread) => cx.fails(unread, err),
    }
}

/// The same, with the reason for each answer, in this form.
pub(crate) fn explain_files<H: Host, W: Sink, E: Write>(
    cx: &Context<'_, H>,
    form: Form,
    policy: &str,
    trace: &str,
    out: &mut W,
    err: &mut E,
) -> Status
    ensures ends { EndsOnExplained form (H.holds cx.now.host.now policy.now)
        (H.holds cx.now.host.now trace.now) result (W.seen out.old) (W.seen out.new) }
    ensures quiet { result ≡ Status.Done → err.new ≡ err.old }
{
    match read_files(cx, policy, trace) {
        Ok((policy, trace)) => {
            let ended = run_explained(cx.alloc, form, &policy, &trace, out, err);
            cx.explained_on(ended, &policy, &trace, err)
        }
        Err(unread) => cx.fails(unread, err),
    }
}

/// Tells what stands after the trace of a file under the policy of another, so.
pub(crate) fn state_files<H: Host, W: Sink, E: Write>(
    cx: &Context<'_, H>,
    view: View,
    policy: &str,
    trace: &str,
    out: &mut W,
    err: &mut E,
) -> Status
    ensures ends { EndsOnState view (H.holds cx.now.host.now policy.now)
        (H.holds cx.now.host.now trace.now) result (W.seen out.old) (W.seen out.new) }
    ensures quiet { result ≡ Status.Done → err.new ≡ err.old }
{
    match read_files(cx, policy, trace) {
        Ok((policy, trace)) => {
            let ended = run_state(cx.alloc, view, &policy, &trace, out, err);
            cx.explained_on(ended, &policy, &trace, err)
        }
        Err(unread) => cx.fails(unread, err),
    }
}

/// Tests of the traces of files, in their order, each read and given back before the next is read; and
/// what is wanted in place of the fault of the first that has one.
fn test_each<'a, H: Host, E: Write>(
    cx: &Context<'_, H>,
    policy: &[u8],
    names: &[&'a str],
    of_traces: &mut Vec<u8>,
    err: &mut E,
) -> Result<Tests<'a>, Unread<'a>>
    ensures { IfOk result (λ tests. StandOf (H.holds cx.now.host.now) policy.now
        (map (λ name. name.now) names.now) tests (err.new ≡ err.old)) }
{
    let mut tests = Tests::new(cx.alloc);
    for name in names {
        let bytes = cx.read(*name)?;
        let source = Source { name: *name, bytes };
        let was_stopped = tests.is_stopped();
        tests.add(cx.alloc, policy, &source, err);
        if tests.is_stopped() && !was_stopped {
            *of_traces = cx.hint_on(policy, source.bytes.as_slice());
        }
    }
    Ok(tests)
}

/// The same under the policy of another file, which is read first; and what is wanted in place of a
/// fault of it.
fn test_all<'a, H: Host, E: Write>(
    cx: &Context<'_, H>,
    policy: &'a str,
    names: &[&'a str],
    hints: &mut Hints,
    err: &mut E,
) -> Result<Tests<'a>, Unread<'a>>
    ensures { IfOk result (λ tests. (bytes : List ℕ)
        × IsOf (H.holds cx.now.host.now policy.now) bytes
        × StandOf (H.holds cx.now.host.now) bytes (map (λ name. name.now) names.now) tests
        (err.new ≡ err.old)) }
{
    let policy = cx.read(policy)?;
    hints.of_policy = cx.hint(policy.as_slice());
    test_each(cx, policy.as_slice(), names, &mut hints.of_traces, err)
}

/// Tests the traces of files under the policy of another. All are read before any fault of one is
/// told.
pub(crate) fn test_files<H: Host, W: Sink, E: Write>(
    cx: &Context<'_, H>,
    policy: &str,
    names: &[&str],
    out: &mut W,
    err: &mut E,
) -> Status
    ensures ends { EndsOnTests (H.holds cx.now.host.now) policy.now (map (λ name. name.now) names.now)
        result (W.seen out.old) (W.seen out.new) }
    ensures quiet { result ≡ Status.Done → IsQuietTest (H.holds cx.now.host.now) policy.now
        (map (λ name. name.now) names.now) (err.new ≡ err.old) }
{
    let mut hints = Hints::new(cx.alloc);
    match test_all(cx, policy, names, &mut hints, err) {
        Ok(tests) => {
            let ended = tests.end(names.len() > 1, out, err);
            cx.unwritten(told(ended, hints.of(ended), err), err)
        }
        Err(unread) => cx.fails(unread, err),
    }
}

/// Races two workers under the policy of a file.
pub(crate) fn race_file<T: Threads + Wait, H: Host, W: Sink, E: Write>(
    rt: &T,
    cx: &Context<'_, H>,
    policy: &str,
    rounds: u32,
    out: &mut W,
    err: &mut E,
) -> Status
    ensures ends { EndsOnRace (H.holds cx.now.host.now policy.now) rounds result
        (W.seen out.old) (W.seen out.new) }
    ensures quiet { result ≡ Status.Done → err.new ≡ err.old }
{
    match cx.read(policy) {
        Ok(policy) => {
            let ended = run_race(rt, cx.alloc, &policy, rounds, out, err);
            cx.explained_race(ended, &policy, err)
        }
        Err(unread) => cx.fails(unread, err),
    }
}
