//! A policy and a trace in one input.

ghost use Rattle.std.specs.Prelude.{◌≡◌, false};
ghost use Rattle.hg_replay.specs.Statuses.{EndsJoined};
ghost use Rattle.hg_program.specs.Ends.{EndsExplainedJoined};

use crate::context::Context;
use crate::host::Host;
use crate::refusal::fails;
use hg_reasons::{Form, run_explained};
use hg_replay::{Sink, Status, read_limited, run_joined};
use hg_trace::split_joined;
use std::io::{Read, Write};

/// What a job on standard input waits for, told where that is a terminal.
const READS: &str = "heapguard reads a policy, a line ---, and a trace; see heapguard --help";

/// Where the input is a terminal, it is told what is read.
fn tell_what_is_read<H: Host, E: Write>(host: &H, err: &mut E)
    ensures { H.may_be_terminal host.now ≡ false → err.new ≡ err.old }
{
    if host.is_at_terminal() {
        let _ = writeln!(err, "{READS}");
    }
}

/// Replays what stands on the input.
pub(crate) fn replay_input<H: Host, R: Read, W: Sink, E: Write>(
    cx: &Context<'_, H>,
    input: &mut R,
    out: &mut W,
    err: &mut E,
) -> Status
    ensures ends { EndsJoined result (R.remaining input.old) (W.seen out.old) (W.seen out.new) }
    ensures quiet { result ≡ Status.Done → H.may_be_terminal cx.now.host.now ≡ false → err.new ≡ err.old }
{
    tell_what_is_read(cx.host, err);
    run_joined(cx.alloc, input, out, err)
}

/// Replays what stands on the input, with the reason for each answer, in this form.
fn explain_joined<H: Host, R: Read, W: Sink, E: Write>(
    cx: &Context<'_, H>,
    form: Form,
    input: &mut R,
    out: &mut W,
    err: &mut E,
) -> Status
    ensures ends { EndsExplainedJoined form (R.remaining input.old) result
        (W.seen out.old) (W.seen out.new) }
    ensures quiet { result ≡ Status.Done → err.new ≡ err.old }
{
    match read_limited(cx.alloc, input) {
        Ok(bytes) => {
            let (policy, trace) = split_joined(&bytes);
            let ended = run_explained(cx.alloc, form, policy, trace, out, err);
            cx.explained_on(ended, policy, trace, err)
        }
        Err(fault) => fails(fault, err),
    }
}

/// The same. Where the input is a terminal, it is told what is read.
pub(crate) fn explain_input<H: Host, R: Read, W: Sink, E: Write>(
    cx: &Context<'_, H>,
    form: Form,
    input: &mut R,
    out: &mut W,
    err: &mut E,
) -> Status
    ensures ends { EndsExplainedJoined form (R.remaining input.old) result
        (W.seen out.old) (W.seen out.new) }
    ensures quiet { result ≡ Status.Done → H.may_be_terminal cx.now.host.now ≡ false → err.new ≡ err.old }
{
    tell_what_is_read(cx.host, err);
    explain_joined(cx, form, input, out, err)
}
