//! What a policy says, on an output.

ghost use Rattle.std.specs.Prelude.{◌≡◌};
ghost use Rattle.hg_replay.specs.RunFaults.{status_after};
ghost use Rattle.hg_program.specs.Ends.{EndsOnShow, EndsOnShowJson};
ghost use Rattle.hg_program.specs.ShowEnds.{EndsShow, EndsShowJson};

use crate::context::Context;
use crate::host::Host;
use hg_replay::{ReplayFault, RunFault, Sink, Status, put};
use hg_show::{show, show_json};
use std::alloc::Global;
use std::io::Write;

fn write_shown<W: Sink>(alloc: Global, policy: &[u8], out: &mut W) -> Result<(), RunFault>
    ensures { EndsShow (status_after result) policy.now (W.seen out.old) (W.seen out.new) }
{
    let text = show(alloc, policy)?;
    match put(out, text.as_slice()) {
        Ok(()) => Ok(()),
        Err(_) => Err(RunFault::Replay(ReplayFault::Write)),
    }
}

fn write_json<W: Sink>(alloc: Global, policy: &[u8], out: &mut W) -> Result<(), RunFault>
    ensures { EndsShowJson (status_after result) policy.now (W.seen out.old) (W.seen out.new) }
{
    let text = show_json(alloc, policy)?;
    match put(out, text.as_slice()) {
        Ok(()) => Ok(()),
        Err(_) => Err(RunFault::Replay(ReplayFault::Write)),
    }
}

/// The status of what was shown. What is wrong is one line on `err`, whose own faults are ignored.
fn told<E: Write>(ended: Result<(), RunFault>, err: &mut E) -> Status
    ensures status { result ≡ status_after ended }
    ensures quiet { result ≡ Status.Done → err.new ≡ err.old }
{
    match ended {
        Ok(()) => Status::Done,
        Err(fault) => {
            let _ = writeln!(err, "{fault}");
            fault.status()
        }
    }
}

/// Shows the policy of a file.
pub(crate) fn show_file<H: Host, W: Sink, E: Write>(
    cx: &Context<'_, H>,
    policy: &str,
    out: &mut W,
    err: &mut E,
) -> Status
    ensures ends { EndsOnShow (H.holds cx.now.host.now policy.now) result
        (W.seen out.old) (W.seen out.new) }
    ensures quiet { result ≡ Status.Done → err.new ≡ err.old }
{
    match cx.read(policy) {
        Ok(policy) => {
            let ended = told(write_shown(cx.alloc, &policy, out), err);
            cx.explained(ended, &policy, err)
        }
        Err(unread) => cx.fails(unread, err),
    }
}

/// The same, as JSON.
pub(crate) fn show_file_json<H: Host, W: Sink, E: Write>(
    cx: &Context<'_, H>,
    policy: &str,
    out: &mut W,
    err: &mut E,
) -> Status
    ensures ends { EndsOnShowJson (H.holds cx.now.host.now policy.now) result
        (W.seen out.old) (W.seen out.new) }
    ensures quiet { result ≡ Status.Done → err.new ≡ err.old }
{
    match cx.read(policy) {
        Ok(policy) => {
            let ended = told(write_json(cx.alloc, &policy, out), err);
            cx.explained(ended, &policy, err)
        }
        Err(unread) => cx.fails(unread, err),
    }
}
