//! Answers to the lines of a trace, beside those that they state.

ghost use Rattle.std.specs.Prelude.{◌≡◌, ◌+◌, ◌≤◌, ◌<◌, ℕ, List, [], All, true, map, unwrap_or};
ghost use Rattle.std.specs.Prelude.{slice_get, ◌-◌, IfOk, OnOk, vec_len, vec_capacity, if◌then◌else◌};
ghost use Rattle.hg_trace.specs.Labels.{label_count};
ghost use Rattle.hg_trace.specs.Stored.{line_in, lines_in, IsNumbered};
ghost use Rattle.hg_replay.specs.KnownNames.{meanings};
ghost use Rattle.hg_replay.specs.Replays.{Answered, Progress, starting};
ghost use Rattle.hg_replay.specs.StoredLabels.{binds};
ghost use Rattle.hg_expect.specs.Findings.{nothing};
ghost use Rattle.hg_expect.specs.Judging.{Judges, text_of, texts_of};

use crate::found::Found;
use hg_replay::Ready;
use hg_trace::{StoredLine, Trace};
use std::alloc::{AllocError, Global};

/// The lines of a trace's bytes, without their ends.
pub(crate) fn texts_of(alloc: Global, bytes: &[u8]) -> Result<Vec<&[u8]>, AllocError>
    ensures { IfOk result (λ texts. map (λ text. text.now) texts.items ≡ texts_of bytes.now) }
{
    bytes.split(|b| *b == b'\n').collect(alloc)
}

/// The text of the line with this number, from 1.
fn text_of<'a>(texts: &[&'a [u8]], number: u32) -> &'a [u8]
    ensures { result.now ≡ text_of (map (λ text. text.now) texts.now) number }
{
    match texts.get((number as usize).saturating_sub(1)) {
        Some(text) => *text,
        None => &[],
    }
}

/// What a replay prints for the next line.
fn reply_to(alloc: Global, ready: &mut Ready, line: &StoredLine) -> Result<Vec<u8>, AllocError>
    requires worker { line.now.worker < ready.old.core.state.policy.workers }
    requires room { binds line.now.command ≡ true
        → vec_len ready.old.handles < vec_capacity ready.old.handles }
    ensures answered { IfOk result (λ reply. (names labels : List (List ℕ))
        → ready.old.meant.items ≡ meanings ready.old.core.state.policy names
        → IsNumbered names labels line.now.command
        → Answered (record { kept = ready.old.core; handles = ready.old.handles.items })
        (line_in names labels line.now)
        (record { kept = ready.new.core; handles = ready.new.handles.items }) reply.items) }
    ensures meant { ready.new.meant ≡ ready.old.meant }
    ensures count { vec_len ready.new.handles
        ≡ vec_len ready.old.handles + (if binds line.now.command then 1 else 0) }
    ensures room { vec_capacity ready.new.handles ≡ vec_capacity ready.old.handles }
{
    let mut reply = Vec::new(alloc);
    match ready.answer(line, &mut reply) {
        Ok(()) => Ok(reply),
        Err(_) => Err(AllocError),
    }
}

/// Answers the lines one after another, and notes each beside the answer that it states.
pub(crate) fn judge(
    alloc: Global,
    ready: &mut Ready,
    trace: &Trace,
    texts: &[&[u8]],
    found: &mut Found,
) -> Result<(), AllocError>
    requires workers { All (λ line. line.worker < ready.old.core.state.policy.workers)
        (lines_in trace.now) }
    requires meant { ready.old.meant.items
        ≡ meanings ready.old.core.state.policy trace.now.names }
    requires none { ready.old.handles.items ≡ [] }
    requires count { vec_len ready.old.handles ≡ 0 }
    requires room { label_count (lines_in trace.now) ≤ vec_capacity ready.old.handles }
    requires nothing { found.old ≡ nothing }
    ensures { OnOk result ((end : Progress)
        × Judges (map (λ text. text.now) texts.now) (starting ready.old.core) nothing
        (lines_in trace.now) end found.new) }
{
    for line in trace.stored() {
        let reply = reply_to(alloc, ready, line)?;
        let text = text_of(texts, line.number);
        found.note(alloc, u64::from(line.number), text, &reply)?;
    }
    Ok(())
}
