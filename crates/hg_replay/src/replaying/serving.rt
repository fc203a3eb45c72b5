//! The events that a trace is mostly made of, each by the core's call for it: an event and an answer
//! would go through memory, which the processor waits for.

ghost use Rattle.std.specs.Prelude.{◌≡◌, ◌<◌, [], ◌∷◌, Some, None, IfOk};
ghost use Rattle.hg_core.specs.Answers.{free_answer};
ghost use Rattle.hg_heap.specs.Answers.{alloc_answer, read_answer, done_answer};
ghost use Rattle.hg_machine.specs.declared.Answer.{Answer};
ghost use Rattle.hg_machine.specs.declared.Event.TheVariants as Event;
ghost use Rattle.hg_replay.specs.Replays.{handle_in};
ghost use Rattle.hg_replay.specs.Served.{Served};

use crate::replaying::output::Output;
use crate::replaying::sink::Sink;
use crate::replaying::text::{freed_line, refused_line, written_line};
use hg_core::Core;
use hg_place::{Actor, Handle};

/// Serves an Alloc, and tells the handle that was given out.
pub(crate) fn serve_alloc<W: Sink>(
    core: &mut Core,
    worker: u8,
    actor: Actor,
    arena: u8,
    bytes: u64,
    output: &mut Output,
    out: &mut W,
) -> Option<Handle>
    requires { worker < core.old.state.policy.workers }
    ensures { (answer : Answer) × (result ≡ handle_in (answer ∷ []))
        × Served core.old worker (Event.Alloc actor arena bytes) answer core.new
        (W.seen out.old) output.old (W.seen out.new) output.new }
{
    match core.alloc(worker, actor, arena, bytes) {
        Ok(handle) => {
            output.put_block(out, handle);
            Some(handle)
        }
        Err(refused) => {
            output.put(out, refused_line(refused).as_bytes());
            None
        }
    }
}

/// Serves a Free.
pub(crate) fn serve_free<W: Sink>(
    core: &mut Core,
    worker: u8,
    actor: Actor,
    handle: Handle,
    output: &mut Output,
    out: &mut W,
)
    requires { worker < core.old.state.policy.workers }
    ensures { (answer : Answer)
        × Served core.old worker (Event.Free actor handle) answer core.new
        (W.seen out.old) output.old (W.seen out.new) output.new }
{
    let told = core.free(worker, actor, handle);
    output.put(out, freed_line(told).as_bytes());
}

/// Serves a Read.
pub(crate) fn serve_read<W: Sink>(
    core: &mut Core,
    worker: u8,
    actor: Actor,
    handle: Handle,
    index: u32,
    output: &mut Output,
    out: &mut W,
)
    requires { worker < core.old.state.policy.workers }
    ensures { (answer : Answer)
        × Served core.old worker (Event.Read actor handle index) answer core.new
        (W.seen out.old) output.old (W.seen out.new) output.new }
{
    match core.read(worker, actor, handle, index) {
        Ok(value) => output.put_value(out, value),
        Err(refused) => output.put(out, refused_line(refused).as_bytes()),
    }
}

/// Serves a Write.
pub(crate) fn serve_write<W: Sink>(
    core: &mut Core,
    worker: u8,
    actor: Actor,
    handle: Handle,
    index: u32,
    value: u64,
    output: &mut Output,
    out: &mut W,
)
    requires { worker < core.old.state.policy.workers }
    ensures { (answer : Answer)
        × Served core.old worker (Event.Write actor handle index value) answer core.new
        (W.seen out.old) output.old (W.seen out.new) output.new }
{
    let told = core.write(worker, actor, handle, index, value);
    output.put(out, written_line(told).as_bytes());
}
