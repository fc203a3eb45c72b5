//! A trace replayed on a core.

ghost use Rattle.std.specs.Prelude.{◌≡◌, ◌+◌, ◌≤◌, ◌<◌, ℕ, List, [], ◌∷◌, All, true, false};
ghost use Rattle.std.specs.Prelude.{OnOk, OnErr};
ghost use Rattle.std.specs.Prelude.{vec_len, vec_capacity, if◌then◌else◌, IfOk};
ghost use Rattle.hg_choice.specs.ChosenSteps.{ChosenStep};
ghost use Rattle.hg_core.specs.Opening.{opened};
ghost use Rattle.hg_replay.specs.Text.{answer_line};
ghost use Rattle.hg_replay.specs.Writes.{Emits, IsGiven, Wrote};
ghost use Rattle.hg_replay.specs.Replays.{Progress, handle_in, handles_after, starting};
ghost use Rattle.hg_replay.specs.Replays.{Answered, Replays, StopsAt, EndsReplay};
ghost use Rattle.hg_replay.specs.Tellings.{IsTold};
ghost use Rattle.hg_replay.specs.KnownNames.{meanings};
ghost use Rattle.hg_replay.specs.StoredLabels.{binds};
ghost use Rattle.hg_trace.specs.Labels.{label_count};
ghost use Rattle.hg_trace.specs.Stored.{command_in, line_in, lines_in, IsNumbered};

mod events;
pub(crate) mod fault;
pub(crate) mod known;
mod line;
mod listing;
pub(crate) mod output;
pub(crate) mod put;
mod serving;
pub(crate) mod sink;
pub(crate) mod text;
pub(crate) mod told;

use events::{Meaning, actor_at, handle_named, meaning_of, meant_at};
use fault::ReplayFault;
use hg_core::Core;
use hg_machine::{Answer, Event};
use hg_place::Handle;
use hg_policy::Policy;
use hg_trace::{StoredCommand, StoredLine, Trace};
use known::{Meant, look_up};
use listing::list;
use output::Output;
use put::WriteStopped;
use serving::{serve_alloc, serve_free, serve_read, serve_write};
use sink::Sink;
use std::alloc::{AllocError, Global};
use told::Told;

/// Serves an event, and gives the line of its answer to be written.
fn serve<W: Sink>(
    core: &mut Core,
    worker: u8,
    event: Event,
    output: &mut Output,
    out: &mut W,
) -> Answer
    requires { worker < core.old.state.policy.workers }
    ensures chosen { ChosenStep core.old worker event result core.new }
    ensures given { Emits (W.seen out.old) output.old (W.seen out.new) output.new
        (answer_line core.old.state.policy result) }
{
    let answer = core.step(worker, event);
    output.put_answer(out, core.policy(), answer);
    answer
}

/// The handle of an answer to an allocation.
fn handle_in(answer: Answer) -> Option<Handle>
    ensures { result ≡ handle_in (answer ∷ []) }
{
    match answer {
        Answer::Block(handle) => Some(handle),
        _ => None,
    }
}

/// Notes what a command was answered, where its line gives a label.
fn note(handles: &mut Vec<Option<Handle>>, command: StoredCommand, answer: Answer)
    requires { binds command ≡ true → vec_len handles.old < vec_capacity handles.old }
    ensures handles { (names labels : List (List ℕ)) → handles.new.items
        ≡ handles_after handles.old.items (command_in names labels command) (answer ∷ []) }
    ensures count { vec_len handles.new
        ≡ vec_len handles.old + (if binds command then 1 else 0) }
    ensures room { vec_capacity handles.new ≡ vec_capacity handles.old }
{
    if matches!(command, StoredCommand::Alloc { label: Some(_), .. }) {
        handles.push_reserved(handle_in(answer));
    }
}

/// Answers a line, whatever it says: its meaning here is made first. Tells what the line came to.
fn replay_other<W: Sink>(
    core: &mut Core,
    meant: &[Meant],
    handles: &mut Vec<Option<Handle>>,
    line: &StoredLine,
    output: &mut Output,
    out: &mut W,
) -> Told
    requires worker { line.now.worker < core.old.state.policy.workers }
    requires room { binds line.now.command ≡ true
        → vec_len handles.old < vec_capacity handles.old }
    ensures answered { (names labels : List (List ℕ))
        → meant.now ≡ meanings core.old.state.policy names
        → IsNumbered names labels line.now.command
        → (text : List ℕ)
        × Answered (record { kept = core.old; handles = handles.old.items })
        (line_in names labels line.now)
        (record { kept = core.new; handles = handles.new.items }) text
        × Emits (W.seen out.old) output.old (W.seen out.new) output.new text }
    ensures told { (names labels : List (List ℕ))
        → meant.now ≡ meanings core.old.state.policy names
        → IsNumbered names labels line.now.command
        → IsTold (record { kept = core.old; handles = handles.old.items })
        (line_in names labels line.now) result core.new }
    ensures count { vec_len handles.new
        ≡ vec_len handles.old + (if binds line.now.command then 1 else 0) }
    ensures room { vec_capacity handles.new ≡ vec_capacity handles.old }
{
    match meaning_of(meant, handles, line.command) {
        Meaning::One(event) => {
            let answer = serve(core, line.worker, event, output, out);
            note(handles, line.command, answer);
            Told::One(event, answer)
        }
        Meaning::Listing(actor) => {
            list(core, line.worker, actor, output, out);
            Told::Listing
        }
        Meaning::Unbound => {
            output.put(out, b"unbound\n");
            Told::Unbound
        }
    }
}

/// Answers a line, where this is what the names mean. What most lines ask for is served by the
/// core's call for it.
fn replay_line<W: Sink>(
    core: &mut Core,
    meant: &[Meant],
    handles: &mut Vec<Option<Handle>>,
    line: &StoredLine,
    output: &mut Output,
    out: &mut W,
)
    requires worker { line.now.worker < core.old.state.policy.workers }
    requires room { binds line.now.command ≡ true
        → vec_len handles.old < vec_capacity handles.old }
    ensures answered { (names labels : List (List ℕ))
        → meant.now ≡ meanings core.old.state.policy names
        → IsNumbered names labels line.now.command
        → (text : List ℕ)
        × Answered (record { kept = core.old; handles = handles.old.items })
        (line_in names labels line.now)
        (record { kept = core.new; handles = handles.new.items }) text
        × Emits (W.seen out.old) output.old (W.seen out.new) output.new text }
    ensures count { vec_len handles.new
        ≡ vec_len handles.old + (if binds line.now.command then 1 else 0) }
    ensures room { vec_capacity handles.new ≡ vec_capacity handles.old }
{
    match line.command {
        StoredCommand::Alloc {
            actor,
            arena,
            bytes,
            label,
        } => {
            let actor = actor_at(meant, actor);
            let arena = meant_at(meant, arena).arena;
            let given = serve_alloc(core, line.worker, actor, arena, bytes, output, out);
            if label.is_some() {
                handles.push_reserved(given);
            }
        }
        StoredCommand::Free { actor, block } => match handle_named(handles, block) {
            Some(handle) => {
                let actor = actor_at(meant, actor);
                serve_free(core, line.worker, actor, handle, output, out);
            }
            None => output.put(out, b"unbound\n"),
        },
        StoredCommand::Read {
            actor,
            block,
            index,
        } => match handle_named(handles, block) {
            Some(handle) => {
                let actor = actor_at(meant, actor);
                serve_read(core, line.worker, actor, handle, index, output, out);
            }
            None => output.put(out, b"unbound\n"),
        },
        StoredCommand::Write {
            actor,
            block,
            index,
            value,
        } => match handle_named(handles, block) {
            Some(handle) => {
                let actor = actor_at(meant, actor);
                serve_write(core, line.worker, actor, handle, index, value, output, out);
            }
            None => output.put(out, b"unbound\n"),
        },
        _ => {
            replay_other(core, meant, handles, line, output, out);
        }
    }
}

/// Answers the lines, until a write stops. It asks for no memory.
fn replay_lines<W: Sink>(
    core: &mut Core,
    meant: &[Meant],
    handles: &mut Vec<Option<Handle>>,
    trace: &Trace,
    output: &mut Output,
    out: &mut W,
) -> Result<(), WriteStopped>
    requires workers { All (λ line. line.worker < core.old.state.policy.workers)
        (lines_in trace.now) }
    requires meant { meant.now ≡ meanings core.old.state.policy trace.now.names }
    requires none { handles.old.items ≡ [] }
    requires count { vec_len handles.old ≡ 0 }
    requires room { label_count (lines_in trace.now) ≤ vec_capacity handles.old }
    requires empty { IsGiven (W.seen out.old) (W.seen out.old) output.old [] }
    requires going { output.old.stopped ≡ false }
    ensures ok { OnOk result ((text : List ℕ)
        × Replays (starting core.old) (lines_in trace.now)
        (record { kept = core.new; handles = handles.new.items }) text
        × IsGiven (W.seen out.old) (W.seen out.new) output.new text
        × (output.new.stopped ≡ false)) }
    ensures stopped { OnErr result (StopsAt core.old (lines_in trace.now)
        (record { kept = core.new; handles = handles.new.items })
        (W.seen out.old) (W.seen out.new)) }
{
    for line in trace.stored() {
        replay_line(core, meant, handles, line, output, out);
        if output.has_stopped() {
            return Err(WriteStopped);
        }
    }
    Ok(())
}

/// Answers the lines on a core whose labels have room, and writes all that they are answered.
fn replay_on<W: Sink>(
    core: &mut Core,
    meant: &[Meant],
    mut handles: Vec<Option<Handle>>,
    trace: &Trace,
    out: &mut W,
) -> Result<(), WriteStopped>
    requires workers { All (λ line. line.worker < core.old.state.policy.workers)
        (lines_in trace.now) }
    requires meant { meant.now ≡ meanings core.old.state.policy trace.now.names }
    requires none { handles.items ≡ [] }
    requires count { vec_len handles ≡ 0 }
    requires room { label_count (lines_in trace.now) ≤ vec_capacity handles }
    ensures ok { OnOk result ((end : Progress) × (text : List ℕ)
        × Replays (starting core.old) (lines_in trace.now) end text
        × Wrote (W.seen out.old) (W.seen out.new) text) }
    ensures stopped { OnErr result ((end : Progress) × (end.kept ≡ core.new)
        × StopsAt core.old (lines_in trace.now) end (W.seen out.old) (W.seen out.new)) }
{
    let mut output = Output::new();
    match replay_lines(core, meant, &mut handles, trace, &mut output, out) {
        Ok(()) => output.finish(out),
        Err(stopped) => Err(stopped),
    }
}

/// What a replay has before its first event: a core for a policy, what the names of the trace mean
/// under it, and room for the handles of its labels.
#[derive(Drop)]
pub struct Ready {
    pub core: Core,
    /// What each name means, at its number in the trace.
    pub meant: Vec<Meant>,
    /// What the allocation of each label so far was answered, in the order of the labels.
    pub handles: Vec<Option<Handle>>,
}

/// All memory that a replay needs.
pub fn start(alloc: Global, policy: Policy, trace: &Trace) -> Result<Ready, AllocError>
    ensures opened { IfOk result (λ ready. ready.core ≡ opened policy) }
    ensures meant { IfOk result (λ ready. ready.meant.items ≡ meanings policy trace.now.names) }
    ensures none { IfOk result (λ ready. ready.handles.items ≡ []) }
    ensures count { IfOk result (λ ready. vec_len ready.handles ≡ 0) }
    ensures room { IfOk result
        (λ ready. label_count (lines_in trace.now) ≤ vec_capacity ready.handles) }
{
    let meant = look_up(alloc, &policy, trace.names())?;
    let core = Core::open(alloc, policy)?;
    let handles = Vec::with_capacity(alloc, trace.label_count())?;
    Ok(Ready {
        core,
        meant,
        handles,
    })
}

/// Writes the answers to a trace, from a core of its own that the policy opens. All memory is asked
/// for before the first event.
pub fn replay<W: Sink>(
    alloc: Global,
    policy: Policy,
    trace: &Trace,
    out: &mut W,
) -> Result<(), ReplayFault>
    ensures { EndsReplay policy (lines_in trace.now) (W.seen out.old) (W.seen out.new) result }
{
    if let Some(line) = trace.first_from(policy.workers()) {
        return Err(ReplayFault::Worker(line));
    }
    let Ok(
        Ready {
            mut core,
            meant,
            handles,
        },
    ) = start(alloc, policy, trace)
    else {
        return Err(ReplayFault::Memory);
    };
    match replay_on(&mut core, &meant, handles, trace, out) {
        Ok(()) => Ok(()),
        Err(WriteStopped) => Err(ReplayFault::Write),
    }
}
