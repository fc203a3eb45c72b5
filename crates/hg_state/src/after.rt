//! A trace answered to its end.

ghost use Rattle.std.specs.Prelude.{◌≡◌, ◌+◌, ◌≤◌, ◌<◌, ℕ, List, [], true, All, IfOk, OnOk};
ghost use Rattle.std.specs.Prelude.{vec_len, vec_capacity, if◌then◌else◌};
ghost use Rattle.hg_trace.specs.Labels.{label_count};
ghost use Rattle.hg_trace.specs.Stored.{line_in, lines_in, IsNumbered};
ghost use Rattle.hg_replay.specs.KnownNames.{meanings};
ghost use Rattle.hg_replay.specs.Replays.{Answered, Progress, starting};
ghost use Rattle.hg_replay.specs.StoredLabels.{binds};
ghost use Rattle.hg_replay.specs.Tellings.{IsTold};
ghost use Rattle.hg_replay.specs.declared.replaying.told.Told.{Told};
ghost use Rattle.hg_state.specs.After.{ComeTo, Leads};
ghost use Rattle.hg_state.specs.Costs.{all_granted};

use crate::costs::{Granted, note_told};
use crate::orphans::note;
use hg_core::Core;
use hg_policy::Policy;
use hg_replay::{Ready, Told, start};
use hg_trace::{StoredLine, Trace};
use std::alloc::{AllocError, Global};

/// Answers the next line, drops the text of its answer, and tells what it came to.
fn answer_next(
    ready: &mut Ready,
    line: &StoredLine,
    reply: &mut Vec<u8>,
) -> Result<Told, AllocError>
    requires worker { line.now.worker < ready.old.core.state.policy.workers }
    requires room { binds line.now.command ≡ true
        → vec_len ready.old.handles < vec_capacity ready.old.handles }
    ensures told { IfOk result (λ told. (names labels : List (List ℕ))
        → ready.old.meant.items ≡ meanings ready.old.core.state.policy names
        → IsNumbered names labels line.now.command
        → (text : List ℕ)
        × Answered (record { kept = ready.old.core; handles = ready.old.handles.items })
        (line_in names labels line.now)
        (record { kept = ready.new.core; handles = ready.new.handles.items }) text
        × IsTold (record { kept = ready.old.core; handles = ready.old.handles.items })
        (line_in names labels line.now) told ready.new.core) }
    ensures meant { ready.new.meant ≡ ready.old.meant }
    ensures count { vec_len ready.new.handles
        ≡ vec_len ready.old.handles + (if binds line.now.command then 1 else 0) }
    ensures room { vec_capacity ready.new.handles ≡ vec_capacity ready.old.handles }
{
    reply.clear();
    match ready.tell(line, reply) {
        Ok(told) => Ok(told),
        Err(_) => Err(AllocError),
    }
}

/// Answers the lines one after another, drops the text of each answer, and notes orphans and blocks.
fn answer_all(
    alloc: Global,
    ready: &mut Ready,
    trace: &Trace,
    orphans: &mut Vec<u8>,
    blocks: &mut Vec<Granted>,
) -> Result<(), AllocError>
    requires workers { All (λ line. line.worker < ready.old.core.state.policy.workers)
        (lines_in trace.now) }
    requires meant { ready.old.meant.items
        ≡ meanings ready.old.core.state.policy trace.now.names }
    requires none { ready.old.handles.items ≡ [] }
    requires count { vec_len ready.old.handles ≡ 0 }
    requires room { label_count (lines_in trace.now) ≤ vec_capacity ready.old.handles }
    requires orphans { orphans.old.items ≡ ready.old.core.state.orphans }
    requires blocks { blocks.old.items ≡ [] }
    ensures replayed { OnOk result ((end : Progress) × (told : List Told)
        × ComeTo (starting ready.old.core) (lines_in trace.now) end told
        × (end.kept ≡ ready.new.core) × (blocks.new.items ≡ all_granted told)) }
    ensures orphans { OnOk result (orphans.new.items ≡ ready.new.core.state.orphans) }
{
    let mut reply = Vec::new(alloc);
    for line in trace.stored() {
        let told = answer_next(ready, line, &mut reply)?;
        note(orphans, told)?;
        note_told(blocks, told)?;
    }
    Ok(())
}

/// What a trace leaves: the core, its orphans, oldest first, and the blocks that were given out, in
/// order.
#[derive(Drop)]
pub(crate) struct Left {
    pub core: Core,
    pub orphans: Vec<u8>,
    pub blocks: Vec<Granted>,
}

/// What a trace leaves, from a core that the policy opens.
pub(crate) fn after(alloc: Global, policy: Policy, trace: &Trace) -> Result<Left, AllocError>
    requires { All (λ line. line.worker < policy.workers) (lines_in trace.now) }
    ensures led { IfOk result (λ left. (told : List Told)
        × Leads policy (lines_in trace.now) left.core told
        × (left.blocks.items ≡ all_granted told)) }
    ensures orphans { IfOk result (λ left. left.orphans.items ≡ left.core.state.orphans) }
{
    let mut orphans = Vec::new(alloc);
    let mut blocks = Vec::new(alloc);
    let mut ready = start(alloc, policy, trace)?;
    answer_all(alloc, &mut ready, trace, &mut orphans, &mut blocks)?;
    Ok(Left {
        core: ready.core,
        orphans,
        blocks,
    })
}
