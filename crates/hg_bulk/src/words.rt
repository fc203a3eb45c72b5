//! Many words of a block.

ghost use Rattle.std.specs.Prelude.{◌≡◌, ◌<◌};
ghost use Rattle.hg_machine.specs.Lists.{IsPartition};
ghost use Rattle.hg_machine.specs.Soundness.{IsSound};
ghost use Rattle.hg_bulk.specs.Words.{ReadsWords, WritesWords};

use crate::progress::Progress;
use hg_core::Core;
use hg_place::{Actor, Handle};

/// Reads as many words of a block as the room has, from the word of an index on: they are the Reads
/// of these words, one after another, and the first that is refused ends them. What stands in the
/// room behind those that were read is as it was.
pub fn read_words(
    core: &mut Core,
    worker: u8,
    actor: Actor,
    handle: Handle,
    first: u32,
    room: &mut [u64],
) -> Progress
    requires { worker < core.old.state.policy.workers }
    ensures words { ReadsWords core.old worker actor handle first room.old result
        core.new room.new }
    ensures kept { IsSound core.new.state × IsPartition core.new }
{
    let far = core.read_words(worker, actor, handle, first, room);
    Progress {
        done: far.done,
        refused: far.refused,
    }
}

/// Writes words into a block, from the word of an index on: they are the Writes of these words, one
/// after another, and the first that is refused ends them.
pub fn write_words(
    core: &mut Core,
    worker: u8,
    actor: Actor,
    handle: Handle,
    first: u32,
    words: &[u64],
) -> Progress
    requires { worker < core.old.state.policy.workers }
    ensures words { WritesWords core.old worker actor handle first words.now result core.new }
    ensures kept { IsSound core.new.state × IsPartition core.new }
{
    let far = core.write_words(worker, actor, handle, first, words);
    Progress {
        done: far.done,
        refused: far.refused,
    }
}
