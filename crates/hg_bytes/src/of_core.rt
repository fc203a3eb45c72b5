//! The words of a core's blocks.

ghost use Rattle.hg_machine.specs.Lists.{IsPartition};
ghost use Rattle.hg_machine.specs.Soundness.{IsSound};
ghost use Rattle.hg_bytes.specs.Bytes.{ReadsBytes, WritesBytes};
ghost use Rattle.hg_bytes.specs.OfCore.{core_has, core_reads, core_writes};

use crate::progress::Progress;
use crate::reading::read_bytes;
use crate::store::WordStore;
use crate::writing::write_bytes;
use hg_core::Core;
use hg_heap::{done_answer, read_answer};
use hg_machine::Answer;
use hg_place::{Actor, Handle};

/// A worker of a core that asks for an actor, and the block that it asks for.
#[derive(Clone, Copy, Debug, PartialEq, Eq)]
pub struct CoreBlock {
    pub worker: u8,
    pub actor: Actor,
    pub handle: Handle,
}

/// A call is the event of the worker.
impl WordStore for Core {
    type By = CoreBlock;

    ghost may = { core_has };

    ghost reads = { core_reads };

    ghost writes = { core_writes };

    fn read(&mut self, by: &CoreBlock, index: u32) -> Answer {
        read_answer(Core::read(self, by.worker, by.actor, by.handle, index))
    }

    fn write(&mut self, by: &CoreBlock, index: u32, value: u64) -> Answer {
        done_answer(Core::write(self, by.worker, by.actor, by.handle, index, value))
    }
}

/// `read_bytes` of a core's block, after which the core is sound and its lists are a partition.
pub fn read_core_bytes(core: &mut Core, by: &CoreBlock, first: u64, room: &mut [u8]) -> Progress
    requires { core_has by.now core.old }
    ensures read { ReadsBytes core_reads core_writes by.now first room.old result room.new
        core.old core.new }
    ensures kept { IsSound core.new.state × IsPartition core.new }
{
    let made = read_bytes(core, by, first, room);
    let _policy = core.policy(); // so that what holds of the core is known after it
    made
}

/// `write_bytes` into a core's block, after which the core is sound and its lists are a partition.
pub fn write_core_bytes(core: &mut Core, by: &CoreBlock, first: u64, bytes: &[u8]) -> Progress
    requires { core_has by.now core.old }
    ensures written { WritesBytes core_reads core_writes by.now first bytes.now result
        core.old core.new }
    ensures kept { IsSound core.new.state × IsPartition core.new }
{
    let made = write_bytes(core, by, first, bytes);
    let _policy = core.policy(); // so that what holds of the core is known after it
    made
}
