//! The words of the blocks of a service, for a worker that is hosted.

ghost use Rattle.hg_bytes.specs.OfWorker.{worker_has, worker_reads, worker_writes};

use crate::store::WordStore;
use hg_hosted::HostedWorker;
use hg_machine::Answer;
use hg_place::{Actor, Handle};

/// An actor for whom a worker asks, and the block that it asks for.
#[derive(Clone, Copy, Debug, PartialEq, Eq)]
pub struct WorkerBlock {
    pub actor: Actor,
    pub handle: Handle,
}

/// A call is the worker's own.
impl WordStore for HostedWorker {
    type By = WorkerBlock;

    ghost may = { worker_has };

    ghost reads = { worker_reads };

    ghost writes = { worker_writes };

    fn read(&mut self, by: &WorkerBlock, index: u32) -> Answer {
        HostedWorker::read(self, by.actor, by.handle, index)
    }

    fn write(&mut self, by: &WorkerBlock, index: u32, value: u64) -> Answer {
        HostedWorker::write(self, by.actor, by.handle, index, value)
    }
}
