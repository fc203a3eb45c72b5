//! Read and Write: a word of a block.

ghost use Rattle.std.specs.Prelude.{◌<◌};
ghost use Rattle.hg_heap.specs.Answers.{read_answer, done_answer};
ghost use Rattle.hg_machine.specs.declared.Event.TheVariants as Event;
ghost use Rattle.hg_machine.specs.Steps.{Step};
ghost use Rattle.hg_chosen.specs.Chosen.{IsChosenBy};
ghost use Rattle.hg_core.specs.Keeping.{state_in, IsKept};

use crate::stores::Stores;
use hg_heap::Refused;
use hg_place::{Actor, Handle, Right};

impl Stores {
    /// Reads a word of a block of a segment that the worker holds.
    pub(crate) fn read(
        &mut self,
        worker: u8,
        actor: Actor,
        handle: Handle,
        index: u32,
    ) -> Result<u64, Refused>
        requires { worker < self.old.policy.workers }
        ensures step { Step (state_in self.old) worker (Event.Read actor handle index)
            (read_answer result) (state_in self.new) }
        ensures chosen { IsChosenBy self.old worker (Event.Read actor handle index)
            (read_answer result) self.new }
        ensures kept { IsKept self.new }
    {
        if !self.holds(worker, handle.place.segment) {
            return Err(self.out_of_reach(actor, Right::Read, handle));
        }
        let heap = &mut self.heaps[usize::from(worker)];
        let value = heap.read(&self.policy, actor, handle, index);
        heap.settled();
        value
    }

    /// Writes a word of a block of a segment that the worker holds.
    pub(crate) fn write(
        &mut self,
        worker: u8,
        actor: Actor,
        handle: Handle,
        index: u32,
        value: u64,
    ) -> Result<(), Refused>
        requires { worker < self.old.policy.workers }
        ensures step { Step (state_in self.old) worker (Event.Write actor handle index value)
            (done_answer result) (state_in self.new) }
        ensures chosen { IsChosenBy self.old worker (Event.Write actor handle index value)
            (done_answer result) self.new }
        ensures kept { IsKept self.new }
    {
        if !self.holds(worker, handle.place.segment) {
            return Err(self.out_of_reach(actor, Right::Write, handle));
        }
        let heap = &mut self.heaps[usize::from(worker)];
        let written = heap.write(&self.policy, actor, handle, index, value);
        heap.settled();
        written
    }
}
