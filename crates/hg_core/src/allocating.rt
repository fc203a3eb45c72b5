//! Alloc: a block is given out.

ghost use Rattle.std.specs.Prelude.{◌<◌};
ghost use Rattle.hg_machine.specs.declared.Event.TheVariants as Event;
ghost use Rattle.hg_machine.specs.Steps.{Step};
ghost use Rattle.hg_chosen.specs.Chosen.{IsChosenBy};
ghost use Rattle.hg_heap.specs.Answers.{alloc_answer};
ghost use Rattle.hg_core.specs.Keeping.{state_in, IsKept};

use crate::stores::Stores;
use hg_heap::Refused;
use hg_place::{Actor, Handle};

impl Stores {
    /// Gives out a block of so many bytes of a segment of the arena that the worker holds.
    pub(crate) fn alloc(
        &mut self,
        worker: u8,
        actor: Actor,
        arena: u8,
        bytes: u64,
    ) -> Result<Handle, Refused>
        requires { worker < self.old.policy.workers }
        ensures step { Step (state_in self.old) worker (Event.Alloc actor arena bytes)
            (alloc_answer result) (state_in self.new) }
        ensures chosen { IsChosenBy self.old worker (Event.Alloc actor arena bytes)
            (alloc_answer result) self.new }
        ensures kept { IsKept self.new }
    {
        let heap = &mut self.heaps[usize::from(worker)];
        heap.settled();
        let given = heap.alloc(&self.policy, actor, arena, bytes);
        heap.settled();
        given
    }
}
