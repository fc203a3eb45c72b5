//! Abandon: a worker gives up a segment.

ghost use Rattle.std.specs.Prelude.{◌<◌};
ghost use Rattle.hg_machine.specs.declared.Event.TheVariants as Event;
ghost use Rattle.hg_machine.specs.Steps.{Step};
ghost use Rattle.hg_chosen.specs.Chosen.{IsChosenBy};
ghost use Rattle.hg_core.specs.Answers.{abandon_answer};
ghost use Rattle.hg_core.specs.Keeping.{state_in, IsKept};

use crate::refusals::NotHeld;
use crate::stores::Stores;

impl Stores {
    /// The worker gives up a segment that it holds, with its blocks. It is the last orphan now.
    pub(crate) fn abandon(&mut self, worker: u8, segment: u8) -> Result<(), NotHeld>
        requires { worker < self.old.policy.workers }
        ensures step { Step (state_in self.old) worker (Event.Abandon segment)
            (abandon_answer result) (state_in self.new) }
        ensures chosen { IsChosenBy self.old worker (Event.Abandon segment)
            (abandon_answer result) self.new }
        ensures kept { IsKept self.new }
    {
        let Some(one) = self.heaps[usize::from(worker)].release(segment) else {
            return Err(NotHeld);
        };
        self.pool.put_orphan(one);
        self.holders[usize::from(segment)] = None;
        Ok(())
    }
}
