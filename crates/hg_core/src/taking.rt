//! Take: what was sent to a segment comes home.

ghost use Rattle.std.specs.Prelude.{◌<◌};
ghost use Rattle.hg_machine.specs.declared.Event.TheVariants as Event;
ghost use Rattle.hg_machine.specs.Steps.{Step};
ghost use Rattle.hg_chosen.specs.Chosen.{IsChosenBy};
ghost use Rattle.hg_core.specs.Answers.{take_answer};
ghost use Rattle.hg_core.specs.Keeping.{state_in, IsKept};

use crate::refusals::NotHeld;
use crate::stores::Stores;

impl Stores {
    /// Takes in what was sent to a segment that the worker holds, and tells how many places came
    /// home.
    pub(crate) fn take(&mut self, worker: u8, segment: u8) -> Result<u32, NotHeld>
        requires { worker < self.old.policy.workers }
        ensures step { Step (state_in self.old) worker (Event.Take segment) (take_answer result)
            (state_in self.new) }
        ensures chosen { IsChosenBy self.old worker (Event.Take segment)
            (take_answer result) self.new }
        ensures kept { IsKept self.new }
    {
        let heap = &mut self.heaps[usize::from(worker)];
        if !heap.holds(segment) {
            return Err(NotHeld);
        }
        let count = heap.take(segment, &mut self.remotes[usize::from(segment)]);
        heap.settled();
        Ok(count)
    }
}
