//! Collect: pages without open places lose their class.

ghost use Rattle.std.specs.Prelude.{◌<◌};
ghost use Rattle.hg_machine.specs.declared.Event.TheVariants as Event;
ghost use Rattle.hg_machine.specs.declared.Answer.TheVariants as Answer;
ghost use Rattle.hg_machine.specs.Steps.{Step};
ghost use Rattle.hg_chosen.specs.Chosen.{IsChosenBy};
ghost use Rattle.hg_core.specs.Keeping.{state_in, IsKept};

use crate::stores::Stores;

impl Stores {
    /// Takes the class from each page of the worker's that has no open place, and tells from how
    /// many.
    pub(crate) fn collect(&mut self, worker: u8) -> u32
        requires { worker < self.old.policy.workers }
        ensures step { Step (state_in self.old) worker Event.Collect (Answer.Pages result)
            (state_in self.new) }
        ensures chosen { IsChosenBy self.old worker Event.Collect (Answer.Pages result) self.new }
        ensures kept { IsKept self.new }
    {
        let heap = &mut self.heaps[usize::from(worker)];
        let count = heap.collect();
        heap.settled();
        count
    }
}
