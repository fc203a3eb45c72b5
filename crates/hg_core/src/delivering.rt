//! Deliver: the place in a worker's hand goes to the remote list of its segment.

ghost use Rattle.std.specs.Prelude.{◌<◌};
ghost use Rattle.hg_machine.specs.declared.Event.TheVariants as Event;
ghost use Rattle.hg_machine.specs.Steps.{Step};
ghost use Rattle.hg_chosen.specs.Chosen.{IsChosenBy};
ghost use Rattle.hg_core.specs.Answers.{deliver_answer};
ghost use Rattle.hg_core.specs.Keeping.{state_in, IsKept};

use crate::refusals::NothingInHand;
use crate::stores::Stores;

impl Stores {
    /// Sends the place that the worker has in hand to those who hold its segment.
    pub(crate) fn deliver(&mut self, worker: u8) -> Result<(), NothingInHand>
        requires { worker < self.old.policy.workers }
        ensures step { Step (state_in self.old) worker Event.Deliver (deliver_answer result)
            (state_in self.new) }
        ensures chosen { IsChosenBy self.old worker Event.Deliver (deliver_answer result) self.new }
        ensures kept { IsKept self.new }
    {
        let Some(place) = self.hands[usize::from(worker)] else {
            return Err(NothingInHand);
        };
        let remote = &mut self.remotes[usize::from(place.segment)];
        let Ok(()) = remote.push(place.page, place.index) else {
            unreachable!()
        };
        self.hands[usize::from(worker)] = None;
        Ok(())
    }
}
