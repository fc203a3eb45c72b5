//! Refill: a worker takes the next segment of an arena.

ghost use Rattle.std.specs.Prelude.{◌<◌};
ghost use Rattle.hg_machine.specs.declared.Event.TheVariants as Event;
ghost use Rattle.hg_machine.specs.Steps.{Step};
ghost use Rattle.hg_chosen.specs.Chosen.{IsChosenBy};
ghost use Rattle.hg_core.specs.Answers.{refill_answer};
ghost use Rattle.hg_core.specs.Keeping.{state_in, IsKept};

use crate::refusals::NoSegment;
use crate::stores::Stores;

impl Stores {
    /// The worker takes the oldest orphan of the arena, or else its lowest fresh segment.
    pub(crate) fn refill(&mut self, worker: u8, arena: u8) -> Result<u8, NoSegment>
        requires { worker < self.old.policy.workers }
        ensures step { Step (state_in self.old) worker (Event.Refill arena)
            (refill_answer result) (state_in self.new) }
        ensures chosen { IsChosenBy self.old worker (Event.Refill arena)
            (refill_answer result) self.new }
        ensures kept { IsKept self.new }
    {
        let Some(one) = self.pool.next_of(arena) else {
            return Err(NoSegment);
        };
        let segment = one.number();
        let heap = &mut self.heaps[usize::from(worker)];
        heap.settled();
        heap.adopt(one);
        heap.settled();
        self.holders[usize::from(segment)] = Some(worker);
        Ok(segment)
    }
}
