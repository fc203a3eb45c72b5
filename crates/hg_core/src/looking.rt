//! Look: a row of a block.

ghost use Rattle.std.specs.Prelude.{◌<◌};
ghost use Rattle.hg_machine.specs.declared.Event.TheVariants as Event;
ghost use Rattle.hg_machine.specs.Steps.{Step};
ghost use Rattle.hg_chosen.specs.Chosen.{IsChosenBy};
ghost use Rattle.hg_heap.specs.Answers.{look_answer};
ghost use Rattle.hg_core.specs.Keeping.{state_in, IsKept};

use crate::stores::Stores;
use hg_heap::{Refused, unlisted};
use hg_machine::Row;
use hg_place::{Actor, Place};

impl Stores {
    /// Shows the actor the block at a place of a segment that the worker holds.
    pub(crate) fn look(&mut self, worker: u8, actor: Actor, place: Place) -> Result<Row, Refused>
        requires { worker < self.old.policy.workers }
        ensures step { Step (state_in self.old) worker (Event.Look actor place)
            (look_answer result) (state_in self.new) }
        ensures chosen { IsChosenBy self.old worker (Event.Look actor place)
            (look_answer result) self.new }
        ensures kept { IsKept self.new }
    {
        if !self.holds(worker, place.segment) {
            let word = self.word(place);
            return Err(unlisted(&self.policy, actor, place, word));
        }
        let mut shown = 0;
        let heap = &mut self.heaps[usize::from(worker)];
        let row = heap.look(&self.policy, actor, place, &mut shown);
        heap.settled();
        let Some(row) = row else {
            return Err(unlisted(&self.policy, actor, place, shown));
        };
        Ok(row)
    }
}
