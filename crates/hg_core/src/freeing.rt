//! Free: a block is given back, home or into a hand.

ghost use Rattle.std.specs.Prelude.{◌≡◌, ◌<◌, true, false, IfErr};
ghost use Rattle.hg_heap.specs.Answers.{done_answer};
ghost use Rattle.hg_machine.specs.declared.Rule.{Rule};
ghost use Rattle.hg_machine.specs.declared.Event.TheVariants as Event;
ghost use Rattle.hg_machine.specs.Holders.{holds};
ghost use Rattle.hg_machine.specs.Steps.{Step};
ghost use Rattle.hg_chosen.specs.Chosen.{IsChosenBy};
ghost use Rattle.hg_core.specs.Answers.{free_answer};
ghost use Rattle.hg_core.specs.Keeping.{state_in, IsKept};

use crate::refusals::{Freed, NotFreed};
use crate::stores::Stores;
use hg_decision::{Verdict, judge};
use hg_heap::Refused;
use hg_place::{Actor, Handle, Right};

impl Stores {
    /// Frees a block: its place goes home where the worker holds its segment, else into the
    /// worker's hand.
    pub(crate) fn free(
        &mut self,
        worker: u8,
        actor: Actor,
        handle: Handle,
    ) -> Result<Freed, NotFreed>
        requires { worker < self.old.policy.workers }
        ensures step { Step (state_in self.old) worker (Event.Free actor handle)
            (free_answer result) (state_in self.new) }
        ensures chosen { IsChosenBy self.old worker (Event.Free actor handle)
            (free_answer result) self.new }
        ensures kept { IsKept self.new }
    {
        if self.holds(worker, handle.place.segment) {
            return self.free_here(worker, actor, handle);
        }
        self.free_away(worker, actor, handle)
    }

    /// Frees a block of a segment that the worker holds.
    fn free_here(&mut self, worker: u8, actor: Actor, handle: Handle) -> Result<Freed, NotFreed>
        requires worker { worker < self.old.policy.workers }
        requires here { holds (state_in self.old) worker handle.place.segment ≡ true }
        ensures step { Step (state_in self.old) worker (Event.Free actor handle)
            (free_answer result) (state_in self.new) }
        ensures chosen { IsChosenBy self.old worker (Event.Free actor handle)
            (free_answer result) self.new }
        ensures kept { IsKept self.new }
    {
        let heap = &mut self.heaps[usize::from(worker)];
        let freed = heap.free_here(&self.policy, actor, handle);
        heap.settled();
        freed_here(freed)
    }

    /// Frees a block of a segment that the worker doesn't hold.
    fn free_away(&mut self, worker: u8, actor: Actor, handle: Handle) -> Result<Freed, NotFreed>
        requires worker { worker < self.old.policy.workers }
        requires away { holds (state_in self.old) worker handle.place.segment ≡ false }
        ensures step { Step (state_in self.old) worker (Event.Free actor handle)
            (free_answer result) (state_in self.new) }
        ensures chosen { IsChosenBy self.old worker (Event.Free actor handle)
            (free_answer result) self.new }
        ensures kept { IsKept self.new }
    {
        let place = handle.place;
        let word = self.word(place);
        if let Verdict::Denied(rule) = judge(&self.policy, actor, Right::Free, handle, word) {
            return Err(NotFreed::Denied(rule));
        }
        if self.hands[usize::from(worker)].is_some() {
            return Err(NotFreed::Busy);
        }
        if let Some(holder) = self.holder_of(place.segment) {
            let Ok(()) = self.heaps[usize::from(holder)].part(place, word) else {
                unreachable!()
            };
            self.hands[usize::from(worker)] = Some(place);
            return Ok(Freed::InHand);
        }
        let Ok(()) = self.pool.part(place, word) else {
            unreachable!()
        };
        self.hands[usize::from(worker)] = Some(place);
        Ok(Freed::InHand)
    }
}

/// What became of a block that the worker's own heap freed or denied.
fn freed_here(freed: Result<(), Refused>) -> Result<Freed, NotFreed>
    requires { IfErr freed (λ refused. (rule : Rule) × (refused ≡ Refused.Denied rule)) }
    ensures { free_answer result ≡ done_answer freed }
{
    match freed {
        Ok(()) => Ok(Freed::Here),
        Err(Refused::Denied(rule)) => Err(NotFreed::Denied(rule)),
        Err(_) => unreachable!(),
    }
}
