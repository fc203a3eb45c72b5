//! Many words of a block, at once.

ghost use Rattle.std.specs.Prelude.{◌≡◌, ◌<◌, ◌+◌, ℕ, Err, Result, IfSome, length, drop, take};
ghost use Rattle.std.specs.Prelude.{replicate, slice_index};
ghost use Rattle.hg_heap.specs.declared.refused.Refused.{Refused};
ghost use Rattle.hg_heap.specs.Answers.{read_answer, refused_answer};
ghost use Rattle.hg_heap.specs.Many.{ComesTo};
ghost use Rattle.hg_machine.specs.declared.Answer.TheVariants as Answer;
ghost use Rattle.hg_machine.specs.declared.Event.TheVariants as Event;
ghost use Rattle.hg_agreement.specs.Parts.{kept_of};
ghost use Rattle.hg_events.specs.Core.{parts_of};
ghost use Rattle.hg_choice.specs.ChosenSteps.{Chosen};
ghost use Rattle.hg_chosen.specs.Chosen.{IsChosenBy};
ghost use Rattle.hg_core.specs.Keeping.{IsKept};
ghost use Rattle.hg_core.specs.WordEvents.{writes};

use crate::stores::Stores;
use hg_heap::HowFar;
use hg_place::{Actor, Handle, Right};

impl Stores {
    /// Reads words of a block of a segment that the worker holds into a room, from the word of an
    /// index on: as many as the block has there and the room holds.
    pub(crate) fn read_words(
        &mut self,
        worker: u8,
        actor: Actor,
        handle: Handle,
        first: u32,
        room: &mut [u64],
    ) -> HowFar
        requires worker { worker < self.old.policy.workers }
        requires some { 0 < length room.old }
        ensures each { (at : ℕ) → at < result.done → IsChosenBy self.old worker
            (Event.Read actor handle (first + at)) (Answer.Value (slice_index room.new at))
            self.new }
        ensures next { (told : Result ℕ Refused) × IsChosenBy self.old worker
            (Event.Read actor handle (first + result.done)) (read_answer told) self.new
            × IfSome result.refused (λ why. told ≡ Err why) }
        ensures end { ComesTo (length room.old) result }
        ensures rest { drop result.done room.new ≡ drop result.done room.old }
        ensures kept { IsKept self.new }
    {
        if !self.holds(worker, handle.place.segment) {
            return HowFar {
                done: 0,
                refused: Some(self.out_of_reach(actor, Right::Read, handle)),
            };
        }
        let heap = &mut self.heaps[usize::from(worker)];
        let far = heap.read_words(&self.policy, actor, handle, first, room);
        heap.settled();
        far
    }

    /// Writes words into a block of a segment that the worker holds, from the word of an index on:
    /// as many as the block has there.
    pub(crate) fn write_words(
        &mut self,
        worker: u8,
        actor: Actor,
        handle: Handle,
        first: u32,
        words: &[u64],
    ) -> HowFar
        requires worker { worker < self.old.policy.workers }
        requires some { 0 < length words.now }
        ensures run { Chosen (kept_of (parts_of self.old))
            (writes worker actor handle first (take result.done words.now))
            (replicate result.done Answer.Done) (kept_of (parts_of self.new)) }
        ensures next { IfSome result.refused (λ why. IsChosenBy self.new worker
            (Event.Write actor handle (first + result.done) (slice_index words.now result.done))
            (refused_answer why) self.new) }
        ensures end { ComesTo (length words.now) result }
        ensures kept { IsKept self.new }
    {
        if !self.holds(worker, handle.place.segment) {
            return HowFar {
                done: 0,
                refused: Some(self.out_of_reach(actor, Right::Write, handle)),
            };
        }
        let heap = &mut self.heaps[usize::from(worker)];
        let far = heap.write_words(&self.policy, actor, handle, first, words);
        heap.settled();
        far
    }
}
