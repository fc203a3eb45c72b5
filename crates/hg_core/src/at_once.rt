//! Many words of a block, read or written by one call.

ghost use Rattle.std.specs.Prelude.{◌≡◌, ◌<◌, ◌+◌, ℕ, IfSome, length, take, drop, replicate};
ghost use Rattle.std.specs.Prelude.{slice_index};
ghost use Rattle.hg_heap.specs.Answers.{refused_answer};
ghost use Rattle.hg_heap.specs.Many.{ComesTo};
ghost use Rattle.hg_machine.specs.declared.Answer.TheVariants as Answer;
ghost use Rattle.hg_machine.specs.declared.Event.TheVariants as Event;
ghost use Rattle.hg_machine.specs.Lists.{IsPartition};
ghost use Rattle.hg_machine.specs.Soundness.{IsSound};
ghost use Rattle.hg_choice.specs.ChosenSteps.{ChosenStep, Chosen};
ghost use Rattle.hg_core.specs.WordEvents.{writes};

use crate::serving::Core;
use hg_heap::HowFar;
use hg_place::{Actor, Handle};

impl Core {
    /// Reads words of a block into a room, from the word of an index on, and tells how many: as
    /// many as the block has there and the room holds, and none where the worker doesn't hold the
    /// segment or a rule refuses. The block is judged once, and not at all for a room without
    /// words. Each is what a Read of it is answered, and where fewer came than the room holds, so
    /// is the refusal of the next. What stands in the room behind them is as it was, and so is the
    /// core.
    pub fn read_words(
        &mut self,
        worker: u8,
        actor: Actor,
        handle: Handle,
        first: u32,
        room: &mut [u64],
    ) -> HowFar
        requires worker { worker < self.old.state.policy.workers }
        ensures each { (at : ℕ) → at < result.done → ChosenStep self.old worker
            (Event.Read actor handle (first + at)) (Answer.Value (slice_index room.new at))
            self.new }
        ensures next { IfSome result.refused (λ why. ChosenStep self.old worker
            (Event.Read actor handle (first + result.done)) (refused_answer why) self.new) }
        ensures end { ComesTo (length room.old) result }
        ensures rest { drop result.done room.new ≡ drop result.done room.old }
        ensures same { self.new ≡ self.old }
        ensures kept { IsSound self.new.state × IsPartition self.new }
    {
        if room.is_empty() {
            let _policy = self.policy(); // so that what holds of the core is known
            return HowFar {
                done: 0,
                refused: None,
            };
        }
        self.stores.read_words(worker, actor, handle, first, room)
    }

    /// Writes words into a block, from the word of an index on, and tells how many were written: a
    /// run of Writes that ends with the last of them, or before the first that is refused, which
    /// changes nothing. The block is judged once, and not at all where there are no words.
    pub fn write_words(
        &mut self,
        worker: u8,
        actor: Actor,
        handle: Handle,
        first: u32,
        words: &[u64],
    ) -> HowFar
        requires worker { worker < self.old.state.policy.workers }
        ensures run { Chosen self.old
            (writes worker actor handle first (take result.done words.now))
            (replicate result.done Answer.Done) self.new }
        ensures next { IfSome result.refused (λ why. ChosenStep self.new worker
            (Event.Write actor handle (first + result.done) (slice_index words.now result.done))
            (refused_answer why) self.new) }
        ensures end { ComesTo (length words.now) result }
        ensures kept { IsSound self.new.state × IsPartition self.new }
    {
        if words.is_empty() {
            let _policy = self.policy(); // so that what holds of the core is known
            return HowFar {
                done: 0,
                refused: None,
            };
        }
        self.stores.write_words(worker, actor, handle, first, words)
    }
}
