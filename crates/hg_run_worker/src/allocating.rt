//! Blocks are given out of segments that the worker holds.

ghost use Rattle.std.specs.Prelude.{◌≡◌, true, None, Some, [], ◌∷◌, IfErr, IfOk, Contains};
ghost use Rattle.std.specs.Prelude.{option_map};
ghost use Rattle.hg_place.specs.Places.{number_of, segment_of};
ghost use Rattle.hg_size.specs.Sizes.{sizes};
ghost use Rattle.hg_machine.specs.Request.{size_of};
ghost use Rattle.hg_machine.specs.declared.Answer.TheVariants as Answer;
ghost use Rattle.hg_machine.specs.declared.Event.TheVariants as Event;
ghost use Rattle.hg_agreement.specs.Agreement.{Ties};
ghost use Rattle.hg_heap.specs.Answers.{alloc_answer, refused_answer};
ghost use Rattle.hg_heap.specs.Refusals.{err_of, refusal_of};
ghost use Rattle.hg_heap.specs.Choice.{chosen_place};
ghost use Rattle.hg_heap.specs.Held.{is_held};
ghost use Rattle.hg_run_worker.specs.AtWork.{HasCalledHere, IsReady, number_in};
ghost use Rattle.hg_run_worker.specs.AtWork.{records_in, view_in};

use crate::RunWorker;
use hg_heap::Refused;
use hg_place::{Actor, Handle};
use hg_run_table::{Asks, OwnCall};
use std::marker::Brand;

impl RunWorker {
    /// Gives out a block of so many bytes, all words 0, of a segment of this arena that the worker holds:
    /// the first that the order of choice has. Logs the Alloc with its answer. `Denied` and `TooLarge`
    /// come by the policy and the actor's charge, `NoRoom` where no place is left for a block of the
    /// class; a refusal changes the log alone.
    pub fn alloc(&mut self, actor: Actor, arena: u8, bytes: u64) -> Result<Handle, Refused>
        requires ready { IsReady self.old }
        ensures called { HasCalledHere (Event.Alloc actor arena bytes) (alloc_answer result)
            self.old self.new }
        ensures chosen { IfOk result (λ handle.
            chosen_place number_in records_in self.old.heap arena (size_of bytes)
            ≡ Some (number_of handle.place)) }
        ensures answered { refusal_of number_in records_in self.old.policy actor.0 arena bytes
            self.old.heap ≡ err_of result }
        ensures held { IfOk result (λ handle.
            is_held number_in self.old.heap.segments handle.place.segment ≡ true) }
        ensures refused { IfErr result (λ refused. self.new.heap ≡ self.old.heap) }
    {
        match self.heap.next_segment(&self.policy, actor, arena, bytes) {
            Ok(segment) => Ok(self.alloc_at::<Brand>(segment, actor, arena, bytes)),
            Err(refused) => {
                self.log_refused::<Brand>(actor, arena, bytes, refused);
                Err(refused)
            }
        }
    }

    /// Gives it out of this segment, where the worker is asked this Alloc.
    fn alloc_at<E: Asks>(&mut self, segment: u8, actor: Actor, arena: u8, bytes: u64) -> Handle
        requires ready { IsReady self.old }
        requires served { refusal_of number_in records_in self.old.policy actor.0 arena bytes
            self.old.heap ≡ None }
        requires held { is_held number_in self.old.heap.segments segment ≡ true }
        requires chosen { option_map segment_of
            (chosen_place number_in records_in self.old.heap arena (size_of bytes))
            ≡ Some segment }
        requires sized { Contains sizes (size_of bytes) }
        requires asked { E.asked ≡ (Event.Alloc actor arena bytes ∷ []) ∷ [] }
        ensures called { HasCalledHere (Event.Alloc actor arena bytes) (Answer.Block result)
            self.old self.new }
        ensures chosen { chosen_place number_in records_in self.old.heap arena (size_of bytes)
            ≡ Some (number_of result.place) }
        ensures held { is_held number_in self.old.heap.segments result.place.segment ≡ true }
    {
        self.lend::<E>(segment);
        self.heap.settled();
        let Ok(handle) = self.heap.alloc(&self.policy, actor, arena, bytes) else {
            unreachable!()
        };
        self.take_back(segment);
        handle
    }

    /// Logs an Alloc that is refused, whatever word any place has.
    fn log_refused<W: OwnCall>(&mut self, actor: Actor, arena: u8, bytes: u64, refused: Refused)
        requires ready { IsReady self.old }
        requires before { W.before ≡ view_in self.old }
        requires after { W.after ≡ view_in self.old }
        requires call { W.call ≡ (Event.Alloc actor arena bytes, refused_answer refused) }
        requires tied { Ties (view_in self.old) None (Event.Alloc actor arena bytes)
            (refused_answer refused) (view_in self.old) None }
        ensures called { HasCalledHere (Event.Alloc actor arena bytes) (refused_answer refused)
            self.old self.new }
        ensures heap { self.new.heap ≡ self.old.heap }
    {
        self.call_alone::<W>();
    }
}
