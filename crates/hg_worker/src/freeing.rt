//! Blocks are freed.

ghost use Rattle.std.specs.Prelude.{◌≡◌, ◌≢◌, ◌==◌, ℕ, ◌-◌, true, false, Option, Some, None, IsTrue};
ghost use Rattle.std.specs.Prelude.{IsFalse};
ghost use Rattle.hg_place.specs.declared.Right.TheVariants as Right;
ghost use Rattle.hg_place.specs.Places.{number_of, page_number};
ghost use Rattle.hg_machine.specs.declared.Answer.TheVariants as Answer;
ghost use Rattle.hg_machine.specs.declared.Event.TheVariants as Event;
ghost use Rattle.hg_machine.specs.declared.Rule.{Rule};
ghost use Rattle.hg_agreement.specs.Views.{Shown};
ghost use Rattle.hg_heap.specs.Held.{is_held, lists_on, has_place, greatest_in};
ghost use Rattle.hg_heap.specs.Judged.{IsJudged};
ghost use Rattle.hg_heap.specs.Lists.{CameHome};
ghost use Rattle.hg_heap.specs.Queues.{key_on};
ghost use Rattle.hg_heap.specs.Reading.{use_denial};
ghost use Rattle.hg_heap.specs.Records.{IsHomeAlone};
ghost use Rattle.hg_heap.specs.Requeued.{requeued};
ghost use Rattle.hg_heap.specs.Ties.{shown_at, HeapTies};
ghost use Rattle.hg_worker.specs.Answers.{is_done, is_freed, hand_after};
ghost use Rattle.hg_worker.specs.Judged.{found_word, rule_of};
ghost use Rattle.hg_worker.specs.Seats.{number_in, records_in};
ghost use Rattle.hg_worker.specs.Workers.{Ends, Looks, IsMachines, KeepsSegments, SendsHome, Tries};

use crate::{ServiceName, Worker};
use hg_decision::{Verdict, judge};
use hg_heap::refused_answer;
use hg_machine::Answer;
use hg_place::{Actor, Handle, Right};
use hg_policy::Policy;

impl<N: ServiceName> Worker<N> {
    /// Frees a block: `Done` where the worker holds its segment, and its place is home; else
    /// `Parted`, and its place is in the worker's hand. One exchange ends the life. Where that
    /// fails the answer is the verdict on the word that it found, and nothing is tried again.
    pub fn free(&mut self, actor: Actor, handle: Handle) -> Answer
        ensures freed { IsTrue (is_freed result) → (word : ℕ)
            × Ends handle.place word self.old self.new
            × IsMachines (shown_at handle.place word) (Event.Free actor handle) result
            (shown_at handle.place (word - 1)) self.old self.new }
        ensures refused { IsFalse (is_freed result) → (shown : Option Shown)
            × Looks handle.place shown self.old self.new
            × IsMachines shown (Event.Free actor handle) result shown self.old self.new }
        ensures served { IsTrue (is_freed result) → (word : ℕ)
            × Ends handle.place word self.old self.new
            × IsJudged self.old.inner.value.policy actor.0 Right.Free handle word None }
        ensures judged { IsFalse (is_freed result) → (shown : Option Shown)
            × Looks handle.place shown self.old self.new
            × IsJudged self.old.inner.value.policy actor.0 Right.Free handle (found_word shown)
            (rule_of result) }
        ensures records { IsTrue (is_done result) → IsHomeAlone number_in records_in handle
            self.old.inner.value.heap.segments self.new.inner.value.heap.segments }
        ensures lists { IsTrue (is_done result) → CameHome number_in
            (handle.generation == greatest_in number_in self.old.inner.value.heap.segments
            handle.place.segment) (page_number handle.place) handle.place.index
            self.old.inner.value.heap.segments self.new.inner.value.heap.segments }
        ensures queues { IsTrue (is_done result) → (key : ℕ)
            × (key_on number_in self.old.inner.value.heap.segments (page_number handle.place) ≡ Some key)
            × (self.new.inner.value.heap.queues ≡ requeued key (page_number handle.place)
            (has_place (lists_on number_in self.new.inner.value.heap.segments (page_number handle.place)))
            self.old.inner.value.heap.queues) }
        ensures kept { IsFalse (is_done result) → KeepsSegments self.old self.new
            × (self.new.inner.value.heap.queues ≡ self.old.inner.value.heap.queues) }
        ensures home { SendsHome
            (λ place. IsTrue (is_done result) × (place ≡ number_of handle.place))
            self.old self.new }
        ensures any_hand { IsTrue (is_done result) → (word : ℕ)
            × Ends handle.place word self.old self.new
            × HeapTies number_in records_in self.old.inner.value.policy (shown_at handle.place word)
            (shown_at handle.place (word - 1)) (Event.Free actor handle) result
            self.old.inner.value.heap.segments self.new.inner.value.heap.segments }
        ensures held { IsTrue (is_freed result) → is_done result
            ≡ is_held number_in self.old.inner.value.heap.segments handle.place.segment }
        ensures once { is_held number_in self.old.inner.value.heap.segments handle.place.segment ≡ true
            → Tries 1 handle.place self.old self.new }
        ensures few { Tries 2 handle.place self.old self.new }
        ensures parted { result ≡ Answer.Parted → self.old.inner.value.hand ≡ None }
        ensures busy { IsFalse (is_freed result) → rule_of result ≡ None
            → (result ≡ Answer.Busy) × (self.old.inner.value.hand ≢ None)
            × (is_held number_in self.old.inner.value.heap.segments handle.place.segment ≡ false) }
        ensures hand { self.new.inner.value.hand ≡ hand_after result handle self.old.inner.value.hand }
        ensures rest { (self.new.inner.value.policy ≡ self.old.inner.value.policy)
            × (self.new.inner.value.number ≡ self.old.inner.value.number) }
    {
        if self.holds(handle.place.segment) {
            return self.free_here(actor, handle);
        }
        self.free_away(actor, handle)
    }

    /// Frees a block of a segment that the worker holds.
    fn free_here(&mut self, actor: Actor, handle: Handle) -> Answer
        requires { is_held number_in self.old.inner.value.heap.segments handle.place.segment ≡ true }
        ensures freed { IsTrue (is_freed result) → (word : ℕ)
            × Ends handle.place word self.old self.new
            × IsMachines (shown_at handle.place word) (Event.Free actor handle) result
            (shown_at handle.place (word - 1)) self.old self.new }
        ensures refused { IsFalse (is_freed result) → (shown : Option Shown)
            × Looks handle.place shown self.old self.new
            × IsMachines shown (Event.Free actor handle) result shown self.old self.new }
        ensures served { IsTrue (is_freed result) → (word : ℕ)
            × Ends handle.place word self.old self.new
            × IsJudged self.old.inner.value.policy actor.0 Right.Free handle word None }
        ensures judged { IsFalse (is_freed result) → (shown : Option Shown)
            × Looks handle.place shown self.old self.new
            × IsJudged self.old.inner.value.policy actor.0 Right.Free handle (found_word shown)
            (rule_of result) }
        ensures records { IsTrue (is_done result) → IsHomeAlone number_in records_in handle
            self.old.inner.value.heap.segments self.new.inner.value.heap.segments }
        ensures lists { IsTrue (is_done result) → CameHome number_in
            (handle.generation == greatest_in number_in self.old.inner.value.heap.segments
            handle.place.segment) (page_number handle.place) handle.place.index
            self.old.inner.value.heap.segments self.new.inner.value.heap.segments }
        ensures queues { IsTrue (is_done result) → (key : ℕ)
            × (key_on number_in self.old.inner.value.heap.segments (page_number handle.place) ≡ Some key)
            × (self.new.inner.value.heap.queues ≡ requeued key (page_number handle.place)
            (has_place (lists_on number_in self.new.inner.value.heap.segments (page_number handle.place)))
            self.old.inner.value.heap.queues) }
        ensures kept { IsFalse (is_done result) → KeepsSegments self.old self.new
            × (self.new.inner.value.heap.queues ≡ self.old.inner.value.heap.queues) }
        ensures home { SendsHome
            (λ place. IsTrue (is_done result) × (place ≡ number_of handle.place))
            self.old self.new }
        ensures any_hand { IsTrue (is_done result) → (word : ℕ)
            × Ends handle.place word self.old self.new
            × HeapTies number_in records_in self.old.inner.value.policy (shown_at handle.place word)
            (shown_at handle.place (word - 1)) (Event.Free actor handle) result
            self.old.inner.value.heap.segments self.new.inner.value.heap.segments }
        ensures here { IsTrue (is_freed result) → IsTrue (is_done result) }
        ensures once { Tries 1 handle.place self.old self.new }
        ensures denied { IsFalse (is_freed result) → rule_of result ≢ None }
        ensures hand { self.new.inner.value.hand ≡ hand_after result handle self.old.inner.value.hand }
        ensures rest { (self.new.inner.value.policy ≡ self.old.inner.value.policy)
            × (self.new.inner.value.number ≡ self.old.inner.value.number) }
    {
        let inner = &mut *self.inner;
        inner.heap.settled();
        if let Err(refused) = inner.heap.free_here(&inner.policy, actor, handle) {
            return refused_answer(refused);
        }
        Answer::Done
    }

    /// Frees a block of another one.
    fn free_away(&mut self, actor: Actor, handle: Handle) -> Answer
        requires { is_held number_in self.old.inner.value.heap.segments handle.place.segment ≡ false }
        ensures freed { IsTrue (is_freed result) → (word : ℕ)
            × Ends handle.place word self.old self.new
            × IsMachines (shown_at handle.place word) (Event.Free actor handle) result
            (shown_at handle.place (word - 1)) self.old self.new }
        ensures refused { IsFalse (is_freed result) → (shown : Option Shown)
            × Looks handle.place shown self.old self.new
            × IsMachines shown (Event.Free actor handle) result shown self.old self.new }
        ensures served { IsTrue (is_freed result) → (word : ℕ)
            × Ends handle.place word self.old self.new
            × IsJudged self.old.inner.value.policy actor.0 Right.Free handle word None }
        ensures judged { IsFalse (is_freed result) → (shown : Option Shown)
            × Looks handle.place shown self.old self.new
            × IsJudged self.old.inner.value.policy actor.0 Right.Free handle (found_word shown)
            (rule_of result) }
        ensures away { IsFalse (is_done result) }
        ensures few { Tries 2 handle.place self.old self.new }
        ensures busy { IsFalse (is_freed result) → rule_of result ≡ None
            → (result ≡ Answer.Busy) × (self.old.inner.value.hand ≢ None) }
        ensures parted { result ≡ Answer.Parted → self.old.inner.value.hand ≡ None }
        ensures heap { self.new.inner.value.heap ≡ self.old.inner.value.heap }
        ensures hand { self.new.inner.value.hand ≡ hand_after result handle self.old.inner.value.hand }
        ensures rest { (self.new.inner.value.policy ≡ self.old.inner.value.policy)
            × (self.new.inner.value.number ≡ self.old.inner.value.number) }
    {
        let place = handle.place;
        let inner = &mut *self.inner;
        inner.heap.settled();
        if inner.policy.arena_of(place.segment).is_none() {
            return denied_answer(&inner.policy, actor, Right::Free, handle, 0);
        }
        let word = inner.seat.look(place);
        if let Verdict::Denied(rule) = judge(&inner.policy, actor, Right::Free, handle, word) {
            return Answer::Denied(rule);
        }
        if inner.hand.is_some() {
            return Answer::Busy;
        }
        if let Err(found) = inner.seat.part(place, word) {
            return denied_answer(&inner.policy, actor, Right::Free, handle, found);
        }
        inner.hand = Some(handle);
        Answer::Parted
    }
}

/// The answer to a call that a rule denies, by the word that was found.
fn denied_answer(policy: &Policy, actor: Actor, right: Right, handle: Handle, word: u64) -> Answer
    requires { use_denial policy.now actor.0 right handle word ≢ None }
    ensures { (rule : Rule) × (use_denial policy.now actor.0 right handle word ≡ Some rule)
        × (result ≡ Answer.Denied rule) }
{
    match judge(policy, actor, right, handle, word) {
        Verdict::Denied(rule) => Answer::Denied(rule),
        Verdict::Allowed => unreachable!(),
    }
}
