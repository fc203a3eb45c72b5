//! Blocks are given out, and pages without open places lose their class.

ghost use Rattle.std.specs.Prelude.{◌≡◌, ℕ, [], Option, None, Some, MatchOption, IfSome, IfNone};
ghost use Rattle.hg_place.specs.Lives.{live_word};
ghost use Rattle.hg_machine.specs.declared.Event.TheVariants as Event;
ghost use Rattle.hg_machine.specs.Request.{size_of};
ghost use Rattle.hg_machine.specs.declared.Answer.TheVariants as Answer;
ghost use Rattle.hg_place.specs.Places.{number_of, page_number};
ghost use Rattle.hg_size.specs.Sizes.{number_of_size};
ghost use Rattle.hg_size.specs.SizeLaws.{key_of};
ghost use Rattle.hg_agreement.specs.Views.{Shown};
ghost use Rattle.hg_heap.specs.Allotted.{IsAllotted};
ghost use Rattle.hg_heap.specs.Choice.{chosen_place};
ghost use Rattle.hg_heap.specs.Held.{lists_on, has_place};
ghost use Rattle.hg_heap.specs.Idle.{idle_pages, Collected, IdleAreOut};
ghost use Rattle.hg_heap.specs.Lists.{GivenOut};
ghost use Rattle.hg_heap.specs.Requeued.{requeued};
ghost use Rattle.hg_heap.specs.Ties.{shown_at, HeapTies};
ghost use Rattle.hg_worker.specs.Answers.{block_in};
ghost use Rattle.hg_worker.specs.Seats.{number_in, records_in, seat_shows, seat_steps};
ghost use Rattle.hg_worker.specs.Workers.{Decides, StaysUnseen, IsMachines, Keeps};
ghost use Rattle.hg_worker.specs.Workers.{Finds, SendsNoneHome};

use crate::{ServiceName, Worker};
use hg_heap::refused_answer;
use hg_machine::Answer;
use hg_place::Actor;

impl<N: ServiceName> Worker<N> {
    /// Gives out a block of so many bytes, all words 0, of a segment of the arena that the worker
    /// holds, by one step at its place.
    pub fn alloc(&mut self, actor: Actor, arena: u8, bytes: u64) -> Answer
        ensures alloc { MatchOption (block_in result)
            (IsMachines None (Event.Alloc actor arena bytes) result None self.old self.new)
            (λ handle. (word : ℕ)
            × Decides handle.place word (live_word handle.generation actor.0) []
            self.old self.new
            × IsMachines (shown_at handle.place word) (Event.Alloc actor arena bytes) result
            (shown_at handle.place (live_word handle.generation actor.0)) self.old self.new) }
        ensures given { IfSome (block_in result) (λ handle. IsAllotted number_in records_in
            seat_shows seat_steps (size_of bytes) actor.0 handle self.old.inner.value.heap.segments
            self.new.inner.value.heap.segments) }
        ensures chosen { IfSome (block_in result) (λ handle.
            chosen_place number_in records_in self.old.inner.value.heap arena (size_of bytes)
            ≡ Some (number_of handle.place)) }
        ensures no_room { result ≡ Answer.NoRoom
            → chosen_place number_in records_in self.old.inner.value.heap arena (size_of bytes) ≡ None }
        ensures lists { IfSome (block_in result) (λ handle. GivenOut number_in records_in arena
            (size_of bytes) (page_number handle.place) handle.place.index self.old.inner.value.heap.segments
            self.new.inner.value.heap.segments) }
        ensures queues { IfSome (block_in result) (λ handle. self.new.inner.value.heap.queues ≡ requeued
            (key_of arena (number_of_size (size_of bytes))) (page_number handle.place)
            (has_place (lists_on number_in self.new.inner.value.heap.segments (page_number handle.place)))
            self.old.inner.value.heap.queues) }
        ensures refused { IfNone (block_in result) (StaysUnseen self.old self.new) }
        ensures unchanged { IfNone (block_in result) (self.new.inner.value.heap ≡ self.old.inner.value.heap) }
        ensures any { IfNone (block_in result) ((shown : Option Shown) → Finds shown self.old
            → IsMachines shown (Event.Alloc actor arena bytes) result shown self.old self.new) }
        ensures any_hand { IfNone (block_in result) ((shown : Option Shown)
            → HeapTies number_in records_in self.old.inner.value.policy shown shown
            (Event.Alloc actor arena bytes) result self.old.inner.value.heap.segments
            self.new.inner.value.heap.segments) }
        ensures home { SendsNoneHome self.old self.new }
        ensures rest { Keeps self.old self.new }
    {
        let inner = &mut *self.inner;
        inner.heap.settled();
        match inner.heap.alloc(&inner.policy, actor, arena, bytes) {
            Ok(handle) => Answer::Block(handle),
            Err(refused) => refused_answer(refused),
        }
    }

    /// Takes the class from each page of the worker's that has no open place, and tells from how
    /// many. No step is made.
    pub fn collect_own(&mut self) -> Answer
        ensures collect { IsMachines None Event.Collect result None self.old self.new }
        ensures any { (shown : Option Shown) → Finds shown self.old
            → IsMachines shown Event.Collect result shown self.old self.new }
        ensures pages { result ≡ Answer.Pages
            (idle_pages number_in records_in self.old.inner.value.heap.segments) }
        ensures collected { Collected number_in records_in self.old.inner.value.heap self.new.inner.value.heap }
        ensures out { IdleAreOut number_in records_in self.old.inner.value.heap self.new.inner.value.heap }
        ensures seats { StaysUnseen self.old self.new }
        ensures any_hand { (shown : Option Shown)
            → HeapTies number_in records_in self.old.inner.value.policy shown shown Event.Collect result
            self.old.inner.value.heap.segments self.new.inner.value.heap.segments }
        ensures home { SendsNoneHome self.old self.new }
        ensures rest { Keeps self.old self.new }
    {
        let inner = &mut *self.inner;
        inner.heap.settled();
        Answer::Pages(inner.heap.collect())
    }
}
