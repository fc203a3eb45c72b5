//! Places are given out, in the order of choice.

ghost use Rattle.std.specs.Prelude.{◌≡◌, ◌<◌, ℕ, Option, Some, None, Err, IfOk, IfErr, IfSome};
ghost use Rattle.std.specs.Prelude.{IfNone, true, Contains, find, option_map};
ghost use Rattle.hg_place.specs.declared.geometry.TheConstants.{MAX_SEGMENTS};
ghost use Rattle.hg_queue.specs.declared.page_queues.TheConstants.{PAGES, ARENAS};
ghost use Rattle.hg_segment.specs.declared.charges.TheConstants.{TENANTS};
ghost use Rattle.hg_place.specs.Lives.{live_word};
ghost use Rattle.hg_place.specs.Places.{number_of, page_number, segment_of};
ghost use Rattle.hg_size.specs.Sizes.{number_of_size};
ghost use Rattle.hg_size.specs.SizeLaws.{key_of};
ghost use Rattle.hg_size.specs.Sizes.{sizes};
ghost use Rattle.hg_machine.specs.Request.{alloc_verdict, size_of, words_for};
ghost use Rattle.hg_machine.specs.declared.AllocVerdict.TheVariants.{Fits};
ghost use Rattle.hg_heap.specs.Charges.{charge_in};
ghost use Rattle.hg_heap.specs.Refusals.{err_of, refusal_of, refused_by};
ghost use Rattle.hg_heap.specs.Next.{IsNext};
ghost use Rattle.hg_machine.specs.declared.Event.TheVariants as Event;
ghost use Rattle.hg_machine.specs.declared.Answer.TheVariants as Answer;
ghost use Rattle.hg_agreement.specs.Views.{Shown};
ghost use Rattle.hg_page.specs.PageLists.{fresh};
ghost use Rattle.hg_queue.specs.Queues.{queue_of};
ghost use Rattle.hg_heap.specs.Allowed.{MayAlloc, MayOpen, MayGive};
ghost use Rattle.hg_heap.specs.Held.{lists_on, class_on, has_place, is_some_place, pages_in, is_held};
ghost use Rattle.hg_heap.specs.Held.{KeepsOtherLists};
ghost use Rattle.hg_heap.specs.Begun.{Begun};
ghost use Rattle.hg_heap.specs.Opened.{Opened};
ghost use Rattle.hg_heap.specs.Requeued.{requeued};
ghost use Rattle.hg_heap.specs.Choice.{chosen_place, front_page, blank_page, blank_on};
ghost use Rattle.hg_heap.specs.Ready.{IsReady};
ghost use Rattle.hg_heap.specs.Allotted.{IsAllotted};
ghost use Rattle.hg_heap.specs.Lists.{GivenOut};
ghost use Rattle.hg_heap.specs.Policies.{AreOf};
ghost use Rattle.hg_heap.specs.Ties.{HeapTies, Stepped, shown_at};
ghost use Rattle.hg_heap.specs.Answers.{refused_answer};
ghost use Rattle.hg_heap.specs.declared.refused.Refused.TheVariants.{NoRoom};

use crate::requeue::{block_bytes, part_full, requeue};
use crate::{Heap, Refused};
use hg_decision::{AllocVerdict, judge_alloc};
use hg_place::{Actor, Handle, MAX_SEGMENTS, SEGMENT_PAGES, SlotWords};
use hg_policy::Policy;
use hg_size::{Class, block_words, words_of};

impl<S: SlotWords> Heap<S> {
    /// Gives out a block of so many bytes, all words 0, of a segment of this arena: the first that
    /// the order of choice has. `Denied` and `TooLarge` come by the policy and the actor's charge,
    /// `NoRoom` where no place is left for a block of the class; a refusal changes nothing.
    pub fn alloc(
        &mut self,
        policy: &Policy,
        actor: Actor,
        arena: u8,
        bytes: u64,
    ) -> Result<Handle, Refused>
        requires policy { AreOf S.number policy.now self.old.segments }
        requires allowed { MayAlloc S.shows S.allows S.number S.records policy.now actor.0 arena bytes
            self.old }
        ensures given { IfOk result (λ handle. (given : IsAllotted S.number S.records S.shows
            S.steps (size_of bytes) actor.0 handle self.old.segments self.new.segments)
            × HeapTies S.number S.records policy.now (shown_at handle.place given.word)
            (shown_at handle.place (live_word handle.generation actor.0))
            (Event.Alloc actor arena bytes) (Answer.Block handle)
            self.old.segments self.new.segments) }
        ensures refused { IfErr result (λ refused. (self.new ≡ self.old)
            × ((shown : Option Shown) → HeapTies S.number S.records policy.now shown shown
            (Event.Alloc actor arena bytes) (refused_answer refused)
            self.old.segments self.old.segments)) }
        ensures answered { refusal_of S.number S.records policy.now actor.0 arena bytes self.old
            ≡ err_of result }
        ensures chosen { IfOk result (λ handle.
            chosen_place S.number S.records self.old arena (size_of bytes)
            ≡ Some (number_of handle.place)) }
        ensures no_room { result ≡ Err NoRoom
            → chosen_place S.number S.records self.old arena (size_of bytes) ≡ None }
        ensures lists { IfOk result (λ handle. GivenOut S.number S.records arena (size_of bytes)
            (page_number handle.place) handle.place.index self.old.segments self.new.segments) }
        ensures queues { IfOk result (λ handle. self.new.queues ≡ requeued
            (key_of arena (number_of_size (size_of bytes))) (page_number handle.place)
            (has_place (lists_on S.number self.new.segments (page_number handle.place)))
            self.old.queues) }
    {
        // a policy hands out that it is sound, a class that it is a size of the table, and a use of
        // any field what is kept of all
        let _workers = policy.workers();
        let _ = &self.queues;
        let class = match self.class_for(policy, actor, arena, bytes) {
            Ok(class) => class,
            Err(refused) => return Err(refused),
        };
        let _size = block_words(class);
        let Some(handle) = self.allot(arena, class, actor.0) else {
            return Err(Refused::NoRoom);
        };
        Ok(handle)
    }

    /// The class of a request which the policy and the actor's charge admit, or why they don't.
    fn class_for(
        &self,
        policy: &Policy,
        actor: Actor,
        arena: u8,
        bytes: u64,
    ) -> Result<Class, Refused>
        ensures fits { IfOk result (λ class.
            alloc_verdict policy.now actor.0 arena (words_for bytes)
            (charge_in S.records self.now.segments actor.0) ≡ Fits class) }
        ensures refused { IfErr result (λ refused. refused_by
            (alloc_verdict policy.now actor.0 arena (words_for bytes)
            (charge_in S.records self.now.segments actor.0)) ≡ Some refused) }
    {
        // a policy hands out that it is sound
        let _workers = policy.workers();
        let charge = self.charge(actor.0);
        match judge_alloc(policy, actor, arena, words_of(bytes), charge) {
            AllocVerdict::Denied(rule) => Err(Refused::Denied(rule)),
            AllocVerdict::TooLarge => Err(Refused::TooLarge),
            AllocVerdict::Fits(class) => Ok(class),
        }
    }

    /// Gives out the place of the order of choice, if there is one.
    fn allot(&mut self, arena: u8, class: Class, owner: u8) -> Option<Handle>
        requires arena { arena < ARENAS }
        requires owner { owner < TENANTS }
        requires allowed { MayOpen S.shows S.allows S.number S.records arena class owner self.old }
        ensures none { IfNone result ((self.new ≡ self.old)
            × (front_page S.number S.records self.old arena class ≡ None)
            × (blank_page S.number S.records self.old arena class ≡ None)) }
        ensures allotted { IfSome result (λ handle. IsAllotted S.number S.records S.shows S.steps
            class owner handle self.old.segments self.new.segments) }
        ensures chosen { IfSome result (λ handle.
            chosen_place S.number S.records self.old arena class ≡ Some (number_of handle.place)) }
        ensures lists { IfSome result (λ handle. GivenOut S.number S.records arena class
            (page_number handle.place) handle.place.index self.old.segments self.new.segments) }
        ensures queues { IfSome result (λ handle. self.new.queues ≡ requeued
            (key_of arena (number_of_size class)) (page_number handle.place)
            (has_place (lists_on S.number self.new.segments (page_number handle.place)))
            self.old.queues) }
    {
        // a use of any field hands out what is kept of all, and one of the class that it is a size
        let _ = &self.queues;
        let _size = block_words(class);
        let Some(page) = self.page_for(arena, class) else {
            return None;
        };
        Some(self.give_out(arena, class, page, owner))
    }

    /// The segment that an `alloc` of this request would take its block from, or why it would be refused:
    /// a caller that steps by what it lends lends it to this one. Nothing is given out.
    pub fn next_segment(
        &self,
        policy: &Policy,
        actor: Actor,
        arena: u8,
        bytes: u64,
    ) -> Result<u8, Refused>
        requires policy { AreOf S.number policy.now self.now.segments }
        ensures answered { refusal_of S.number S.records policy.now actor.0 arena bytes self.now
            ≡ err_of result }
        ensures next { IfOk result (λ segment.
            option_map segment_of (chosen_place S.number S.records self.now arena (size_of bytes))
            ≡ Some segment) }
        ensures held { IfOk result (λ segment.
            is_held S.number self.now.segments segment ≡ true) }
        ensures sized { IfOk result (λ segment. Contains sizes (size_of bytes)) }
        ensures refused { IfErr result (λ refused. (shown : Option Shown)
            → HeapTies S.number S.records policy.now shown shown
            (Event.Alloc actor arena bytes) (refused_answer refused)
            self.now.segments self.now.segments) }
    {
        // a policy hands out that it is sound, a class that it is a size of the table, and a use of
        // any field what is kept of all
        let _workers = policy.workers();
        let _ = &self.queues;
        let class = match self.class_for(policy, actor, arena, bytes) {
            Ok(class) => class,
            Err(refused) => return Err(refused),
        };
        let _size = block_words(class);
        match self.next_page(arena, class) {
            Some(page) => Ok((page / SEGMENT_PAGES as u16) as u8),
            None => Err(Refused::NoRoom),
        }
    }

    /// The page that the next block of a class comes from, whether it has the class or may get it.
    fn next_page(&self, arena: u8, class: Class) -> Option<u16>
        requires { arena < ARENAS }
        ensures next { IfSome result (λ page. IsNext S.number S.records self.now arena class page) }
        ensures below { IfSome result (λ page. page < PAGES) }
        ensures none { IfNone result ((front_page S.number S.records self.now arena class ≡ None)
            × (blank_page S.number S.records self.now arena class ≡ None)) }
    {
        // a class is a size of the table
        let _size = block_words(class);
        match self.queues.front(arena, class) {
            Some(page) => Some(page),
            None => self.blank_page(arena, class),
        }
    }

    /// The page to give a place out of: the front of the queue, else the first at which a block may
    /// begin and finds a place, which gets the class now.
    fn page_for(&mut self, arena: u8, class: Class) -> Option<u16>
        requires { arena < ARENAS }
        ensures none { IfNone result ((self.new ≡ self.old)
            × (front_page S.number S.records self.old arena class ≡ None)
            × (blank_page S.number S.records self.old arena class ≡ None)) }
        ensures below { IfSome result (λ page. page < PAGES) }
        ensures queued { IfSome result (λ page.
            Contains (queue_of self.new.queues (key_of arena (number_of_size class))) page) }
        ensures ready { IfSome result (λ page.
            IsReady S.number S.records arena class page self.old self.new) }
    {
        if let Some(page) = self.queues.front(arena, class) {
            return Some(page);
        }
        let page = self.blank_page(arena, class)?;
        self.begin(arena, class, page);
        Some(page)
    }

    /// The first page, by segment and page, that may get the class and has a place for its blocks.
    #[cold]
    #[inline(never)]
    fn blank_page(&self, arena: u8, class: Class) -> Option<u16>
        ensures first { result ≡ blank_page S.number S.records self.now arena class }
        ensures below { IfSome result (λ page. page < PAGES) }
        ensures blank { IfSome result (λ page. is_some_place
            (blank_on S.number S.records self.now.segments arena class page) ≡ true) }
    {
        for segment in 0..MAX_SEGMENTS as u8 {
            if let Some(page) = self.blank_in(segment, arena, class) {
                return Some(page);
            }
        }
        None
    }

    /// The first such page of one segment, if that is held.
    fn blank_in(&self, segment: u8, arena: u8, class: Class) -> Option<u16>
        requires { segment < MAX_SEGMENTS }
        ensures first { result ≡ find (λ page. is_some_place
            (blank_on S.number S.records self.now.segments arena class page)) (pages_in segment) }
        ensures below { IfSome result (λ page. page < PAGES) }
        ensures blank { IfSome result (λ page. is_some_place
            (blank_on S.number S.records self.now.segments arena class page) ≡ true) }
    {
        let Some(found) = self.found(segment) else {
            return None;
        };
        let held = &self.segments[found as usize];
        if held.arena() != arena {
            return None;
        }
        let Some(page) = held.first_begin(class) else {
            return None;
        };
        Some(u16::from(segment) * SEGMENT_PAGES as u16 + u16::from(page))
    }

    /// Gives a page that may get this class the class, and puts it to the front of its queue.
    #[cold]
    #[inline(never)]
    fn begin(&mut self, arena: u8, class: Class, page: u16)
        requires page { page < PAGES }
        requires blank { is_some_place
            (blank_on S.number S.records self.old.segments arena class page) ≡ true }
        ensures begun { Begun S.number S.records class page self.old.segments self.new.segments }
        ensures class { class_on S.number self.new.segments page ≡ Some class }
        ensures lists { lists_on S.number self.new.segments page
            ≡ fresh (blank_on S.number S.records self.old.segments arena class page) }
        ensures others { KeepsOtherLists S.number page self.old.segments self.new.segments }
        ensures queues { self.new.queues
            ≡ requeued (key_of arena (number_of_size class)) page true self.old.queues }
        ensures queued { Contains
            (queue_of self.new.queues (key_of arena (number_of_size class))) page }
    {
        // a class is a size of the table
        let _size = block_words(class);
        let Some(found) = self.found((page / SEGMENT_PAGES as u16) as u8) else {
            unreachable!()
        };
        let segment = &mut self.segments[found as usize];
        segment.assign_page((page % SEGMENT_PAGES as u16) as u8, class);
        segment.settled();
        requeue(&mut self.queues, arena, class, page, false);
    }

    /// Gives out the next place of a page that stands in the queue of the arena and the class. Its
    /// owner is charged for the block.
    fn give_out(&mut self, arena: u8, class: Class, page: u16, owner: u8) -> Handle
        requires page { page < PAGES }
        requires owner { owner < TENANTS }
        requires queued { Contains
            (queue_of self.old.queues (key_of arena (number_of_size class))) page }
        requires allowed { MayGive S.shows S.allows S.number S.records page owner
            self.old.segments }
        ensures opened { Opened S.number S.records S.shows S.steps page class owner result
            self.old.segments self.new.segments }
        ensures lists { GivenOut S.number S.records arena class page result.place.index
            self.old.segments self.new.segments }
        ensures queues { self.new.queues ≡ requeued (key_of arena (number_of_size class)) page
            (has_place (lists_on S.number self.new.segments page)) self.old.queues }
    {
        let Some(found) = self.found((page / SEGMENT_PAGES as u16) as u8) else {
            unreachable!()
        };
        let segment = &mut self.segments[found as usize];
        let in_segment = (page % SEGMENT_PAGES as u16) as u8;
        let Some(handle) = segment.open_in(in_segment, owner) else {
            unreachable!()
        };
        segment.settled();
        let is_full = segment.is_full(in_segment);
        self.charges.raise(owner, block_bytes(class));
        part_full(&mut self.queues, page, is_full);
        handle
    }
}
