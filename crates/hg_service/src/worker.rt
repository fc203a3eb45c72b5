ghost use Rattle.std.specs.Prelude.{◌≡◌, ◌≢◌, ◌↔◌, ℕ, true, false, [], Some, None};
ghost use Rattle.hg_machine.specs.Policy.{arena_of};
ghost use Rattle.hg_machine.specs.declared.Answer.TheVariants as Answer;
ghost use Rattle.hg_heap.specs.Held.{is_held, segment_in};
ghost use Rattle.hg_worker.specs.Seats.{number_in, records_in, part_of_seat};
ghost use Rattle.hg_worker.specs.Seats.{seat_shows, seat_steps};
ghost use Rattle.hg_worker.specs.Workers.{had, Keeps, LeavesLives, SendsNoneHome, StaysUnseen};
ghost use Rattle.hg_service.specs.Behind.{Abandons, Delivers, Refills, Takes};
ghost use Rattle.hg_service.specs.Leaving.{AbandonsEach, all_segments};

use crate::left::Leaver;
use crate::shared::Shared;
use hg_machine::Answer;
use hg_place::MAX_SEGMENTS;
use hg_worker::ServiceName;
use std::alloc::Global;
use std::sync::{Arc, Wait};

/// A worker of a running service, for one thread of its caller. The calls that take no lock are
/// those of `own`; the calls here wait for one lock each, and make the call of hg_worker that is
/// given what is behind it, and no other call under it.
///
/// Whoever drops a worker that hasn't left drops what it holds and has in hand.
#[derive(Drop)]
pub struct Worker<N: ServiceName> {
    pub own: hg_worker::Worker<N>,
    pub(crate) shared: Arc<Shared<N>, Global>,
}

impl<N: ServiceName> Worker<N> {
    /// Sends what is in hand to the list of its segment. `NothingInHand`, without a lock, where
    /// that is nothing. `Busy` where the list has it already, and then it stays in the hand: that
    /// never comes while workers share a service's lists alone (tested).
    pub fn deliver<R: Wait>(&mut self, rt: &R) -> Answer
        ensures sent { Delivers self.old.own.inner.value.hand result self.new.own.inner.value.hand }
        ensures empty { result ≡ Answer.NothingInHand ↔ self.old.own.inner.value.hand ≡ None }
        ensures heap { self.new.own.inner.value.heap ≡ self.old.own.inner.value.heap }
        ensures seats { StaysUnseen self.old.own self.new.own }
        ensures home { SendsNoneHome self.old.own self.new.own }
        ensures rest { (self.new.own.inner.value.policy ≡ self.old.own.inner.value.policy)
            × (self.new.own.inner.value.number ≡ self.old.own.inner.value.number) }
        ensures shared { self.new.shared ≡ self.old.shared }
    {
        let Some(place) = self.own.hand() else {
            return Answer::NothingInHand;
        };
        let shared = &self.shared;
        let mut kept = shared.lists[usize::from(place.segment)].lock(rt);
        let kept = &mut *kept;
        kept.receive(&mut self.own)
    }

    /// Takes in what was sent to a segment that the worker holds. `NotHeld`, without a lock, where
    /// it doesn't hold that.
    pub fn take<R: Wait>(&mut self, rt: &R, segment: u8) -> Answer
        ensures taken { Takes number_in records_in seat_shows seat_steps segment result
            self.old.own.inner.value.heap self.new.own.inner.value.heap }
        ensures unheld { result ≡ Answer.NotHeld
            ↔ is_held number_in self.old.own.inner.value.heap.segments segment ≡ false }
        ensures own { self.new.own.inner.value.seat ≡ self.old.own.inner.value.seat }
        ensures lives { LeavesLives self.old.own self.new.own }
        ensures rest { Keeps self.old.own self.new.own }
        ensures shared { self.new.shared ≡ self.old.shared }
    {
        if !self.own.holds(segment) {
            return Answer::NotHeld;
        }
        let shared = &self.shared;
        let mut kept = shared.lists[usize::from(segment)].lock(rt);
        let kept = &mut *kept;
        kept.drain(&mut self.own, segment)
    }

    /// Takes the oldest orphan of an arena, or else its lowest fresh segment. `NoSegment` where the
    /// pool has neither.
    pub fn refill<R: Wait>(&mut self, rt: &R, arena: u8) -> Answer
        ensures refilled { Refills number_in records_in part_of_seat self.old.own.inner.value.policy arena
            result (had self.old.own) (had self.new.own) }
        ensures came { (segment : ℕ) → result ≡ Answer.Refilled segment
            → (arena_of self.old.own.inner.value.policy segment ≡ Some arena)
            × (is_held number_in self.old.own.inner.value.heap.segments segment ≡ false)
            × (is_held number_in self.new.own.inner.value.heap.segments segment ≡ true) }
        ensures lives { LeavesLives self.old.own self.new.own }
        ensures home { SendsNoneHome self.old.own self.new.own }
        ensures rest { Keeps self.old.own self.new.own }
        ensures shared { self.new.shared ≡ self.old.shared }
    {
        let shared = &self.shared;
        let mut pool = shared.pool.lock(rt);
        let pool = &mut *pool;
        self.own.refill_from(arena, pool)
    }

    /// Gives up a segment that the worker holds, with the blocks that live there: it is the last
    /// orphan. `NotHeld`, without a lock, where it doesn't hold that.
    pub fn abandon<R: Wait>(&mut self, rt: &R, segment: u8) -> Answer
        ensures abandoned { Abandons number_in segment result self.old.own.inner.value.heap
            self.new.own.inner.value.heap }
        ensures unheld { result ≡ Answer.NotHeld
            ↔ is_held number_in self.old.own.inner.value.heap.segments segment ≡ false }
        ensures gone { is_held number_in self.new.own.inner.value.heap.segments segment ≡ false }
        ensures others { (other : ℕ) → other ≢ segment
            → segment_in number_in self.new.own.inner.value.heap.segments other
            ≡ segment_in number_in self.old.own.inner.value.heap.segments other }
        ensures own { self.new.own.inner.value.seat ≡ self.old.own.inner.value.seat }
        ensures lives { LeavesLives self.old.own self.new.own }
        ensures home { SendsNoneHome self.old.own self.new.own }
        ensures rest { Keeps self.old.own self.new.own }
        ensures shared { self.new.shared ≡ self.old.shared }
    {
        if !self.own.holds(segment) {
            return Answer::NotHeld;
        }
        let shared = &self.shared;
        let mut pool = shared.pool.lock(rt);
        let pool = &mut *pool;
        self.own.abandon_to(segment, pool)
    }

    /// Delivers what is in hand, abandons each segment that the worker holds, rising, and gives the
    /// worker back. Where the list of its segment has the block in hand already, that is given up
    /// with the hand.
    pub fn leave<R: Wait>(self, rt: &R) {
        let (leaver, shared) = self.into_leaver(rt);
        shared.left.lock(rt).put(leaver);
    }

    /// The worker, once it has given up what it has, and where it goes.
    fn into_leaver<R: Wait>(self, rt: &R) -> (Leaver<N>, Arc<Shared<N>, Global>)
        ensures sent { Delivers self.own.inner.value.hand result.0.delivery result.0.own.inner.value.hand }
        ensures abandoned { AbandonsEach number_in all_segments self.own.inner.value.heap
            result.0.own.inner.value.heap }
        ensures lives { LeavesLives self.own result.0.own }
        ensures rest { (result.0.own.inner.value.policy ≡ self.own.inner.value.policy)
            × (result.0.own.inner.value.number ≡ self.own.inner.value.number) }
        ensures shared { result.1 ≡ self.shared }
    {
        let mut worker = self;
        let delivery = worker.empty(rt);
        let Worker { own, shared } = worker;
        (Leaver::new(own, delivery), shared)
    }

    /// Delivers what is in hand and abandons each segment that the worker holds, rising. The answer
    /// is that of the delivery.
    fn empty<R: Wait>(&mut self, rt: &R) -> Answer
        ensures sent { Delivers self.old.own.inner.value.hand result self.new.own.inner.value.hand }
        ensures given { result ≢ Answer.Busy → self.new.own.inner.value.hand ≡ None }
        ensures abandoned { AbandonsEach number_in all_segments self.old.own.inner.value.heap
            self.new.own.inner.value.heap }
        ensures nothing { self.new.own.inner.value.heap.segments ≡ [] }
        ensures lives { LeavesLives self.old.own self.new.own }
        ensures rest { (self.new.own.inner.value.policy ≡ self.old.own.inner.value.policy)
            × (self.new.own.inner.value.number ≡ self.old.own.inner.value.number) }
        ensures shared { self.new.shared ≡ self.old.shared }
    {
        let delivery = self.deliver(rt);
        for segment in 0..MAX_SEGMENTS as u8 {
            let _ = self.abandon(rt, segment);
        }
        delivery
    }
}
