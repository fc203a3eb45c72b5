//! Calls on remote lists and pools that the caller has locked, or has for itself.

ghost use Rattle.std.specs.Prelude.{◌≡◌, ◌≢◌, ◌≤◌, ◌%◌, ℕ, false, Contains, IfSome};
ghost use Rattle.hg_place.specs.declared.geometry.TheConstants.{SEGMENT_PLACES};
ghost use Rattle.hg_place.specs.Places.{segment_of};
ghost use Rattle.hg_machine.specs.declared.Answer.TheVariants as Answer;
ghost use Rattle.hg_remote.specs.Remote.{contents};
ghost use Rattle.hg_heap.specs.Held.{is_held, segment_in};
ghost use Rattle.hg_heap.specs.Homecoming.{HaveComeHome};
ghost use Rattle.hg_pool.specs.Pooled.{next_in};
ghost use Rattle.hg_table.specs.Named.{table_of_segment, table_of_worker};
ghost use Rattle.hg_table.specs.Seats.{part_on};
ghost use Rattle.hg_worker.specs.CallerLocked.{IsDelivered, IsTakenFrom, IsRefilled, IsAbandoned};
ghost use Rattle.hg_worker.specs.Met.{ComesTo};
ghost use Rattle.hg_worker.specs.Seats.{number_in, records_in, part_of_seat};
ghost use Rattle.hg_worker.specs.Seats.{seat_shows, seat_steps};
ghost use Rattle.hg_worker.specs.Workers.{had, Keeps, LeavesLives, StaysUnseen};
ghost use Rattle.hg_worker.specs.Workers.{SendsHome, SendsNoneHome};

use crate::kept_pool::never_twice;
use crate::{KeptPool, ServiceName, Worker};
use hg_machine::Answer;
use hg_place::Handle;
use hg_remote::RemoteList;
use hg_segment::Segment;
use hg_table::{UnnamedSegment, UnnamedWorker};

impl<N: ServiceName> Worker<N> {
    /// Sends the place in hand to this list, which is to be that of its segment: only its page and
    /// index stand there, so that the list of another segment would bring home a place of that.
    /// `Busy` where the list has it already, and then it stays in the hand; `NothingInHand` where
    /// that is empty.
    pub fn deliver_to(&mut self, list: &mut RemoteList) -> Answer
        ensures delivered { IsDelivered self.old.inner.value.hand result list.old list.new self.new.inner.value.hand }
        ensures heap { self.new.inner.value.heap ≡ self.old.inner.value.heap }
        ensures seats { StaysUnseen self.old self.new }
        ensures home { SendsNoneHome self.old self.new }
        ensures rest { (self.new.inner.value.policy ≡ self.old.inner.value.policy)
            × (self.new.inner.value.number ≡ self.old.inner.value.number) }
    {
        let inner = &mut *self.inner;
        let Some(handle) = inner.hand else {
            return Answer::NothingInHand;
        };
        if list.push(handle.place.page, handle.place.index).is_err() {
            return Answer::Busy;
        }
        inner.hand = None;
        Answer::Done
    }

    /// Takes in what was sent to a segment that the worker holds, by the list of that segment; else
    /// `NotHeld`.
    pub fn take_from(&mut self, segment: u8, list: &mut RemoteList) -> Answer
        ensures taken { IsTakenFrom number_in records_in seat_shows seat_steps
            (is_held number_in self.old.inner.value.heap.segments segment) segment result list.old list.new
            self.old.inner.value.heap self.new.inner.value.heap }
        ensures whole { (count : ℕ) → result ≡ Answer.Taken count → (count ≤ SEGMENT_PLACES)
            × HaveComeHome number_in records_in segment (contents list.old)
            self.old.inner.value.heap.segments self.new.inner.value.heap.segments count }
        ensures own { self.new.inner.value.seat ≡ self.old.inner.value.seat }
        ensures lives { LeavesLives self.old self.new }
        ensures home { SendsHome (λ place. (segment_of place ≡ segment)
            × Contains (contents list.old) (place % SEGMENT_PLACES)) self.old self.new }
        ensures rest { Keeps self.old self.new }
    {
        let inner = &mut *self.inner;
        if !inner.heap.holds(segment) {
            return Answer::NotHeld;
        }
        Answer::Taken(inner.heap.take(segment, list))
    }

    /// Takes the next segment of the arena from this pool, or answers `NoSegment`. Where the place
    /// in hand is one of its places, its seat and the worker's meet there, so that the worker knows
    /// by either that the life in hand is over.
    pub fn refill_from(&mut self, arena: u8, pool: &mut KeptPool<N>) -> Answer
        ensures refilled { IsRefilled number_in records_in part_of_seat
            (next_in pool.old.pool arena) result pool.old.pool pool.new.pool
            (had self.old) (had self.new) }
        ensures unheld { IfSome (next_in pool.old.pool arena) (λ one.
            is_held number_in self.old.inner.value.heap.segments (number_in one.slots) ≡ false) }
        ensures lives { LeavesLives self.old self.new }
        ensures home { SendsNoneHome self.old self.new }
        ensures rest { Keeps self.old self.new }
    {
        let Some(mut one) = pool.pool.next_of(arena) else {
            return Answer::NoSegment;
        };
        let segment = one.number();
        let inner = &mut *self.inner;
        if let Some(other) = inner.heap.release(segment) {
            never_twice(one, other);
            unreachable!()
        }
        see_hand(&mut one, &mut inner.seat, inner.hand);
        inner.heap.adopt(one);
        Answer::Refilled(segment)
    }

    /// Gives a segment that the worker holds to this pool, of which it is the last orphan; else
    /// `NotHeld`.
    pub fn abandon_to(&mut self, segment: u8, pool: &mut KeptPool<N>) -> Answer
        ensures abandoned { IsAbandoned number_in segment
            (segment_in number_in self.old.inner.value.heap.segments segment) result
            pool.old.pool pool.new.pool self.old.inner.value.heap self.new.inner.value.heap }
        ensures gone { is_held number_in self.new.inner.value.heap.segments segment ≡ false }
        ensures others { (other : ℕ) → other ≢ segment
            → segment_in number_in self.new.inner.value.heap.segments other
            ≡ segment_in number_in self.old.inner.value.heap.segments other }
        ensures own { self.new.inner.value.seat ≡ self.old.inner.value.seat }
        ensures lives { LeavesLives self.old self.new }
        ensures home { SendsNoneHome self.old self.new }
        ensures rest { Keeps self.old self.new }
    {
        let inner = &mut *self.inner;
        let Some(one) = inner.heap.release(segment) else {
            return Answer::NotHeld;
        };
        if let Some(other) = pool.pool.pick(segment) {
            never_twice(one, other);
            unreachable!()
        }
        pool.pool.put_orphan(one);
        Answer::Done
    }
}

/// A segment that comes and the worker's seat meet at the place in hand, if that is the segment's.
fn see_hand(one: &mut Segment<UnnamedSegment>, seat: &mut UnnamedWorker, hand: Option<Handle>)
    requires { table_of_segment one.old.slots ≡ table_of_worker seat.old }
    ensures comes { ComesTo number_in records_in part_of_seat hand one.old one.new
        (part_on seat.old.badge) (part_on seat.new.badge) }
    ensures same { table_of_segment one.new.slots ≡ table_of_segment one.old.slots }
    ensures same_seat { table_of_worker seat.new ≡ table_of_worker seat.old }
{
    let Some(handle) = hand else {
        return;
    };
    let place = handle.place;
    if place.segment != one.number() {
        return;
    }
    one.meet(seat, place.page, place.index);
}
