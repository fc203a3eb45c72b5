ghost use Rattle.std.specs.Prelude.{◌≡◌, ◌<◌, ◌≤◌, ◌%◌, ℕ, Some, IfOk, Contains, length, slice_get};
ghost use Rattle.std.specs.Prelude.{slice_set};
ghost use Rattle.hg_place.specs.declared.geometry.TheConstants.{SEGMENT_PLACES};
ghost use Rattle.hg_place.specs.Places.{segment_of};
ghost use Rattle.hg_machine.specs.declared.Answer.TheVariants as Answer;
ghost use Rattle.hg_heap.specs.Held.{is_held};
ghost use Rattle.hg_heap.specs.Homecoming.{HaveComeHome};
ghost use Rattle.hg_remote.specs.Remote.{contents, nothing_sent};
ghost use Rattle.hg_close.specs.Rooms.{IsUnfilled};
ghost use Rattle.hg_worker.specs.CallerLocked.{IsDelivered, IsTakenFrom};
ghost use Rattle.hg_worker.specs.Seats.{number_in, records_in, seat_shows, seat_steps};
ghost use Rattle.hg_worker.specs.Workers.{Keeps, LeavesLives, SendsHome, SendsNoneHome};
ghost use Rattle.hg_worker.specs.Workers.{StaysUnseen};
ghost use Rattle.hg_service.specs.Sent.{IsSentTo};

use hg_close::CloseRoom;
use hg_machine::Answer;
use hg_remote::RemoteList;
use hg_worker::{ServiceName, Worker};
use std::alloc::{AllocError, Global};
use std::marker::PhantomData;

/// The remote list of one segment of the service N, for a caller that has locked it: what was sent
/// there and not taken in yet.
#[derive(Drop)]
pub struct KeptList<N: ServiceName> {
    pub(crate) segment: u8,
    list: RemoteList,
    pub(crate) of: PhantomData<N>,
}

impl<N: ServiceName> KeptList<N> {
    /// The list of a segment, to which nothing was sent.
    pub fn new(alloc: Global, segment: u8) -> Result<KeptList<N>, AllocError>
        ensures segment { IfOk result (λ kept. kept.segment ≡ segment) }
        ensures list { IfOk result (λ kept. kept.list ≡ nothing_sent) }
    {
        let list = RemoteList::new(alloc)?;
        Ok(KeptList {
            segment,
            list,
            of: PhantomData,
        })
    }

    /// The number of its segment.
    pub fn segment(&self) -> u8
        ensures { result ≡ self.now.segment }
    {
        self.segment
    }

    /// The list without its service's name. Nothing changes.
    pub fn without_name(self) -> RemoteList
        ensures { result ≡ self.list }
    {
        let KeptList {
            segment: _,
            list,
            of: _,
        } = self;
        list
    }

    /// Sends what the worker has in hand to this list. `NothingInHand` where that is nothing;
    /// `Busy` where the block is of another segment, or the list has it already, and then it stays
    /// in the hand and the list as it was.
    pub fn deliver(&mut self, worker: &mut Worker<N>) -> Answer
        ensures sent { IsSentTo self.old.segment worker.old.inner.value.hand result self.old.list
            self.new.list worker.new.inner.value.hand }
        ensures segment { self.new.segment ≡ self.old.segment }
        ensures heap { worker.new.inner.value.heap ≡ worker.old.inner.value.heap }
        ensures seats { StaysUnseen worker.old worker.new }
        ensures home { SendsNoneHome worker.old worker.new }
        ensures rest { (worker.new.inner.value.policy ≡ worker.old.inner.value.policy)
            × (worker.new.inner.value.number ≡ worker.old.inner.value.number) }
    {
        if let Some(place) = worker.hand() {
            if place.segment != self.segment {
                return Answer::Busy;
            }
        }
        self.receive(worker)
    }

    /// What the worker has in hand comes to this list, taken for that of the block's segment, which
    /// isn't asked. `NothingInHand` where that is nothing; `Busy` where the list has it already, and
    /// then it stays in the hand.
    pub(crate) fn receive(&mut self, worker: &mut Worker<N>) -> Answer
        ensures delivered { IsDelivered worker.old.inner.value.hand result self.old.list self.new.list
            worker.new.inner.value.hand }
        ensures segment { self.new.segment ≡ self.old.segment }
        ensures heap { worker.new.inner.value.heap ≡ worker.old.inner.value.heap }
        ensures seats { StaysUnseen worker.old worker.new }
        ensures home { SendsNoneHome worker.old worker.new }
        ensures rest { (worker.new.inner.value.policy ≡ worker.old.inner.value.policy)
            × (worker.new.inner.value.number ≡ worker.old.inner.value.number) }
    {
        worker.deliver_to(&mut self.list)
    }

    /// The worker takes in what was sent to the list's segment. `NotHeld` where it doesn't hold
    /// that, and then nothing changes.
    pub fn take(&mut self, worker: &mut Worker<N>) -> Answer
        ensures taken { IsTakenFrom number_in records_in seat_shows seat_steps
            (is_held number_in worker.old.inner.value.heap.segments self.old.segment) self.old.segment result
            self.old.list self.new.list worker.old.inner.value.heap worker.new.inner.value.heap }
        ensures whole { (count : ℕ) → result ≡ Answer.Taken count → (count ≤ SEGMENT_PLACES)
            × HaveComeHome number_in records_in self.old.segment (contents self.old.list)
            worker.old.inner.value.heap.segments worker.new.inner.value.heap.segments count }
        ensures own { worker.new.inner.value.seat ≡ worker.old.inner.value.seat }
        ensures segment { self.new.segment ≡ self.old.segment }
        ensures lives { LeavesLives worker.old worker.new }
        ensures home { SendsHome (λ place. (segment_of place ≡ self.old.segment)
            × Contains (contents self.old.list) (place % SEGMENT_PLACES)) worker.old worker.new }
        ensures rest { Keeps worker.old worker.new }
    {
        self.drain(worker, self.segment)
    }

    /// The worker takes in what this list has, taken for that of this segment, which isn't asked.
    /// `NotHeld` where it doesn't hold that, and then nothing changes.
    pub(crate) fn drain(&mut self, worker: &mut Worker<N>, segment: u8) -> Answer
        ensures taken { IsTakenFrom number_in records_in seat_shows seat_steps
            (is_held number_in worker.old.inner.value.heap.segments segment) segment result
            self.old.list self.new.list worker.old.inner.value.heap worker.new.inner.value.heap }
        ensures whole { (count : ℕ) → result ≡ Answer.Taken count → (count ≤ SEGMENT_PLACES)
            × HaveComeHome number_in records_in segment (contents self.old.list)
            worker.old.inner.value.heap.segments worker.new.inner.value.heap.segments count }
        ensures own { worker.new.inner.value.seat ≡ worker.old.inner.value.seat }
        ensures segment { self.new.segment ≡ self.old.segment }
        ensures lives { LeavesLives worker.old worker.new }
        ensures home { SendsHome (λ place. (segment_of place ≡ segment)
            × Contains (contents self.old.list) (place % SEGMENT_PLACES)) worker.old worker.new }
        ensures rest { Keeps worker.old worker.new }
    {
        worker.take_from(segment, &mut self.list)
    }

    /// What this list has goes over to where a service closes, as the list of this segment; what was
    /// there for it is left here.
    pub(crate) fn go_over(&mut self, room: &mut CloseRoom, segment: u8)
        requires { segment < length room.old.parts.remotes.items }
        ensures lists { room.new.parts.remotes.items
            ≡ slice_set room.old.parts.remotes.items segment self.old.list }
        ensures other { slice_get room.old.parts.remotes.items segment ≡ Some self.new.list }
        ensures segment { self.new.segment ≡ self.old.segment }
        ensures rest { room.new ≡ record room.old {
          parts = record room.old.parts { remotes = room.new.parts.remotes };
        } }
        ensures unfilled { IsUnfilled room.old → IsUnfilled room.new }
    {
        room.take_list(segment, &mut self.list);
    }
}
