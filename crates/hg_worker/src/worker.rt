//! A worker: what it has.

ghost use Rattle.std.specs.Prelude.{◌≡◌, ℕ, ◌<◌, ◌+◌, ◌*◌, [], None, length, option_map, IfOk};
ghost use Rattle.std.specs.Prelude.{Contains};
ghost use Rattle.hg_place.specs.declared.geometry.TheConstants.{SEGMENT_PLACES};
ghost use Rattle.hg_heap.specs.Held.{is_held};
ghost use Rattle.hg_queue.specs.Queues.{queue_of};
ghost use Rattle.hg_segment.specs.Kept.{Kept};
ghost use Rattle.hg_segment.specs.Settled.{IsSettled};
ghost use Rattle.hg_table.specs.declared.segment.UnnamedSegment.{UnnamedSegment};
ghost use Rattle.hg_worker.specs.Seats.{number_in, records_in};
ghost use Rattle.hg_worker.specs.States.{IsNamed};

use crate::{ServiceName, WorkerState};
use hg_heap::Heap;
use hg_place::Place;
use hg_policy::Policy;
use hg_table::WorkerSeat;
use std::alloc::{AllocError, Global};
use std::marker::PhantomData;

/// A worker of the service N.
#[derive(Drop)]
pub struct Worker<N: ServiceName> {
    pub(crate) inner: Box<WorkerState, Global>,
    pub(crate) of: PhantomData<N>,
    ghost named: { IsNamed N.policy N.table inner.value },
}

impl<N: ServiceName> Worker<N> {
    /// A worker that holds nothing and has nothing in hand.
    pub fn new(
        alloc: Global,
        policy: Policy,
        number: u8,
        seat: WorkerSeat<N>,
    ) -> Result<Worker<N>, AllocError>
        requires serves { policy ≡ N.policy }
        requires below { number < policy.workers }
        requires words { N.table.words ≡ length policy.segments * SEGMENT_PLACES + 1 }
        ensures number { IfOk result (λ worker. worker.inner.value.number ≡ number) }
        ensures policy { IfOk result (λ worker. worker.inner.value.policy ≡ policy) }
        ensures heap { IfOk result (λ worker. worker.inner.value.heap.segments ≡ []) }
        ensures queues { IfOk result (λ worker. (key : ℕ)
            → queue_of worker.inner.value.heap.queues key ≡ []) }
        ensures seat { IfOk result (λ worker. worker.inner.value.seat ≡ seat.inner) }
        ensures hand { IfOk result (λ worker. worker.inner.value.hand ≡ None) }
    {
        // a policy hands out that it is sound
        let _workers = policy.workers();
        let heap = Heap::new(alloc)?;
        let state = WorkerState {
            policy,
            number,
            heap,
            seat: seat.without_name(),
            hand: None,
        };
        Ok(Worker {
            inner: Box::new(alloc, state)?,
            of: PhantomData,
        })
    }

    /// The worker without its service's name. Nothing is moved but the pointer to it.
    pub fn without_name(self) -> Box<WorkerState, Global>
        ensures { result ≡ self.inner }
    {
        let Worker { inner, of: _ } = self;
        inner
    }

    /// The worker under the name of its service: of the service's policy, with a seat of its table.
    pub fn with_name(inner: Box<WorkerState, Global>) -> Worker<N>
        requires { IsNamed N.policy N.table inner.value }
        ensures { result.inner ≡ inner }
    {
        Worker {
            inner,
            of: PhantomData,
        }
    }

    /// What its heap keeps, for its calls to know: each segment as it promises.
    pub(crate) fn settled(&self)
        ensures { (k : Kept UnnamedSegment) → Contains self.now.inner.value.heap.segments k
            → IsSettled records_in k }
    {
        self.inner.heap.settled();
    }

    /// The worker's number.
    pub fn number(&self) -> u8
        ensures { result ≡ self.now.inner.value.number }
    {
        self.inner.number()
    }

    /// Whether the worker holds a segment.
    pub fn holds(&self, segment: u8) -> bool
        ensures { result ≡ is_held number_in self.now.inner.value.heap.segments segment }
    {
        self.inner.holds(segment)
    }

    /// The place of the block in the worker's hand, which is to be sent to the list of its segment.
    pub fn hand(&self) -> Option<Place>
        ensures { result ≡ option_map (λ handle. handle.place) self.now.inner.value.hand }
    {
        self.inner.hand()
    }
}
