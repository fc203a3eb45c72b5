//! The stores of a core: all that it keeps.

ghost use Rattle.std.specs.Prelude.{◌≡◌, IfOk};
ghost use Rattle.hg_machine.specs.Holders.{holds};
ghost use Rattle.hg_machine.specs.State.{opening, holder_at};
ghost use Rattle.hg_agreement.specs.Parts.{kept_of};
ghost use Rattle.hg_events.specs.Core.{parts_of};
ghost use Rattle.hg_core.specs.Keeping.{state_in, IsKept};
ghost use Rattle.hg_core.specs.Opening.{opened};
ghost use Rattle.hg_core.specs.Held.{worker_in};

use crate::opening::{empty_heaps, empty_remotes, fresh_pool, no_holders};
use hg_heap::Heap;
use hg_place::{MAX_SEGMENTS, Place, PlainWords, filled};
use hg_policy::Policy;
use hg_pool::Pool;
use hg_remote::RemoteList;
use std::alloc::{AllocError, Global};
use std::boxed::BoxedSlice;
use std::marker::Model;

/// The heap of each worker, the remote list of each segment, the pool of the segments that nobody
/// holds, and what each worker has in hand. Each segment stands in one heap or in the pool;
/// `holders` says in which heap, so that it isn't searched for. No field can
/// grow but the policy, which no call changes.
#[derive(Drop)]
pub struct Stores {
    pub(crate) policy: Policy,
    /// By worker.
    pub(crate) heaps: BoxedSlice<Heap<PlainWords>>,
    /// By segment.
    pub(crate) remotes: BoxedSlice<RemoteList>,
    pub(crate) pool: Pool<PlainWords>,
    /// By worker, a place that it freed and that stands on no remote list yet.
    pub(crate) hands: BoxedSlice<Option<Place>>,
    /// By segment, the worker that holds it.
    pub(crate) holders: [Option<u8>; MAX_SEGMENTS],
}

impl Model for Stores {
    ghost use Rattle.hg_events.specs.Core.{Core};
    ghost use Rattle.hg_core.specs.Stored.{core_of, IsStored};

    ghost Value = { Core };

    ghost view = { core_of };

    ghost invariant = { IsStored };
}

impl Stores {
    /// Stores in which no place was ever given out and nobody holds a segment.
    pub(crate) fn open(alloc: Global, policy: Policy) -> Result<Stores, AllocError>
        ensures opening { IfOk result (λ stores. state_in stores ≡ opening policy) }
        ensures opened { IfOk result (λ stores. kept_of (parts_of stores) ≡ opened policy) }
        ensures kept { IfOk result IsKept }
    {
        let workers = policy.workers();
        let heaps = empty_heaps(alloc, workers)?;
        let remotes = empty_remotes(alloc, policy.segments())?;
        let pool = fresh_pool(alloc, &policy)?;
        let hands = filled(alloc, None, usize::from(workers))?;
        Ok(Stores {
            policy,
            heaps,
            remotes,
            pool,
            hands,
            holders: no_holders(),
        })
    }

    /// The policy that they serve by.
    pub(crate) fn policy(&self) -> &Policy
        ensures value { result.now ≡ self.now.policy }
        ensures kept { IsKept self.now }
    {
        &self.policy
    }

    /// The worker that holds a segment, if one does.
    pub(crate) fn holder_of(&self, segment: u8) -> Option<u8>
        ensures value { result ≡ worker_in (holder_at (state_in self.now) segment) }
        ensures kept { IsKept self.now }
    {
        let holders = &self.holders;
        if usize::from(segment) >= MAX_SEGMENTS {
            return None;
        }
        holders[usize::from(segment)]
    }

    /// Whether the worker holds the segment.
    pub(crate) fn holds(&self, worker: u8, segment: u8) -> bool
        ensures value { result ≡ holds (state_in self.now) worker segment }
        ensures kept { IsKept self.now }
    {
        self.holder_of(segment) == Some(worker)
    }
}
