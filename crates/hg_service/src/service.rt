ghost use Rattle.std.specs.Prelude.{◌≡◌, ◌≢◌, ◌<◌, ℕ, length, is_some, true, false, IfOk, IfSome};
ghost use Rattle.std.specs.Box.{boxed_slice_items};
ghost use Rattle.hg_table.specs.Named.{table_of};
ghost use Rattle.hg_service.specs.New.{AreNew};
ghost use Rattle.hg_service.specs.Ready.{AreReady, IsNewOwn, is_ready};

use crate::caller_locked::CallerLocked;
use crate::kept_list::KeptList;
use crate::left::Left;
use crate::opening::opened;
use crate::shared::Shared;
use crate::worker::Worker;
use hg_policy::Policy;
use hg_table::LifeTable;
use hg_worker::ServiceName;
use std::alloc::{AllocError, Global};
use std::boxed::BoxedSlice;
use std::sync::{Arc, Mutex};

/// A memory service for threads: it has the workers that nobody has taken yet. All memory that it
/// will ever have is taken when it opens.
#[derive(Drop)]
pub struct Service<N: ServiceName> {
    pub(crate) policy: Policy,
    pub(crate) shared: Arc<Shared<N>, Global>,
    /// By number, those that weren't taken.
    pub(crate) workers: BoxedSlice<Option<Worker<N>>>,
    ghost serves: { policy ≡ N.policy },
    ghost all: { length (boxed_slice_items workers) ≡ N.policy.workers },
    ghost ready: { AreReady (boxed_slice_items workers) },
}

impl<N: ServiceName> Service<N> {
    /// A service of this policy over a table that was made for it: no worker is taken, and nobody
    /// holds a segment. Where memory is refused policy and table are given up.
    pub fn open(alloc: Global, policy: Policy, table: LifeTable) -> Result<Service<N>, AllocError>
        requires policy { policy ≡ N.policy }
        requires table { table_of table ≡ N.table }
        requires segments { table.segments ≡ length policy.segments }
        requires workers { table.workers ≡ policy.workers }
        ensures policy { IfOk result (λ service. service.policy ≡ policy) }
        ensures ready { IfOk result (λ service. (number : ℕ) → number < policy.workers
            → is_ready (boxed_slice_items service.workers) number ≡ true) }
    {
        let parts = opened(alloc, policy, table)?;
        let CallerLocked {
            policy,
            workers,
            lists,
            pool,
        } = parts;
        let left = Left::none(alloc, policy.workers())?;
        let shared = Arc::new(
            alloc,
            Shared {
                lists: behind_locks(alloc, lists)?,
                pool: Mutex::new(pool),
                left: Mutex::new(left),
            },
        )?;
        let workers = all_ready(alloc, workers, &shared)?;
        Ok(Service {
            policy,
            shared,
            workers: workers.into_boxed_slice(),
        })
    }

    /// The policy that it serves by.
    pub fn policy(&self) -> &Policy
        ensures { result.now ≡ self.now.policy }
    {
        &self.policy
    }

    /// The worker of a number: one that holds nothing and has nothing in hand. `None` where the
    /// policy has no such worker, and from the second call for it on, whether it has left or not.
    pub fn worker(&mut self, number: u8) -> Option<Worker<N>>
        ensures some { is_some result ≡ is_ready (boxed_slice_items self.old.workers) number }
        ensures new { IfSome result (IsNewOwn number) }
        ensures gone { is_ready (boxed_slice_items self.new.workers) number ≡ false }
        ensures others { (other : ℕ) → other ≢ number
            → is_ready (boxed_slice_items self.new.workers) other
            ≡ is_ready (boxed_slice_items self.old.workers) other }
        ensures policy { self.new.policy ≡ self.old.policy }
    {
        let at = usize::from(number);
        if at >= self.workers.len() {
            return None;
        }
        self.workers[at].take()
    }
}

/// These lists, each behind a lock.
fn behind_locks<N: ServiceName>(
    alloc: Global,
    lists: Vec<KeptList<N>>,
) -> Result<Vec<Mutex<KeptList<N>>>, AllocError>
    ensures { IfOk result (λ locked. length locked.items ≡ length lists.items) }
{
    let mut locked = Vec::with_capacity(alloc, lists.len())?;
    for list in lists {
        locked.push(Mutex::new(list))?;
    }
    Ok(locked)
}

/// These workers, none of them taken.
fn all_ready<N: ServiceName>(
    alloc: Global,
    workers: Vec<hg_worker::Worker<N>>,
    shared: &Arc<Shared<N>, Global>,
) -> Result<Vec<Option<Worker<N>>>, AllocError>
    requires { AreNew (length workers.items) workers.items }
    ensures all { IfOk result (λ ready. length ready.items ≡ length workers.items) }
    ensures there { IfOk result (λ ready. (number : ℕ) → number < length workers.items
        → is_ready ready.items number ≡ true) }
    ensures ready { IfOk result (λ ready. AreReady ready.items) }
{
    let mut ready = Vec::with_capacity(alloc, workers.len())?;
    for own in workers {
        let shared = Arc::try_clone(shared)?;
        ready.push(Some(Worker { own, shared }))?;
    }
    Ok(ready)
}
