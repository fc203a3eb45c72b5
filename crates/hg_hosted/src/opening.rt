//! A service opens.

ghost use Rattle.std.specs.Prelude.{◌≡◌, [], length, Some, IfOk};
ghost use Rattle.crossbeam_queue.specs.Passes.{view};
ghost use Rattle.hg_table.specs.Named.{table_of};
ghost use Rattle.hg_service.specs.New.{AreNew};
ghost use Rattle.hg_hosted.specs.New.{AreNewHosted, IsOpened, ShareAll};
ghost use Rattle.hg_hosted.specs.Parking.{IsHome};
ghost use Rattle.hg_hosted.specs.Places.{HaveSamePlaces};
ghost use Rattle.hg_hosted.specs.Shared.{AreListsHome, AreOfService, AreParked};

use crate::parked::Parked;
use crate::parts::{Left, Segments, Sent};
use crate::service::HostedService;
use crate::shared::Shared;
use crate::worker::HostedWorker;
use hg_policy::Policy;
use hg_service::{CallerLocked, KeptList};
use hg_table::LifeTable;
use hg_worker::{KeptPool, ServiceName, Worker};
use std::alloc::{AllocError, Global};
use std::marker::Brand;

impl HostedService {
    /// A service of this policy, and all of its workers, by number: none holds a segment or has a
    /// block in hand. It takes all the memory that it will ever have; where some is refused, the
    /// policy is given up.
    pub fn open(
        alloc: Global,
        policy: Policy,
    ) -> Result<(HostedService, Vec<HostedWorker>), AllocError>
        ensures { IfOk result (λ opened. IsOpened policy opened.0 opened.1.items) }
    {
        let table = LifeTable::new(alloc, &policy)?;
        opened::<Brand>(alloc, policy, table)
    }
}

/// A new service of this name, and its workers, by number.
fn opened<N: ServiceName>(
    alloc: Global,
    policy: Policy,
    table: LifeTable,
) -> Result<(HostedService, Vec<HostedWorker>), AllocError>
    requires policy { policy ≡ N.policy }
    requires table { table_of table ≡ N.table }
    requires segments { table.segments ≡ length policy.segments }
    requires workers { table.workers ≡ policy.workers }
    ensures { IfOk result (λ opened. IsOpened policy opened.0 opened.1.items) }
{
    let parts = CallerLocked::<N>::open(alloc, policy, table)?;
    let CallerLocked {
        policy,
        workers,
        lists,
        pool,
    } = parts;
    let mut shared = shared_parts(alloc, &policy, &workers, lists, pool)?;
    let came = Vec::with_capacity(alloc, workers.len())?;
    let workers = hosted(alloc, workers, &mut shared)?;
    Ok((HostedService::made::<N>(policy, shared, came), workers))
}

/// What the workers of a new service share.
fn shared_parts<N: ServiceName>(
    alloc: Global,
    policy: &Policy,
    workers: &[Worker<N>],
    lists: Vec<KeptList<N>>,
    pool: KeptPool<N>,
) -> Result<Shared, AllocError>
    requires all { length lists.items ≡ length N.policy.segments }
    ensures of { IfOk result (AreOfService N.policy N.table) }
    ensures home { IfOk result AreParked }
    ensures taken { IfOk result (λ shared. (view shared.left.pass).taken ≡ []) }
{
    // a policy has a worker
    let Some(one) = workers.first() else {
        return Err(AllocError);
    };
    let lists = parked_lists(alloc, one, lists)?;
    let pool = pool.without_name();
    let segments = Parked::new::<N>(alloc, 1, Segments { pool })?;
    // room for each worker, beside the one that stands there from the first
    let room = usize::from(policy.workers()) + 1;
    let left = Parked::new::<N>(alloc, room, Left { state: None })?;
    Ok(Shared {
        segments,
        lists,
        left,
    })
}

/// Each list where it is shared.
fn parked_lists<N: ServiceName>(
    alloc: Global,
    one: &Worker<N>,
    lists: Vec<KeptList<N>>,
) -> Result<Vec<Parked<Sent>>, AllocError>
    ensures all { IfOk result (λ parked. length parked.items ≡ length lists.items) }
    ensures home { IfOk result (λ parked. AreListsHome parked.items) }
{
    let mut parked = Vec::with_capacity(alloc, lists.len())?;
    for kept in lists {
        parked.push(parked_list(alloc, one, kept)?)?;
    }
    Ok(parked)
}

fn parked_list<N: ServiceName>(
    alloc: Global,
    one: &Worker<N>,
    kept: KeptList<N>,
) -> Result<Parked<Sent>, AllocError>
    ensures { IfOk result (λ parked. IsHome (view parked.pass) parked.kept) }
{
    let list = kept.without_name();
    Parked::new::<N>(alloc, 1, Sent { list })
}

/// These workers, each for a thread of the host.
fn hosted<N: ServiceName>(
    alloc: Global,
    workers: Vec<Worker<N>>,
    shared: &mut Shared,
) -> Result<Vec<HostedWorker>, AllocError>
    requires of { AreOfService N.policy N.table shared.old }
    requires home { AreParked shared.old }
    requires new { AreNew N.policy.workers workers.items }
    ensures of { AreOfService N.policy N.table shared.new }
    ensures home { AreParked shared.new }
    ensures taken { (view shared.new.left.pass).taken ≡ (view shared.old.left.pass).taken }
    ensures new { IfOk result (λ hosted. AreNewHosted N.policy N.table hosted.items) }
    ensures own_places { HaveSamePlaces shared.old shared.new }
    ensures places { IfOk result (λ hosted. ShareAll shared.old hosted.items) }
{
    let mut hosted = Vec::with_capacity(alloc, workers.len())?;
    for worker in workers {
        hosted.push(hosted_one(alloc, worker, shared)?)?;
    }
    Ok(hosted)
}

fn hosted_one<N: ServiceName>(
    alloc: Global,
    worker: Worker<N>,
    shared: &mut Shared,
) -> Result<HostedWorker, AllocError>
    requires of { AreOfService N.policy N.table shared.old }
    requires home { AreParked shared.old }
    ensures of { AreOfService N.policy N.table shared.new }
    ensures home { AreParked shared.new }
    ensures taken { (view shared.new.left.pass).taken ≡ (view shared.old.left.pass).taken }
    ensures own { IfOk result (λ hosted. hosted.state ≡ Some worker.inner) }
    ensures own_places { HaveSamePlaces shared.old shared.new }
    ensures places { IfOk result (λ hosted. HaveSamePlaces shared.old hosted.shared) }
{
    let shared = shared.share(alloc)?;
    Ok(HostedWorker::made(worker.without_name(), shared))
}
