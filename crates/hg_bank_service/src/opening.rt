//! A bank of services opens.

ghost use Rattle.std.specs.Prelude.{◌≡◌, ◌<◌, ◌≤◌, ◌++◌, ◌∷◌, [], ℕ, Some, IfOk, OnOk, length};
ghost use Rattle.std.specs.Prelude.{slice_get, replicate};
ghost use Rattle.hg_bank.specs.declared.bank.TheConstants.{MAX_CORES};
ghost use Rattle.hg_bank_service.specs.Dealing.{AreNew, IsDealt};
ghost use Rattle.hg_bank_service.specs.New.{AreOpened, IsNewWorker, IsOpenedBank};
ghost use Rattle.hg_bank_service.specs.Rows.{AreMore, AreMade, AreRows, IsOpening};

use crate::service::BankService;
use crate::worker::{ARENAS, BankWorker};
use hg_hosted::{HostedService, HostedWorker};
use hg_policy::Policy;
use hg_segment::TENANTS;
use std::alloc::{AllocError, Global};

impl BankService {
    /// So many services of copies of the policy, 1 to 16,384, and a bank worker for each worker of
    /// the policy, by number, which has that worker of each service. It takes all the memory that it
    /// will ever have; where some is refused, nothing is left of it.
    pub fn open(
        alloc: Global,
        policy: Policy,
        cores: u16,
    ) -> Result<(BankService, Vec<BankWorker>), AllocError>
        requires some { 1 ≤ cores }
        requires most { cores ≤ MAX_CORES }
        ensures { IfOk result (λ opened. IsOpenedBank policy cores opened.0 opened.1.items) }
    {
        let closed = Vec::with_capacity(alloc, usize::from(cores))?;
        let (running, rows) = all_opened(alloc, &policy, cores)?;
        let workers = bank_workers(alloc, &policy, rows)?;
        let service = BankService {
            policy,
            closed,
            running,
        };
        Ok((service, workers))
    }
}

/// So many services of the policy, and by number the workers of that number of all of them.
fn all_opened(
    alloc: Global,
    policy: &Policy,
    cores: u16,
) -> Result<(Vec<HostedService>, Vec<Vec<HostedWorker>>), AllocError>
    ensures { IfOk result (λ opened. IsOpening policy.now cores opened.0.items opened.1.items) }
{
    let mut rows = empty_rows(alloc, policy.workers())?;
    let mut services = Vec::with_capacity(alloc, usize::from(cores))?;
    for _ in 0..cores {
        let own = policy.copy(alloc)?;
        let (service, workers) = HostedService::open(alloc, own)?;
        deal(workers, &mut rows)?;
        services.push(service)?;
    }
    Ok((services, rows))
}

/// So many rows, each of which has nothing yet.
fn empty_rows(alloc: Global, many: u8) -> Result<Vec<Vec<HostedWorker>>, AllocError>
    ensures { IfOk result (λ rows. AreRows [] many rows.items) }
{
    let mut rows = Vec::with_capacity(alloc, usize::from(many))?;
    for _ in 0..many {
        rows.push(Vec::new(alloc))?;
    }
    Ok(rows)
}

/// Each worker goes behind those of its row.
fn deal(workers: Vec<HostedWorker>, rows: &mut Vec<Vec<HostedWorker>>) -> Result<(), AllocError>
    requires { length workers.items ≡ length rows.old.items }
    ensures { OnOk result (AreMore workers.items rows.old.items rows.new.items) }
{
    let mut number = 0;
    for worker in workers {
        let row = &mut rows[number];
        row.push(worker)?;
        number += 1;
    }
    Ok(())
}

/// The bank workers that have these rows.
fn bank_workers(
    alloc: Global,
    policy: &Policy,
    rows: Vec<Vec<HostedWorker>>,
) -> Result<Vec<BankWorker>, AllocError>
    requires all { length rows.items ≡ policy.now.workers }
    requires some { (number : ℕ) (row : _) → slice_get rows.items number ≡ Some row
        → 1 ≤ length row.items }
    requires most { (number : ℕ) (row : _) → slice_get rows.items number ≡ Some row
        → length row.items ≤ MAX_CORES }
    requires new { (number : ℕ) (row : _) → slice_get rows.items number ≡ Some row
        → AreNew policy.now number row.items }
    ensures { IfOk result (λ workers. AreMade policy.now rows.items workers.items) }
{
    let mut workers = Vec::with_capacity(alloc, rows.len())?;
    let mut number = 0;
    for row in rows {
        workers.push(bank_worker(alloc, policy, number, row)?)?;
        number += 1;
    }
    Ok(workers)
}

/// The bank worker of a number that has these workers, which are new.
fn bank_worker(
    alloc: Global,
    policy: &Policy,
    number: u8,
    workers: Vec<HostedWorker>,
) -> Result<BankWorker, AllocError>
    requires below { number < policy.now.workers }
    requires some { 1 ≤ length workers.items }
    requires most { length workers.items ≤ MAX_CORES }
    requires new { AreNew policy.now number workers.items }
    ensures new { IfOk result (IsNewWorker policy.now number (length workers.items)) }
    ensures workers { IfOk result (λ made. made.workers.items ≡ workers.items) }
{
    let own = policy.copy(alloc)?;
    let gone = Vec::with_capacity(alloc, workers.len())?;
    Ok(BankWorker {
        policy: own,
        number,
        workers,
        currents: [0; ARENAS],
        sums: [0; TENANTS],
        gone,
    })
}
