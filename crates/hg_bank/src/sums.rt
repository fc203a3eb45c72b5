//! A worker's row of the sums: what counts with it over all cores, by tenant.

ghost use Rattle.std.specs.Prelude.{◌≡◌, ◌≢◌, ◌+◌, ◌^◌, ◌<◌, ◌≤◌, ℕ, slice_index};
ghost use Rattle.hg_machine.specs.Charge.{charge};

use crate::bank::TENANTS;
use hg_core::Core;
use hg_place::Actor;

/// What counts with an actor; 0 for a number that no tenant has.
pub(crate) fn counted(row: &[u64; TENANTS], actor: Actor) -> u64
    ensures { actor.0 < TENANTS → result ≡ slice_index row.now actor.0 }
{
    if usize::from(actor.0) < TENANTS {
        row[usize::from(actor.0)]
    } else {
        0
    }
}

/// Counts so many bytes more with an actor.
pub(crate) fn count_more(row: &mut [u64; TENANTS], actor: Actor, bytes: u64)
    requires tenant { actor.0 < TENANTS }
    requires room { slice_index row.old actor.0 + bytes < 2 ^ 64 }
    ensures own { slice_index row.new actor.0 ≡ slice_index row.old actor.0 + bytes }
    ensures others { (tenant : ℕ) → tenant ≢ actor.0
        → slice_index row.new tenant ≡ slice_index row.old tenant }
{
    row[usize::from(actor.0)] += bytes;
}

/// Takes a core's charges out of a worker's sums.
pub(crate) fn withdraw(row: &mut [u64; TENANTS], core: &Core, worker: u8, tenants: u8)
    requires few { tenants ≤ TENANTS }
    requires covered { (tenant : ℕ) → tenant < tenants
        → charge core.now.state worker tenant ≤ slice_index row.old tenant }
    ensures { (tenant : ℕ) → tenant < tenants
        → slice_index row.new tenant + charge core.now.state worker tenant
        ≡ slice_index row.old tenant }
{
    for tenant in 0..tenants {
        row[usize::from(tenant)] -= core.charge(worker, tenant);
    }
}

/// Puts a core's charges into a worker's sums.
pub(crate) fn deposit(row: &mut [u64; TENANTS], core: &Core, worker: u8, tenants: u8)
    requires few { tenants ≤ TENANTS }
    requires room { (tenant : ℕ) → tenant < tenants
        → slice_index row.old tenant + charge core.now.state worker tenant < 2 ^ 64 }
    ensures { (tenant : ℕ) → tenant < tenants
        → slice_index row.new tenant
        ≡ slice_index row.old tenant + charge core.now.state worker tenant }
{
    for tenant in 0..tenants {
        row[usize::from(tenant)] += core.charge(worker, tenant);
    }
}
