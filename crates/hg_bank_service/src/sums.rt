//! A row of sums: what counts over all cores, by tenant.

ghost use Rattle.std.specs.Prelude.{◌≡◌, ◌≢◌, ◌+◌, ◌^◌, ◌<◌, ◌≤◌, ℕ, slice_index};
ghost use Rattle.hg_hosted.specs.Charges.{charge_at};

use hg_hosted::HostedWorker;
use hg_place::Actor;
use hg_segment::TENANTS;

/// What counts with an actor; 0 for a number that no tenant has.
pub(crate) fn counted(row: &[u64; TENANTS], actor: Actor) -> u64
    ensures { actor.0 < TENANTS → result ≡ slice_index row.now actor.0 }
{
    if usize::from(actor.0) < TENANTS {
        row[usize::from(actor.0)]
    } else {
        0
    }
}

/// Counts with an actor as much more as its charge with one worker is now than it was before.
pub(crate) fn recount(row: &mut [u64; TENANTS], actor: Actor, before: u64, now: u64)
    requires tenant { actor.0 < TENANTS }
    requires covered { before ≤ slice_index row.old actor.0 }
    requires room { slice_index row.old actor.0 + now < 2 ^ 64 }
    ensures own { slice_index row.new actor.0 + before ≡ slice_index row.old actor.0 + now }
    ensures others { (tenant : ℕ) → tenant ≢ actor.0
        → slice_index row.new tenant ≡ slice_index row.old tenant }
{
    row[usize::from(actor.0)] = row[usize::from(actor.0)] - before + now;
}

/// Takes what a worker is charged out of a row.
pub(crate) fn withdraw(row: &mut [u64; TENANTS], worker: &HostedWorker, tenants: u8)
    requires few { tenants ≤ TENANTS }
    requires covered { (tenant : ℕ) → tenant < tenants
        → charge_at worker.now tenant ≤ slice_index row.old tenant }
    ensures { (tenant : ℕ) → tenant < tenants
        → slice_index row.new tenant + charge_at worker.now tenant ≡ slice_index row.old tenant }
{
    for tenant in 0..tenants {
        row[usize::from(tenant)] -= worker.charge(tenant);
    }
}

/// Puts what a worker is charged into a row.
pub(crate) fn deposit(row: &mut [u64; TENANTS], worker: &HostedWorker, tenants: u8)
    requires few { tenants ≤ TENANTS }
    requires room { (tenant : ℕ) → tenant < tenants → slice_index row.old tenant < 2 ^ 63 }
    ensures sums { (tenant : ℕ) → tenant < tenants
        → slice_index row.new tenant ≡ slice_index row.old tenant + charge_at worker.now tenant }
    ensures few { (tenant : ℕ) → tenant < tenants → charge_at worker.now tenant ≤ 2 ^ 35 }
{
    for tenant in 0..tenants {
        row[usize::from(tenant)] += worker.charge(tenant);
    }
}
