//! Who holds a segment, and what a tenant is charged.

ghost use Rattle.std.specs.Prelude.{◌≡◌};
ghost use Rattle.hg_ffi.specs.Holding.{IsCharged, TellsCharge, TellsHolder};

use crate::lent_core::LentCore;
use crate::serving::worker_of;
use hg_core::Core;
use hg_reply::status::{CLOSED, NO_NAME, NO_WORKER, VALUE};
use hg_reply::{NOBODY, Reply, holding};

/// Tells who holds a segment.
pub fn tell_holder(host: &LentCore, segment: u8) -> Reply
    ensures { TellsHolder host.now segment result }
{
    match host.core() {
        Some(core) => holding(core.holder(segment)),
        None => Reply::valued(CLOSED, NOBODY),
    }
}

fn charged(core: &Core, worker: u32, tenant: u8) -> Reply
    ensures { IsCharged core.now worker tenant result }
{
    let Some(worker) = worker_of(core, worker) else {
        return Reply::plain(NO_WORKER);
    };
    if tenant < core.policy().tenants() {
        Reply::valued(VALUE, core.charge(worker, tenant))
    } else {
        Reply::plain(NO_NAME)
    }
}

/// Tells what a tenant is charged with a worker.
pub fn tell_charge(host: &LentCore, worker: u32, tenant: u8) -> Reply
    ensures { TellsCharge host.now worker tenant result }
{
    match host.core() {
        Some(core) => charged(core, worker, tenant),
        None => Reply::plain(CLOSED),
    }
}
