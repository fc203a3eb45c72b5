//! The worker of one core is asked, and the sums follow.

ghost use Rattle.std.specs.Prelude.{◌≡◌, ◌<◌, ◌≤◌, length};
ghost use Rattle.hg_worker.specs.Answers.{block_in};
ghost use Rattle.hg_bank.specs.declared.bank.TheConstants.{MAX_CORES};
ghost use Rattle.hg_bank_service.specs.Asking.{AllocatesAt, ServesAt};
ghost use Rattle.hg_bank_service.specs.Sums.{AreSums};

use crate::sums::{deposit, recount, withdraw};
use hg_hosted::HostedWorker;
use hg_machine::{Answer, Event};
use hg_place::{Actor, Handle};
use hg_policy::Policy;
use hg_segment::TENANTS;

/// The worker of a core that is there serves an event.
pub(crate) fn serve_there(
    policy: &Policy,
    workers: &mut Vec<HostedWorker>,
    sums: &mut [u64; TENANTS],
    core: u16,
    event: Event,
) -> Option<Answer>
    requires there { core < length workers.old.items }
    requires few { length workers.old.items ≤ MAX_CORES }
    requires counted { AreSums (length policy.now.tenants) sums.old workers.old.items }
    ensures served { ServesAt core event result workers.old.items workers.new.items }
    ensures counted { AreSums (length policy.now.tenants) sums.new workers.new.items }
{
    let tenants = policy.tenants();
    let worker = &mut workers[usize::from(core)];
    withdraw(sums, worker, tenants);
    let told = worker.step(event);
    deposit(sums, worker, tenants);
    told
}

/// The worker of a core that is there is asked for a block, for a tenant. The block that it gives.
pub(crate) fn alloc_there(
    policy: &Policy,
    workers: &mut Vec<HostedWorker>,
    sums: &mut [u64; TENANTS],
    core: u16,
    actor: Actor,
    arena: u8,
    bytes: u64,
) -> Option<Handle>
    requires there { core < length workers.old.items }
    requires few { length workers.old.items ≤ MAX_CORES }
    requires tenant { actor.0 < length policy.now.tenants }
    requires counted { AreSums (length policy.now.tenants) sums.old workers.old.items }
    ensures asked { AllocatesAt core actor arena bytes result workers.old.items
        workers.new.items }
    ensures counted { AreSums (length policy.now.tenants) sums.new workers.new.items }
{
    // a policy hands out that it has few tenants
    let _tenants = policy.tenants();
    let worker = &mut workers[usize::from(core)];
    let charged = worker.charge(actor.0);
    let told = worker.alloc(actor, arena, bytes);
    let charge = worker.charge(actor.0);
    let handle = block_of(told)?;
    recount(sums, actor, charged, charge);
    Some(handle)
}

/// The block that an answer gives.
fn block_of(answer: Answer) -> Option<Handle>
    ensures { result ≡ block_in answer }
{
    match answer {
        Answer::Block(handle) => Some(handle),
        _ => None,
    }
}
