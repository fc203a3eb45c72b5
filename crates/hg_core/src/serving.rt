//! The core, and which event is served how.

ghost use Rattle.std.specs.Prelude.{◌≡◌, ◌<◌, IfOk};
ghost use Rattle.hg_machine.specs.Charge.{charge};
ghost use Rattle.hg_machine.specs.Holders.{holds};
ghost use Rattle.hg_machine.specs.State.{opening, holder_at};
ghost use Rattle.hg_machine.specs.Steps.{Step};
ghost use Rattle.hg_machine.specs.Soundness.{IsSound};
ghost use Rattle.hg_machine.specs.Lists.{IsPartition};
ghost use Rattle.hg_choice.specs.ChosenSteps.{ChosenStep};
ghost use Rattle.hg_core.specs.Opening.{opened};
ghost use Rattle.hg_core.specs.Held.{worker_in};

use crate::answers::{abandon_answer, deliver_answer, free_answer, refill_answer, take_answer};
use crate::stores::Stores;
use hg_heap::{alloc_answer, done_answer, look_answer, read_answer};
use hg_machine::{Answer, Event};
use hg_policy::Policy;
use std::alloc::{AllocError, Global};
use std::marker::Model;

/// The memory service, seen as a state of the machine with its lists and queues.
#[derive(Drop)]
pub struct Core {
    pub(crate) stores: Stores,
}

impl Model for Core {
    ghost use Rattle.hg_machine.specs.Lists.{Kept};
    ghost use Rattle.hg_agreement.specs.Parts.{kept_of};
    ghost use Rattle.hg_events.specs.Core.{parts_of};
    ghost use Rattle.hg_core.specs.Keeping.{IsKept};

    ghost Value = { Kept };

    ghost view = { λ c. kept_of (parts_of c.stores) };

    ghost invariant = { λ c. IsKept c.stores };
}

impl Core {
    /// A service in which no place was ever given out, nobody holds a segment, and nothing stands
    /// on a list or in a queue.
    pub fn open(alloc: Global, policy: Policy) -> Result<Core, AllocError>
        ensures opening { IfOk result (λ core. core.state ≡ opening policy) }
        ensures opened { IfOk result (λ core. core ≡ opened policy) }
        ensures kept { IfOk result (λ core. IsSound core.state × IsPartition core) }
    {
        let stores = Stores::open(alloc, policy)?;
        Ok(Core { stores })
    }

    /// The policy that it serves by.
    pub fn policy(&self) -> &Policy
        ensures value { result.now ≡ self.now.state.policy }
        ensures kept { IsSound self.now.state × IsPartition self.now }
    {
        self.stores.policy()
    }

    /// Whether the worker holds the segment. Nobody holds one that the policy lacks.
    pub fn holds(&self, worker: u8, segment: u8) -> bool
        ensures { result ≡ holds self.now.state worker segment }
    {
        self.stores.holds(worker, segment)
    }

    /// The worker that holds the segment, if one does. Nobody holds one that the policy lacks.
    pub fn holder(&self, segment: u8) -> Option<u8>
        ensures { result ≡ worker_in (holder_at self.now.state segment) }
    {
        self.stores.holder_of(segment)
    }

    /// What counts against a tenant's limit with a worker, in bytes, of all arenas. A worker that
    /// the policy lacks has 0, and so has a number from 64 on; from `open` on a tenant that it
    /// lacks has 0 too, since each owner is a tenant (law `owners_are_tenants`).
    pub fn charge(&self, worker: u8, tenant: u8) -> u64
        ensures { result ≡ charge self.now.state worker tenant }
    {
        self.stores.charge(worker, tenant)
    }

    /// Serves one event of a worker. Where the event's kind is known to a caller, of these calls it
    /// has that kind's alone.
    #[inline(always)]
    pub fn step(&mut self, worker: u8, event: Event) -> Answer
        requires worker { worker < self.old.state.policy.workers }
        ensures step { Step self.old.state worker event result self.new.state }
        ensures chosen { ChosenStep self.old worker event result self.new }
        ensures kept { IsSound self.new.state × IsPartition self.new }
    {
        match event {
            Event::Alloc {
                actor,
                arena,
                bytes,
            } => alloc_answer(self.alloc(worker, actor, arena, bytes)),
            Event::Free { actor, handle } => free_answer(self.free(worker, actor, handle)),
            Event::Deliver => deliver_answer(self.deliver(worker)),
            Event::Take { segment } => take_answer(self.take(worker, segment)),
            Event::Collect => Answer::Pages(self.collect(worker)),
            Event::Read {
                actor,
                handle,
                index,
            } => read_answer(self.read(worker, actor, handle, index)),
            Event::Write {
                actor,
                handle,
                index,
                value,
            } => done_answer(self.write(worker, actor, handle, index, value)),
            Event::Look { actor, place } => look_answer(self.look(worker, actor, place)),
            Event::Abandon { segment } => abandon_answer(self.abandon(worker, segment)),
            Event::Refill { arena } => refill_answer(self.refill(worker, arena)),
        }
    }
}
