//! The calls that name their core.

ghost use Rattle.std.specs.Prelude.{◌≡◌, ◌<◌};
ghost use Rattle.hg_core.specs.Answers.{free_answer, deliver_answer, take_answer, abandon_answer};
ghost use Rattle.hg_heap.specs.Answers.{read_answer, done_answer, look_answer};
ghost use Rattle.hg_machine.specs.declared.Answer.TheVariants as Answer;
ghost use Rattle.hg_machine.specs.declared.Event.TheVariants as Event;
ghost use Rattle.hg_bank.specs.Requests.{named, missing};
ghost use Rattle.hg_bank.specs.Sound.{IsSoundBank};
ghost use Rattle.hg_bank.specs.Steps.{BankStep};

use crate::bank::{Bank, BankHandle, BankSegment};
use crate::sums::{deposit, withdraw};
use hg_core::{Freed, NotFreed, NotHeld, NothingInHand, Refused};
use hg_machine::{Row, Rule};
use hg_place::{Actor, Place};
use hg_policy::Policy;

/// Why a block of a core that isn't there is denied.
pub(crate) fn missing_rule(policy: &Policy, actor: Actor) -> Rule
    ensures { missing policy.now actor.0 ≡ Answer.Denied result }
{
    if policy.limit(actor.0).is_some() {
        Rule::Stale(0)
    } else {
        Rule::Stranger
    }
}

impl Bank {
    /// Reads a word of a block, as its core does. A block of a core that isn't there is `Stale(0)`
    /// to a tenant.
    pub fn read(
        &mut self,
        worker: u8,
        actor: Actor,
        block: BankHandle,
        index: u32,
    ) -> Result<u64, Refused>
        requires worker { worker < self.old.policy.workers }
        ensures step { BankStep self.old worker
            (named block.core (Event.Read actor block.handle index)) (read_answer result) self.new }
        ensures kept { IsSoundBank self.new }
    {
        if usize::from(block.core) >= self.cores.len() {
            return Err(Refused::Denied(missing_rule(&self.policy, actor)));
        }
        let core = &mut self.cores[usize::from(block.core)];
        core.read(worker, actor, block.handle, index)
    }

    /// Writes a word of a block, as its core does. A block of a core that isn't there is `Stale(0)`
    /// to a tenant.
    pub fn write(
        &mut self,
        worker: u8,
        actor: Actor,
        block: BankHandle,
        index: u32,
        value: u64,
    ) -> Result<(), Refused>
        requires worker { worker < self.old.policy.workers }
        ensures step { BankStep self.old worker
            (named block.core (Event.Write actor block.handle index value)) (done_answer result)
            self.new }
        ensures kept { IsSoundBank self.new }
    {
        if usize::from(block.core) >= self.cores.len() {
            return Err(Refused::Denied(missing_rule(&self.policy, actor)));
        }
        let core = &mut self.cores[usize::from(block.core)];
        core.write(worker, actor, block.handle, index, value)
    }

    /// Shows the actor the block at a place, as its core does. A place of a core that isn't there
    /// is `Stale(0)` to a tenant.
    pub fn look(
        &mut self,
        worker: u8,
        actor: Actor,
        core: u16,
        place: Place,
    ) -> Result<Row, Refused>
        requires worker { worker < self.old.policy.workers }
        ensures step { BankStep self.old worker (named core (Event.Look actor place))
            (look_answer result) self.new }
        ensures kept { IsSoundBank self.new }
    {
        if usize::from(core) >= self.cores.len() {
            return Err(Refused::Denied(missing_rule(&self.policy, actor)));
        }
        let one = &mut self.cores[usize::from(core)];
        one.look(worker, actor, place)
    }

    /// Sends the place that the worker has in hand in a core to its segment's remote list there.
    /// `NothingInHand` changes nothing; in a core that isn't there no hand has anything.
    pub fn deliver(&mut self, worker: u8, core: u16) -> Result<(), NothingInHand>
        requires worker { worker < self.old.policy.workers }
        ensures step { BankStep self.old worker (named core Event.Deliver) (deliver_answer result)
            self.new }
        ensures kept { IsSoundBank self.new }
    {
        if usize::from(core) >= self.cores.len() {
            return Err(NothingInHand);
        }
        let one = &mut self.cores[usize::from(core)];
        one.deliver(worker)
    }

    /// Takes the class from each page of the worker's in a core that has no open place, and tells
    /// from how many: from none in a core that isn't there.
    pub fn collect(&mut self, worker: u8, core: u16) -> u32
        requires worker { worker < self.old.policy.workers }
        ensures step { BankStep self.old worker (named core Event.Collect) (Answer.Pages result)
            self.new }
        ensures kept { IsSoundBank self.new }
    {
        if usize::from(core) >= self.cores.len() {
            return 0;
        }
        let one = &mut self.cores[usize::from(core)];
        one.collect(worker)
    }

    /// Frees a block, as its core does. A block of a core that isn't there is `Stale(0)` to a
    /// tenant.
    pub fn free(&mut self, worker: u8, actor: Actor, block: BankHandle) -> Result<Freed, NotFreed>
        requires worker { worker < self.old.policy.workers }
        ensures step { BankStep self.old worker (named block.core (Event.Free actor block.handle))
            (free_answer result) self.new }
        ensures kept { IsSoundBank self.new }
    {
        if usize::from(block.core) >= self.cores.len() {
            return Err(NotFreed::Denied(missing_rule(&self.policy, actor)));
        }
        let tenants = self.policy.tenants();
        let core = &mut self.cores[usize::from(block.core)];
        let row = &mut self.sums[usize::from(worker)];
        withdraw(row, core, worker, tenants);
        let freed = core.free(worker, actor, block.handle);
        deposit(row, core, worker, tenants);
        freed
    }

    /// Takes in what was sent to a segment that the worker holds, as its core does. Nobody holds a
    /// segment of a core that isn't there.
    pub fn take(&mut self, worker: u8, segment: BankSegment) -> Result<u32, NotHeld>
        requires worker { worker < self.old.policy.workers }
        ensures step { BankStep self.old worker (named segment.core (Event.Take segment.segment))
            (take_answer result) self.new }
        ensures kept { IsSoundBank self.new }
    {
        if usize::from(segment.core) >= self.cores.len() {
            return Err(NotHeld);
        }
        let tenants = self.policy.tenants();
        let core = &mut self.cores[usize::from(segment.core)];
        let row = &mut self.sums[usize::from(worker)];
        withdraw(row, core, worker, tenants);
        let taken = core.take(worker, segment.segment);
        deposit(row, core, worker, tenants);
        taken
    }

    /// The worker gives up a segment that it holds, as in its core. Nobody holds a segment of a
    /// core that isn't there.
    pub fn abandon(&mut self, worker: u8, segment: BankSegment) -> Result<(), NotHeld>
        requires worker { worker < self.old.policy.workers }
        ensures step { BankStep self.old worker
            (named segment.core (Event.Abandon segment.segment)) (abandon_answer result) self.new }
        ensures kept { IsSoundBank self.new }
    {
        if usize::from(segment.core) >= self.cores.len() {
            return Err(NotHeld);
        }
        let tenants = self.policy.tenants();
        let core = &mut self.cores[usize::from(segment.core)];
        let row = &mut self.sums[usize::from(worker)];
        withdraw(row, core, worker, tenants);
        let given_up = core.abandon(worker, segment.segment);
        deposit(row, core, worker, tenants);
        given_up
    }
}
