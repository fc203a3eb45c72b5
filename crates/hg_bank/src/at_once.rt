//! Many words of a block, or all blocks of an owner in a core, in one call.

ghost use Rattle.std.specs.Prelude.{◌≡◌, ◌<◌, length};
ghost use Rattle.hg_bulk.specs.Freeing.{FreesAll};
ghost use Rattle.hg_bulk.specs.Words.{ReadsWords, WritesWords};
ghost use Rattle.hg_bank.specs.AtOnce.{DoesIn, IsUnreached};
ghost use Rattle.hg_bank.specs.Sound.{IsSoundBank};

use crate::bank::{Bank, BankHandle};
use crate::naming::missing_rule;
use crate::sums::{deposit, withdraw};
use hg_bulk::{Progress, free_all, read_words, write_words};
use hg_core::Refused;
use hg_place::Actor;
use hg_policy::Policy;

/// How far so many words of a block come whose core isn't there: the first is denied.
fn unreached(policy: &Policy, actor: Actor, count: usize) -> Progress
    ensures { IsUnreached policy.now actor.0 count result }
{
    if count == 0 {
        return Progress {
            done: 0,
            refused: None,
        };
    }
    Progress {
        done: 0,
        refused: Some(Refused::Denied(missing_rule(policy, actor))),
    }
}

impl Bank {
    /// Reads as many words of a block as the room has, from the word of an index on, as its core
    /// does: they are the Reads of these words, one after another, and the first that is refused
    /// ends them. What stands in the room behind those that were read is as it was.
    pub fn read_words(
        &mut self,
        worker: u8,
        actor: Actor,
        block: BankHandle,
        first: u32,
        room: &mut [u64],
    ) -> Progress
        requires { worker < self.old.policy.workers }
        ensures words { DoesIn self.old block.core
            (λ was next. ReadsWords was worker actor block.handle first room.old result next
            room.new)
            (IsUnreached self.old.policy actor.0 (length room.old) result × (room.new ≡ room.old))
            self.new }
        ensures kept { IsSoundBank self.new }
    {
        if usize::from(block.core) >= self.cores.len() {
            return unreached(&self.policy, actor, room.len());
        }
        let core = &mut self.cores[usize::from(block.core)];
        read_words(core, worker, actor, block.handle, first, room)
    }

    /// Writes words into a block, from the word of an index on, as its core does: they are the
    /// Writes of these words, one after another, and the first that is refused ends them.
    pub fn write_words(
        &mut self,
        worker: u8,
        actor: Actor,
        block: BankHandle,
        first: u32,
        words: &[u64],
    ) -> Progress
        requires { worker < self.old.policy.workers }
        ensures words { DoesIn self.old block.core
            (λ was next. WritesWords was worker actor block.handle first words.now result next)
            (IsUnreached self.old.policy actor.0 (length words.now) result) self.new }
        ensures kept { IsSoundBank self.new }
    {
        if usize::from(block.core) >= self.cores.len() {
            return unreached(&self.policy, actor, words.len());
        }
        let core = &mut self.cores[usize::from(block.core)];
        write_words(core, worker, actor, block.handle, first, words)
    }

    /// Frees, for an actor, all blocks of an owner in a core that the worker holds, in rising order
    /// of their places, and tells how many: none in a core that isn't there. One that the actor may
    /// not free is denied, and stays as it is.
    pub fn free_all(&mut self, worker: u8, actor: Actor, core: u16, owner: u8) -> u32
        requires { worker < self.old.policy.workers }
        ensures freed { DoesIn self.old core
            (λ was next. FreesAll was worker actor owner result next) (result ≡ 0) self.new }
        ensures kept { IsSoundBank self.new }
    {
        if usize::from(core) >= self.cores.len() {
            return 0;
        }
        let tenants = self.policy.tenants();
        let one = &mut self.cores[usize::from(core)];
        let row = &mut self.sums[usize::from(worker)];
        withdraw(row, one, worker, tenants);
        let freed = free_all(one, worker, actor, owner);
        deposit(row, one, worker, tenants);
        freed
    }
}
