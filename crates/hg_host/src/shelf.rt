//! A worker at a bank, which grows as it is filled.

ghost use Rattle.std.specs.Prelude.{◌≡◌, ◌<◌, ◌≤◌, IfOk, MatchOption};
ghost use Rattle.heapguard_core.specs.Answers.{read_answer};
ghost use Rattle.heapguard_core.specs.Banks.{BankState, BankStep, alloc, named};
ghost use Rattle.heapguard_core.specs.declared.Answer.TheVariants as Answer;
ghost use Rattle.heapguard_core.specs.declared.Event.TheVariants as Event;

use heapguard_core::{Actor, Bank, BankHandle, Refused, bank_laws};
use std::alloc::{AllocError, Global};

/// The arena that the blocks are of.
const MAIN: u8 = 0;

/// A bank, and a worker that its policy has.
#[derive(Drop)]
pub struct Shelf {
    bank: Bank,
    worker: u8,
    ghost served: { worker < bank.policy.workers },
}

impl Shelf {
    /// The shelf of a worker; `None` where the policy has no such worker.
    pub fn at(bank: Bank, worker: u8) -> Option<Shelf>
        ensures { MatchOption result (bank.policy.workers ≤ worker)
            (λ shelf. (shelf.bank ≡ bank) × (shelf.worker ≡ worker)) }
    {
        if worker < bank.policy().workers() {
            Some(Shelf { bank, worker })
        } else {
            drop(bank);
            None
        }
    }

    /// Takes a segment to serve from, of a core that the bank opens for it where none has one.
    /// Whether there was one; a want of memory leaves the shelf as it was.
    pub fn refill(&mut self, alloc: Global) -> Result<bool, AllocError> {
        bank_laws::steps_keep_policy();
        if self.bank.refill(self.worker, MAIN).is_ok() {
            return Ok(true);
        }
        if self.bank.is_full() {
            return Ok(false);
        }
        self.bank.grow(alloc)?;
        Ok(self.bank.refill(self.worker, MAIN).is_ok())
    }

    /// Keeps a number at the front of a new block of so many bytes.
    pub fn keep(&mut self, actor: Actor, bytes: u64, number: u64) -> Result<BankHandle, Refused>
        ensures { IfOk result (λ block. (between : BankState)
            × BankStep self.old.bank self.old.worker (alloc actor 0 bytes)
            (Answer.Block block.handle) between
            × BankStep between self.old.worker
            (named block.core (Event.Write actor block.handle 0 number)) Answer.Done
            self.new.bank) }
    {
        bank_laws::steps_keep_policy();
        let block = self.bank.alloc(self.worker, actor, MAIN, bytes)?;
        self.bank.write(self.worker, actor, block, 0, number)?;
        Ok(block)
    }

    /// Tells an actor the number at the front of a block.
    pub fn tell(&mut self, actor: Actor, block: BankHandle) -> Result<u64, Refused>
        ensures { BankStep self.old.bank self.old.worker
            (named block.core (Event.Read actor block.handle 0)) (read_answer result)
            self.new.bank }
    {
        bank_laws::steps_keep_policy();
        self.bank.read(self.worker, actor, block, 0)
    }
}
