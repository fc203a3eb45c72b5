//! The words of a bank's blocks.

ghost use Rattle.hg_bank.specs.Sound.{IsSoundBank};
ghost use Rattle.hg_bytes.specs.Bytes.{ReadsBytes, WritesBytes};
ghost use Rattle.hg_bytes.specs.OfBank.{bank_has, bank_reads, bank_writes};

use crate::progress::Progress;
use crate::reading::read_bytes;
use crate::store::WordStore;
use crate::writing::write_bytes;
use hg_bank::{Bank, BankHandle};
use hg_heap::{done_answer, read_answer};
use hg_machine::Answer;
use hg_place::Actor;

/// A worker of a bank that asks for an actor, and the block that it asks for.
#[derive(Clone, Copy, Debug, PartialEq, Eq)]
pub struct BankBlock {
    pub worker: u8,
    pub actor: Actor,
    pub block: BankHandle,
}

/// A call is the request of the worker that names the block's core.
impl WordStore for Bank {
    type By = BankBlock;

    ghost may = { bank_has };

    ghost reads = { bank_reads };

    ghost writes = { bank_writes };

    fn read(&mut self, by: &BankBlock, index: u32) -> Answer {
        read_answer(Bank::read(self, by.worker, by.actor, by.block, index))
    }

    fn write(&mut self, by: &BankBlock, index: u32, value: u64) -> Answer {
        done_answer(Bank::write(self, by.worker, by.actor, by.block, index, value))
    }
}

/// `read_bytes` of a bank's block, after which the bank is sound.
pub fn read_bank_bytes(bank: &mut Bank, by: &BankBlock, first: u64, room: &mut [u8]) -> Progress
    requires { bank_has by.now bank.old }
    ensures read { ReadsBytes bank_reads bank_writes by.now first room.old result room.new
        bank.old bank.new }
    ensures kept { IsSoundBank bank.new }
{
    let made = read_bytes(bank, by, first, room);
    let _policy = bank.policy(); // so that what holds of the bank is known after it
    made
}

/// `write_bytes` into a bank's block, after which the bank is sound.
pub fn write_bank_bytes(bank: &mut Bank, by: &BankBlock, first: u64, bytes: &[u8]) -> Progress
    requires { bank_has by.now bank.old }
    ensures written { WritesBytes bank_reads bank_writes by.now first bytes.now result
        bank.old bank.new }
    ensures kept { IsSoundBank bank.new }
{
    let made = write_bytes(bank, by, first, bytes);
    let _policy = bank.policy(); // so that what holds of the bank is known after it
    made
}
