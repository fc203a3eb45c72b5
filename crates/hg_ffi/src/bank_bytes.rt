//! Bytes of a block, at a host's bank.

ghost use Rattle.std.specs.Prelude.{◌≡◌};
ghost use Rattle.hg_bank_replies.specs.AtOnce.{Does};
ghost use Rattle.hg_ffi.specs.BankAtOnce.{DoesAtOnce};
ghost use Rattle.hg_ffi.specs.BankBytes.{ReadsBytesInto, WritesBytesFrom};

use crate::bank_serving::taken;
use crate::bytes::bytes_reply;
use crate::host_bank::HostBank;
use hg_bank::{Bank, BankHandle};
use hg_bank_replies::worker_of;
use hg_bytes::{BankBlock, read_bank_bytes, write_bank_bytes};
use hg_place::Actor;
use hg_reply::Reply;
use hg_reply::status::{CLOSED, NO_WORKER};
use std::alloc::Global;

/// Reads bytes for a worker, if there is such a worker.
fn read(
    bank: &mut Bank,
    worker: u32,
    actor: Actor,
    block: BankHandle,
    first: u64,
    room: &mut [u8],
) -> Reply
    ensures { Does bank.old worker
        (ReadsBytesInto worker actor block.core first room.old room.new result block.handle bank.old)
        (room.new ≡ room.old) result bank.new }
{
    let Some(worker) = worker_of(bank, worker) else {
        return Reply::plain(NO_WORKER);
    };
    let by = BankBlock {
        worker,
        actor,
        block,
    };
    bytes_reply(read_bank_bytes(bank, &by, first, room))
}

/// Writes bytes for a worker, if there is such a worker.
fn write(
    bank: &mut Bank,
    worker: u32,
    actor: Actor,
    block: BankHandle,
    first: u64,
    bytes: &[u8],
) -> Reply
    ensures { Does bank.old worker
        (WritesBytesFrom worker actor block.core first bytes.now result block.handle bank.old)
        (Unit {0}) result bank.new }
{
    let Some(worker) = worker_of(bank, worker) else {
        return Reply::plain(NO_WORKER);
    };
    let by = BankBlock {
        worker,
        actor,
        block,
    };
    bytes_reply(write_bank_bytes(bank, &by, first, bytes))
}

/// Reads bytes of a block, where the bank is open and has that worker.
pub fn serve_read_bytes(
    alloc: Global,
    host: &mut HostBank,
    worker: u32,
    actor: Actor,
    block: BankHandle,
    first: u64,
    room: &mut [u8],
) -> Reply
    ensures { DoesAtOnce host.old worker
        (ReadsBytesInto worker actor block.core first room.old room.new result block.handle)
        (room.new ≡ room.old) result host.new }
{
    let Some(mut bank) = taken(alloc, host) else {
        return Reply::plain(CLOSED);
    };
    let reply = read(&mut bank, worker, actor, block, first, room);
    *host = HostBank::of(bank);
    reply
}

/// Writes bytes into a block, where the bank is open and has that worker.
pub fn serve_write_bytes(
    alloc: Global,
    host: &mut HostBank,
    worker: u32,
    actor: Actor,
    block: BankHandle,
    first: u64,
    bytes: &[u8],
) -> Reply
    ensures { DoesAtOnce host.old worker
        (WritesBytesFrom worker actor block.core first bytes.now result block.handle) (Unit {0})
        result host.new }
{
    let Some(mut bank) = taken(alloc, host) else {
        return Reply::plain(CLOSED);
    };
    let reply = write(&mut bank, worker, actor, block, first, bytes);
    *host = HostBank::of(bank);
    reply
}
