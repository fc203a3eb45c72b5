//! What many words, or many blocks, of a bank are served with.

ghost use Rattle.std.specs.Prelude.{◌≡◌};
ghost use Rattle.hg_bank_replies.specs.AtOnce.{ReadsInto, Unloads, WritesFrom};
ghost use Rattle.hg_ffi.specs.BankAtOnce.{DoesAtOnce};

use crate::bank_serving::taken;
use crate::host_bank::HostBank;
use hg_bank::BankHandle;
use hg_bank_replies::{free_all, read_words, write_words};
use hg_place::Actor;
use hg_reply::Reply;
use hg_reply::status::CLOSED;
use std::alloc::Global;

/// Reads words of a block, where the bank is open and has that worker.
pub fn serve_read_words(
    alloc: Global,
    host: &mut HostBank,
    worker: u32,
    actor: Actor,
    block: BankHandle,
    first: u32,
    room: &mut [u64],
) -> Reply
    ensures { DoesAtOnce host.old worker
        (ReadsInto worker actor block.core first room.old room.new result block.handle)
        (room.new ≡ room.old) result host.new }
{
    let Some(mut bank) = taken(alloc, host) else {
        return Reply::plain(CLOSED);
    };
    let reply = read_words(&mut bank, worker, actor, block, first, room);
    *host = HostBank::of(bank);
    reply
}

/// Writes words of a block, where the bank is open and has that worker.
pub fn serve_write_words(
    alloc: Global,
    host: &mut HostBank,
    worker: u32,
    actor: Actor,
    block: BankHandle,
    first: u32,
    words: &[u64],
) -> Reply
    ensures { DoesAtOnce host.old worker
        (WritesFrom worker actor block.core first words.now result block.handle) (Unit {0}) result
        host.new }
{
    let Some(mut bank) = taken(alloc, host) else {
        return Reply::plain(CLOSED);
    };
    let reply = write_words(&mut bank, worker, actor, block, first, words);
    *host = HostBank::of(bank);
    reply
}

/// Frees an owner's blocks in a core, where the bank is open and has that worker.
pub fn serve_free_all(
    alloc: Global,
    host: &mut HostBank,
    worker: u32,
    actor: Actor,
    core: u16,
    owner: u8,
) -> Reply
    ensures { DoesAtOnce host.old worker (Unloads worker actor core owner result) (Unit {0}) result
        host.new }
{
    let Some(mut bank) = taken(alloc, host) else {
        return Reply::plain(CLOSED);
    };
    let reply = free_all(&mut bank, worker, actor, core, owner);
    *host = HostBank::of(bank);
    reply
}
