//! Many words of a block, or all blocks of an owner in a core, at a bank.

ghost use Rattle.std.specs.Prelude.{◌≡◌};
ghost use Rattle.hg_bank_replies.specs.AtOnce.{Does, ReadsInto, Unloads, WritesFrom};

use crate::serving::worker_of;
use hg_bank::{Bank, BankHandle};
use hg_place::Actor;
use hg_reply::status::{DONE, NO_WORKER};
use hg_reply::{Reply, count_reply};

/// Reads words of a block for a worker, if there is such a worker: as many as the room has, until
/// one is refused. The value is how many were read.
pub fn read_words(
    bank: &mut Bank,
    worker: u32,
    actor: Actor,
    block: BankHandle,
    first: u32,
    room: &mut [u64],
) -> Reply
    ensures { Does bank.old worker
        (ReadsInto worker actor block.core first room.old room.new result block.handle bank.old)
        (room.new ≡ room.old) result bank.new }
{
    let Some(worker) = worker_of(bank, worker) else {
        return Reply::plain(NO_WORKER);
    };
    count_reply(bank.read_words(worker, actor, block, first, room))
}

/// Writes words into a block for a worker, if there is such a worker, until one is refused. The
/// value is how many were written.
pub fn write_words(
    bank: &mut Bank,
    worker: u32,
    actor: Actor,
    block: BankHandle,
    first: u32,
    words: &[u64],
) -> Reply
    ensures { Does bank.old worker
        (WritesFrom worker actor block.core first words.now result block.handle bank.old)
        (Unit {0}) result bank.new }
{
    let Some(worker) = worker_of(bank, worker) else {
        return Reply::plain(NO_WORKER);
    };
    count_reply(bank.write_words(worker, actor, block, first, words))
}

/// Frees an owner's blocks in a core for a worker, if there is such a worker. The value is how many
/// were freed.
pub fn free_all(bank: &mut Bank, worker: u32, actor: Actor, core: u16, owner: u8) -> Reply
    ensures { Does bank.old worker (Unloads worker actor core owner result bank.old) (Unit {0})
        result bank.new }
{
    let Some(worker) = worker_of(bank, worker) else {
        return Reply::plain(NO_WORKER);
    };
    Reply::valued(DONE, u64::from(bank.free_all(worker, actor, core, owner)))
}
