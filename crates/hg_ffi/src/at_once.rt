//! Many words of a block, or all blocks of an owner, at a host's core.

ghost use Rattle.std.specs.Prelude.{◌≡◌};
ghost use Rattle.hg_ffi.specs.AtOnce.{Does, DoesAtOnce, ReadsInto, Unloads, WritesFrom};

use crate::host_core::HostCore;
use crate::serving::{taken, worker_of};
use hg_bulk::{free_all, read_words, write_words};
use hg_core::Core;
use hg_place::{Actor, Handle};
use hg_reply::status::{CLOSED, DONE, NO_WORKER};
use hg_reply::{Reply, count_reply};
use std::alloc::Global;

/// Reads words for a worker, if there is such a worker.
fn read(
    core: &mut Core,
    worker: u32,
    actor: Actor,
    handle: Handle,
    first: u32,
    room: &mut [u64],
) -> Reply
    ensures { Does core.old worker
        (λ new. ReadsInto worker actor first room.old room.new result handle core.old new)
        (room.new ≡ room.old) result core.new }
{
    let Some(worker) = worker_of(core, worker) else {
        return Reply::plain(NO_WORKER);
    };
    count_reply(read_words(core, worker, actor, handle, first, room))
}

/// Writes words for a worker, if there is such a worker.
fn write(
    core: &mut Core,
    worker: u32,
    actor: Actor,
    handle: Handle,
    first: u32,
    words: &[u64],
) -> Reply
    ensures { Does core.old worker
        (λ new. WritesFrom worker actor first words.now result handle core.old new)
        (Unit {0}) result core.new }
{
    let Some(worker) = worker_of(core, worker) else {
        return Reply::plain(NO_WORKER);
    };
    count_reply(write_words(core, worker, actor, handle, first, words))
}

/// Frees an owner's blocks for a worker, if there is such a worker.
fn unload(core: &mut Core, worker: u32, actor: Actor, owner: u8) -> Reply
    ensures { Does core.old worker
        (λ new. Unloads worker actor owner result core.old new)
        (Unit {0}) result core.new }
{
    let Some(worker) = worker_of(core, worker) else {
        return Reply::plain(NO_WORKER);
    };
    Reply::valued(DONE, u64::from(free_all(core, worker, actor, owner)))
}

/// Reads words of a block, where the core is open and has that worker.
pub fn serve_read_words(
    alloc: Global,
    host: &mut HostCore,
    worker: u32,
    actor: Actor,
    handle: Handle,
    first: u32,
    room: &mut [u64],
) -> Reply
    ensures { DoesAtOnce host.old worker
        (ReadsInto worker actor first room.old room.new result handle)
        (room.new ≡ room.old) result host.new }
{
    let Some(mut core) = taken(alloc, host) else {
        return Reply::plain(CLOSED);
    };
    let reply = read(&mut core, worker, actor, handle, first, room);
    *host = HostCore::of(core);
    reply
}

/// Writes words of a block, where the core is open and has that worker.
pub fn serve_write_words(
    alloc: Global,
    host: &mut HostCore,
    worker: u32,
    actor: Actor,
    handle: Handle,
    first: u32,
    words: &[u64],
) -> Reply
    ensures { DoesAtOnce host.old worker
        (WritesFrom worker actor first words.now result handle) (Unit {0}) result host.new }
{
    let Some(mut core) = taken(alloc, host) else {
        return Reply::plain(CLOSED);
    };
    let reply = write(&mut core, worker, actor, handle, first, words);
    *host = HostCore::of(core);
    reply
}

/// Frees an owner's blocks, where the core is open and has that worker.
pub fn serve_free_all(
    alloc: Global,
    host: &mut HostCore,
    worker: u32,
    actor: Actor,
    owner: u8,
) -> Reply
    ensures { DoesAtOnce host.old worker (Unloads worker actor owner result) (Unit {0})
        result host.new }
{
    let Some(mut core) = taken(alloc, host) else {
        return Reply::plain(CLOSED);
    };
    let reply = unload(&mut core, worker, actor, owner);
    *host = HostCore::of(core);
    reply
}
