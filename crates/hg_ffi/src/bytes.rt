//! Bytes of a block, at a host's core.

ghost use Rattle.std.specs.Prelude.{◌≡◌};
ghost use Rattle.hg_ffi.specs.AtOnce.{Does, DoesAtOnce};
ghost use Rattle.hg_ffi.specs.Bytes.{ReadsBytesInto, WritesBytesFrom, bytes_reply};

use crate::host_core::HostCore;
use crate::serving::{taken, worker_of};
use hg_bytes::{CoreBlock, Progress, read_core_bytes, write_core_bytes};
use hg_core::Core;
use hg_place::{Actor, Handle};
use hg_reply::status::{CLOSED, DONE, NO_WORKER};
use hg_reply::{Reply, reply_of};
use std::alloc::Global;

/// The reply to how far a call came: the value is how many bytes were read or written.
pub(crate) fn bytes_reply(made: Progress) -> Reply
    ensures { result ≡ bytes_reply made }
{
    match made.refused {
        None => Reply::valued(DONE, made.done as u64),
        Some(said) => {
            let told = reply_of(said);
            Reply {
                status: told.status,
                owner: told.owner,
                detail: told.detail,
                value: made.done as u64,
            }
        }
    }
}

/// Reads bytes for a worker, if there is such a worker.
fn read(
    core: &mut Core,
    worker: u32,
    actor: Actor,
    handle: Handle,
    first: u64,
    room: &mut [u8],
) -> Reply
    ensures { Does core.old worker
        (λ new. ReadsBytesInto worker actor first room.old room.new result handle core.old new)
        (room.new ≡ room.old) result core.new }
{
    let Some(worker) = worker_of(core, worker) else {
        return Reply::plain(NO_WORKER);
    };
    let by = CoreBlock {
        worker,
        actor,
        handle,
    };
    bytes_reply(read_core_bytes(core, &by, first, room))
}

/// Writes bytes for a worker, if there is such a worker.
fn write(
    core: &mut Core,
    worker: u32,
    actor: Actor,
    handle: Handle,
    first: u64,
    bytes: &[u8],
) -> Reply
    ensures { Does core.old worker
        (λ new. WritesBytesFrom worker actor first bytes.now result handle core.old new)
        (Unit {0}) result core.new }
{
    let Some(worker) = worker_of(core, worker) else {
        return Reply::plain(NO_WORKER);
    };
    let by = CoreBlock {
        worker,
        actor,
        handle,
    };
    bytes_reply(write_core_bytes(core, &by, first, bytes))
}

/// Reads bytes of a block, where the core is open and has that worker.
pub fn serve_read_bytes(
    alloc: Global,
    host: &mut HostCore,
    worker: u32,
    actor: Actor,
    handle: Handle,
    first: u64,
    room: &mut [u8],
) -> Reply
    ensures { DoesAtOnce host.old worker
        (ReadsBytesInto worker actor first room.old room.new result handle)
        (room.new ≡ room.old) result host.new }
{
    let Some(mut core) = taken(alloc, host) else {
        return Reply::plain(CLOSED);
    };
    let reply = read(&mut core, worker, actor, handle, first, room);
    *host = HostCore::of(core);
    reply
}

/// Writes bytes into a block, where the core is open and has that worker.
pub fn serve_write_bytes(
    alloc: Global,
    host: &mut HostCore,
    worker: u32,
    actor: Actor,
    handle: Handle,
    first: u64,
    bytes: &[u8],
) -> Reply
    ensures { DoesAtOnce host.old worker
        (WritesBytesFrom worker actor first bytes.now result handle) (Unit {0}) result host.new }
{
    let Some(mut core) = taken(alloc, host) else {
        return Reply::plain(CLOSED);
    };
    let reply = write(&mut core, worker, actor, handle, first, bytes);
    *host = HostCore::of(core);
    reply
}
